//! What a program hands in beside the standard kinds.
ghost use Rattle.std.specs.Prelude.{◌≡◌, IfOk};
ghost use Rattle.flow_offer.specs.Kinds.{AreOwnKinds};
ghost use Rattle.flow_load.specs.Offers.{offers_of, specs_of};

use flow_items::Items;
use flow_load::OwnKind;
use flow_offer::copies;
use flow_own::Part;
use flow_plan::{KindSpec, PortSpec};
use flow_supply::{Maker, supplied};
use std::alloc::{AllocError, Global};
use std::mem;

/// Kinds of the caller's own as they are told of: what they are, and how many parts there are of each; no number of parts
/// is told where they are made as they are wanted.
#[derive(Drop)]
pub struct Known {
    pub kinds: Vec<KindSpec>,
    pub parts: Vec<usize>,
    pub ghost are_own: { AreOwnKinds kinds.items },
}

/// Where the kinds of the caller's own come from, and their parts.
pub trait Supply<T: Part> {
    /// What is told of the kinds.
    fn known(&self) -> &Known;

    /// The kinds with their parts, which one call takes. It runs the network of these bytes; where there are none it runs no network of a file.
    fn hand_in(&mut self, alloc: Global, net: &[u8]) -> Result<Vec<OwnKind<T>>, AllocError>
        ensures { IfOk result (λ own. AreOwnKinds (specs_of (offers_of own.items))) };
}

/// Kinds of the caller's own with their parts, until a call takes them.
#[derive(Drop)]
pub struct Handed<T: Part> {
    own: Vec<OwnKind<T>>,
    known: Known,
    ghost are_own: { AreOwnKinds (specs_of (offers_of own.items)) },
}

/// Kinds of the caller's own whose parts are made for the call that takes them.
#[derive(Drop)]
pub struct Made<'a, M: Maker> {
    maker: &'a M,
    known: Known,
}

fn copy_port(alloc: Global, port: &PortSpec) -> Result<PortSpec, AllocError>
    ensures { IfOk result (λ copy. copy ≡ port.now) }
{
    Ok(PortSpec {
        name: port.name.copy(alloc)?,
        class: port.class,
        array: port.array,
        needed: port.needed,
    })
}

fn copy_ports(alloc: Global, ports: &[PortSpec]) -> Result<Items<PortSpec>, AllocError>
    ensures { IfOk result (λ copies. copies ≡ ports.now) }
{
    let mut copies = Vec::new(alloc);
    for port in ports {
        copies.push(copy_port(alloc, port)?)?;
    }
    Ok(Items::of(copies))
}

fn copy_kind(alloc: Global, kind: &KindSpec) -> Result<KindSpec, AllocError>
    ensures { IfOk result (λ copy. copy ≡ kind.now) }
{
    let name = kind.name.copy(alloc)?;
    let inputs = copy_ports(alloc, kind.inputs.as_slice())?;
    let outputs = copy_ports(alloc, kind.outputs.as_slice())?;
    Ok(KindSpec {
        name,
        inputs,
        outputs,
    })
}

// Copies of the kinds.
fn kinds_of<T: Part>(alloc: Global, own: &[OwnKind<T>]) -> Result<Vec<KindSpec>, AllocError>
    ensures { IfOk result (λ kinds. kinds.items ≡ specs_of (offers_of own.now)) }
{
    let mut kinds = Vec::new(alloc);
    for kind in own {
        kinds.push(copy_kind(alloc, &kind.spec)?)?;
    }
    Ok(kinds)
}

// What is told of these kinds.
fn known_of<T: Part>(alloc: Global, own: &[OwnKind<T>]) -> Result<Known, AllocError>
    requires { AreOwnKinds (specs_of (offers_of own.now)) }
{
    let mut parts = Vec::new(alloc);
    for kind in own {
        parts.push(kind.parts.len())?;
    }
    let kinds = kinds_of(alloc, own)?;
    Ok(Known { kinds, parts })
}

impl<T: Part> Handed<T> {
    /// What is handed in, before a call has taken it.
    pub fn new(alloc: Global, own: Vec<OwnKind<T>>) -> Result<Handed<T>, AllocError>
        requires { AreOwnKinds (specs_of (offers_of own.items)) }
    {
        let known = known_of(alloc, &own)?;
        Ok(Handed { own, known })
    }
}

impl<T: Part> Supply<T> for Handed<T> {
    fn known(&self) -> &Known {
        &self.known
    }

    // They are given once; after that there are none.
    fn hand_in(&mut self, alloc: Global, _net: &[u8]) -> Result<Vec<OwnKind<T>>, AllocError>
        ensures fit { IfOk result (λ own. AreOwnKinds (specs_of (offers_of own.items))) }
        ensures all { IfOk result (λ own. own.items ≡ self.old.own.items) }
    {
        Ok(mem::replace(&mut self.own, Vec::new(alloc)))
    }
}

impl<'a, M: Maker> Made<'a, M> {
    /// What this maker makes.
    pub fn new(alloc: Global, maker: &'a M) -> Result<Made<'a, M>, AllocError> {
        let kinds = maker.kinds(alloc)?;
        let known = Known {
            kinds,
            parts: Vec::new(alloc),
        };
        Ok(Made { maker, known })
    }
}

impl<'a, M: Maker> Supply<M::Part> for Made<'a, M> {
    fn known(&self) -> &Known {
        &self.known
    }

    fn hand_in(&mut self, alloc: Global, net: &[u8]) -> Result<Vec<OwnKind<M::Part>>, AllocError>
        ensures fit { IfOk result (λ own. AreOwnKinds (specs_of (offers_of own.items))) }
        ensures all { IfOk result (λ own. specs_of (offers_of own.items) ≡ self.old.known.kinds.items) }
    {
        let own = copies(alloc, &self.known.kinds)?;
        supplied(alloc, net, own, self.maker)
    }
}
