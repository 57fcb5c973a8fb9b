//! What is handed in for one network: the kinds, each with the parts that the network wants.
ghost use Rattle.std.specs.Prelude.{◌≡◌, ◌≢◌, ℕ, IfOk, length};
ghost use Rattle.flow_plan.specs.Network.{Network};
ghost use Rattle.flow_parse.specs.declared.value.NetText.{NetText};
ghost use Rattle.flow_offer.specs.Kinds.{AreOwnKinds};
ghost use Rattle.flow_offer.specs.Shares.{FindsPart};
ghost use Rattle.flow_load.specs.Networks.{Holds};
ghost use Rattle.flow_load.specs.Offers.{counts_of, handed_in, offers_of, parts_in, parts_of, specs_of};
ghost use Rattle.flow_supply.specs.Made.{AreMade, counts_wanted};

use crate::made::parts_of_plan;
use crate::maker::Maker;
use flow_load::{OwnKind, Stop, network};
use flow_own::Part;
use flow_plan::KindSpec;
use std::alloc::{AllocError, Global};

/// These kinds, each with the parts that the network of these bytes wants, in the order in which its processes take them.
/// Bytes that are no network file want none: the top call refuses them.
pub fn supplied<M: Maker>(
    alloc: Global,
    net: &[u8],
    own: Vec<KindSpec>,
    maker: &M,
) -> Result<Vec<OwnKind<M::Part>>, AllocError>
    requires { AreOwnKinds own.items }
    ensures kinds { IfOk result (λ kinds. specs_of (offers_of kinds.items) ≡ own.items) }
    ensures many { IfOk result (λ kinds. (text : NetText) (plan : Network) → Holds own.items net.now text plan → parts_of (offers_of kinds.items) ≡ counts_wanted own.items plan) }
    ensures made { IfOk result (λ kinds. (text : NetText) (plan : Network) → Holds own.items net.now text plan → AreMade M.makes maker.now own.items plan (handed_in kinds.items)) }
    ensures enough { IfOk result (λ kinds. (text : NetText) (plan : Network) → Holds own.items net.now text plan → (p : ℕ) → FindsPart own.items (parts_of (offers_of kinds.items)) plan p) }
{
    let parts = wanted(alloc, net, &own, maker)?;
    with_parts(alloc, own, parts)
}

// The parts of each kind that the network wants.
fn wanted<M: Maker>(
    alloc: Global,
    net: &[u8],
    own: &[KindSpec],
    maker: &M,
) -> Result<Vec<Vec<M::Part>>, AllocError>
    requires { AreOwnKinds own.now }
    ensures count { IfOk result (λ parts. length parts.items ≡ length own.now) }
    ensures many { IfOk result (λ parts. (text : NetText) (plan : Network) → Holds own.now net.now text plan → counts_of parts.items ≡ counts_wanted own.now plan) }
    ensures made { IfOk result (λ parts. (text : NetText) (plan : Network) → Holds own.now net.now text plan → AreMade M.makes maker.now own.now plan (parts_in parts.items)) }
    ensures enough { IfOk result (λ parts. (text : NetText) (plan : Network) → Holds own.now net.now text plan → (p : ℕ) → FindsPart own.now (counts_of parts.items) plan p) }
{
    match network(alloc, net, own) {
        Ok(file) => parts_of_plan(alloc, &file.plan, own, maker),
        Err(stop) => without_parts(alloc, &stop, own.len()),
    }
}

// No parts of so many kinds, where it wasn't memory that was wanting.
fn without_parts<P: Part>(
    alloc: Global,
    stop: &Stop,
    kinds: usize,
) -> Result<Vec<Vec<P>>, AllocError>
    ensures count { IfOk result (λ parts. length parts.items ≡ kinds) }
    ensures refused { IfOk result (λ parts. stop.now ≢ Stop.NoMemory) }
{
    match stop {
        Stop::NoMemory => Err(AllocError),
        _ => no_parts(alloc, kinds),
    }
}

// No part of each of so many kinds.
fn no_parts<P: Part>(alloc: Global, kinds: usize) -> Result<Vec<Vec<P>>, AllocError>
    ensures { IfOk result (λ parts. length parts.items ≡ kinds) }
{
    let mut parts = Vec::new(alloc);
    for _ in 0..kinds {
        parts.push(Vec::new(alloc))?;
    }
    Ok(parts)
}

// Each kind with the parts at its place.
fn with_parts<P: Part>(
    alloc: Global,
    own: Vec<KindSpec>,
    parts: Vec<Vec<P>>,
) -> Result<Vec<OwnKind<P>>, AllocError>
    requires { length parts.items ≡ length own.items }
    ensures kinds { IfOk result (λ kinds. specs_of (offers_of kinds.items) ≡ own.items) }
    ensures parts { IfOk result (λ kinds. handed_in kinds.items ≡ parts_in parts.items) }
{
    let mut kinds = Vec::new(alloc);
    for (spec, parts) in own.into_iter().zip(parts) {
        kinds.push(OwnKind { spec, parts })?;
    }
    Ok(kinds)
}
