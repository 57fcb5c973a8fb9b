//! What the trials hand in: one kind or two, with the ports of Number, and parts of any type for them.
ghost use Rattle.std.specs.Prelude.{◌≡◌, ◌∷◌, [], IfOk};
ghost use Rattle.flow_number.specs.Kind.{number_kind};
ghost use Rattle.flow_offer.specs.Kinds.{AreOwnKinds};
ghost use Rattle.flow_load.specs.Offers.{offers_of, specs_of};
ghost use Rattle.own_kind.specs.Kind.{lines_kind};

use flow_cli::OwnKind;
use flow_component::Wish;
use flow_number::{number_is_an_own_kind, number_kind};
use flow_own::{Part, PartStop};
use flow_plan::KindSpec;
use own_kind::lines_kind;
use std::alloc::{AllocError, Global};

/// The kind with these parts.
pub fn kind_of<P: Part>(alloc: Global, parts: Vec<P>) -> Result<Vec<OwnKind<P>>, AllocError>
    ensures { IfOk result (λ own. AreOwnKinds (specs_of (offers_of own.items))) }
{
    let spec = number_kind(alloc)?;
    let mut own = Vec::new(alloc);
    own.push(OwnKind { spec, parts })?;
    number_is_an_own_kind();
    Ok(own)
}

// Both kinds may stand beside the standard ones.
fn both_are_own_kinds()
    ensures { AreOwnKinds (lines_kind ∷ number_kind ∷ []) }
{}

/// The kinds Lines and Number.
pub fn both_kinds(alloc: Global) -> Result<Vec<KindSpec>, AllocError>
    ensures { IfOk result (λ kinds. AreOwnKinds kinds.items) }
{
    both_are_own_kinds();
    let first = lines_kind(alloc)?;
    let second = number_kind(alloc)?;
    let mut kinds = Vec::new(alloc);
    kinds.push(first)?;
    kinds.push(second)?;
    Ok(kinds)
}

/// The kinds Lines and Number with these parts.
pub fn two_kinds<P: Part>(
    alloc: Global,
    lines: Vec<P>,
    numbers: Vec<P>,
) -> Result<Vec<OwnKind<P>>, AllocError>
    ensures { IfOk result (λ own. AreOwnKinds (specs_of (offers_of own.items))) }
{
    let first = lines_kind(alloc)?;
    let second = number_kind(alloc)?;
    let mut own = Vec::new(alloc);
    own.push(OwnKind {
        spec: first,
        parts: lines,
    })?;
    own.push(OwnKind {
        spec: second,
        parts: numbers,
    })?;
    both_are_own_kinds();
    Ok(own)
}

/// The same answer once more, for a part that shows what it said.
pub fn again(said: &Result<Wish, PartStop>) -> Result<Wish, PartStop>
    ensures { result ≡ said.now }
{
    *said
}
