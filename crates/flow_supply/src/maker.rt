//! Who makes parts.

use crate::asked::Asked;
use flow_own::Part;
use flow_plan::KindSpec;
use std::alloc::{AllocError, Global};

/// Makes the parts of kinds of the caller's own, one for each process of a network that is of such a kind.
///
/// Its parts are of one type: for kinds whose parts differ, that is an `enum` of them.
pub trait Maker {
    ghost use Rattle.std.specs.Prelude.{IfOk};
    ghost use Rattle.flow_offer.specs.Kinds.{AreOwnKinds};
    ghost use Rattle.flow_supply.specs.Made.{Makes};

    type Part: Part;

    /// What is promised of the part that it makes for a process: of the maker, of the kind and the options of the process, and of the part.
    ghost makes: { Makes Self Self.Part } = { λ _ _ _. Unit {0} };

    /// The kinds of which it makes parts.
    fn kinds(&self, alloc: Global) -> Result<Vec<KindSpec>, AllocError>
        ensures { IfOk result (λ kinds. AreOwnKinds kinds.items) };

    /// The part of a process.
    fn make(&self, alloc: Global, asked: &Asked<'_>) -> Result<Self::Part, AllocError>
        ensures { IfOk result (λ part. makes self.now asked.now part) };
}
