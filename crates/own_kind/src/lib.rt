//! The kind of a component of one's own: its name in a network file, its options and its ports. The program `own_lines`
//! hands it in. Its contract says which kind it is, and that it may stand beside the standard ones.
#![tactic(auto)]

ghost use Rattle.std.specs.Prelude.{◌≡◌, ◌∷◌, [], IfOk};
ghost use Rattle.flow_offer.specs.Kinds.{AreOwnKinds};
ghost use Rattle.own_kind.specs.Kind.{lines_kind};

use flow_line_kind::{line_kind_with, option};
use flow_plan::{KindSpec, PortClass};
use std::alloc::{AllocError, Global};

/// The kind Lines: packets come in at IN, and leave by OUT; and START may be given the number of the first.
pub fn lines_kind(alloc: Global) -> Result<KindSpec, AllocError>
    ensures { IfOk result (λ kind. kind ≡ lines_kind) }
{
    let numbers = PortClass::Number {
        least: 0,
        most: u32::MAX as u64,
    };
    let mut options = Vec::new(alloc);
    options.push(option(alloc, b"START", numbers, false)?)?;
    line_kind_with(alloc, b"Lines", options)
}

/// The kind may stand beside the standard ones.
pub fn lines_is_an_own_kind()
    ensures { AreOwnKinds (lines_kind ∷ []) }
{}
