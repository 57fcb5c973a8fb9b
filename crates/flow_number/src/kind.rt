//! The kind of which the part is, as a caller of the top calls hands it in.

ghost use Rattle.std.specs.Prelude.{◌≡◌, ◌∷◌, [], IfOk};
ghost use Rattle.flow_offer.specs.Kinds.{AreOwnKinds};
ghost use Rattle.flow_number.specs.Kind.{number_kind};

use flow_line_kind::line_kind;
use flow_plan::KindSpec;
use std::alloc::{AllocError, Global};

/// The kind Number: packets come in at IN, and leave by OUT.
pub fn number_kind(alloc: Global) -> Result<KindSpec, AllocError>
    ensures { IfOk result (λ kind. kind ≡ number_kind) }
{
    line_kind(alloc, b"Number")
}

/// The kind may stand beside the standard ones.
pub fn number_is_an_own_kind()
    ensures { AreOwnKinds (number_kind ∷ []) }
{}
