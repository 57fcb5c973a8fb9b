//! The part of a network without parts.

ghost use Rattle.std.specs.Prelude.{None};

use flow_component::{Answer, Wish};
use flow_own::{Desk, Part, PartStop};

/// Stands where the type of a part is asked for and there is none: a player has only its tape.
#[derive(Drop)]
pub struct NoPart;

impl Part for NoPart {
    ghost seen = { λ _. record { answers = 0; last = None; acts = 0 } };

    // A player never asks a part; want of memory is what is no answer.
    fn resume(&mut self, _desk: &mut Desk<'_>, _answer: Answer) -> Result<Wish, PartStop> {
        Err(PartStop::NoMemory)
    }
}
