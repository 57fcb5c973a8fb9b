//! What counts the packets of a stretch.

use crate::folder::Fold;
use flow_component::Stop;
use std::alloc::{AllocError, Global};

/// Makes one packet of each stretch: how many Normal packets it has, in decimal.
///
/// Of a stretch without one it makes none, but for a substream that is empty, an Open packet and the Close packet right
/// behind it, of which it tells `0`. The number stands still at 2^64 - 1. (The Count of `flow_parts` passes its packets
/// on, and tells one number of its whole stream, whatever brackets stand there, on an output of its own; also `0`, where
/// brackets alone came.)
#[derive(Drop)]
pub struct Count {
    alloc: Global,
}

impl Count {
    /// What counts.
    pub fn new(alloc: Global) -> Count {
        Count { alloc }
    }
}

impl Fold for Count {
    ghost use Rattle.flow_fold.specs.Count.{count_folding, count_folded};
    ghost use Rattle.flow_fold.specs.CountLaws.{count_laws, count_tells};

    type State = u64;

    ghost folding = { count_folding };

    ghost folded = { count_folded };

    fn start(&self) -> u64 {
        0
    }

    fn take(&self, state: &mut u64, _text: &[u8]) -> Result<(), Stop> {
        *state = state.saturating_add(1);
        Ok(())
    }

    fn tell(&self, state: &u64, place: usize) -> Result<Option<Vec<u8>>, AllocError> {
        if place > 0 {
            return Ok(None);
        }
        let digits = state.to_string(self.alloc)?;
        Ok(Some(digits.into_bytes()))
    }

    ghost laws = { count_laws };

    ghost tells_folded = { count_tells };
}
