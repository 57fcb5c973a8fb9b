//! What joins the texts of a stretch.

ghost use Rattle.flow_limits.specs.declared.TheConstants.{TEXT_LIMIT};
ghost use Rattle.std.specs.Prelude.{◌≡◌, ◌≤◌, ◌++◌, length, OnOk, OnErr};

use crate::folder::Fold;
use flow_component::{Fail, Stop};
use flow_limits::TEXT_LIMIT;
use std::alloc::{AllocError, Global};
use std::marker::Model;

/// Makes one packet of each stretch: the texts of its Normal packets in order, with a text between each two.
///
/// Of a stretch without a Normal packet it makes none, but for a substream that is empty, an Open packet and the Close
/// packet right behind it: of that it makes a packet with an empty text. So an empty stream stays empty. It fails with
/// the text limit at the packet with which the texts of a stretch and what stands between them have more bytes than a
/// packet's text may, and tells how many. What hangs on a packet in chains is dropped with it. (The shell's `paste -s`;
/// what becomes of brackets and of empty stretches is this project's own.)
#[derive(Drop)]
pub struct Glue {
    alloc: Global,
    between: Vec<u8>,
}

impl Model for Glue {
    ghost use Rattle.std.specs.Prelude.{ℕ, List, ◌≤◌, length};
    ghost use Rattle.flow_limits.specs.declared.TheConstants.{TEXT_LIMIT};

    ghost Value = { List ℕ };

    ghost view = { λ g. g.between.items };

    ghost invariant = { λ g. length g.between.items ≤ TEXT_LIMIT };
}

impl Glue {
    /// What joins texts with this one between each two.
    pub fn new(alloc: Global, between: Vec<u8>) -> Glue
        requires { length between.items ≤ TEXT_LIMIT }
        ensures { result ≡ between.items }
    {
        Glue { alloc, between }
    }
}

/// What was joined of a stretch so far.
#[derive(Drop)]
pub struct Glued {
    begun: bool,
    text: Vec<u8>,
}

impl Model for Glued {
    ghost use Rattle.std.specs.Prelude.{◌≤◌, length};
    ghost use Rattle.flow_limits.specs.declared.TheConstants.{TEXT_LIMIT};
    ghost use Rattle.flow_fold.specs.Glue.{GluedState};

    ghost Value = { GluedState };

    ghost view = { λ g. record { begun = g.begun; text = g.text.items } };

    ghost invariant = { λ g. length g.text.items ≤ TEXT_LIMIT };
}

// Adds both texts at the end, or neither.
fn append(text: &mut Vec<u8>, first: &[u8], second: &[u8]) -> Result<(), AllocError>
    ensures ok { OnOk result (text.new.items ≡ text.old.items ++ first.now ++ second.now) }
    ensures err { OnErr result (text.new.items ≡ text.old.items) }
{
    let kept = text.len();
    text.extend_from_slice(first)?;
    if text.extend_from_slice(second).is_err() {
        text.truncate(kept);
        return Err(AllocError);
    }
    Ok(())
}

impl Fold for Glue {
    ghost use Rattle.flow_fold.specs.Glue.{glue_folding, glue_folded};
    ghost use Rattle.flow_fold.specs.GlueLaws.{glue_laws, glue_tells};

    type State = Glued;

    ghost folding = { glue_folding };

    ghost folded = { glue_folded };

    fn start(&self) -> Glued {
        Glued {
            begun: false,
            text: Vec::new(self.alloc),
        }
    }

    fn take(&self, state: &mut Glued, text: &[u8]) -> Result<(), Stop> {
        let between: &[u8] = if state.begun { &self.between } else { &[] };
        let length = state.text.len() + between.len() + text.len();
        if length > TEXT_LIMIT {
            return Err(Stop::Fail(Fail::TextLimit(length as u64)));
        }
        if append(&mut state.text, between, text).is_err() {
            return Err(Stop::NoMemory);
        }
        state.begun = true;
        Ok(())
    }

    fn tell(&self, state: &Glued, place: usize) -> Result<Option<Vec<u8>>, AllocError> {
        if place > 0 {
            return Ok(None);
        }
        Ok(Some(state.text.to_vec(self.alloc)?))
    }

    ghost laws = { glue_laws };

    ghost tells_folded = { glue_tells };
}
