//! What came of a call.
use flow_cli::{Outcome, Status};
use flow_text::{MemShelf, MemSink};
use std::alloc::{AllocError, Global};

/// What came of a call.
#[derive(Drop)]
pub struct Came {
    pub status: u8,
    pub printed: Vec<u8>,
    /// What stands on the standard error.
    pub told: Vec<u8>,
    /// How many turns the journal has, and the numbers that were seen.
    pub turns: usize,
    pub seen: Vec<u64>,
    /// How many entries the tapes have, one by one.
    pub entries: Vec<u64>,
    pub shelf: MemShelf,
}

impl Came {
    /// A call that printed this, and did no more.
    pub fn printed(alloc: Global, status: Status, printed: Vec<u8>, shelf: MemShelf) -> Came {
        Came {
            status: status.code(),
            printed,
            told: Vec::new(alloc),
            turns: 0,
            seen: Vec::new(alloc),
            entries: Vec::new(alloc),
            shelf,
        }
    }

    /// What a call of `flow` came to.
    pub fn of(
        alloc: Global,
        outcome: &Outcome,
        shelf: MemShelf,
        out: &MemSink,
        err: &MemSink,
    ) -> Result<Came, AllocError> {
        let printed = out.bytes().to_vec(alloc)?;
        let mut came = Came::printed(alloc, outcome.status, printed, shelf);
        came.told = err.bytes().to_vec(alloc)?;
        came.count(outcome)?;
        Ok(came)
    }

    fn count(&mut self, outcome: &Outcome) -> Result<(), AllocError> {
        self.turns = outcome.journal.turns.len();
        for number in outcome.journal.seen.as_slice() {
            self.seen.push(u64::from(*number))?;
        }
        for tape in &outcome.tapes {
            self.entries.push(tape.len() as u64)?;
        }
        Ok(())
    }
}
