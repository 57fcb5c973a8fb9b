//! Why a journal can't be made again.
use flow_machine::Block;
use std::alloc::AllocError;

/// Why a process doesn't make the turn that a journal has for it. (This project's own.)
#[derive(Clone, Copy, Debug, PartialEq, Eq)]
pub enum Refusal {
    /// There is no process with this number.
    NoProcess,
    /// It has ended or failed.
    Over,
    /// It has no turn, and waits for this.
    Blocked(Block),
    /// Its turn sees a number, and the journal has none left, or the next one doesn't lie from the packets in the connection to its
    /// capacity. Behind the last turn: numbers are left.
    Seen,
}

/// Why a replay didn't come to the end of its journal.
#[derive(Clone, Copy, Debug, PartialEq, Eq)]
pub enum ReplayStop {
    /// The first turn that isn't defined, by its place in the journal, counted from 0. Numbers that are left over stand at the place
    /// behind the last turn, with process 0.
    NoTurn {
        place: u64,
        process: u32,
        refusal: Refusal,
    },
    NoMemory,
}

impl From<AllocError> for ReplayStop {
    ghost use Rattle.flow_journal.specs.declared.refusal.ReplayStop.TheVariants.{NoMemory};
    ghost use Rattle.std.specs.Prelude.{◌≡◌};

    ghost from_gives = { λ _ e. e ≡ NoMemory };

    fn from(_: AllocError) -> ReplayStop {
        ReplayStop::NoMemory
    }
}
