//! Why a file gives no journal.
use std::alloc::{AllocError, AllocFailed};

/// The first byte of a file that can't stand there, counted from 0; the file's length, where the file ends too early. Of a number
/// that is too large it is the first byte. (This project's own.)
#[derive(Clone, Copy, Debug, PartialEq, Eq)]
pub struct JournalFault {
    pub place: u64,
}

/// Why a file gives no journal: it has a fault, or memory ran out.
#[derive(Clone, Copy, Debug, PartialEq, Eq)]
pub enum JournalStop {
    Fault(JournalFault),
    NoMemory,
}

impl From<JournalFault> for JournalStop {
    ghost use Rattle.flow_journal.specs.declared.fault.JournalStop.TheVariants.{Fault};
    ghost use Rattle.std.specs.Prelude.{◌≡◌};

    ghost from_gives = { λ fault e. e ≡ Fault fault };

    fn from(fault: JournalFault) -> JournalStop {
        JournalStop::Fault(fault)
    }
}

impl From<AllocError> for JournalStop {
    ghost use Rattle.flow_journal.specs.declared.fault.JournalStop.TheVariants.{NoMemory};
    ghost use Rattle.std.specs.Prelude.{◌≡◌};

    ghost from_gives = { λ _ e. e ≡ NoMemory };

    fn from(_: AllocError) -> JournalStop {
        JournalStop::NoMemory
    }
}

impl<T: Drop> From<AllocFailed<T>> for JournalStop {
    ghost use Rattle.flow_journal.specs.declared.fault.JournalStop.TheVariants.{NoMemory};
    ghost use Rattle.std.specs.Prelude.{◌≡◌};

    ghost from_gives = { λ _ e. e ≡ NoMemory };

    fn from(_: AllocFailed<T>) -> JournalStop {
        JournalStop::NoMemory
    }
}
