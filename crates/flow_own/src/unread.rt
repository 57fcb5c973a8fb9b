//! Why reading a part of a tape's bytes stopped.

ghost use Rattle.std.specs.Prelude.{◌≡◌};
ghost use Rattle.flow_own.specs.declared.unread.Unread.TheVariants.{NoMemory};

use std::alloc::{AllocError, AllocFailed};

/// Why reading a part stopped.
#[derive(Clone, Copy, Debug, PartialEq, Eq)]
pub enum Unread {
    /// There is a fault, and from it on there are so many bytes to the end. (A part needs no place of its own so.)
    Fault(usize),
    NoMemory,
}

impl From<AllocError> for Unread {
    ghost from_gives = { λ _ e. e ≡ NoMemory };

    fn from(_: AllocError) -> Unread {
        Unread::NoMemory
    }
}

impl<T: Drop> From<AllocFailed<T>> for Unread {
    ghost from_gives = { λ _ e. e ≡ NoMemory };

    fn from(_: AllocFailed<T>) -> Unread {
        Unread::NoMemory
    }
}
