//! Why a file isn't filled.
use std::alloc::{AllocError, AllocFailed};

/// What is wrong with the texts that a call gives the words of a file, and with the words themselves: the first of these. The texts are looked at first, in
/// their order, each for the reasons in the order of these; and then the words in the order of the file. Places are counted from 0.
#[derive(Debug, Clone, Copy, PartialEq, Eq)]
pub enum FillFault {
    /// The word of the text at this place of those given was given one before.
    Twice(usize),
    /// The file has no word of the name that the text at this place of those given is for.
    Unknown(usize),
    /// The text at this place of those given has a line end at this byte, and a text stands in one line.
    Unspelled(usize, usize),
    /// The word at this place of the file's has no text: none is given, and none stands beside it.
    NoText(usize),
}

/// Why a file isn't filled: it has a fault, or memory ran out.
#[derive(Debug, Clone, Copy, PartialEq, Eq)]
pub enum FillStop {
    Fault(FillFault),
    /// It has no fault, and comes to more bytes than a network file may have.
    TooLong,
    NoMemory,
}

impl From<AllocError> for FillStop {
    ghost use Rattle.flow_fill.specs.declared.fault.FillStop.TheVariants.{NoMemory};
    ghost use Rattle.std.specs.Prelude.{◌≡◌};

    ghost from_gives = { λ _ e. e ≡ NoMemory };

    fn from(_: AllocError) -> FillStop {
        FillStop::NoMemory
    }
}

impl<T: Drop> From<AllocFailed<T>> for FillStop {
    ghost use Rattle.flow_fill.specs.declared.fault.FillStop.TheVariants.{NoMemory};
    ghost use Rattle.std.specs.Prelude.{◌≡◌};

    ghost from_gives = { λ _ e. e ≡ NoMemory };

    fn from(_: AllocFailed<T>) -> FillStop {
        FillStop::NoMemory
    }
}
