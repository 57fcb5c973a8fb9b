//! Why a file is refused.
use std::alloc::{AllocError, AllocFailed};

/// What is wrong with a line of a network file. One line may have several faults: the first of these is
/// given, but that `Byte` and `Quote` are looked for together, from left to right. The reasons and their
/// order are this project's own.
#[derive(Debug, Clone, Copy, PartialEq, Eq)]
pub enum Reason {
    /// The first line that isn't a remark isn't `flow 1`, `flow 2` or `flow 3`. In a file of remarks alone the line is one more
    /// than the number of lines.
    Header,
    /// A byte outside a quoted text begins no token.
    Byte,
    /// A quoted text has no closing `'` in its line.
    Quote,
    /// The tokens are none of the forms of a line, or the form may not stand there.
    Form,
    /// A word in the place of a name is none: a name begins with a letter, has at most NAME_LIMIT bytes, and is
    /// none of `flow`, `subnet`, `end`, `inport` and `outport`.
    Name,
    /// A capacity isn't a decimal number from 1 to FIRST_CAPACITY_LIMIT in version 1 or from 1 to
    /// CAPACITY_LIMIT in a later one, or an element isn't one from 0 to LAST_ELEMENT.
    Number,
    /// A process is given a second, different kind in its part; or its part ends, and it has none. Then
    /// the line is that of its first mention.
    Kind,
    /// A subnet's name was used before; or the file ends inside a subnet. Then the line is that of its
    /// beginning.
    Subnet,
    /// A quoted text stands for more than TEXT_LIMIT bytes, or the file has more than STATEMENT_LIMIT statements.
    Limit,
}

/// The first fault of a file. Lines are counted from 1.
#[derive(Debug, Clone, Copy, PartialEq, Eq)]
pub struct NetFault {
    pub line: u64,
    pub reason: Reason,
}

/// Why a file gives no value: it has a fault, or memory ran out.
#[derive(Debug, Clone, Copy, PartialEq, Eq)]
pub enum ParseStop {
    Fault(NetFault),
    NoMemory,
}

impl From<AllocError> for ParseStop {
    ghost use Rattle.flow_parse.specs.declared.fault.ParseStop.TheVariants.{NoMemory};
    ghost use Rattle.std.specs.Prelude.{◌≡◌};

    ghost from_gives = { λ _ e. e ≡ NoMemory };

    fn from(_: AllocError) -> ParseStop {
        ParseStop::NoMemory
    }
}

impl<T: Drop> From<AllocFailed<T>> for ParseStop {
    ghost use Rattle.flow_parse.specs.declared.fault.ParseStop.TheVariants.{NoMemory};
    ghost use Rattle.std.specs.Prelude.{◌≡◌};

    ghost from_gives = { λ _ e. e ≡ NoMemory };

    fn from(_: AllocFailed<T>) -> ParseStop {
        ParseStop::NoMemory
    }
}
