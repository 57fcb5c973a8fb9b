//! Why bytes give no tapes.

/// The first byte that can't stand there, counted from 0; the number of bytes, where they end too early. Of a number that is too large it is
/// the first byte. (This project's own.)
#[derive(Clone, Copy, Debug, PartialEq, Eq)]
pub struct TapeFault {
    pub place: u64,
}

/// Why bytes give no tapes: they have a fault, or memory ran out.
#[derive(Clone, Copy, Debug, PartialEq, Eq)]
pub enum TapeStop {
    Fault(TapeFault),
    NoMemory,
}

/// Why bytes don't give as many tapes as are wanted.
#[derive(Clone, Copy, Debug, PartialEq, Eq)]
pub enum CountStop {
    Fault(TapeFault),
    /// They are the file of so many tapes, which is another number.
    Count(u32),
    NoMemory,
}
