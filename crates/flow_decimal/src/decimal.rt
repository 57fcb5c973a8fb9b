//! What a decimal number is.

/// An exact decimal number: a whole number of 128 bits, so many of whose digits stand behind the point.
///
/// Two of them are equal where they are as fractions, so that 1.50 equals 1.5, though each is spelled as it was read.
#[derive(Clone, Copy, Debug)]
pub struct Decimal {
    pub(crate) whole: i128,
    pub(crate) fraction: usize,
}

/// Why a text is refused as a number.
#[derive(Clone, Copy, Debug, PartialEq, Eq)]
pub enum NumberStop {
    /// It isn't a sign or none, digits, and a point and digits or none.
    NoNumber,
    /// Its digits, taken together as a whole number with its sign, don't fit into 128 bits.
    TooLarge,
}
