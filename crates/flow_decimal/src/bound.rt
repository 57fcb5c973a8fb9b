//! Bounds, which a number meets or doesn't.

ghost use Rattle.std.specs.Prelude.{◌≡◌, ◌≤◌, length};
ghost use Rattle.std.specs.List.{position, position_or_len};
ghost use Rattle.flow_decimal.specs.Bounds.{comparison_in, sign_length, is_no_blank, behind_blanks, bound_reading, bound_holds};

use crate::decimal::{Decimal, NumberStop};

/// How a number is to compare with another one.
#[derive(Clone, Copy, Debug, PartialEq, Eq)]
pub enum Comparison {
    /// `>`.
    Above,
    /// `>=`.
    AtLeast,
    /// `=`.
    Same,
    /// `!=`.
    Other,
    /// `<`.
    Below,
    /// `<=`.
    AtMost,
}

/// A comparison with a number, as `> 100` or `<= -0.5`.
#[derive(Clone, Copy, Debug)]
pub struct Bound {
    comparison: Comparison,
    number: Decimal,
}

/// Why a text is refused as a bound.
#[derive(Clone, Copy, Debug, PartialEq, Eq)]
pub enum BoundStop {
    /// It doesn't begin with a comparison.
    NoComparison,
    /// What stands behind the comparison is refused as a number.
    Number(NumberStop),
}

// The comparison that a text begins with.
fn comparison_in(text: &[u8]) -> Option<Comparison>
    ensures { result ≡ comparison_in text.now }
{
    match text {
        [b'>', b'=', ..] => Some(Comparison::AtLeast),
        [b'>', ..] => Some(Comparison::Above),
        [b'<', b'=', ..] => Some(Comparison::AtMost),
        [b'<', ..] => Some(Comparison::Below),
        [b'=', ..] => Some(Comparison::Same),
        [b'!', b'=', ..] => Some(Comparison::Other),
        _ => None,
    }
}

fn sign_length(comparison: Comparison) -> usize
    ensures { result ≡ sign_length comparison }
{
    match comparison {
        Comparison::Above | Comparison::Same | Comparison::Below => 1,
        Comparison::AtLeast | Comparison::Other | Comparison::AtMost => 2,
    }
}

// The place of the first byte that is no blank.
fn no_blank_in(text: &[u8]) -> Option<usize>
    ensures { result ≡ position is_no_blank text.now }
{
    text.iter()
        .position(|byte| !(*byte == b' ' || *byte == b'\t'))
}

// How many blanks a text begins with.
fn blanks(text: &[u8]) -> usize
    ensures count { result ≡ position_or_len is_no_blank text.now }
    ensures within { result ≤ length text.now }
{
    no_blank_in(text).unwrap_or(text.len())
}

// A text without the blanks that it begins with.
fn behind_blanks(text: &[u8]) -> &[u8]
    ensures { result.now ≡ behind_blanks text.now }
{
    &text[blanks(text)..]
}

impl Bound {
    /// The bound that a text is: one of the comparisons `>`, `>=`, `=`, `!=`, `<` and `<=`, and a number behind it, as
    /// `Decimal::parse` reads one. Blanks, which are spaces and tabs, may stand between them. Takes no memory.
    pub fn parse(text: &[u8]) -> Result<Bound, BoundStop>
        ensures { result ≡ bound_reading text.now }
    {
        let Some(comparison) = comparison_in(text) else {
            return Err(BoundStop::NoComparison);
        };
        let number = behind_blanks(&text[sign_length(comparison)..]);
        match Decimal::parse(number) {
            Ok(number) => Ok(Bound { comparison, number }),
            Err(stop) => Err(BoundStop::Number(stop)),
        }
    }

    /// Whether a number compares so with the bound's.
    pub fn holds(&self, number: &Decimal) -> bool
        ensures { result ≡ bound_holds self.now number.now }
    {
        let order = number.cmp(&self.number);
        match self.comparison {
            Comparison::Above => order.is_gt(),
            Comparison::AtLeast => order.is_ge(),
            Comparison::Same => order.is_eq(),
            Comparison::Other => order.is_ne(),
            Comparison::Below => order.is_lt(),
            Comparison::AtMost => order.is_le(),
        }
    }
}
