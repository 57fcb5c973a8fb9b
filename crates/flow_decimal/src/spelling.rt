//! How a decimal number is spelled.

ghost use Rattle.std.specs.Prelude.{◌≡◌, ◌+◌, ◌-◌, ◌++◌, ◌<◌, length, IfOk, OnOk};
ghost use Rattle.flow_decimal.specs.Spelling.{digits_of, with_point, spelled};

use crate::decimal::Decimal;
use std::alloc::{AllocError, Global};

// How many zeros it takes before so many digits that one stands before the fraction.
fn zeros(digits: usize, fraction: usize) -> usize
    requires some { 0 < digits }
    ensures { result ≡ fraction + 1 - digits }
{
    if fraction < digits {
        return 0;
    }
    fraction - digits + 1
}

// The digits of a whole number, and zeros before them where none would stand before the fraction.
#[tactic(auto, using(crate::proofs::Numerals::decimal_some))]
fn digits_of(alloc: Global, size: u128, fraction: usize) -> Result<Vec<u8>, AllocError>
    ensures digits { IfOk result (λ digits. digits.items ≡ digits_of size fraction) }
    ensures long { IfOk result (λ digits. fraction < length digits.items) }
{
    let text = size.to_string(alloc)?;
    let mut digits = vec![in alloc; b'0'; zeros(text.len(), fraction)]?;
    digits.extend_from_slice(text.as_bytes())?;
    Ok(digits)
}

// Appends digits with the point before the last ones, which are the fraction's.
fn put_with_point(out: &mut Vec<u8>, digits: &[u8], fraction: usize) -> Result<(), AllocError>
    requires long { fraction < length digits.now }
    ensures { OnOk result (out.new.items ≡ out.old.items ++ with_point digits.now fraction) }
{
    if fraction == 0 {
        return out.extend_from_slice(digits);
    }
    let (whole, rest) = digits.split_at(digits.len() - fraction);
    out.extend_from_slice(whole)?;
    out.push(b'.')?;
    out.extend_from_slice(rest)
}

impl Decimal {
    /// The number as a text, with as many digits behind the point as it has: `parse` reads the same number in it.
    pub fn spell(&self, alloc: Global) -> Result<Vec<u8>, AllocError>
        ensures { IfOk result (λ text. text.items ≡ spelled self.now) }
    {
        let digits = digits_of(alloc, self.whole.unsigned_abs(), self.fraction)?;
        let mut text = Vec::new(alloc);
        if self.whole < 0 {
            text.push(b'-')?;
        }
        put_with_point(&mut text, &digits, self.fraction)?;
        Ok(text)
    }
}
