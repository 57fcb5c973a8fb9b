//! Numbers and their decimal spelling.
ghost use Rattle.std.specs.Prelude.{◌≡◌, ◌≤◌, ◌<◌, ◌^◌, ◌++◌, OnOk, OnErr};
ghost use Rattle.std.specs.Str.Parse.{IsNumeral};
ghost use Rattle.std.specs.Option.{SomeIff};
ghost use Rattle.std.specs.Fmt.{decimal as decimal_of};
ghost use Rattle.flow_text.specs.Text.{IsPlain, number_of};

use std::alloc::AllocError;

// The number that digits spell, where it fits.
fn digits(bytes: &[u8]) -> Option<u64>
    ensures { SomeIff result (IsNumeral 10 bytes.now × (number_of bytes.now < 2 ^ 64)) (number_of bytes.now) }
{
    match bytes {
        [b'+', ..] => None,
        _ => match str::from_utf8(bytes) {
            Err(_) => None,
            Ok(text) => match text.parse::<u64>() {
                Ok(number) => Some(number),
                Err(_) => None,
            },
        },
    }
}

/// The number from `least` to `most` that the bytes spell, as ASCII digits without a superfluous
/// leading zero. Takes no memory. The spelling is this project's own.
pub fn decimal(bytes: &[u8], least: u64, most: u64) -> Option<u64>
    ensures { SomeIff result (IsPlain bytes.now × (least ≤ number_of bytes.now) × (number_of bytes.now ≤ most)) (number_of bytes.now) }
{
    match bytes {
        [b'0', _, ..] => None,
        _ => match digits(bytes) {
            Some(number) if number >= least && number <= most => Some(number),
            _ => None,
        },
    }
}

/// Appends the digits that `decimal` reads.
#[tactic(auto, using(crate::proofs::Decimals::decimal_plain, crate::proofs::Decimals::decimal_number))]
pub fn put_decimal(out: &mut Vec<u8>, number: u64) -> Result<(), AllocError>
    ensures ok { OnOk result (out.new.items ≡ out.old.items ++ decimal_of number) }
    ensures plain { OnOk result (IsPlain (decimal_of number)) }
    ensures reads { OnOk result (number_of (decimal_of number) ≡ number) }
    ensures err { OnErr result (out.new.items ≡ out.old.items) }
{
    let digits = number.to_string(*out.allocator())?;
    out.extend_from_slice(digits.as_bytes())
}
