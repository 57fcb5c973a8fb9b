//! Digits, and powers of ten.

ghost use Rattle.std.specs.Prelude.{◌≡◌, ◌*◌, ◌^◌, ◌<◌, true, FitsSigned};
ghost use Rattle.std.specs.Char.{is_ascii_digit};
ghost use Rattle.std.specs.Int.{w128};
ghost use Rattle.std.specs.List.{list_all};
ghost use Rattle.std.specs.Option.{SomeIff};
ghost use Rattle.std.specs.Str.Parse.{digits_value};
ghost use Rattle.flow_decimal.specs.Numbers.{is_numeral, with_sign};

use std::str;

fn are_digits(bytes: &[u8]) -> bool
    ensures { result ≡ list_all is_ascii_digit bytes.now }
{
    bytes.iter().all(|byte| byte.is_ascii_digit())
}

// Whether these bytes are digits, one at least.
pub(crate) fn is_numeral(bytes: &[u8]) -> bool
    ensures { result ≡ is_numeral bytes.now }
{
    !bytes.is_empty() && are_digits(bytes)
}

// The number that these digits write.
pub(crate) fn numeral(digits: &[u8]) -> Option<u128>
    requires digits { is_numeral digits.now ≡ true }
    ensures { SomeIff result (digits_value 10 digits.now < 2 ^ 128) (digits_value 10 digits.now) }
{
    let Ok(text) = str::from_utf8(digits) else {
        unreachable!()
    };
    match text.parse::<u128>() {
        Ok(number) => Some(number),
        Err(_) => None,
    }
}

// Ten to that power.
fn power_of_ten(exponent: usize) -> Option<u128>
    ensures { SomeIff result (10 ^ exponent < 2 ^ 128) (10 ^ exponent) }
{
    if exponent > 38 {
        return None;
    }
    10u128.checked_pow(exponent as u32)
}

// A number with so many more zeros behind it.
pub(crate) fn scaled(number: u128, zeros: usize) -> Option<u128>
    ensures { SomeIff result (number * 10 ^ zeros < 2 ^ 128) (number * 10 ^ zeros) }
{
    if number == 0 {
        return Some(0);
    }
    match power_of_ten(zeros) {
        Some(power) => number.checked_mul(power),
        None => None,
    }
}

// The number of that size, below zero or not.
pub(crate) fn signed(negative: bool, size: u128) -> Option<i128>
    ensures { SomeIff result (FitsSigned w128 (with_sign negative size)) (with_sign negative size) }
{
    if negative {
        return 0i128.checked_sub_unsigned(size);
    }
    0i128.checked_add_unsigned(size)
}
