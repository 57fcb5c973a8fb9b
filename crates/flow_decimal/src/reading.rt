//! How a text is read as a decimal number.

ghost use Rattle.std.specs.Prelude.{◌≡◌, ◌+◌, ◌*◌, ◌++◌, ◌^◌, ◌<◌, true, length, drop};
ghost use Rattle.std.specs.List.{position};
ghost use Rattle.std.specs.Option.{SomeIff};
ghost use Rattle.std.specs.Str.Parse.{digits_value, starts_with_minus, without_leading_sign};
ghost use Rattle.flow_decimal.specs.Numbers.{is_point, is_numeral, reading};
ghost use Rattle.flow_decimal.specs.Unsigned.{unsigned_reading};

use crate::decimal::{Decimal, NumberStop};
use crate::digits::{is_numeral, numeral, scaled, signed};

// A number without its sign: its digits as one whole number, and how many of them stand behind the point.
#[derive(Clone, Copy, Debug)]
pub(crate) struct Unsigned {
    pub size: u128,
    pub fraction: usize,
}

// The place of the first point.
fn point_in(text: &[u8]) -> Option<usize>
    ensures { result ≡ position is_point text.now }
{
    text.iter().position(|byte| *byte == b'.')
}

// The number with so many more zeros behind it, and another one added.
fn shifted(first: u128, zeros: usize, last: u128) -> Option<u128>
    ensures { SomeIff result (first * 10 ^ zeros + last < 2 ^ 128) (first * 10 ^ zeros + last) }
{
    match scaled(first, zeros) {
        Some(size) => size.checked_add(last),
        None => None,
    }
}

// The number that these digits write behind those of another one.
fn behind(first: u128, back: &[u8]) -> Option<u128>
    requires back { is_numeral back.now ≡ true }
    ensures { SomeIff result (first * 10 ^ length back.now + digits_value 10 back.now < 2 ^ 128) (first * 10 ^ length back.now + digits_value 10 back.now) }
{
    match numeral(back) {
        Some(last) => shifted(first, back.len(), last),
        None => None,
    }
}

// The whole number that the digits of both write, one behind the other.
fn joined(front: &[u8], back: &[u8]) -> Option<u128>
    requires front { is_numeral front.now ≡ true }
    requires back { is_numeral back.now ≡ true }
    ensures { SomeIff result (digits_value 10 (front.now ++ back.now) < 2 ^ 128) (digits_value 10 (front.now ++ back.now)) }
{
    match numeral(front) {
        Some(first) => behind(first, back),
        None => None,
    }
}

// A number without a point.
fn whole(digits: &[u8]) -> Result<Unsigned, NumberStop>
    requires whole { position is_point digits.now ≡ None }
    ensures { result ≡ unsigned_reading digits.now }
{
    if !is_numeral(digits) {
        return Err(NumberStop::NoNumber);
    }
    match numeral(digits) {
        Some(size) => Ok(Unsigned { size, fraction: 0 }),
        None => Err(NumberStop::TooLarge),
    }
}

// What stands behind that place.
fn behind_place(text: &[u8], place: usize) -> &[u8]
    requires within { place < length text.now }
    ensures { result.now ≡ drop (place + 1) text.now }
{
    &text[place + 1..]
}

// A number with a point at that place.
fn pointed(text: &[u8], point: usize) -> Result<Unsigned, NumberStop>
    requires pointed { position is_point text.now ≡ Some point }
    ensures { result ≡ unsigned_reading text.now }
{
    let (front, back) = (&text[..point], behind_place(text, point));
    if !is_numeral(front) {
        return Err(NumberStop::NoNumber);
    }
    if !is_numeral(back) {
        return Err(NumberStop::NoNumber);
    }
    match joined(front, back) {
        Some(size) => Ok(Unsigned {
            size,
            fraction: back.len(),
        }),
        None => Err(NumberStop::TooLarge),
    }
}

fn read_unsigned(text: &[u8]) -> Result<Unsigned, NumberStop>
    ensures { result ≡ unsigned_reading text.now }
{
    match point_in(text) {
        Some(point) => pointed(text, point),
        None => whole(text),
    }
}

fn is_negative(text: &[u8]) -> bool
    ensures { result ≡ starts_with_minus text.now }
{
    matches!(text, [b'-', ..])
}

fn without_sign(text: &[u8]) -> &[u8]
    ensures { result.now ≡ without_leading_sign text.now }
{
    match text {
        [b'-', rest @ ..] => rest,
        [b'+', rest @ ..] => rest,
        _ => text,
    }
}

impl Decimal {
    /// The number that a text is: a sign or none, digits, and a point with digits behind it or none, as `-12`, `+3.50` or
    /// `0.1`. A digit stands on both sides of a point. Takes no memory. The form is this project's own.
    pub fn parse(text: &[u8]) -> Result<Decimal, NumberStop>
        ensures { result ≡ reading text.now }
    {
        match read_unsigned(without_sign(text)) {
            Ok(Unsigned { size, fraction }) => match signed(is_negative(text), size) {
                Some(whole) => Ok(Decimal { whole, fraction }),
                None => Err(NumberStop::TooLarge),
            },
            Err(stop) => Err(stop),
        }
    }
}
