//! The fields of an entry, off the front of its bytes.

ghost use Rattle.std.specs.Prelude.{◌≡◌, ◌≤◌, IfOk};
ghost use Rattle.std.specs.Int.{w8, w16, w32, w64};
ghost use Rattle.flow_own.specs.Reading.{Gives, Tells, number_at, text_at, any_at, id_at};

use crate::unread::Unread;
use flow_items::Text;
use std::alloc::Global;

// A number of one byte.
pub(crate) fn one_of(bytes: &[u8], most: u8) -> Result<(u8, &[u8]), Unread>
    ensures { Tells (λ x. (x.0, x.1.now)) result (number_at w8 most bytes.now) }
{
    let Some((number, rest)) = bytes.split_first_chunk::<1>() else {
        return Err(Unread::Fault(0));
    };
    let number = number[0];
    if number > most {
        return Err(Unread::Fault(bytes.len()));
    }
    Ok((number, rest))
}

// A number of two bytes.
pub(crate) fn two_of(bytes: &[u8], most: u16) -> Result<(u16, &[u8]), Unread>
    ensures { Tells (λ x. (x.0, x.1.now)) result (number_at w16 most bytes.now) }
{
    let Some((number, rest)) = bytes.split_first_chunk::<2>() else {
        return Err(Unread::Fault(0));
    };
    let number = u16::from_le_bytes(*number);
    if number > most {
        return Err(Unread::Fault(bytes.len()));
    }
    Ok((number, rest))
}

/// A number of four bytes that is no more than the most, and the bytes behind it.
pub fn four_of(bytes: &[u8], most: u32) -> Result<(u32, &[u8]), Unread>
    ensures { Tells (λ x. (x.0, x.1.now)) result (number_at w32 most bytes.now) }
{
    let Some((number, rest)) = bytes.split_first_chunk::<4>() else {
        return Err(Unread::Fault(0));
    };
    let number = u32::from_le_bytes(*number);
    if number > most {
        return Err(Unread::Fault(bytes.len()));
    }
    Ok((number, rest))
}

// Any number of four bytes.
pub(crate) fn any_of(bytes: &[u8]) -> Result<(u32, &[u8]), Unread>
    ensures { Tells (λ x. (x.0, x.1.now)) result (any_at bytes.now) }
{
    four_of(bytes, u32::MAX)
}

// Any number of eight bytes.
pub(crate) fn eight_of(bytes: &[u8]) -> Result<(u64, &[u8]), Unread>
    ensures { Tells (λ x. (x.0, x.1.now)) result (id_at bytes.now) }
{
    let Some((number, rest)) = bytes.split_first_chunk::<8>() else {
        return Err(Unread::Fault(0));
    };
    Ok((u64::from_le_bytes(*number), rest))
}

// So many bytes of text.
pub(crate) fn text_of(alloc: Global, bytes: &[u8], size: usize) -> Result<(Text, &[u8]), Unread>
    ensures { Gives (λ x. (x.0, x.1.now)) result (text_at size bytes.now) }
{
    if bytes.len() < size {
        return Err(Unread::Fault(0));
    }
    let (text, rest) = bytes.split_at(size);
    Ok((Text::from_slice(alloc, text)?, rest))
}
