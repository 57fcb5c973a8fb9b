//! From the file of tapes to the tapes.

ghost use Rattle.std.specs.Prelude.{◌≡◌, ◌≤◌, ◌-◌, IfOk, IfErr, drop, length};
ghost use Rattle.std.specs.Int.{w32};
ghost use Rattle.flow_own.specs.Reading.{Gives, number_at, many_at};
ghost use Rattle.flow_tape.specs.Faults.{IsFileOf, StopsReading};
ghost use Rattle.flow_tape.specs.Files.{name};
ghost use Rattle.flow_tape.specs.Reading.{letters_at, tape_at, tapes_at, file_at};

use crate::fault::{TapeFault, TapeStop};
use crate::law::bytes_are_small;
use crate::letters::letters_of;
use bytes::Bytes;
use flow_limits::{PROCESS_LIMIT, TAPE_LIMIT};
use flow_own::{Reel, Tape, Unread, four_of};
use std::alloc::Global;

// The last so many of these bytes.
fn last_of(bytes: Bytes, left: usize) -> Bytes
    requires { left ≤ length bytes }
    ensures { result ≡ drop (length bytes - left) bytes }
{
    let mut bytes = bytes;
    bytes.advance(bytes.len() - left);
    bytes
}

// The bytes behind the name.
fn behind_name(bytes: Bytes) -> Result<Bytes, Unread>
    ensures { Gives (λ rest. (tt, rest)) result (letters_at name bytes) }
{
    let left = letters_of(b"FLOWT001", bytes.as_slice())?.len();
    Ok(last_of(bytes, left))
}

// A number of four bytes that is no more than the most, and the bytes behind it.
fn count_of(bytes: Bytes, most: u32) -> Result<(u32, Bytes), Unread>
    ensures { Gives (λ x. x) result (number_at w32 most bytes) }
{
    let (count, rest) = four_of(bytes.as_slice(), most)?;
    let left = rest.len();
    Ok((count, last_of(bytes, left)))
}

#[tactic(auto, unfolding(crate::specs::Reading::tape_at))]
fn tape_of(alloc: Global, bytes: Bytes) -> Result<(Tape, Bytes), Unread>
    ensures { Gives (λ x. x) result (tape_at bytes) }
{
    let (count, rest) = count_of(bytes, TAPE_LIMIT as u32)?;
    let (reel, rest) = Reel::read(alloc, count, rest)?;
    Ok((Tape::of_reel(alloc, reel), rest))
}

// So many tapes.
fn many_tapes_of(alloc: Global, count: u32, bytes: Bytes) -> Result<(Vec<Tape>, Bytes), Unread>
    ensures { Gives (λ x. (x.0.items, x.1)) result (many_at tape_at count bytes) }
{
    let mut tapes = Vec::new(alloc);
    let mut rest = bytes;
    for _ in 0..count {
        let (tape, after) = tape_of(alloc, rest)?;
        tapes.push(tape)?;
        rest = after;
    }
    Ok((tapes, rest))
}

// The tapes at the front, with the name before them.
#[tactic(auto, unfolding(crate::specs::Reading::tapes_at))]
fn tapes_of(alloc: Global, bytes: Bytes) -> Result<(Vec<Tape>, Bytes), Unread>
    ensures { Gives (λ x. (x.0.items, x.1)) result (tapes_at bytes) }
{
    let rest = behind_name(bytes)?;
    let (count, rest) = count_of(rest, PROCESS_LIMIT as u32)?;
    many_tapes_of(alloc, count, rest)
}

// The tapes, with which the bytes end.
#[tactic(auto, unfolding(crate::specs::Reading::file_at))]
fn file_of(alloc: Global, bytes: Bytes) -> Result<Vec<Tape>, Unread>
    ensures { Gives (λ tapes. tapes.items) result (file_at bytes) }
{
    let (tapes, rest) = tapes_of(alloc, bytes)?;
    if !rest.is_empty() {
        return Err(Unread::Fault(rest.len()));
    }
    Ok(tapes)
}

/// The tapes whose file this is. They share a copy of the bytes.
pub fn from_bytes(alloc: Global, bytes: &[u8]) -> Result<Vec<Tape>, TapeStop>
    ensures file { IfOk result (λ tapes. IsFileOf tapes.items bytes.now) }
    ensures fault { IfErr result (StopsReading bytes.now) }
{
    match bytes.to_vec(alloc) {
        Ok(bytes) => from_vec(alloc, bytes),
        Err(_) => Err(TapeStop::NoMemory),
    }
}

/// The tapes whose file this is. All of it is judged now, but no more is kept than the bytes, which the tapes share: an entry is read again
/// when it is played.
pub fn from_vec(alloc: Global, bytes: Vec<u8>) -> Result<Vec<Tape>, TapeStop>
    ensures file { IfOk result (λ tapes. IsFileOf tapes.items bytes.items) }
    ensures fault { IfErr result (StopsReading bytes.items) }
{
    let size = bytes.len();
    bytes_are_small(&bytes);
    let Ok(bytes) = Bytes::from_vec(bytes) else {
        return Err(TapeStop::NoMemory);
    };
    match file_of(alloc, bytes) {
        Ok(tapes) => Ok(tapes),
        Err(Unread::Fault(left)) => {
            let place = size - left;
            Err(TapeStop::Fault(TapeFault {
                place: place as u64,
            }))
        }
        Err(Unread::NoMemory) => Err(TapeStop::NoMemory),
    }
}
