//! How many tapes a file has, and whether they are as many as are wanted.

ghost use Rattle.std.specs.Prelude.{◌≡◌, ℕ, IfOk, IfErr, Decides, length};
ghost use Rattle.flow_own.specs.Reading.{Tells, behind, many_at};
ghost use Rattle.flow_tape.specs.Faults.{IsFileOf, IsFault};
ghost use Rattle.flow_tape.specs.Counts.{BeginsFileOf, IsFileOfSoMany, StopsCounting, number_in};
ghost use Rattle.flow_tape.specs.Reading.{tape_at};

use crate::fault::{CountStop, TapeFault, TapeStop};
use crate::law::bytes_are_small;
use crate::letters::letters_of;
use crate::parse::from_vec;
use flow_limits::{PROCESS_LIMIT, TAPE_LIMIT};
use flow_own::{Tape, Unread, four_of, pass_entries};
use std::alloc::Global;

// Whether the bytes begin as the file of so many tapes does.
fn begins_file_of(number: u32, bytes: &[u8]) -> bool
    ensures { Decides result (BeginsFileOf number bytes.now) }
{
    bytes_are_small(bytes);
    let Ok(rest) = letters_of(b"FLOWT001", bytes) else {
        return false;
    };
    match four_of(rest, u32::MAX) {
        Ok((told, _)) => told == number,
        Err(_) => false,
    }
}

// Goes over a tape.
#[tactic(auto, unfolding(crate::specs::Reading::tape_at))]
fn pass_tape(bytes: &[u8]) -> Result<&[u8], Unread>
    ensures { Tells (λ rest. rest.now) result (behind (tape_at bytes.now)) }
{
    let (count, rest) = four_of(bytes, TAPE_LIMIT as u32)?;
    pass_entries(count as usize, rest)
}

// Goes over so many tapes.
fn pass_tapes(count: u32, bytes: &[u8]) -> Result<&[u8], Unread>
    ensures { Tells (λ rest. rest.now) result (behind (many_at tape_at count bytes.now)) }
{
    let mut rest = bytes;
    for _ in 0..count {
        let after = pass_tape(rest)?;
        rest = after;
    }
    Ok(rest)
}

// Goes over all tapes, and gives their number.
fn count_all(bytes: &[u8]) -> Result<u32, Unread>
    ensures { Tells (λ number. number) result (number_in bytes.now) }
{
    let rest = letters_of(b"FLOWT001", bytes)?;
    let (count, rest) = four_of(rest, PROCESS_LIMIT as u32)?;
    let rest = pass_tapes(count, rest)?;
    if !rest.is_empty() {
        return Err(Unread::Fault(rest.len()));
    }
    Ok(count)
}

/// How many tapes it is whose file this is, found in one walk over the bytes. Nothing of them is kept, and no memory is taken.
pub fn number_of_tapes(bytes: &[u8]) -> Result<u32, TapeFault>
    ensures number { IfOk result (λ number. IsFileOfSoMany number bytes.now) }
    ensures fault { IfErr result (λ fault. IsFault bytes.now fault.place) }
{
    let size = bytes.len();
    bytes_are_small(bytes);
    match count_all(bytes) {
        Ok(number) => Ok(number),
        Err(Unread::Fault(left)) => {
            let place = size - left;
            Err(TapeFault {
                place: place as u64,
            })
        }
        Err(Unread::NoMemory) => unreachable!(),
    }
}

// Why bytes that don't begin as the file of the wanted number does are refused.
fn refused(bytes: &[u8]) -> CountStop
    ensures { (wanted : ℕ) → ¬ BeginsFileOf wanted bytes.now → StopsCounting wanted bytes.now result }
{
    match number_of_tapes(bytes) {
        Ok(number) => CountStop::Count(number),
        Err(fault) => CountStop::Fault(fault),
    }
}

/// The tapes whose file this is, where they are as many as are wanted. The number in front of them is judged at once: where it is another one
/// nothing is kept, and no memory is taken, since all that is open is which fault the file has, or that it has none but this number.
pub fn so_many_from_vec(alloc: Global, bytes: Vec<u8>, wanted: u32) -> Result<Vec<Tape>, CountStop>
    ensures file { IfOk result (λ tapes. IsFileOf tapes.items bytes.items) }
    ensures number { IfOk result (λ tapes. length tapes.items ≡ wanted) }
    ensures stop { IfErr result (StopsCounting wanted bytes.items) }
{
    if !begins_file_of(wanted, &bytes) {
        return Err(refused(&bytes));
    }
    match from_vec(alloc, bytes) {
        Ok(tapes) => Ok(tapes),
        Err(TapeStop::Fault(fault)) => Err(CountStop::Fault(fault)),
        Err(TapeStop::NoMemory) => Err(CountStop::NoMemory),
    }
}
