//! The journal of a file.
ghost use Rattle.std.specs.Prelude.{◌≡◌, ◌++◌, ◌*◌, ◌<◌, ◌^◌, ℕ, All, length, IfOk, IfErr};
ghost use Rattle.flow_journal.specs.Files.{IsFileOf, StopsReading, header_written, numbers_written};

use crate::fault::JournalStop;
use crate::file::HEADER_LENGTH;
use crate::header::{Header, fault_at};
use crate::merge::Journal;
use flow_items::Items;
use std::alloc::{AllocError, Global};

/// Numbers of two bytes.
fn numbers_of(alloc: Global, bytes: &[u8]) -> Result<Vec<u16>, AllocError>
    ensures written { (count : ℕ) → length bytes.now ≡ 2 * count → IfOk result (λ numbers. (numbers_written numbers.items ≡ bytes.now) × (length numbers.items ≡ count)) }
    ensures small { IfOk result (λ numbers. All (λ n. n < 2 ^ 16) numbers.items) }
{
    let mut numbers = Vec::with_capacity(alloc, bytes.len() / 2)?;
    let mut rest = bytes;
    while let Some((number, after)) = rest.split_first_chunk::<2>() {
        numbers.push(u16::from_le_bytes(*number))?;
        rest = after;
    }
    Ok(numbers)
}

impl Journal {
    /// The journal whose file this is.
    pub fn from_bytes(alloc: Global, bytes: &[u8]) -> Result<Journal, JournalStop>
        ensures file { IfOk result (λ journal. IsFileOf journal bytes.now) }
        ensures fault { IfErr result (StopsReading bytes.now) }
    {
        let header = Header::from_bytes(bytes)?;
        Journal::from_body(alloc, &header, &bytes[HEADER_LENGTH..])
    }

    /// The journal whose file is this header with these bytes behind it.
    pub fn from_body(alloc: Global, header: &Header, body: &[u8]) -> Result<Journal, JournalStop>
        ensures file { IfOk result (λ journal. IsFileOf journal (header_written header.now.turns header.now.seen ++ body.now)) }
        ensures fault { IfErr result (StopsReading (header_written header.now.turns header.now.seen ++ body.now)) }
    {
        let length = header.body_length();
        if body.len() < length {
            return Err(JournalStop::Fault(fault_at(HEADER_LENGTH + body.len())));
        }
        if length < body.len() {
            return Err(JournalStop::Fault(fault_at(HEADER_LENGTH + length)));
        }
        let (turns, seen) = body.split_at(header.turns);
        Ok(Journal {
            turns: Items::of(Vec::from_slice(alloc, turns)?),
            seen: Items::of(numbers_of(alloc, seen)?),
        })
    }
}
