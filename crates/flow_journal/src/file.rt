//! The file of a journal.
ghost use Rattle.std.specs.Prelude.{◌++◌, ◌≡◌, OnOk, IfOk};
ghost use Rattle.flow_journal.specs.Files.{IsWritable, IsFileOf, numbers_written};

use crate::merge::Journal;
use std::alloc::{AllocError, Global};

/// The bytes before the turns: the name, and two numbers of four bytes.
pub const HEADER_LENGTH: usize = 16;

/// Appends numbers of two bytes.
fn put_numbers(bytes: &mut Vec<u8>, numbers: &[u16]) -> Result<(), AllocError>
    ensures { OnOk result (bytes.new.items ≡ bytes.old.items ++ numbers_written numbers.now) }
{
    for number in numbers {
        bytes.extend_from_slice(&number.to_le_bytes())?;
    }
    Ok(())
}

impl Journal {
    /// The file of this journal, in one piece: all of its memory is taken first, so that a journal of a gigabyte is copied once.
    pub fn to_bytes(&self, alloc: Global) -> Result<Vec<u8>, AllocError>
        requires { IsWritable self.now }
        ensures { IfOk result (λ bytes. IsFileOf self.now bytes.items) }
    {
        let turns = self.turns.as_slice();
        let seen = self.seen.as_slice();
        let mut bytes = Vec::with_capacity(alloc, HEADER_LENGTH + turns.len() + 2 * seen.len())?;
        bytes.extend_from_slice(b"FLOWJ001")?;
        bytes.extend_from_slice(&(turns.len() as u32).to_le_bytes())?;
        bytes.extend_from_slice(&(seen.len() as u32).to_le_bytes())?;
        bytes.extend_from_slice(turns)?;
        put_numbers(&mut bytes, seen)?;
        Ok(bytes)
    }
}
