//! The header of a journal's file, which is judged without what follows it.
ghost use Rattle.std.specs.Prelude.{◌≡◌, ◌+◌, ◌*◌, ◌<◌, ◌≤◌, length, take, IfOk, IfErr, MatchOption};
ghost use Rattle.flow_limits.specs.declared.TheConstants.{RUN_LIMIT};
ghost use Rattle.flow_journal.specs.Files.{BeginsWithName, IsHeaderFault, StraysFromName, body_length, header_written, number_at};

use crate::fault::JournalFault;
use crate::file::HEADER_LENGTH;
use flow_limits::RUN_LIMIT;

/// What the header of a journal's file tells: how many turns and how many seen numbers follow it. (This project's own.)
#[derive(Clone, Copy, Debug)]
pub struct Header {
    pub turns: usize,
    pub seen: usize,
    pub ghost few: { turns ≤ RUN_LIMIT },
    pub ghost fewer: { seen ≤ turns },
}

/// The fault at a place.
pub(crate) fn fault_at(place: usize) -> JournalFault
    ensures { result.place ≡ place }
{
    JournalFault {
        place: place as u64,
    }
}

/// The first place at which the bytes don't go on as the name of the format does, or end.
fn strays_at(bytes: &[u8]) -> Option<usize>
    ensures { MatchOption result (BeginsWithName bytes.now) (StraysFromName bytes.now) }
{
    for (place, byte) in b"FLOWJ001".iter().enumerate() {
        if bytes.get(place).copied() != Some(*byte) {
            return Some(place);
        }
    }
    None
}

/// The number of four bytes at a place. It is a fault where the bytes end before.
fn number_from(bytes: &[u8], place: usize) -> Result<u32, JournalFault>
    requires { place ≤ length bytes.now }
    ensures number { IfOk result (λ number. (number ≡ number_at bytes.now place) × (place + 4 ≤ length bytes.now)) }
    ensures short { IfErr result (λ fault. (fault.place ≡ length bytes.now) × (length bytes.now < place + 4)) }
{
    match bytes[place..].first_chunk::<4>() {
        Some(number) => Ok(u32::from_le_bytes(*number)),
        None => Err(fault_at(bytes.len())),
    }
}

impl Header {
    /// The header of a file that begins with these bytes: its first 16 bytes are enough, and more are not looked at. Fewer are a file that ends there.
    pub fn from_bytes(bytes: &[u8]) -> Result<Header, JournalFault>
        ensures header { IfOk result (λ header. take HEADER_LENGTH bytes.now ≡ header_written header.turns header.seen) }
        ensures fault { IfErr result (λ fault. IsHeaderFault bytes.now fault.place) }
    {
        if let Some(place) = strays_at(bytes) {
            return Err(fault_at(place));
        }
        let turns = number_from(bytes, 8)? as usize;
        if turns > RUN_LIMIT {
            return Err(fault_at(8));
        }
        let seen = number_from(bytes, 12)? as usize;
        if seen > turns {
            return Err(fault_at(12));
        }
        Ok(Header { turns, seen })
    }

    /// How many bytes follow this header in a file that is whole.
    pub fn body_length(&self) -> usize
        ensures { result ≡ body_length self.now.turns self.now.seen }
    {
        self.turns + 2 * self.seen
    }
}
