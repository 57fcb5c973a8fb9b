//! The file of a journal: its header is judged before its body is read, and tells how much of that there is to read.
ghost use Rattle.std.specs.Prelude.{◌≡◌};
ghost use Rattle.flow_load.specs.Prepare.{ReadsJournal};
ghost use Rattle.flow_load.specs.declared.stop.JournalRefusal.TheVariants.{Byte};
ghost use Rattle.flow_load.specs.declared.stop.Stop.TheVariants.{JournalRefused};

use crate::front::read_front;
use crate::stop::{JournalRefusal, Stop, read_stop};
use flow_journal::{HEADER_LENGTH, Header, Journal, JournalStop};
use flow_text::{ReadStop, Shelf, ShelfStop, read_all};
use std::alloc::Global;

/// The journal that the file of this name tells. Where the header is at fault nothing behind it is read, and otherwise at most one byte more than the header tells.
pub fn read_journal<F: Shelf>(alloc: Global, shelf: &mut F, name: &str) -> Result<Journal, Stop>
    ensures { ReadsJournal (F.outside shelf.old) (F.outside shelf.new) name.now result }
{
    match shelf.open(name) {
        Ok(()) => {}
        Err(ShelfStop::Fault) => return Err(read_stop(alloc, ReadStop::Fault, name)),
        Err(ShelfStop::NoMemory) => return Err(Stop::NoMemory),
    }
    let mut front = [0u8; HEADER_LENGTH];
    let count = match read_front(shelf, &mut front) {
        Ok(count) => count,
        Err(_) => return Err(read_stop(alloc, ReadStop::Fault, name)),
    };
    let header = match Header::from_bytes(&front[..count]) {
        Ok(header) => header,
        Err(fault) => return Err(refused_at(fault.place)),
    };
    let length = header.body_length();
    let body = match read_all(alloc, shelf, length as u64) {
        Ok(body) => body,
        Err(ReadStop::Fault) => return Err(read_stop(alloc, ReadStop::Fault, name)),
        Err(ReadStop::TooLong(_)) => return Err(refused_at((HEADER_LENGTH + length) as u64)),
        Err(ReadStop::NoMemory) => return Err(Stop::NoMemory),
    };
    match Journal::from_body(alloc, &header, &body) {
        Ok(journal) => Ok(journal),
        Err(JournalStop::Fault(fault)) => Err(refused_at(fault.place)),
        Err(JournalStop::NoMemory) => Err(Stop::NoMemory),
    }
}

// The stop of a journal's file whose byte at this place can't stand there.
fn refused_at(place: u64) -> Stop
    ensures { result ≡ JournalRefused (Byte place) }
{
    Stop::JournalRefused(JournalRefusal::Byte(place))
}
