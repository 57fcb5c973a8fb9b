//! Tapes that stand in a file: what is kept of one is the bytes of its entries, and they are read as they are played.

ghost use Rattle.std.specs.Prelude.{◌≡◌, ◌≤◌, ◌<◌, ◌⊎◌, ◌++◌, ◌^◌, Ok, IfOk, Some, drop, length, slice_get};
ghost use Rattle.flow_own.specs.Reading.{Gives, many_at, entry_at};
ghost use Rattle.flow_own.specs.Reels.{entry_after};

use crate::pass::pass_entries;
use crate::read::entry_of;
use crate::tape::Entry;
use crate::unread::Unread;
use bytes::Bytes;
use std::alloc::{AllocError, Global};
use std::marker::Model;

/// Where a reel is read on: how many entries stand before that, and how many bytes.
#[derive(Clone, Copy, Debug)]
pub(crate) struct Head {
    place: usize,
    at: usize,
}

/// The entries of a tape, as they stand in its file. Contracts see the list. Reels share the file's bytes, of which each has those from its
/// first entry on.
#[derive(Debug, Drop)]
pub struct Reel {
    bytes: Bytes,
    count: usize,
    /// How many of the bytes its entries take.
    size: usize,
    head: Head,
}

impl Model for Reel {
    ghost use Rattle.std.specs.Prelude.{List};
    ghost use Rattle.flow_own.specs.declared.tape.Entry.{Entry};
    ghost use Rattle.flow_own.specs.Reels.{entries_at, IsReel, HasCome};

    ghost Value = { List Entry };

    ghost view = { λ r. entries_at r.count r.bytes };

    ghost invariant = { λ r. IsReel r.count r.size r.bytes × HasCome r.count r.size r.bytes r.head.place r.head.at };
}

const START: Head = Head { place: 0, at: 0 };

// Where to read on for the entry at a place: at the head, unless it is beyond.
fn head_for(head: Head, place: usize) -> Head
    ensures before { result.place ≤ place }
    ensures which { (result ≡ head) ⊎ (result ≡ START) }
{
    if head.place <= place { head } else { START }
}

// The entry behind so many others, and the bytes behind it.
fn entry_behind(alloc: Global, count: usize, bytes: &[u8]) -> Result<(Entry, &[u8]), Unread>
    ensures { Gives (λ x. (x.0, x.1.now)) result (entry_after count bytes.now) }
{
    match pass_entries(count, bytes) {
        Ok(rest) => entry_of(alloc, rest),
        Err(stop) => Err(stop),
    }
}

impl Reel {
    /// The reel of so many entries with which the bytes begin, and the bytes behind them. Each entry is read once, and not kept.
    pub fn read(alloc: Global, count: u32, bytes: Bytes) -> Result<(Reel, Bytes), Unread>
        ensures { Gives (λ x. x) result (many_at entry_at count bytes) }
    {
        let left = match pass_entries(count as usize, bytes.as_slice()) {
            Ok(rest) => rest.len(),
            Err(stop) => return Err(stop),
        };
        let size = bytes.len() - left;
        let mut rest = bytes.clone()?;
        rest.advance(size);
        let reel = Reel {
            bytes,
            count: count as usize,
            size,
            head: START,
        };
        Ok((reel, rest))
    }

    pub fn len(&self) -> usize
        ensures len { result ≡ length self.now }
        ensures few { result < 2 ^ 32 }
    {
        self.count
    }

    /// The bytes of its entries, and those behind them in the file.
    pub fn bytes(&self) -> (&[u8], &[u8])
        ensures { many_at entry_at (length self.now) (result.0.now ++ result.1.now) ≡ Ok (self.now, result.1.now) }
    {
        self.bytes.as_slice().split_at(self.size)
    }

    /// A copy of the reel, which shares its bytes.
    pub fn copy(&self) -> Result<Reel, AllocError>
        ensures { IfOk result (λ copy. copy ≡ self.now) }
    {
        let bytes = self.bytes.clone()?;
        Ok(Reel {
            bytes,
            count: self.count,
            size: self.size,
            head: self.head,
        })
    }

    /// The entry at a place. Where one is asked for after another, each is read once.
    pub fn entry(&mut self, alloc: Global, place: usize) -> Result<Entry, AllocError>
        requires there { place < length self.old }
        ensures same { self.new ≡ self.old }
        ensures entry { IfOk result (λ entry. Some entry ≡ slice_get self.old place) }
    {
        let head = head_for(self.head, place);
        let bytes = self.bytes.as_slice();
        let (entry, at) = match entry_behind(alloc, place - head.place, &bytes[head.at..]) {
            Ok((entry, rest)) => (entry, bytes.len() - rest.len()),
            Err(Unread::NoMemory) => return Err(AllocError),
            Err(Unread::Fault(_)) => unreachable!(),
        };
        self.head = Head {
            place: place + 1,
            at,
        };
        Ok(entry)
    }
}
