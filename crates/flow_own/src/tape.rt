//! Tapes: what a part did, one resume after another.

ghost use Rattle.std.specs.Prelude.{◌≡◌, ◌++◌, [], ◌+◌, ◌<◌, length, IfOk, ◌^◌, IsSome, IsErr, slice_get};
ghost use Rattle.std.specs.Option.{option_copied};
ghost use Rattle.flow_own.specs.Reels.{reeled};

use crate::reel::Reel;
use flow_component::{Answer, OwnFail, Wish};
use flow_items::{Items, Text};
use flow_packet::{Kind, PacketId};
use std::alloc::{AllocError, Global};
use std::marker::Model;

/// How a resume ended.
#[derive(Clone, Copy, Debug, PartialEq, Eq)]
pub enum End {
    Wish(Wish),
    Fail(OwnFail),
}

/// One resume: what the part was told, the packet that it made, those that it dropped in order, and how it ended.
#[derive(Debug, Drop)]
pub struct Entry {
    pub answer: Answer,
    pub made: Option<(Kind, Text)>,
    pub dropped: Items<PacketId>,
    pub end: End,
}

/// The resumes of one part, in order: those that were read from a file, and then those that were recorded. Contracts see the list.
#[derive(Debug, Drop)]
pub struct Tape {
    reel: Option<Reel>,
    pub(crate) entries: Vec<Entry>,
}

impl Model for Tape {
    ghost use Rattle.std.specs.Prelude.{List, ◌++◌};
    ghost use Rattle.flow_own.specs.declared.tape.Entry.{Entry};
    ghost use Rattle.flow_own.specs.Reels.{reeled};

    ghost Value = { List Entry };

    ghost view = { λ t. reeled t.reel ++ t.entries.items };
}

fn copy_made(alloc: Global, made: &Option<(Kind, Text)>) -> Result<Option<(Kind, Text)>, AllocError>
    ensures { IfOk result (λ copy. copy ≡ made.now) }
{
    match made {
        Some((kind, text)) => Ok(Some((*kind, text.copy(alloc)?))),
        None => Ok(None),
    }
}

impl Entry {
    /// A copy of the entry.
    pub fn copy(&self, alloc: Global) -> Result<Entry, AllocError>
        ensures { IfOk result (λ copy. copy ≡ self.now) }
    {
        let made = copy_made(alloc, &self.made)?;
        let dropped = Items::of(Vec::from_slice(alloc, self.dropped.as_slice())?);
        Ok(Entry {
            answer: self.answer,
            made,
            dropped,
            end: self.end,
        })
    }
}

fn copy_reel(reel: &Option<Reel>) -> Result<Option<Reel>, AllocError>
    ensures { IfOk result (λ copy. copy ≡ reel.now) }
{
    match reel {
        Some(reel) => Ok(Some(reel.copy()?)),
        None => Ok(None),
    }
}

fn copy_entries(alloc: Global, entries: &[Entry]) -> Result<Vec<Entry>, AllocError>
    ensures { IfOk result (λ copies. copies.items ≡ entries.now) }
{
    let mut copies = Vec::new(alloc);
    for entry in entries {
        copies.push(entry.copy(alloc)?)?;
    }
    Ok(copies)
}

impl Tape {
    /// A tape without entries. Takes no memory.
    pub fn new(alloc: Global) -> Tape
        ensures { result ≡ [] }
    {
        Tape {
            reel: None,
            entries: Vec::new(alloc),
        }
    }

    /// The tape of these entries, which stay where they are. Takes no memory.
    pub fn of(entries: Vec<Entry>) -> Tape
        ensures { result ≡ entries.items }
    {
        Tape {
            reel: None,
            entries,
        }
    }

    /// The tape of a reel. Takes no memory.
    pub fn of_reel(alloc: Global, reel: Reel) -> Tape
        ensures { result ≡ reel }
    {
        Tape {
            reel: Some(reel),
            entries: Vec::new(alloc),
        }
    }

    pub fn len(&self) -> usize
        ensures { result ≡ length self.now }
    {
        match &self.reel {
            Some(reel) => reel.len() + self.entries.len(),
            None => self.entries.len(),
        }
    }

    /// The entries that were read from a file, if some were, and those that were recorded behind them.
    pub fn parts(&self) -> (Option<&Reel>, &[Entry])
        ensures { self.now ≡ reeled (option_copied result.0) ++ result.1.now }
    {
        (self.reel.as_ref(), &self.entries)
    }

    /// The entry at a place, if there is one. Where one is asked for after another, each is read from the file once.
    pub fn entry(&mut self, place: usize) -> Result<Option<Entry>, AllocError>
        ensures same { self.new ≡ self.old }
        ensures entry { IfOk result (λ entry. entry ≡ slice_get self.old place) }
        ensures there { IsErr result → IsSome (slice_get self.old place) }
        ensures fits { IsSome (slice_get self.old place) → place + 1 < 2 ^ 64 }
    {
        let alloc = *self.entries.allocator();
        let mut before = 0;
        if let Some(reel) = &mut self.reel {
            before = reel.len();
            if place < before {
                return Ok(Some(reel.entry(alloc, place)?));
            }
        }
        match self.entries.get(place - before) {
            Some(entry) => Ok(Some(entry.copy(alloc)?)),
            None => Ok(None),
        }
    }

    /// A copy of the tape. What was read from a file isn't copied, but shared.
    pub fn copy(&self) -> Result<Tape, AllocError>
        ensures { IfOk result (λ copy. copy ≡ self.now) }
    {
        let reel = copy_reel(&self.reel)?;
        let entries = copy_entries(*self.entries.allocator(), &self.entries)?;
        Ok(Tape { reel, entries })
    }
}
