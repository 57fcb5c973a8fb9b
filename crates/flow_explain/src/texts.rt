//! The texts that the lines of a network file give its processes, by the kind of those: all found in one walk, however long
//! the file is.
use crate::found::{Found, Walk};
use crate::patterns::{spelled, text_of};
use crate::pieces::is_line_end;
use crate::said::{Mention, Tag};
use flow_limits::STATEMENT_LIMIT;
use std::alloc::{AllocError, Global};
use std::collections::BTreeSet;

/// The lines that give a text, and the processes of one kind.
#[derive(Drop)]
pub struct Texts<'a> {
    /// The lines in their order, and no more of them than a network may have.
    pub lines: Vec<Found<'a>>,
    /// Each process that has the kind, with its part.
    processes: BTreeSet<Vec<u8>>,
}

impl<'a> Texts<'a> {
    /// Those of a network file, beside the processes that have this kind.
    pub fn of(alloc: Global, net: &'a [u8], kind: &[u8]) -> Result<Texts<'a>, AllocError> {
        let mut texts = Texts {
            lines: Vec::new(alloc),
            processes: BTreeSet::new(alloc),
        };
        let mut walk = Walk::new();
        for line in net.split(is_line_end) {
            let found = walk.next_line(alloc, line)?;
            texts.take_kind(alloc, &found, found.said.from, kind)?;
            texts.take_kind(alloc, &found, found.said.to, kind)?;
            if found.said.tag == Tag::Initial && texts.lines.len() < STATEMENT_LIMIT {
                texts.lines.push(found)?;
            }
        }
        Ok(texts)
    }

    // Takes note of a process where a line gives it the kind.
    fn take_kind(
        &mut self,
        alloc: Global,
        found: &Found<'_>,
        mention: Option<Mention<'_>>,
        kind: &[u8],
    ) -> Result<(), AllocError> {
        if let Some(mention) = mention {
            if is(mention.kind, kind) {
                let _ = self.processes.insert(home(alloc, found, &mention)?)?;
            }
        }
        Ok(())
    }

    /// Whether a line gives its text to a process of the kind.
    pub fn is_for(&self, alloc: Global, found: &Found<'_>) -> Result<bool, AllocError> {
        match found.said.to {
            Some(mention) => {
                let home = home(alloc, found, &mention)?;
                Ok(self.processes.contains(home.as_slice()))
            }
            None => Ok(false),
        }
    }
}

fn is(given: Option<&[u8]>, kind: &[u8]) -> bool {
    match given {
        Some(given) => given == kind,
        None => false,
    }
}

// A process that a line mentions, with the part of that line before a point, which no name has.
fn home(alloc: Global, found: &Found<'_>, mention: &Mention<'_>) -> Result<Vec<u8>, AllocError> {
    let mut home = Vec::from_slice(alloc, found.part.unwrap_or(b""))?;
    home.push(b'.')?;
    home.extend_from_slice(mention.process)?;
    Ok(home)
}

/// The text that a line gives, where it gives one.
pub fn given_by(alloc: Global, found: &Found<'_>) -> Result<Option<Vec<u8>>, AllocError> {
    match spelled(alloc, found)? {
        Some(spelled) => Ok(Some(text_of(alloc, spelled)?)),
        None => Ok(None),
    }
}
