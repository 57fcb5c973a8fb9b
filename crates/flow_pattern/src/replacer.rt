//! A text with the matches of a pattern replaced.

ghost use Rattle.std.specs.Prelude.{◌≡◌, ◌++◌, ℕ, List, [], IfOk, OnOk};
ghost use Rattle.flow_pattern.specs.Pattern.{IsPattern};
ghost use Rattle.flow_pattern.specs.Rewriting.{IsNewText, IsRewritten, Tells};

use crate::locator::Locator;
use std::alloc::{AllocError, Global};
use std::marker::Model;

/// A pattern with the bytes that take the place of its matches. It is seen as the two texts.
pub struct Replacer {
    locator: Locator,
    with: Vec<u8>,
}

impl Model for Replacer {
    ghost use Rattle.flow_pattern.specs.Pattern.{Replacement};

    ghost Value = { Replacement };

    ghost view = { λ r. record { pattern = r.locator; with = r.with.items } };
}

// Written out, so that a proof above sees one call here and not what all the fields let go.
impl Drop for Replacer {
    fn drop(self) {
        let Replacer {
            locator: _locator,
            with: _with,
        } = self;
    }
}

/// What comes of a text when the matches in it are replaced.
#[derive(Debug, Drop)]
pub enum Rewritten {
    /// Nothing matches in it.
    Same,
    /// The new text.
    New(Vec<u8>),
    /// The new text would have so many bytes, more than it may.
    TooLong(u64),
}

// A text that is being written. Its bytes are kept while they are no more than it may have, and counted always.
#[derive(Drop)]
pub(crate) struct NewText {
    kept: Vec<u8>,
    count: u64,
    most: usize,
}

impl NewText {
    pub(crate) fn new(alloc: Global, most: usize) -> NewText
        ensures { IsNewText most [] result }
    {
        NewText {
            kept: Vec::new(alloc),
            count: 0,
            most,
        }
    }

    // Adds a piece. (A text of more than 2^64 bytes finds no memory.)
    pub(crate) fn put(&mut self, piece: &[u8]) -> Result<(), AllocError>
        ensures { OnOk result ((most : ℕ) (whole : List ℕ) → IsNewText most whole self.old → IsNewText most (whole ++ piece.now) self.new) }
    {
        let Some(count) = self.count.checked_add(piece.len() as u64) else {
            return Err(AllocError);
        };
        self.count = count;
        if count > self.most as u64 {
            return Ok(());
        }
        self.kept.extend_from_slice(piece)?;
        Ok(())
    }

    // The text, or its length where it is too long.
    pub(crate) fn told(self) -> Rewritten
        ensures { (most : ℕ) (whole : List ℕ) → IsNewText most whole self → Tells most whole result }
    {
        if self.count > self.most as u64 {
            return Rewritten::TooLong(self.count);
        }
        Rewritten::New(self.kept)
    }
}

// The text with what the pattern matches replaced by `with`.
fn rewrite(
    locator: &mut Locator,
    alloc: Global,
    text: &[u8],
    with: &[u8],
    most: usize,
) -> Result<Rewritten, AllocError>
    ensures same { locator.new ≡ locator.old }
    ensures rewritten { IfOk result (IsRewritten (record { pattern = locator.old; with = with.now }) text.now most) }
{
    let mut written = NewText::new(alloc, most);
    // 0 until a match came, and then where the last one ended, counted from 1.
    let mut after: usize = 0;
    'matches: while let Some((from, end)) = locator.next(alloc, text, after)? {
        written.put(&text[after.saturating_sub(1)..from])?;
        written.put(with)?;
        after = end + 1;
    }
    if after == 0 {
        return Ok(Rewritten::Same);
    }
    written.put(&text[after - 1..])?;
    Ok(written.told())
}

impl Replacer {
    /// Compiles a pattern, to be replaced by these bytes as they are. One whose program has more than some 10 MiB finds
    /// no memory.
    pub fn new(alloc: Global, pattern: &[u8], with: &[u8]) -> Result<Replacer, AllocError>
        requires pattern { IsPattern pattern.now }
        ensures { IfOk result (λ r. r ≡ record { pattern = pattern.now; with = with.now }) }
    {
        let locator = Locator::new(alloc, pattern)?;
        let with = Vec::from_slice(alloc, with)?;
        Ok(Replacer { locator, with })
    }

    /// The text with its matches replaced, where it then has no more bytes than these. Of a longer one the bytes are
    /// counted, and no more of them are held than it may have.
    pub fn replaced(
        &mut self,
        alloc: Global,
        text: &[u8],
        most: usize,
    ) -> Result<Rewritten, AllocError>
        ensures same { self.new ≡ self.old }
        ensures rewritten { IfOk result (IsRewritten self.old text.now most) }
    {
        rewrite(&mut self.locator, alloc, text, &self.with, most)
    }
}
