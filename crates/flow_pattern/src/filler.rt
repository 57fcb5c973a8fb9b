//! What a template makes of the matches of a pattern.

ghost use Rattle.std.specs.Prelude.{◌≡◌, ◌+◌, ◌≤◌, ◌++◌, ℕ, List, Some, false, length, IfOk, IfSome, OnOk};
ghost use Rattle.regex.specs.Patterns.{Match, find, span};
ghost use Rattle.regex.specs.Replace.{bytes_of, group_bytes};
ghost use Rattle.regex.specs.Search.{LiesWithin, group_span};
ghost use Rattle.flow_pattern.specs.Pattern.{IsPattern, expression, group_names};
ghost use Rattle.flow_pattern.specs.Rewriting.{IsNewText, IsNextFilled, IsRefilled, IsWrittenAnew};
ghost use Rattle.flow_pattern.specs.Template.{IsTemplate, Spells, part_text, parts_text, whole_match};

use crate::locator::Locator;
use crate::replacer::{NewText, Rewritten};
use crate::template::{Part, template_parts};
use std::alloc::{AllocError, Global};
use std::marker::Model;

/// A pattern with a template for it. It is seen as the two texts.
///
/// Where the template calls a group other than the whole match, it goes through the text of each match by steps, to learn
/// what the groups hold.
pub struct Filler {
    locator: Locator,
    with: Vec<u8>,
    parts: Vec<Part>,
}

impl Model for Filler {
    ghost use Rattle.flow_pattern.specs.Pattern.{Replacement, group_names};
    ghost use Rattle.flow_pattern.specs.Template.{Spells};

    ghost Value = { Replacement };

    ghost view = { λ f. record { pattern = f.locator; with = f.with.items } };

    ghost invariant = { λ f. Spells (group_names f.locator) f.with.items f.parts.items };
}

// Written out, so that a proof above sees one call here and not what all the fields let go.
impl Drop for Filler {
    fn drop(self) {
        let Filler {
            locator: _locator,
            with: _with,
            parts: _parts,
        } = self;
    }
}

// Where a group holds what it holds, where it took part. Group 0 is all of the match; a cell is 0 or tells a place and one more.
#[tactic(auto, unfolding(regex::specs::Search::group_span))]
fn held_at(
    text: &[u8],
    whole: (usize, usize),
    cells: &[usize],
    index: usize,
) -> Option<(usize, usize)>
    requires { LiesWithin 0 (length text.now) whole }
    ensures value { result ≡ group_span false text.now whole cells.now index }
    ensures within { IfSome result (LiesWithin 0 (length text.now)) }
{
    let Some(before) = index.checked_sub(1) else {
        return Some(whole);
    };
    if before >= cells.len() / 2 {
        return None;
    }
    let from = cells[2 * before].checked_sub(1)?;
    let end = cells[2 * before + 1].checked_sub(1)?;
    (from <= end && end <= text.len()).then_some((from, end))
}

// Writes what a part makes of a match.
fn put_part(
    written: &mut NewText,
    part: &Part,
    text: &[u8],
    whole: (usize, usize),
    cells: &[usize],
) -> Result<(), AllocError>
    requires lies { LiesWithin 0 (length text.now) whole }
    ensures { OnOk result ((most : ℕ) (before : List ℕ) → IsNewText most before written.old → IsNewText most (before ++ part_text (λ n. bytes_of text.now (group_span false text.now whole cells.now n)) part.now) written.new) }
{
    match *part {
        Part::Byte(byte) => written.put(&[byte]),
        Part::Group(number) => {
            let Some((from, end)) = held_at(text, whole, cells, number) else {
                return Ok(());
            };
            written.put(&text[from..end])
        }
    }
}

// Writes what the parts make of a match, one behind the other.
fn put_parts(
    written: &mut NewText,
    parts: &[Part],
    text: &[u8],
    whole: (usize, usize),
    cells: &[usize],
) -> Result<(), AllocError>
    requires lies { LiesWithin 0 (length text.now) whole }
    ensures { OnOk result ((most : ℕ) (before : List ℕ) → IsNewText most before written.old → IsNewText most (before ++ parts_text (λ n. bytes_of text.now (group_span false text.now whole cells.now n)) parts.now) written.new) }
{
    for part in parts {
        put_part(written, part, text, whole, cells)?;
    }
    Ok(())
}

// Whether a part calls a group other than the whole match.
fn calls_group(part: &Part) -> bool
    ensures { result ≡ false → (held other : ℕ → List ℕ) → held 0 ≡ other 0 → part_text held part.now ≡ part_text other part.now }
{
    matches!(*part, Part::Group(number) if number != 0)
}

// Whether the parts call a group other than the whole match.
fn call_groups(parts: &[Part]) -> bool
    ensures { result ≡ false → (held other : ℕ → List ℕ) → held 0 ≡ other 0 → parts_text held parts.now ≡ parts_text other parts.now }
{
    parts.iter().any(calls_group)
}

// The cells that the parts need of the groups of a match, by the place where it begins.
fn cells_at(
    locator: &mut Locator,
    parts: &[Part],
    alloc: Global,
    text: &[u8],
    start: usize,
) -> Result<Vec<usize>, AllocError>
    requires within { start ≤ length text.now }
    ensures same { locator.new ≡ locator.old }
    ensures written { IfOk result (λ cells. (m : Match) → find (expression locator.old) text.now start ≡ Some m → parts_text (λ n. bytes_of text.now (group_span false text.now (span m) cells.items n)) parts.now ≡ parts_text (group_bytes text.now m) parts.now) }
{
    if call_groups(parts) {
        return locator.groups(alloc, text, start);
    }
    Ok(Vec::new(alloc))
}

// Writes what the parts make of the match that has this span.
fn fill(
    locator: &mut Locator,
    parts: &[Part],
    alloc: Global,
    text: &[u8],
    whole: (usize, usize),
    written: &mut NewText,
) -> Result<(), AllocError>
    requires lies { LiesWithin 0 (length text.now) whole }
    ensures same { locator.new ≡ locator.old }
    ensures filled { OnOk result ((m : Match) → find (expression locator.old) text.now whole.0 ≡ Some m → span m ≡ whole → (most : ℕ) (before : List ℕ) → IsNewText most before written.old → IsNewText most (before ++ parts_text (group_bytes text.now m) parts.now) written.new) }
{
    let cells = cells_at(locator, parts, alloc, text, whole.0)?;
    put_parts(written, parts, text, whole, cells.as_slice())
}

// The text with what the pattern matches replaced by what the parts make of each match.
fn refill(
    locator: &mut Locator,
    parts: &[Part],
    alloc: Global,
    text: &[u8],
    most: usize,
) -> Result<Rewritten, AllocError>
    ensures same { locator.new ≡ locator.old }
    ensures rewritten { IfOk result (IsWrittenAnew locator.old (λ m. parts_text (group_bytes text.now m) parts.now) text.now most) }
{
    let mut written = NewText::new(alloc, most);
    // 0 until a match came, and then where the last one ended, counted from 1.
    let mut after: usize = 0;
    'matches: while let Some((from, end)) = locator.next(alloc, text, after)? {
        written.put(&text[after.saturating_sub(1)..from])?;
        fill(locator, parts, alloc, text, (from, end), &mut written)?;
        after = end + 1;
    }
    if after == 0 {
        return Ok(Rewritten::Same);
    }
    written.put(&text[after - 1..])?;
    Ok(written.told())
}

impl Filler {
    // Compiles a pattern, with what was read of a template for it.
    fn of_parts(
        alloc: Global,
        pattern: &[u8],
        with: &[u8],
        parts: Vec<Part>,
    ) -> Result<Filler, AllocError>
        requires pattern { IsPattern pattern.now }
        requires spelled { Spells (group_names pattern.now) with.now parts.items }
        ensures { IfOk result (λ f. f ≡ record { pattern = pattern.now; with = with.now }) }
    {
        let locator = Locator::new(alloc, pattern)?;
        let with = Vec::from_slice(alloc, with)?;
        Ok(Filler {
            locator,
            with,
            parts,
        })
    }

    /// Compiles a pattern, with a template for it. One whose program has more than some 10 MiB finds no memory.
    pub fn new(alloc: Global, pattern: &[u8], with: &[u8]) -> Result<Filler, AllocError>
        requires pattern { IsPattern pattern.now }
        requires template { IsTemplate pattern.now with.now }
        ensures { IfOk result (λ f. f ≡ record { pattern = pattern.now; with = with.now }) }
    {
        match template_parts(alloc, pattern, with)? {
            Ok(parts) => Filler::of_parts(alloc, pattern, with, parts),
            Err(_) => unreachable!(),
        }
    }

    /// As `new`, with `$0` as the template, which stands for the whole match.
    pub fn of_whole(alloc: Global, pattern: &[u8]) -> Result<Filler, AllocError>
        requires pattern { IsPattern pattern.now }
        ensures { IfOk result (λ f. f ≡ record { pattern = pattern.now; with = whole_match }) }
    {
        let read = template_parts(alloc, pattern, b"$0")?;
        match read {
            Ok(parts) => Filler::of_parts(alloc, pattern, b"$0", parts),
            Err(_) => unreachable!(),
        }
    }

    /// What the template makes of the match after the one that ended at `after - 1`, or of the first match where `after`
    /// is 0, and where that match ends; none where none comes any more. A text that would have more bytes than these is
    /// `TooLong`, with how many, and no more of them are held than it may have.
    pub fn next(
        &mut self,
        alloc: Global,
        text: &[u8],
        after: usize,
        most: usize,
    ) -> Result<Option<(Rewritten, usize)>, AllocError>
        requires within { after ≤ length text.now + 1 }
        ensures same { self.new ≡ self.old }
        ensures filled { IfOk result (IsNextFilled self.old text.now after most) }
        ensures inside { IfOk result (λ next. IfSome next (λ told. told.1 ≤ length text.now)) }
    {
        let Some((from, end)) = self.locator.next(alloc, text, after)? else {
            return Ok(None);
        };
        let mut written = NewText::new(alloc, most);
        let parts = self.parts.as_slice();
        fill(
            &mut self.locator,
            parts,
            alloc,
            text,
            (from, end),
            &mut written,
        )?;
        Ok(Some((written.told(), end)))
    }

    /// The text with its matches replaced by what the template makes of each, where it then has no more bytes than these.
    /// Of a longer one the bytes are counted, and no more of them are held than it may have.
    pub fn rewritten(
        &mut self,
        alloc: Global,
        text: &[u8],
        most: usize,
    ) -> Result<Rewritten, AllocError>
        ensures same { self.new ≡ self.old }
        ensures rewritten { IfOk result (IsRefilled self.old text.now most) }
    {
        refill(&mut self.locator, self.parts.as_slice(), alloc, text, most)
    }
}
