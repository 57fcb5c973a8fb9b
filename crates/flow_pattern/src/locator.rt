//! Where a pattern matches in a text.

ghost use Rattle.std.specs.Prelude.{◌≡◌, ◌+◌, ◌-◌, ◌<◌, ◌≤◌, false, length, option_map, IfOk, IfSome};
ghost use Rattle.regex.specs.Patterns.{find, span};
ghost use Rattle.regex.specs.Search.{next_match, LiesWithin, SpansGroups};
ghost use Rattle.flow_pattern.specs.Pattern.{IsPattern, expression};

use crate::finder::{Means, means_of};
use crate::needles::Needles;
use crate::steps::Steps;
use regex_dfa::{Dfa, End, Forward, Reverse, Start};
use std::alloc::{AllocError, Global};
use std::marker::Model;

/// A pattern, compiled, with what its searches have built so far. It is seen as the pattern's text.
///
/// As a `Finder`, with a second automaton, which reads back from the end of a match to its start.
pub struct Locator {
    text: Vec<u8>,
    dfa: Dfa,
    forward: Forward,
    reverse: Reverse,
    needles: Needles,
    steps: Steps,
}

impl Model for Locator {
    ghost use Rattle.std.specs.Prelude.{◌≡◌, ℕ, List, IfSome, false};
    ghost use Rattle.regex_dfa.specs.Search.{IsForwardFor, IsReverseFor, stops_when_idle};
    ghost use Rattle.flow_pattern.specs.Automata.{Serves};
    ghost use Rattle.flow_pattern.specs.Needles.{AreNeeded};
    ghost use Rattle.flow_pattern.specs.Pattern.{expression};
    ghost use Rattle.flow_pattern.specs.Steps.{HasRoomFor};

    ghost Value = { List ℕ };

    ghost view = { λ l. l.text.items };

    ghost invariant = { λ l. IsForwardFor l.forward l.dfa × (stops_when_idle l.forward ≡ false) × IsReverseFor l.reverse l.dfa × Serves l.dfa l.text.items × HasRoomFor l.dfa l.steps × IfSome l.needles (AreNeeded (expression l.text.items)) };
}

// Written out, so that a proof above sees one call here and not what all the fields let go.
impl Drop for Locator {
    fn drop(self) {
        let Locator {
            text: _text,
            dfa: _dfa,
            forward: _forward,
            reverse: _reverse,
            needles: _needles,
            steps: _steps,
        } = self;
    }
}

impl Locator {
    /// Compiles a pattern. One whose program has more than some 10 MiB finds no memory.
    pub fn new(alloc: Global, pattern: &[u8]) -> Result<Locator, AllocError>
        requires pattern { IsPattern pattern.now }
        ensures { IfOk result (λ locator. locator ≡ pattern.now) }
    {
        let Means { dfa, needles } = means_of(alloc, pattern)?;
        let forward = Forward::new(alloc, &dfa, false)?;
        let reverse = Reverse::new(alloc, &dfa)?;
        let text = Vec::from_slice(alloc, pattern)?;
        Ok(Locator {
            text,
            dfa,
            forward,
            reverse,
            needles,
            steps: Steps::new(),
        })
    }

    /// The span of the leftmost match that starts at `start` or after it. Takes memory where an automaton first gives up.
    pub(crate) fn find(
        &mut self,
        alloc: Global,
        text: &[u8],
        start: usize,
    ) -> Result<Option<(usize, usize)>, AllocError>
        requires within { start ≤ length text.now }
        ensures same { self.new ≡ self.old }
        ensures found { IfOk result (λ found. found ≡ option_map span (find (expression self.old) text.now start)) }
    {
        let end = match self
            .forward
            .find_end(&self.dfa, text, start, text.len(), false, false)
        {
            End::At(end) => end,
            End::NoMatch => return Ok(None),
            End::Idle(_) => unreachable!(),
            End::GaveUp => return self.find_by_steps(alloc, text, start),
        };
        match self.reverse.find_start(&self.dfa, text, start, end) {
            Start::At(from) => Ok(Some((from, end))),
            _ => self.find_by_steps(alloc, text, start),
        }
    }

    // The same, by steps, but where no match can be.
    #[cold]
    fn find_by_steps(
        &mut self,
        alloc: Global,
        text: &[u8],
        start: usize,
    ) -> Result<Option<(usize, usize)>, AllocError>
        requires within { start ≤ length text.now }
        ensures same { self.new ≡ self.old }
        ensures found { IfOk result (λ found. found ≡ option_map span (find (expression self.old) text.now start)) }
    {
        if self.needles.are_missing(text, start) {
            return Ok(None);
        }
        self.steps.find(alloc, &self.dfa, text, start)
    }

    /// What the groups span in the leftmost match that starts at `start` or after it, as cells: from the first group on two
    /// for each, the places of its beginning and its end plus one, or 0 where it took no part.
    pub(crate) fn groups(
        &mut self,
        alloc: Global,
        text: &[u8],
        start: usize,
    ) -> Result<Vec<usize>, AllocError>
        requires within { start ≤ length text.now }
        ensures same { self.new ≡ self.old }
        ensures spans { IfOk result (λ cells. IfSome (find (expression self.old) text.now start) (λ m. SpansGroups false text.now m (span m) cells.items)) }
    {
        self.steps.groups(alloc, &self.dfa, text, start)
    }

    /// The span of the match after the one that ended at `after - 1`, or of the first match where `after` is 0.
    pub fn next(
        &mut self,
        alloc: Global,
        text: &[u8],
        after: usize,
    ) -> Result<Option<(usize, usize)>, AllocError>
        requires within { after ≤ length text.now + 1 }
        ensures same { self.new ≡ self.old }
        ensures found { IfOk result (λ found. found ≡ option_map span (next_match false (expression self.old) text.now after)) }
        ensures lies { IfOk result (λ found. IfSome found (λ s. LiesWithin (after - 1) (length text.now) s × (after ≤ s.1))) }
    {
        let Some((from, end)) = self.find(alloc, text, after.saturating_sub(1))? else {
            return Ok(None);
        };
        if end >= after {
            return Ok(Some((from, end)));
        }
        if after > text.len() {
            return Ok(None);
        }
        self.find(alloc, text, after)
    }
}
