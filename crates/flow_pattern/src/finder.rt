//! Whether a pattern matches in a text.

ghost use Rattle.std.specs.Prelude.{◌≡◌, IfOk, IfSome};
ghost use Rattle.regex.specs.Patterns.{SameCaptures};
ghost use Rattle.regex_meta.specs.Programs.{pattern_of};
ghost use Rattle.flow_pattern.specs.Automata.{Serves};
ghost use Rattle.flow_pattern.specs.Needles.{AreNeeded};
ghost use Rattle.flow_pattern.specs.declared.finder.Uncompiled.TheVariants.{NoMemory};
ghost use Rattle.flow_pattern.specs.Pattern.{IsPattern, expression, matches};

use crate::needles::Needles;
use crate::reading::read;
use crate::steps::Steps;
use regex_compile::Error;
use regex_dfa::{Dfa, End, Forward};
use regex_meta::Program;
use regex_syntax::Parsed;
use std::alloc::{AllocError, Global};
use std::marker::Model;
use std::str;

// About how many bytes a compiled pattern may take, as in the crate regex.
const SIZE_LIMIT: usize = 10 << 20;

/// A pattern, compiled, with what its searches have built so far. It is seen as the pattern's text.
///
/// The crate's own `Matcher` is borrowed from its `Regex`, so that a component can't keep one, and to make one takes
/// some thirty times as long as to search a line. So this keeps the automaton by which a `Matcher` finds the end of a
/// match, and goes through a text by steps where that gives up.
pub struct Finder {
    text: Vec<u8>,
    dfa: Dfa,
    forward: Forward,
    needles: Needles,
    steps: Steps,
}

impl Model for Finder {
    ghost use Rattle.std.specs.Prelude.{ℕ, List};
    ghost use Rattle.std.specs.Prelude.{◌≡◌, IfSome, false};
    ghost use Rattle.regex_dfa.specs.Search.{IsForwardFor, stops_when_idle};
    ghost use Rattle.flow_pattern.specs.Automata.{Serves};
    ghost use Rattle.flow_pattern.specs.Needles.{AreNeeded};
    ghost use Rattle.flow_pattern.specs.Pattern.{expression};
    ghost use Rattle.flow_pattern.specs.Steps.{HasRoomFor};

    ghost Value = { List ℕ };

    ghost view = { λ f. f.text.items };

    ghost invariant = { λ f. IsForwardFor f.forward f.dfa × (stops_when_idle f.forward ≡ false) × Serves f.dfa f.text.items × HasRoomFor f.dfa f.steps × IfSome f.needles (AreNeeded (expression f.text.items)) };
}

// Written out, so that a proof above sees one call here and not what all the fields let go.
impl Drop for Finder {
    fn drop(self) {
        let Finder {
            text: _text,
            dfa: _dfa,
            forward: _forward,
            needles: _needles,
            steps: _steps,
        } = self;
    }
}

// Why a pattern isn't compiled.
#[derive(Clone, Copy, PartialEq, Eq, Debug)]
pub(crate) enum Uncompiled {
    /// Its program would take more than it may.
    TooLarge,
    NoMemory,
}

impl From<AllocError> for Uncompiled {
    ghost from_gives = { λ _ e. e ≡ NoMemory };

    fn from(_: AllocError) -> Uncompiled {
        Uncompiled::NoMemory
    }
}

// Compiles a pattern.
pub(crate) fn compiled(alloc: Global, source: &str) -> Result<Program, Uncompiled>
    requires pattern { IsPattern source.now }
    ensures { IfOk result (λ p. SameCaptures (pattern_of p) (expression source.now)) }
{
    let Ok(Parsed { hir, names }) = read(alloc, source)? else {
        unreachable!()
    };
    let Ok(groups) = u32::try_from(names.len()) else {
        return Err(Uncompiled::TooLarge);
    };
    match Program::new(alloc, hir, groups, SIZE_LIMIT) {
        Ok(program) => Ok(program),
        Err(Error::TooBig) => Err(Uncompiled::TooLarge),
        Err(Error::OutOfMemory) => Err(Uncompiled::NoMemory),
        Err(Error::Malformed) => unreachable!(),
    }
}

// What a pattern is searched by: its automaton, and what each match has within it.
#[derive(Drop)]
pub(crate) struct Means {
    pub dfa: Dfa,
    pub needles: Needles,
}

// What a pattern is searched by.
pub(crate) fn means_for(alloc: Global, source: &str) -> Result<Means, Uncompiled>
    requires pattern { IsPattern source.now }
    ensures serves { IfOk result (λ means. Serves means.dfa source.now) }
    ensures needed { IfOk result (λ means. IfSome means.needles (AreNeeded (expression source.now))) }
{
    let program = compiled(alloc, source)?;
    let needles = Needles::of(alloc, &program)?;
    let Program { dfa, .. } = program;
    Ok(Means { dfa, needles })
}

// What the pattern is searched by that these bytes are. One that takes more than it may finds no memory.
pub(crate) fn means_of(alloc: Global, pattern: &[u8]) -> Result<Means, AllocError>
    requires pattern { IsPattern pattern.now }
    ensures serves { IfOk result (λ means. Serves means.dfa pattern.now) }
    ensures needed { IfOk result (λ means. IfSome means.needles (AreNeeded (expression pattern.now))) }
{
    let Ok(source) = str::from_utf8(pattern) else {
        unreachable!()
    };
    match means_for(alloc, source) {
        Ok(means) => Ok(means),
        Err(_) => Err(AllocError),
    }
}

impl Finder {
    /// Compiles a pattern. One whose program has more than some 10 MiB finds no memory.
    pub fn new(alloc: Global, pattern: &[u8]) -> Result<Finder, AllocError>
        requires pattern { IsPattern pattern.now }
        ensures { IfOk result (λ finder. finder ≡ pattern.now) }
    {
        let Means { dfa, needles } = means_of(alloc, pattern)?;
        let forward = Forward::new(alloc, &dfa, false)?;
        let text = Vec::from_slice(alloc, pattern)?;
        Ok(Finder {
            text,
            dfa,
            forward,
            needles,
            steps: Steps::new(),
        })
    }

    /// Whether the pattern matches somewhere in the text. Takes memory where the automaton first gives up, which it does
    /// for a few patterns with assertions on Unicode words and where its tables have filled too often.
    pub fn matches(&mut self, alloc: Global, text: &[u8]) -> Result<bool, AllocError>
        ensures same { self.new ≡ self.old }
        ensures found { IfOk result (λ found. found ≡ matches self.old text.now) }
    {
        match self
            .forward
            .find_end(&self.dfa, text, 0, text.len(), false, true)
        {
            End::At(_) => Ok(true),
            End::NoMatch => Ok(false),
            End::Idle(_) => unreachable!(),
            End::GaveUp => self.matches_by_steps(alloc, text),
        }
    }

    // The same, by steps, but where no match can be.
    #[cold]
    fn matches_by_steps(&mut self, alloc: Global, text: &[u8]) -> Result<bool, AllocError>
        ensures same { self.new ≡ self.old }
        ensures found { IfOk result (λ found. found ≡ matches self.old text.now) }
    {
        if self.needles.are_missing(text, 0) {
            return Ok(false);
        }
        self.steps.is_match(alloc, &self.dfa, text, 0)
    }
}
