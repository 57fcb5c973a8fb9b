//! What each match of a pattern has within it.

ghost use Rattle.std.specs.Prelude.{◌≤◌, length, IfOk, IfSome, IsTrue};
ghost use Rattle.regex_meta.specs.Programs.{pattern_of};
ghost use Rattle.flow_pattern.specs.Needles.{AreNeeded, StandNowhere};

use regex_extract::required;
use regex_literal::{Bounded, Prefilter};
use regex_meta::Program;
use std::alloc::{AllocError, Global};
use std::marker::Model;

/// Texts of which each match of a pattern has one within it, where such are known. What has none of them needn't be gone
/// through by steps, and to look for them takes less than a nanosecond a byte.
pub(crate) struct Needles {
    sought: Option<Box<Prefilter>>,
}

impl Model for Needles {
    ghost use Rattle.std.specs.Prelude.{ℕ, List, Option, option_map};

    ghost Value = { Option (List (List ℕ)) };

    ghost view = { λ n. option_map (λ sought. sought.value) n.sought };
}

// Written out, so that a proof above sees one call here and not what all the fields let go.
impl Drop for Needles {
    fn drop(self) {
        let Needles { sought: _sought } = self;
    }
}

impl Needles {
    /// Those of a program.
    pub(crate) fn of(alloc: Global, program: &Program) -> Result<Needles, AllocError>
        ensures { IfOk result (λ needles. IfSome needles (AreNeeded (pattern_of program.now))) }
    {
        let Some(texts) = required(alloc, &program.hir)? else {
            return Ok(Needles { sought: None });
        };
        let Some(sought) = Prefilter::new(alloc, texts)? else {
            return Ok(Needles { sought: None });
        };
        let sought = Box::new(alloc, sought)?;
        Ok(Needles {
            sought: Some(sought),
        })
    }

    /// Says yes only where some are known, and none of them stands at this place of a text or behind it.
    pub(crate) fn are_missing(&self, text: &[u8], start: usize) -> bool
        requires within { start ≤ length text.now }
        ensures { IsTrue result → StandNowhere self.now text.now start }
    {
        let Some(sought) = &self.sought else {
            return false;
        };
        match sought.find_bounded(text, start) {
            Bounded::Missing => true,
            _ => false,
        }
    }
}
