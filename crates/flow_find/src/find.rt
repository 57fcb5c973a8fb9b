//! What sends what a template makes of the matches of a pattern.

ghost use Rattle.std.specs.Prelude.{◌≡◌, ℕ, List, IfOk};
ghost use Rattle.flow_limits.specs.declared.TheConstants.{TEXT_LIMIT};
ghost use Rattle.flow_pattern.specs.Pattern.{IsPattern};
ghost use Rattle.flow_pattern.specs.Rewriting.{Tells as IsTold};
ghost use Rattle.flow_pattern.specs.Template.{IsTemplate, whole_match};
ghost use Rattle.flow_map.specs.Mapping.{More};
ghost use Rattle.flow_map.specs.Telling.{Tells};
ghost use Rattle.flow_find.specs.Pieces.{text_product};

use flow_limits::TEXT_LIMIT;
use flow_map::{Made, Maps, Told};
use flow_packet::Kind;
use flow_pattern::{Filler, Rewritten};
use std::alloc::{AllocError, Global};
use std::marker::Model;

/// Replaces each Normal packet by what a template makes of the matches of a pattern in its text.
// What searches lies in a box: it is large, and a component is moved at each turn.
#[derive(Drop)]
pub struct Find {
    alloc: Global,
    filler: Box<Filler>,
}

impl Model for Find {
    ghost use Rattle.flow_pattern.specs.Pattern.{Replacement};

    ghost Value = { Replacement };

    ghost view = { λ f. f.filler.value };
}

// What is told of what a template makes of a match, before what comes from this place on.
fn more(made: Rewritten, place: usize) -> Told
    ensures { (text whole : List ℕ) → IsTold TEXT_LIMIT whole made → Tells text result (More (text_product whole) place) }
{
    match made {
        Rewritten::New(new) => Told::More(Made::Text(new), place),
        Rewritten::TooLong(count) => Told::TooLong(count),
        // That is told of a text in which nothing matches, and not of a match.
        Rewritten::Same => Told::Itself,
    }
}

impl Find {
    /// What sends the matches of this pattern themselves.
    pub fn new(alloc: Global, pattern: &[u8]) -> Result<Find, AllocError>
        requires pattern { IsPattern pattern.now }
        ensures { IfOk result (λ f. f ≡ record { pattern = pattern.now; with = whole_match }) }
    {
        let filler = Filler::of_whole(alloc, pattern)?;
        let filler = Box::new(alloc, filler)?;
        Ok(Find { alloc, filler })
    }

    /// What sends what this template makes of the matches of this pattern.
    pub fn filling(alloc: Global, pattern: &[u8], with: &[u8]) -> Result<Find, AllocError>
        requires pattern { IsPattern pattern.now }
        requires template { IsTemplate pattern.now with.now }
        ensures { IfOk result (λ f. f ≡ record { pattern = pattern.now; with = with.now }) }
    {
        let filler = Filler::new(alloc, pattern, with)?;
        let filler = Box::new(alloc, filler)?;
        Ok(Find { alloc, filler })
    }
}

impl Maps for Find {
    ghost use Rattle.flow_find.specs.Find.{find_mapping, find_becoming};
    ghost use Rattle.flow_find.specs.FindLaws.{find_laws, find_becomes};

    ghost mapping = { find_mapping };

    ghost becoming = { find_becoming };

    fn second(&self) -> Option<bool> {
        None
    }

    fn next(&mut self, text: &[u8], place: usize) -> Result<Told, AllocError> {
        let Some((made, end)) = self.filler.next(self.alloc, text, place, TEXT_LIMIT)? else {
            return Ok(Told::Over);
        };
        Ok(more(made, end + 1))
    }

    fn pass(&mut self, _kind: Kind, _text: &[u8]) {}

    ghost laws = { find_laws };

    ghost becomes = { find_becomes };
}
