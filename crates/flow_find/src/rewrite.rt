//! What replaces the matches of a pattern by what a template makes of each.

ghost use Rattle.std.specs.Prelude.{◌≡◌, ℕ, List, IfOk};
ghost use Rattle.flow_limits.specs.declared.TheConstants.{TEXT_LIMIT};
ghost use Rattle.flow_pattern.specs.Pattern.{IsPattern, Replacement};
ghost use Rattle.flow_pattern.specs.Rewriting.{IsRefilled};
ghost use Rattle.flow_pattern.specs.Template.{IsTemplate};
ghost use Rattle.flow_map.specs.Plain.{once_next};
ghost use Rattle.flow_map.specs.Telling.{Tells};
ghost use Rattle.flow_find.specs.Rewrite.{rewritten_text};

use flow_limits::TEXT_LIMIT;
use flow_map::{Made, Maps, Told};
use flow_packet::Kind;
use flow_pattern::{Filler, Rewritten};
use std::alloc::{AllocError, Global};
use std::marker::Model;

/// Replaces each Normal packet in which a pattern matches by one with the new text. Any other goes on itself: to the
/// second output, where that is connected, and else to the first.
// What searches lies in a box: it is large, and a component is moved at each turn.
#[derive(Drop)]
pub struct Rewrite {
    alloc: Global,
    filler: Box<Filler>,
    rest: bool,
}

impl Model for Rewrite {
    ghost use Rattle.flow_find.specs.Rewrite.{Rewriting};

    ghost Value = { Rewriting };

    ghost view = { λ r. record { by = r.filler.value; rest = r.rest } };
}

// What is told of a text by what came of it.
fn last(written: Rewritten) -> Told
    ensures { (by : Replacement) (text : List ℕ) → IsRefilled by text TEXT_LIMIT written → Tells text result (once_next (rewritten_text by text)) }
{
    match written {
        Rewritten::New(new) => Told::Last(Made::Text(new)),
        Rewritten::TooLong(count) => Told::TooLong(count),
        Rewritten::Same => Told::Itself,
    }
}

impl Rewrite {
    /// What puts what this template makes of a match in its place; `rest` tells whether the second output is connected.
    pub fn new(
        alloc: Global,
        pattern: &[u8],
        with: &[u8],
        rest: bool,
    ) -> Result<Rewrite, AllocError>
        requires pattern { IsPattern pattern.now }
        requires template { IsTemplate pattern.now with.now }
        ensures { IfOk result (λ r. r ≡ record { by = record { pattern = pattern.now; with = with.now }; rest = rest }) }
    {
        let filler = Filler::new(alloc, pattern, with)?;
        let filler = Box::new(alloc, filler)?;
        Ok(Rewrite {
            alloc,
            filler,
            rest,
        })
    }
}

impl Maps for Rewrite {
    ghost use Rattle.flow_find.specs.Rewrite.{rewrite_mapping, rewrite_becoming};
    ghost use Rattle.flow_find.specs.RewriteLaws.{rewrite_laws, rewrite_becomes};

    ghost mapping = { rewrite_mapping };

    ghost becoming = { rewrite_becoming };

    fn second(&self) -> Option<bool> {
        Some(self.rest)
    }

    fn next(&mut self, text: &[u8], _place: usize) -> Result<Told, AllocError> {
        let written = self.filler.rewritten(self.alloc, text, TEXT_LIMIT)?;
        Ok(last(written))
    }

    fn pass(&mut self, _kind: Kind, _text: &[u8]) {}

    ghost laws = { rewrite_laws };

    ghost becomes = { rewrite_becomes };
}
