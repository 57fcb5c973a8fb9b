//! What splits texts at the matches of a pattern.

ghost use Rattle.std.specs.Prelude.{◌≡◌, ◌≤◌, ℕ, List, IfOk, IfSome};
ghost use Rattle.flow_pattern.specs.Pattern.{IsPattern};
ghost use Rattle.flow_map.specs.Mapping.{Next};
ghost use Rattle.flow_map.specs.Telling.{IsMadeOf, Tells, product_of};
ghost use Rattle.flow_find.specs.Cuts.{IsCut};
ghost use Rattle.flow_find.specs.Pieces.{end_place};
ghost use Rattle.flow_find.specs.Split.{bracket, bracketed_next, inside, piece_next};

use flow_map::{Made, Maps, Told};
use flow_packet::Kind;
use flow_pattern::Locator;
use std::alloc::{AllocError, Global};
use std::marker::Model;

/// Replaces each Normal packet by the texts between the matches of a pattern in its own, in brackets where that is asked.
// What searches lies in a box: it is large, and a component is moved at each turn.
#[derive(Drop)]
pub struct Split {
    alloc: Global,
    locator: Box<Locator>,
    bracketed: bool,
}

impl Model for Split {
    ghost use Rattle.flow_find.specs.Split.{Splitting};

    ghost Value = { Splitting };

    ghost view = { λ s. record { pattern = s.locator.value; bracketed = s.bracketed } };
}

// The next piece of a text, and the place from which more comes behind it, where it isn't the last.
#[derive(Clone, Copy, Debug)]
pub(crate) struct Cut {
    start: usize,
    end: usize,
    next: Option<usize>,
}

// A bracket without a text.
fn bracket(kind: Kind) -> Made
    ensures made { (text : List ℕ) → IsMadeOf text result }
    ensures product { (text : List ℕ) → product_of text result ≡ bracket kind }
{
    Made::Piece {
        kind,
        start: 0,
        end: 0,
    }
}

// A Normal packet for a piece.
fn piece(cut: Cut) -> Made
    ensures { result ≡ Made.Piece Kind.Normal cut.start cut.end }
{
    Made::Piece {
        kind: Kind::Normal,
        start: cut.start,
        end: cut.end,
    }
}

// What is told of a piece.
fn plainly(cut: Cut) -> Told
    ensures { (text : List ℕ) (next : Next) → IsCut text cut next → Tells text result next }
{
    let made = piece(cut);
    match cut.next {
        Some(place) => Told::More(made, place),
        None => Told::Last(made),
    }
}

// What is told of a piece in brackets, where each place is one more, and the closing bracket comes from the last.
fn within_brackets(cut: Cut, text: &[u8]) -> Told
    requires { IfSome cut.next (λ place. place ≤ end_place text.now) }
    ensures { (next : Next) → IsCut text.now cut next → Tells text.now result (inside text.now next) }
{
    let made = piece(cut);
    match cut.next {
        Some(place) => Told::More(made, place + 1),
        None => Told::More(made, text.len() + 3),
    }
}

impl Split {
    /// What splits texts at the matches of this pattern.
    pub fn new(alloc: Global, pattern: &[u8], bracketed: bool) -> Result<Split, AllocError>
        requires pattern { IsPattern pattern.now }
        ensures { IfOk result (λ s. s ≡ record { pattern = pattern.now; bracketed = bracketed }) }
    {
        let locator = Locator::new(alloc, pattern)?;
        let locator = Box::new(alloc, locator)?;
        Ok(Split {
            alloc,
            locator,
            bracketed,
        })
    }

    // The piece that comes next. Place 0 is that before any match, and place n + 1 that behind one that ended at n.
    fn next_cut(&mut self, text: &[u8], place: usize) -> Result<Cut, AllocError>
        requires within { place ≤ end_place text.now }
        ensures same { self.new ≡ self.old }
        ensures cut { IfOk result (λ cut. IsCut text.now cut (piece_next self.old.pattern text.now place)) }
    {
        let start = place.saturating_sub(1);
        let Some((end, after)) = self.locator.next(self.alloc, text, place)? else {
            return Ok(Cut {
                start,
                end: text.len(),
                next: None,
            });
        };
        Ok(Cut {
            start,
            end,
            next: Some(after + 1),
        })
    }

    // What comes next in brackets.
    fn next_in_brackets(&mut self, text: &[u8], place: usize) -> Result<Told, AllocError>
        ensures same { self.new ≡ self.old }
        ensures told { IfOk result (λ told. Tells text.now told (bracketed_next self.old.pattern text.now place)) }
    {
        if place == 0 {
            return Ok(Told::More(bracket(Kind::Open), 1));
        }
        if place - 1 > text.len() + 1 {
            return Ok(Told::Last(bracket(Kind::Close)));
        }
        let cut = self.next_cut(text, place - 1)?;
        Ok(within_brackets(cut, text))
    }

    // What comes next without.
    fn next_plainly(&mut self, text: &[u8], place: usize) -> Result<Told, AllocError>
        requires within { place ≤ end_place text.now }
        ensures same { self.new ≡ self.old }
        ensures told { IfOk result (λ told. Tells text.now told (piece_next self.old.pattern text.now place)) }
    {
        let cut = self.next_cut(text, place)?;
        Ok(plainly(cut))
    }
}

impl Maps for Split {
    ghost use Rattle.flow_find.specs.Split.{split_mapping, split_becoming};
    ghost use Rattle.flow_find.specs.SplitLaws.{split_laws, split_becomes};

    ghost mapping = { split_mapping };

    ghost becoming = { split_becoming };

    fn second(&self) -> Option<bool> {
        None
    }

    fn next(&mut self, text: &[u8], place: usize) -> Result<Told, AllocError> {
        if self.bracketed {
            return self.next_in_brackets(text, place);
        }
        self.next_plainly(text, place)
    }

    fn pass(&mut self, _kind: Kind, _text: &[u8]) {}

    ghost laws = { split_laws };

    ghost becomes = { split_becomes };
}
