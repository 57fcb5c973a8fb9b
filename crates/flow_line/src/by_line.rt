//! A part that works by line.

ghost use Rattle.std.specs.Prelude.{◌≡◌, None};

use crate::part::LinePart;
use crate::queue::Queue;
use crate::texts::Texts;
use flow_component::{Answer, Wish};
use flow_own::{Desk, Part, PartStop};
use std::alloc::Global;
use std::marker::Model;

/// A part that has a line part work on the text of each Normal packet, and sends what that puts, one text after another. Brackets pass.
#[derive(Drop)]
pub struct ByLine<L: LinePart> {
    queue: Queue<L>,
    // What it shows of itself: how many answers it gave, the last of them, and how many acts it did for that one.
    answers: u64,
    last: Option<Result<Wish, PartStop>>,
    acts: u64,
}

impl<L: LinePart> Model for ByLine<L> {
    ghost use Rattle.flow_line.specs.Steps.{Lining};

    ghost Value = { Lining L };

    ghost view = { λ b. record { queue = b.queue; seen = record { answers = b.answers; last = b.last; acts = b.acts } } };
}

// The same answer once more.
fn again(said: &Result<Wish, PartStop>) -> Result<Wish, PartStop>
    ensures { result ≡ said.now }
{
    *said
}

impl<L: LinePart> ByLine<L> {
    ghost use Rattle.std.specs.Prelude.{[], false};

    /// The part of this line part, which has heard nothing yet. Takes no memory.
    pub fn new(alloc: Global, part: L) -> ByLine<L>
        ensures { result ≡ record { queue = record { part = part; waiting = []; heard = false; ended = false }; seen = record { answers = 0; last = None; acts = 0 } } }
    {
        ByLine {
            queue: Queue {
                part,
                waiting: Texts::new(alloc),
                heard: false,
                ended: false,
            },
            answers: 0,
            last: None,
            acts: 0,
        }
    }
}

impl<L: LinePart> Part for ByLine<L> {
    ghost use Rattle.std.specs.Prelude.{◌≤◌};
    ghost use Rattle.flow_own.specs.Desks.{GoesOn};
    ghost use Rattle.flow_own.specs.Parts.{Answers};
    ghost use Rattle.flow_line.specs.Steps.{Steps};

    ghost seen = { λ b. b.seen };

    fn resume(&mut self, desk: &mut Desk<'_>, answer: Answer) -> Result<Wish, PartStop>
        ensures goes_on { GoesOn desk.old desk.new }
        ensures counts { self.old.seen.answers ≤ self.new.seen.answers }
        ensures answers { Answers self.old.seen self.new.seen result desk.old desk.new }
        ensures steps { Steps L.works answer result self.old.queue self.new.queue desk.old desk.new }
    {
        let (said, acts) = self.queue.step(desk, answer);
        if let Err(PartStop::NoMemory) = said {
            return Err(PartStop::NoMemory);
        }
        self.answers = self.answers.saturating_add(1);
        self.last = Some(again(&said));
        self.acts = acts;
        said
    }
}
