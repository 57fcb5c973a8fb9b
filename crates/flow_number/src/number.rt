//! The part that numbers packets.

ghost use Rattle.std.specs.Prelude.{◌≡◌, ◌+◌, ◌++◌, ◌∷◌, IfOk, None};
ghost use Rattle.std.specs.Fmt.{decimal};
ghost use Rattle.flow_own.specs.Desks.{GoesOn, count_acts};

use flow_component::{Answer, Port, Wish};
use flow_own::{Desk, DeskStop, Part, PartStop};
use flow_packet::{Kind, PacketId};
use flow_text::put_decimal;
use std::alloc::{AllocError, Global};
use std::marker::Model;

/// Numbers the Normal packets of its input from 1: each leaves as a new packet with the number, a space and the text. Brackets pass. It
/// fails with 1 where such a text would be too long, and with 2 where there is no room for the packet.
#[derive(Drop)]
pub struct Number {
    alloc: Global,
    numbered: u64,
    // What it shows of itself: how many answers it gave, the last of them, and how many acts it did for that one.
    answers: u64,
    last: Option<Result<Wish, PartStop>>,
    acts: u64,
}

// Contracts see of it what it shows, and nothing else.
impl Model for Number {
    ghost use Rattle.flow_own.specs.Parts.{Seen};

    ghost Value = { Seen };

    ghost view = { λ n. record { answers = n.answers; last = n.last; acts = n.acts } };
}

// The number, a space and the text.
fn numbered_text(alloc: Global, number: u64, text: &[u8]) -> Result<Vec<u8>, AllocError>
    ensures { IfOk result (λ line. line.items ≡ decimal number ++ 32 ∷ text.now) }
{
    let mut line = Vec::new(alloc);
    put_decimal(&mut line, number)?;
    line.push(b' ')?;
    line.extend_from_slice(text)?;
    Ok(line)
}

impl Number {
    /// A part that has numbered nothing yet. Takes no memory.
    pub fn new(alloc: Global) -> Number
        ensures { result ≡ record { answers = 0; last = None; acts = 0 } }
    {
        Number {
            alloc,
            numbered: 0,
            answers: 0,
            last: None,
            acts: 0,
        }
    }
}

// The same answer once more.
fn again(said: &Result<Wish, PartStop>) -> Result<Wish, PartStop>
    ensures { result ≡ said.now }
{
    *said
}

impl Number {
    // Makes the numbered packet, drops the received one, and wishes to send. It also tells how many acts were kept.
    fn number(&mut self, desk: &mut Desk<'_>, id: PacketId) -> (Result<Wish, PartStop>, u64)
        ensures goes_on { GoesOn desk.old desk.new }
        ensures acts { count_acts desk.new.made desk.new.dropped ≡ count_acts desk.old.made desk.old.dropped + result.1 }
        ensures shown { self.new ≡ self.old }
    {
        let number = self.numbered.saturating_add(1);
        let Some(text) = desk.text(id) else {
            return (Err(PartStop::Fail(3)), 0);
        };
        let Ok(text) = numbered_text(self.alloc, number, text) else {
            return (Err(PartStop::NoMemory), 0);
        };
        let made = match desk.make(Kind::Normal, &text) {
            Ok(made) => made,
            Err(DeskStop::TextLimit(_)) => return (Err(PartStop::Fail(1)), 0),
            Err(DeskStop::NoMemory) => return (Err(PartStop::NoMemory), 0),
            Err(_) => return (Err(PartStop::Fail(2)), 0),
        };
        match desk.drop_packet(id) {
            Ok(()) => {
                self.numbered = number;
                (Ok(Wish::Send(Port(0), made)), 2)
            }
            Err(DeskStop::NoMemory) => (Err(PartStop::NoMemory), 1),
            Err(_) => (Err(PartStop::Fail(3)), 1),
        }
    }

    fn work(&mut self, desk: &mut Desk<'_>, answer: Answer) -> (Result<Wish, PartStop>, u64)
        ensures goes_on { GoesOn desk.old desk.new }
        ensures acts { count_acts desk.new.made desk.new.dropped ≡ count_acts desk.old.made desk.old.dropped + result.1 }
        ensures shown { self.new ≡ self.old }
    {
        match answer {
            Answer::Got(id) => match desk.kind(id) {
                Some(Kind::Normal) => self.number(desk, id),
                _ => (Ok(Wish::Send(Port(0), id)), 0),
            },
            Answer::End => (Ok(Wish::Deactivate), 0),
            _ => (Ok(Wish::Receive(Port(0))), 0),
        }
    }
}

impl Part for Number {
    ghost seen = { λ shown. shown };

    fn resume(&mut self, desk: &mut Desk<'_>, answer: Answer) -> Result<Wish, PartStop> {
        let (said, acts) = self.work(desk, answer);
        if let Err(PartStop::NoMemory) = said {
            return Err(PartStop::NoMemory);
        }
        self.answers = self.answers.saturating_add(1);
        self.last = Some(again(&said));
        self.acts = acts;
        said
    }
}
