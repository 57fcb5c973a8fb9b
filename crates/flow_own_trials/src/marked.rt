//! Parts that tell when they are dropped, or which they are.
ghost use Rattle.std.specs.Prelude.{◌≡◌, ◌+◌, IfOk, None};
ghost use Rattle.flow_own.specs.Desks.{GoesOn, count_acts};

use crate::kinds::again;
use flow_component::{Answer, Port, Wish};
use flow_own::{Desk, DeskStop, Part, PartStop};
use flow_packet::Kind;
use flow_text::put_decimal;
use std::alloc::{AllocError, Global};
use std::marker::Model;
use std::sync::Arc;
use std::sync::atomic::{AtomicU64, Ordering};

/// How many marks are dropped.
pub type Drops = Arc<AtomicU64, Global>;

/// Counts its drop.
struct DropMark {
    drops: Drops,
}

impl Drop for DropMark {
    fn drop(self) {
        self.drops.fetch_add(1, Ordering::SeqCst);
        let DropMark { drops: _ } = self;
    }
}

/// What a part sends at its end, as the text of a packet.
#[derive(Clone, Copy, Debug, PartialEq, Eq)]
pub enum Tells {
    Nothing,
    /// How many parts were dropped by then.
    Drops,
    /// Its own number.
    Number(u64),
}

/// Passes each packet on, and tells something at its end.
#[derive(Drop)]
pub struct Marked {
    alloc: Global,
    mark: DropMark,
    tells: Tells,
    answers: u64,
    last: Option<Result<Wish, PartStop>>,
    acts: u64,
}

impl Model for Marked {
    ghost use Rattle.flow_own.specs.Parts.{Seen};

    ghost Value = { Seen };

    ghost view = { λ m. record { answers = m.answers; last = m.last; acts = m.acts } };
}

fn digits(alloc: Global, number: u64) -> Result<Vec<u8>, AllocError> {
    let mut text = Vec::new(alloc);
    put_decimal(&mut text, number)?;
    Ok(text)
}

impl Marked {
    pub fn new(alloc: Global, drops: &Drops, tells: Tells) -> Result<Marked, AllocError>
        ensures { IfOk result (λ part. part ≡ record { answers = 0; last = None; acts = 0 }) }
    {
        let drops = Arc::try_clone(drops)?;
        Ok(Marked {
            alloc,
            mark: DropMark { drops },
            tells,
            answers: 0,
            last: None,
            acts: 0,
        })
    }

    // Makes the packet with this number, once, and wishes to send it. It also tells how many acts were kept.
    fn tell(&mut self, desk: &mut Desk<'_>, number: u64) -> (Result<Wish, PartStop>, u64)
        ensures goes_on { GoesOn desk.old desk.new }
        ensures acts { count_acts desk.new.made desk.new.dropped ≡ count_acts desk.old.made desk.old.dropped + result.1 }
        ensures shown { self.new ≡ self.old }
    {
        let Ok(text) = digits(self.alloc, number) else {
            return (Err(PartStop::NoMemory), 0);
        };
        match desk.make(Kind::Normal, &text) {
            Ok(made) => {
                self.tells = Tells::Nothing;
                (Ok(Wish::Send(Port(0), made)), 1)
            }
            Err(DeskStop::NoMemory) => (Err(PartStop::NoMemory), 0),
            Err(_) => (Err(PartStop::Fail(1)), 0),
        }
    }

    fn work(&mut self, desk: &mut Desk<'_>, answer: Answer) -> (Result<Wish, PartStop>, u64)
        ensures goes_on { GoesOn desk.old desk.new }
        ensures acts { count_acts desk.new.made desk.new.dropped ≡ count_acts desk.old.made desk.old.dropped + result.1 }
        ensures shown { self.new ≡ self.old }
    {
        match answer {
            Answer::Got(id) => (Ok(Wish::Send(Port(0), id)), 0),
            Answer::End => match self.tells {
                Tells::Nothing => (Ok(Wish::Deactivate), 0),
                Tells::Drops => {
                    let drops = self.mark.drops.load(Ordering::SeqCst);
                    self.tell(desk, drops)
                }
                Tells::Number(number) => self.tell(desk, number),
            },
            _ => (Ok(Wish::Receive(Port(0))), 0),
        }
    }
}

impl Part for Marked {
    ghost seen = { λ shown. shown };

    fn resume(&mut self, desk: &mut Desk<'_>, answer: Answer) -> Result<Wish, PartStop> {
        let (said, acts) = self.work(desk, answer);
        if let Err(PartStop::NoMemory) = said {
            return Err(PartStop::NoMemory);
        }
        self.answers = self.answers.saturating_add(1);
        self.last = Some(again(&said));
        self.acts = acts;
        said
    }
}
