//! A component of the caller's own in a network: a live part, or the player of a tape.

ghost use Rattle.std.specs.Prelude.{◌≡◌, ◌+◌, ◌<◌, ◌==◌, ◌++◌, ◌∷◌, [], ℕ, Some, None, Ok, Err, is_some, IfSome, IsNone, true, false, length};
ghost use Rattle.std.specs.List.{list_any};
ghost use Rattle.flow_packet.specs.Held.{held_of};
ghost use Rattle.flow_component.specs.Resumes.{Resumes};
ghost use Rattle.flow_own.specs.Acts.{IsActs};
ghost use Rattle.flow_own.specs.Parts.{IsAsked};
ghost use Rattle.flow_own.specs.Ends.{end_by};
ghost use Rattle.flow_own.specs.Recorded.{IsTapeWritable};
ghost use Rattle.flow_own.specs.Tapes.{result_by, OwnReady, OwnNext, own_state};
ghost use Rattle.flow_own.specs.Taping.{IsEntry, Tapes, IsTaped};

use crate::acts::act;
use crate::desk::Desk;
use crate::part::{Part, PartStop};
use crate::play::{is_used, play};
use crate::tape::{End, Entry, Tape};
use flow_component::{Answer, Component, Fail, OwnFail, Port, Shape, Stop, Wish};
use flow_items::{Items, Text};
use flow_limits::TAPE_LIMIT;
use flow_packet::{Hands, Kind, PacketId};
use std::alloc::Global;
use std::marker::Model;

/// A component of the caller's own: a live part with the tape of what it did so far, or a player of a tape.
#[derive(Drop)]
pub struct Own<P: Part> {
    part: Option<P>,
    /// Of a player, how many entries it has given.
    place: Option<usize>,
    tape: Tape,
    shape: Shape,
    used: Items<u32>,
}

impl<P: Part> Model for Own<P> {
    ghost use Rattle.std.specs.Option.{option_map};
    ghost use Rattle.flow_own.specs.Tapes.{OwnValue, IsOwn};

    ghost Value = { OwnValue };

    ghost view = { λ o. record { part = option_map (λ part. P.seen part) o.part; place = o.place; tape = o.tape; shape = o.shape; used = o.used } };

    ghost invariant = { λ o. IsOwn (record { part = option_map (λ part. P.seen part) o.part; place = o.place; tape = o.tape; shape = o.shape; used = o.used }) };
}

// Asks the part, over a desk with these hands.
fn ask<P: Part>(
    alloc: Global,
    part: &mut P,
    hands: &Hands,
    answer: &Answer,
) -> (Result<Wish, PartStop>, Option<(Kind, Text)>, Vec<PacketId>)
    requires { hands.now.made < 4294967295 }
    ensures can { IsActs (held_of hands.now) result.1 result.2.items }
    ensures asked { IsAsked P.resumed (P.seen part.old) (P.seen part.new) (held_of hands.now) answer.now result.0 result.1 result.2.items }
{
    let mut desk = Desk::new(alloc, hands);
    let said = part.resume(&mut desk, *answer);
    let (made, dropped) = desk.into_acts();
    (said, made, dropped)
}

// The wish, where it may be granted with these hands.
fn end_by(shape: Shape, used: &[u32], hands: &Hands, wish: Wish) -> End
    ensures { result ≡ end_by shape used.now (held_of hands.now) wish }
{
    let (allowed, port) = match wish {
        Wish::Receive(port) => (port.0 < shape.inputs, port),
        Wish::Send(port, id) => {
            if !hands.has(id) {
                return End::Fail(OwnFail::Packet(id.number()));
            }
            (is_used(used, port), port)
        }
        Wish::Level(port) => (is_used(used, port), port),
        Wish::Deactivate => return End::Wish(wish),
    };
    if allowed {
        End::Wish(wish)
    } else {
        End::Fail(OwnFail::Port(port.0))
    }
}

// What a resume comes to that ends so.
fn result_of(end: End) -> Result<Wish, Stop>
    ensures { result ≡ result_by end }
{
    match end {
        End::Wish(wish) => Ok(wish),
        End::Fail(cause) => Err(Stop::Fail(Fail::Own(cause))),
    }
}

// Asks the part and does its acts. None: there was no memory, and the hands are as before.
fn entry_of<P: Part>(
    alloc: Global,
    part: &mut P,
    hands: &mut Hands,
    answer: &Answer,
    shape: Shape,
    used: &[u32],
) -> Option<Entry>
    requires { hands.old.made < 4294967295 }
    ensures some { IfSome result (λ entry. IsEntry P.resumed (P.seen part.old) (P.seen part.new) shape used.now hands.old hands.new answer.now entry) }
    ensures none { IsNone result → (held_of hands.new ≡ held_of hands.old) × (hands.new.dropped ≡ hands.old.dropped) }
{
    let (said, made, dropped) = ask(alloc, part, hands, answer);
    let said = match said {
        Ok(wish) => Ok(wish),
        Err(PartStop::Fail(number)) => Err(number),
        Err(PartStop::NoMemory) => return None,
    };
    let mut entry = Entry {
        answer: *answer,
        made,
        dropped: Items::of(dropped),
        end: End::Fail(OwnFail::Differs),
    };
    if !act(hands, &entry) {
        return None;
    }
    entry.end = match said {
        Ok(wish) => end_by(shape, used, hands, wish),
        Err(number) => End::Fail(OwnFail::Own(number)),
    };
    Some(entry)
}

// The entry with which a tape reaches its limit.
fn last_entry(alloc: Global, answer: &Answer) -> Entry
    ensures { result ≡ record { answer = answer.now; made = None; dropped = []; end = End.Fail OwnFail.TapeLimit } }
{
    Entry {
        answer: *answer,
        made: None,
        dropped: Items::new(alloc),
        end: End::Fail(OwnFail::TapeLimit),
    }
}

// Asks the part, does its acts, and adds their entry to the tape; or adds the last entry that the tape may have.
fn record<P: Part>(
    part: &mut P,
    tape: &mut Tape,
    hands: &mut Hands,
    answer: &Answer,
    shape: Shape,
    used: &[u32],
) -> Result<Wish, Stop>
    requires room { hands.old.made < 4294967295 }
    requires within { length tape.old < TAPE_LIMIT }
    ensures { Tapes P.resumed (P.seen part.old) (P.seen part.new) shape used.now tape.old tape.new hands.old hands.new answer.now result }
{
    let alloc = *tape.entries.allocator();
    if tape.entries.reserve(1).is_err() {
        return Err(Stop::NoMemory);
    }
    if tape.len() + 1 == TAPE_LIMIT {
        let last = last_entry(alloc, answer);
        let end = last.end;
        tape.entries.push_reserved(last);
        return result_of(end);
    }
    let Some(entry) = entry_of(alloc, part, hands, answer, shape, used) else {
        return Err(Stop::NoMemory);
    };
    let end = entry.end;
    tape.entries.push_reserved(entry);
    result_of(end)
}

impl<P: Part> Own<P> {
    /// A live part, with an empty tape.
    pub fn live(alloc: Global, part: P, shape: Shape, used: Items<u32>) -> Own<P>
        ensures { result ≡ record { part = Some (P.seen part); place = None; tape = []; shape = shape; used = used } }
    {
        Own {
            part: Some(part),
            place: None,
            tape: Tape::new(alloc),
            shape,
            used,
        }
    }

    /// The player of a tape, before its first entry.
    pub fn player(tape: Tape, shape: Shape, used: Items<u32>) -> Own<P>
        ensures { result ≡ record { part = None; place = Some 0; tape = tape; shape = shape; used = used } }
    {
        Own {
            part: None,
            place: Some(0),
            tape,
            shape,
            used,
        }
    }

    pub fn tape(&self) -> &Tape
        ensures tape { result.now ≡ self.now.tape }
        ensures recorded { self.now.place ≡ None → IsTapeWritable self.now.tape }
    {
        &self.tape
    }

    /// It is a live part, which wasn't told its end.
    pub fn is_live(&self) -> bool
        ensures { result ≡ is_some self.now.part }
    {
        self.part.is_some()
    }

    // Has the part resumed, and adds an entry to the tape.
    fn resume_live(&mut self, hands: &mut Hands, answer: Answer) -> Result<Wish, Stop>
        requires live { is_some self.old.part ≡ true }
        requires ready { OwnReady (own_state self.old) (held_of hands.old) answer }
        requires room { hands.old.made < 4294967295 }
        ensures resumes { Resumes OwnNext (own_state self.old) hands.old answer result (own_state self.new) hands.new }
        ensures taped { IsTaped P.resumed self.old self.new hands.old hands.new answer result }
    {
        let shape = self.shape;
        let Some(part) = &mut self.part else {
            unreachable!()
        };
        record(
            part,
            &mut self.tape,
            hands,
            &answer,
            shape,
            self.used.as_slice(),
        )
    }

    // Gives the next entry of its tape, if it can be played here.
    fn play_next(&mut self, place: usize, hands: &mut Hands, answer: Answer) -> Result<Wish, Stop>
        requires player { self.old.place ≡ Some place }
        requires room { hands.old.made < 4294967295 }
        ensures resumes { Resumes OwnNext (own_state self.old) hands.old answer result (own_state self.new) hands.new }
        ensures same { self.new.part ≡ self.old.part }
    {
        let shape = self.shape;
        let end = play(
            &mut self.tape,
            place,
            shape,
            self.used.as_slice(),
            hands,
            &answer,
        )?;
        self.place = Some(place + 1);
        result_of(end)
    }
}

impl<P: Part> Component for Own<P> {
    ghost use Rattle.std.specs.Prelude.{◌<◌};
    ghost use Rattle.flow_packet.specs.Held.{held_of};
    ghost use Rattle.flow_component.specs.Resumes.{Resumes};
    ghost use Rattle.flow_own.specs.Tapes.{OwnReady, OwnNext, own_rules, own_state, own_told};
    ghost use Rattle.flow_own.specs.Taping.{IsTaped};
    ghost use Rattle.flow_own.specs.TapesLaws.{own_lawful};

    ghost rules = { own_rules };

    ghost state_of = { own_state };

    ghost told_end = { own_told };

    ghost lawful = { own_lawful };

    fn shape(&self) -> Shape {
        self.shape
    }

    // It stands apart from the choice between it and a standard component, so that this choice is cheap.
    #[cold]
    #[inline(never)]
    fn resume(&mut self, hands: &mut Hands, answer: Answer) -> Result<Wish, Stop>
        requires ready { OwnReady (own_state self.old) (held_of hands.old) answer }
        requires room { hands.old.made < 4294967295 }
        ensures resumes { Resumes OwnNext (own_state self.old) hands.old answer result (own_state self.new) hands.new }
        ensures taped { IsTaped P.resumed self.old self.new hands.old hands.new answer result }
        ensures told { own_told self.old ≡ true → own_told self.new ≡ true }
    {
        if self.is_live() {
            return self.resume_live(hands, answer);
        }
        match self.place {
            Some(place) => self.play_next(place, hands, answer),
            None => Err(Stop::NoMemory),
        }
    }

    fn end(&mut self) {
        self.part = None;
    }
}
