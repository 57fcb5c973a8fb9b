//! What a part is told, one answer after another.

ghost use Rattle.std.specs.Prelude.{◌≡◌, None, false, OnOk};
ghost use Rattle.flow_own.specs.Tapes.{has_failed};

use flow_component::{Answer, Component, Fail, OwnFail, Port, Stop, Wish};
use flow_limits::TAPE_LIMIT;
use flow_own::{Own, Part};
use flow_packet::{Hands, HandsStop, Kind, PacketId};
use std::alloc::{AllocError, AllocFailed};

/// Why a part is told nothing more.
#[derive(Clone, Copy, Debug, PartialEq, Eq)]
pub(crate) enum Halt {
    /// It is idle, and nothing will come any more.
    Ended,
    Failed(Fail),
    NoMemory,
}

impl From<AllocError> for Halt {
    fn from(_: AllocError) -> Halt {
        Halt::NoMemory
    }
}

impl<T: Drop> From<AllocFailed<T>> for Halt {
    fn from(_: AllocFailed<T>) -> Halt {
        Halt::NoMemory
    }
}

// Tells the part an answer.
fn told<P: Part>(own: &mut Own<P>, hands: &mut Hands, answer: Answer) -> Result<Wish, Halt>
    requires live { own.old.place ≡ None }
    requires well { has_failed own.old.tape ≡ false }
    ensures live { OnOk result (own.new.place ≡ None) }
    ensures well { OnOk result (has_failed own.new.tape ≡ false) }
{
    if hands.made() == u32::MAX {
        return Err(Halt::NoMemory);
    }
    match own.resume(hands, answer) {
        Ok(wish) => Ok(wish),
        Err(Stop::Fail(cause)) => Err(Halt::Failed(cause)),
        Err(Stop::NoMemory) => Err(Halt::NoMemory),
    }
}

// The packet that a line stands for, as the kind Brackets has it: a line that begins with a parenthesis is a bracket with the rest of the line.
fn packet_of(line: &[u8]) -> (Kind, &[u8]) {
    match line {
        [b'(', rest @ ..] => (Kind::Open, rest),
        [b')', rest @ ..] => (Kind::Close, rest),
        _ => (Kind::Normal, line),
    }
}

// The packet of the next line comes into the hands.
fn come(hands: &mut Hands, line: &[u8]) -> Result<Answer, Halt> {
    if hands.made() == u32::MAX {
        return Err(Halt::NoMemory);
    }
    let (kind, text) = packet_of(line);
    match hands.make(kind, text) {
        Ok(id) => Ok(Answer::Got(id)),
        Err(HandsStop::TextLimit(size)) => Err(Halt::Failed(Fail::TextLimit(size))),
        Err(HandsStop::HandsLimit) => Err(Halt::Failed(Fail::HandsLimit)),
        Err(HandsStop::NoMemory) => Err(Halt::NoMemory),
    }
}

// A packet leaves the hands: its line is written.
fn leave(hands: &mut Hands, id: PacketId, out: &mut Vec<u8>) -> Result<Answer, Halt> {
    if !hands.has(id) {
        return Err(Halt::Failed(Fail::Own(OwnFail::Packet(id.number()))));
    }
    match hands.kind(id) {
        Kind::Normal => {}
        Kind::Open => out.push(b'(')?,
        Kind::Close => out.push(b')')?,
    }
    out.extend_from_slice(hands.text(id))?;
    out.push(b'\n')?;
    hands.take(id).discard();
    Ok(Answer::Sent)
}

// What a part is told where its wish is granted, and this is the next line.
fn granted(
    hands: &mut Hands,
    lines: &[Vec<u8>],
    at: &mut usize,
    out: &mut Vec<u8>,
    wish: Wish,
) -> Result<Answer, Halt> {
    match wish {
        Wish::Receive(_) => match lines.get(*at) {
            Some(line) => {
                *at += 1;
                come(hands, line)
            }
            None => Ok(Answer::End),
        },
        Wish::Send(_, id) => leave(hands, id, out),
        Wish::Level(_) => Ok(Answer::Level(0)),
        Wish::Deactivate => {
            if *at < lines.len() {
                Ok(Answer::Start)
            } else {
                Err(Halt::Ended)
            }
        }
    }
}

// Tells the part an answer, and grants its wish.
fn turn<P: Part>(
    own: &mut Own<P>,
    hands: &mut Hands,
    lines: &[Vec<u8>],
    at: &mut usize,
    out: &mut Vec<u8>,
    answer: Answer,
) -> Result<Answer, Halt>
    requires live { own.old.place ≡ None }
    requires well { has_failed own.old.tape ≡ false }
    ensures live { OnOk result (own.new.place ≡ None) }
    ensures well { OnOk result (has_failed own.new.tape ≡ false) }
{
    let wish = told(own, hands, answer)?;
    granted(hands, lines, at, out, wish)
}

/// Tells the part one answer after another until it is told nothing more. The lines come in, and what it sends is written as lines.
pub(crate) fn run<P: Part>(
    own: &mut Own<P>,
    hands: &mut Hands,
    lines: &[Vec<u8>],
    out: &mut Vec<u8>,
) -> Halt
    requires live { own.old.place ≡ None }
    requires well { has_failed own.old.tape ≡ false }
{
    let mut at = 0;
    let mut answer = Answer::Start;
    'told: for _round in 0..TAPE_LIMIT {
        match turn(own, hands, lines, &mut at, out, answer) {
            Ok(next) => answer = next,
            Err(halt) => return halt,
        }
    }
    Halt::Failed(Fail::Own(OwnFail::TapeLimit))
}
