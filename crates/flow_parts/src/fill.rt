//! The component that fills lines with words.

ghost use Rattle.std.specs.Prelude.{◌≡◌, ℕ, ◌+◌, ◌<◌, ◌≤◌, length, IfOk, OnOk, OnErr, []};
ghost use Rattle.flow_packet.specs.Hands.{IsAtRoot, text_at};
ghost use Rattle.flow_packet.specs.Held.{Held, held_of, without_packet};
ghost use Rattle.flow_component.specs.Resumes.{Resumes};
ghost use Rattle.flow_component.specs.Alone.{HoldsOnly};
ghost use Rattle.flow_parts.specs.Text.{joined};
ghost use Rattle.flow_parts.specs.FillState.{FillState};

use flow_component::{Answer, Component, Port, Shape, Stop, Wish};
use flow_limits::TEXT_LIMIT;
use flow_packet::{Hands, Kind, PacketId};
use std::alloc::{AllocError, Global};
use std::marker::Model;
use std::mem;

/// A line of so many bytes at most is begun with room for the whole, so that it isn't moved while it grows.
const LINE_ROOM: usize = 128;

/// What a Fill does once its line was sent.
#[derive(Clone, Copy, Debug, PartialEq, Eq)]
pub enum FillPlace {
    Waiting,
    Passing(PacketId),
    Leaving,
}

/// Fills lines with words.
#[derive(Drop)]
pub struct Fill {
    size: u32,
    line: Vec<u8>,
    place: FillPlace,
}

impl Model for Fill {
    ghost use Rattle.std.specs.Prelude.{◌≤◌, length};
    ghost use Rattle.flow_parts.specs.FillState.{FillState};
    ghost use Rattle.flow_limits.specs.declared.TheConstants.{TEXT_LIMIT};

    ghost Value = { FillState };

    ghost view = { λ f. record { size = f.size; line = f.line.items; place = f.place } };

    ghost invariant = { λ f. (f.size ≤ TEXT_LIMIT) × (length f.line.items ≤ TEXT_LIMIT) };
}

// Puts the word at the end of the line.
fn append(line: &mut Vec<u8>, word: &[u8]) -> Result<(), AllocError>
    ensures ok { OnOk result (line.new.items ≡ joined line.old.items word.now) }
    ensures err { OnErr result (line.new.items ≡ line.old.items) }
{
    let before = line.len();
    if before > 0 {
        line.push(b' ')?;
    }
    if let Err(refused) = line.extend_from_slice(word) {
        line.truncate(before);
        return Err(refused);
    }
    Ok(())
}

// A line that begins with this word.
fn begun_line(alloc: Global, word: &[u8], size: u32) -> Result<Vec<u8>, AllocError>
    ensures { IfOk result (λ line. line.items ≡ word.now) }
{
    let mut line = Vec::with_capacity(alloc, LINE_ROOM.min(size as usize))?;
    line.extend_from_slice(word)?;
    Ok(line)
}

impl Fill {
    ghost use Rattle.flow_parts.specs.Fill.{word_comes, bracket_comes, end_comes, goes_on, IsReadyOn};

    pub fn new(alloc: Global, size: u32) -> Fill
        requires least { 1 ≤ size }
        requires most { size ≤ TEXT_LIMIT }
        ensures { result ≡ record { size = size; line = []; place = FillPlace.Waiting } }
    {
        Fill {
            size,
            line: Vec::new(alloc),
            place: FillPlace::Waiting,
        }
    }

    fn take_word(&mut self, hands: &mut Hands, packet: PacketId) -> Result<Wish, Stop>
        requires waiting { self.old.place ≡ FillPlace.Waiting }
        requires alone { HoldsOnly (held_of hands.old) packet }
        requires room { hands.old.made < 4294967295 }
        ensures { Resumes (λ state held _ outcome. outcome ≡ word_comes state (without_packet held packet) (text_at held.packets packet)) self.old hands.old Answer.Sent result self.new hands.new }
    {
        let text = hands.text(packet);
        if text.is_empty() {
            hands.drop_packet(packet);
            return Ok(Wish::Receive(Port(0)));
        }
        if self.line.is_empty() || self.line.len() + 1 + text.len() <= self.size as usize {
            if append(&mut self.line, text).is_err() {
                return Err(Stop::NoMemory);
            }
            hands.drop_packet(packet);
            return Ok(Wish::Receive(Port(0)));
        }
        let Ok(word) = begun_line(*self.line.allocator(), text, self.size) else {
            return Err(Stop::NoMemory);
        };
        hands.drop_packet(packet);
        let line = mem::replace(&mut self.line, word);
        let made = hands.make_normal(line);
        Ok(Wish::Send(Port(0), made))
    }

    fn take_bracket(&mut self, hands: &mut Hands, packet: PacketId) -> Result<Wish, Stop>
        requires waiting { self.old.place ≡ FillPlace.Waiting }
        requires alone { HoldsOnly (held_of hands.old) packet }
        requires room { hands.old.made < 4294967295 }
        ensures { Resumes (λ state held _ outcome. outcome ≡ bracket_comes state held packet state.line) self.old hands.old Answer.Sent result self.new hands.new }
    {
        if self.line.is_empty() {
            return Ok(Wish::Send(Port(0), packet));
        }
        if hands.reserve(1).is_err() {
            return Err(Stop::NoMemory);
        }
        let empty = Vec::new(*self.line.allocator());
        let line = mem::replace(&mut self.line, empty);
        self.place = FillPlace::Passing(packet);
        let made = hands.make_normal(line);
        Ok(Wish::Send(Port(0), made))
    }

    fn take_end(&mut self, hands: &mut Hands) -> Result<Wish, Stop>
        requires waiting { self.old.place ≡ FillPlace.Waiting }
        requires empty { hands.old.packets ≡ [] }
        requires room { hands.old.made < 4294967295 }
        ensures { Resumes (λ state held _ outcome. outcome ≡ end_comes state held state.line) self.old hands.old Answer.Sent result self.new hands.new }
    {
        if self.line.is_empty() {
            return Ok(Wish::Deactivate);
        }
        if hands.reserve(1).is_err() {
            return Err(Stop::NoMemory);
        }
        let empty = Vec::new(*self.line.allocator());
        let line = mem::replace(&mut self.line, empty);
        self.place = FillPlace::Leaving;
        let made = hands.make_normal(line);
        Ok(Wish::Send(Port(0), made))
    }

    fn go_on(&mut self, hands: &mut Hands) -> Result<Wish, Stop>
        ensures { Resumes (λ state held _ outcome. outcome ≡ goes_on state held state.place) self.old hands.old Answer.Sent result self.new hands.new }
    {
        let place = self.place;
        self.place = FillPlace::Waiting;
        match place {
            FillPlace::Waiting => Ok(Wish::Receive(Port(0))),
            FillPlace::Passing(packet) => Ok(Wish::Send(Port(0), packet)),
            FillPlace::Leaving => Ok(Wish::Deactivate),
        }
    }
}

impl Component for Fill {
    ghost use Rattle.flow_parts.specs.Fill.{fill_rules};
    ghost use Rattle.flow_parts.specs.FillLaws.{fill_lawful};

    ghost rules = { fill_rules };

    ghost lawful = { fill_lawful };

    fn shape(&self) -> Shape {
        Shape {
            inputs: 1,
            outputs: 1,
        }
    }

    #[inline(never)]
    fn resume(&mut self, hands: &mut Hands, answer: Answer) -> Result<Wish, Stop> {
        match answer {
            Answer::Start => Ok(Wish::Receive(Port(0))),
            Answer::Got(packet) => match hands.kind(packet) {
                Kind::Normal => self.take_word(hands, packet),
                Kind::Open => self.take_bracket(hands, packet),
                Kind::Close => self.take_bracket(hands, packet),
            },
            Answer::End => self.take_end(hands),
            Answer::Sent => self.go_on(hands),
            Answer::Level(_) => unreachable!(),
        }
    }

    fn end(&mut self) {}
}
