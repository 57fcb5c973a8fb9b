//! The component that tells how often a text came in a row.

ghost use Rattle.std.specs.Prelude.{◌≡◌, ◌<◌, IfOk, [], length};
ghost use Rattle.flow_packet.specs.Hands.{text_at};
ghost use Rattle.flow_packet.specs.Held.{held_of};
ghost use Rattle.flow_component.specs.Resumes.{Resumes};
ghost use Rattle.flow_component.specs.Alone.{HoldsOnly};
ghost use Rattle.flow_limits.specs.declared.TheConstants.{HANDS_LIMIT};
ghost use Rattle.flow_parts.specs.Tally.{tally_line};
ghost use Rattle.flow_parts.specs.TallyState.{TallyState};

use flow_component::{Answer, Component, Fail, Port, Shape, Stop, Wish};
use flow_limits::TEXT_LIMIT;
use flow_packet::{Hands, Kind, PacketId};
use flow_text::put_decimal;
use std::alloc::{AllocError, Global};
use std::marker::Model;

/// What a Tally does once a row was told.
#[derive(Clone, Copy, Debug, PartialEq, Eq)]
pub enum TallyPlace {
    Waiting,
    Passing(PacketId),
    Leaving,
}

/// Replaces each row of Normal packets with one text by a packet that tells how many they are, and their text.
///
/// The number stands still at 2^64 - 1.
#[derive(Drop)]
pub struct Tally {
    times: u64,
    text: Vec<u8>,
    place: TallyPlace,
}

impl Model for Tally {
    ghost use Rattle.std.specs.Prelude.{◌<◌, ◌≤◌, ◌^◌, length};
    ghost use Rattle.flow_parts.specs.TallyState.{TallyState};
    ghost use Rattle.flow_limits.specs.declared.TheConstants.{TEXT_LIMIT};

    ghost Value = { TallyState };

    ghost view = { λ t. record { times = t.times; text = t.text.items; place = t.place } };

    ghost invariant = { λ t. (t.times < 2 ^ 64) × (length t.text.items ≤ TEXT_LIMIT) };
}

// What is told of a row.
fn line_of(alloc: Global, times: u64, text: &[u8]) -> Result<Vec<u8>, AllocError>
    ensures { IfOk result (λ line. line.items ≡ tally_line times text.now) }
{
    let mut line = Vec::new(alloc);
    put_decimal(&mut line, times)?;
    line.push(b' ')?;
    line.extend_from_slice(text)?;
    Ok(line)
}

impl Tally {
    ghost use Rattle.flow_parts.specs.Tally.{row_told, tally_line, text_comes, mark_comes, close_comes, goes_on};

    /// The component before its first packet. Takes no memory.
    pub fn new(alloc: Global) -> Tally
        ensures { result ≡ record { times = 0; text = []; place = TallyPlace.Waiting } }
    {
        Tally {
            times: 0,
            text: Vec::new(alloc),
            place: TallyPlace::Waiting,
        }
    }

    // A text comes: it is one more of the row in hand, or begins a row, and then the one in hand is told.
    fn take_text(&mut self, hands: &mut Hands, packet: PacketId) -> Result<Wish, Stop>
        requires waiting { self.old.place ≡ TallyPlace.Waiting }
        requires alone { HoldsOnly (held_of hands.old) packet }
        requires room { hands.old.made < 4294967295 }
        ensures { Resumes (λ state held _ outcome. outcome ≡ text_comes state held packet state.times (text_at held.packets packet)) self.old hands.old Answer.Sent result self.new hands.new }
    {
        let text = hands.text(packet);
        if self.times > 0 && text == self.text.as_slice() {
            self.times = self.times.saturating_add(1);
            hands.drop_packet(packet);
            return Ok(Wish::Receive(Port(0)));
        }
        let Ok(next) = text.to_vec(*self.text.allocator()) else {
            return Err(Stop::NoMemory);
        };
        if self.times == 0 {
            hands.drop_packet(packet);
            self.times = 1;
            self.text = next;
            return Ok(Wish::Receive(Port(0)));
        }
        let Ok(line) = line_of(*self.text.allocator(), self.times, &self.text) else {
            return Err(Stop::NoMemory);
        };
        if line.len() > TEXT_LIMIT {
            return Err(Stop::Fail(Fail::TextLimit(line.len() as u64)));
        }
        hands.drop_packet(packet);
        self.times = 1;
        self.text = next;
        Ok(Wish::Send(Port(0), hands.make_normal(line)))
    }

    // Tells of the row in hand, after which there is none, and goes on as the place says.
    fn tell(&mut self, hands: &mut Hands, place: TallyPlace) -> Result<Wish, Stop>
        requires few { length hands.old.packets < HANDS_LIMIT }
        requires room { hands.old.made < 4294967295 }
        ensures { Resumes (λ state held _ outcome. outcome ≡ row_told state held held (tally_line state.times state.text) 0 [] place) self.old hands.old Answer.Sent result self.new hands.new }
    {
        let Ok(line) = line_of(*self.text.allocator(), self.times, &self.text) else {
            return Err(Stop::NoMemory);
        };
        if line.len() > TEXT_LIMIT {
            return Err(Stop::Fail(Fail::TextLimit(line.len() as u64)));
        }
        if hands.reserve(1).is_err() {
            return Err(Stop::NoMemory);
        }
        self.times = 0;
        self.text.clear();
        self.place = place;
        Ok(Wish::Send(Port(0), hands.make_normal(line)))
    }

    // A bracket comes.
    fn take_bracket(&mut self, hands: &mut Hands, packet: PacketId) -> Result<Wish, Stop>
        requires alone { HoldsOnly (held_of hands.old) packet }
        requires room { hands.old.made < 4294967295 }
        ensures { Resumes (λ state held _ outcome. outcome ≡ mark_comes state held packet state.times) self.old hands.old Answer.Sent result self.new hands.new }
    {
        if self.times == 0 {
            return Ok(Wish::Send(Port(0), packet));
        }
        self.tell(hands, TallyPlace::Passing(packet))
    }

    // The input has ended.
    fn take_end(&mut self, hands: &mut Hands) -> Result<Wish, Stop>
        requires empty { hands.old.packets ≡ [] }
        requires room { hands.old.made < 4294967295 }
        ensures { Resumes (λ state held _ outcome. outcome ≡ close_comes state held state.times) self.old hands.old Answer.Sent result self.new hands.new }
    {
        if self.times == 0 {
            return Ok(Wish::Deactivate);
        }
        self.tell(hands, TallyPlace::Leaving)
    }

    // A packet was sent.
    fn go_on(&mut self, hands: &mut Hands) -> Result<Wish, Stop>
        ensures { Resumes (λ state held _ outcome. outcome ≡ goes_on state held state.place) self.old hands.old Answer.Sent result self.new hands.new }
    {
        let place = self.place;
        self.place = TallyPlace::Waiting;
        match place {
            TallyPlace::Waiting => Ok(Wish::Receive(Port(0))),
            TallyPlace::Passing(packet) => Ok(Wish::Send(Port(0), packet)),
            TallyPlace::Leaving => Ok(Wish::Deactivate),
        }
    }
}

impl Component for Tally {
    ghost use Rattle.flow_parts.specs.Tally.{tally_rules};
    ghost use Rattle.flow_parts.specs.TallyLaws.{tally_lawful};

    ghost rules = { tally_rules };

    ghost lawful = { tally_lawful };

    fn shape(&self) -> Shape {
        Shape {
            inputs: 1,
            outputs: 1,
        }
    }

    #[inline(never)]
    fn resume(&mut self, hands: &mut Hands, answer: Answer) -> Result<Wish, Stop> {
        match answer {
            Answer::Start => Ok(Wish::Receive(Port(0))),
            Answer::Got(packet) => match hands.kind(packet) {
                Kind::Normal => self.take_text(hands, packet),
                Kind::Open => self.take_bracket(hands, packet),
                Kind::Close => self.take_bracket(hands, packet),
            },
            Answer::End => self.take_end(hands),
            Answer::Sent => self.go_on(hands),
            Answer::Level(_) => unreachable!(),
        }
    }

    fn end(&mut self) {}
}
