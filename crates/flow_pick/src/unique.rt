//! The component that drops repeats.

ghost use Rattle.std.specs.Prelude.{◌≡◌, ◌<◌, None, []};
ghost use Rattle.flow_packet.specs.declared.packet.Kind.{Kind};
ghost use Rattle.flow_packet.specs.Hands.{text_at};
ghost use Rattle.flow_packet.specs.Held.{held_of};
ghost use Rattle.flow_component.specs.Alone.{HoldsOnly};
ghost use Rattle.flow_component.specs.Resumes.{Resumes};
ghost use Rattle.flow_pick.specs.Unique.{UniqueState};

use crate::parting::{IN, OUT, REST, SHAPE};
use flow_component::{Answer, Component, Shape, Stop, Wish};
use flow_packet::{Hands, Kind, PacketId};
use std::alloc::Global;
use std::marker::Model;
use std::mem;

/// Passes on what isn't a repeat: a Normal packet whose text is that of the Normal packet before it in the same substream.
///
/// The repeats go to the second output, or are dropped where that isn't connected. An inner substream between two packets doesn't part
/// them, and begins anew itself.
#[derive(Drop)]
pub struct Unique {
    alloc: Global,
    rep: bool,
    last: Option<Vec<u8>>,
    outer: Vec<Option<Vec<u8>>>,
}

impl Model for Unique {
    ghost use Rattle.std.specs.Prelude.{reverse, map};
    ghost use Rattle.std.specs.Option.{option_map};
    ghost use Rattle.flow_pick.specs.Unique.{UniqueState};

    ghost Value = { UniqueState };

    ghost view = { λ u. record { rep = u.rep; last = option_map (λ text. text.items) u.last; outer = reverse (map (λ last. option_map (λ text. text.items) last) u.outer.items) } };
}

impl Unique {
    ghost use Rattle.flow_pick.specs.Picking.{meets};
    ghost use Rattle.flow_pick.specs.Unique.{unique_picker, is_last};

    /// The component before its first packet; `rep` says whether its second output is connected. Takes no memory.
    pub fn new(alloc: Global, rep: bool) -> Unique
        ensures { result ≡ record { rep = rep; last = None; outer = [] } }
    {
        Unique {
            alloc,
            rep,
            last: None,
            outer: Vec::new(alloc),
        }
    }

    // The text is that of the last Normal packet.
    fn is_last(&self, text: &[u8]) -> bool
        ensures { result ≡ is_last self.now.last text.now }
    {
        match &self.last {
            Some(last) => last.as_slice() == text,
            None => false,
        }
    }

    // A Normal packet came.
    fn take(&mut self, hands: &mut Hands, packet: PacketId) -> Result<Wish, Stop>
        requires alone { HoldsOnly (held_of hands.old) packet }
        ensures { Resumes (λ state held _ outcome. outcome ≡ meets unique_picker state held packet Kind.Normal (text_at held.packets packet)) self.old hands.old Answer.Sent result self.new hands.new }
    {
        let text = hands.text(packet);
        if !self.is_last(text) {
            let Ok(text) = text.to_vec(self.alloc) else {
                return Err(Stop::NoMemory);
            };
            self.last = Some(text);
            return Ok(Wish::Send(OUT, packet));
        }
        if self.rep {
            return Ok(Wish::Send(REST, packet));
        }
        hands.drop_packet(packet);
        Ok(Wish::Receive(IN))
    }

    // An Open packet came.
    fn open(&mut self, hands: &mut Hands, packet: PacketId) -> Result<Wish, Stop>
        requires alone { HoldsOnly (held_of hands.old) packet }
        ensures { Resumes (λ state held _ outcome. outcome ≡ meets unique_picker state held packet Kind.Open (text_at held.packets packet)) self.old hands.old Answer.Sent result self.new hands.new }
    {
        if self.outer.reserve(1).is_err() {
            return Err(Stop::NoMemory);
        }
        let last = mem::replace(&mut self.last, None);
        self.outer.push_reserved(last);
        Ok(Wish::Send(OUT, packet))
    }

    // A Close packet came.
    fn close(&mut self, hands: &mut Hands, packet: PacketId) -> Result<Wish, Stop>
        requires alone { HoldsOnly (held_of hands.old) packet }
        ensures { Resumes (λ state held _ outcome. outcome ≡ meets unique_picker state held packet Kind.Close (text_at held.packets packet)) self.old hands.old Answer.Sent result self.new hands.new }
    {
        match self.outer.pop() {
            Some(last) => self.last = last,
            None => self.last = None,
        }
        Ok(Wish::Send(OUT, packet))
    }
}

impl Component for Unique {
    ghost use Rattle.flow_pick.specs.Unique.{unique_rules};
    ghost use Rattle.flow_pick.specs.UniqueLaws.{unique_lawful};

    ghost rules = { unique_rules };

    ghost lawful = { unique_lawful };

    fn shape(&self) -> Shape {
        SHAPE
    }

    #[inline(never)]
    fn resume(&mut self, hands: &mut Hands, answer: Answer) -> Result<Wish, Stop> {
        match answer {
            Answer::Start => Ok(Wish::Receive(IN)),
            Answer::Got(packet) => match hands.kind(packet) {
                Kind::Normal => self.take(hands, packet),
                Kind::Open => self.open(hands, packet),
                Kind::Close => self.close(hands, packet),
            },
            Answer::End => Ok(Wish::Deactivate),
            Answer::Sent => Ok(Wish::Receive(IN)),
            Answer::Level(_) => unreachable!(),
        }
    }

    fn end(&mut self) {}
}
