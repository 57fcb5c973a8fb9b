//! The component that sends a copy of each packet to each of its outputs.

ghost use Rattle.std.specs.Prelude.{◌≡◌, ◌+◌, ◌<◌, ◌≤◌};
ghost use Rattle.flow_packet.specs.Held.{held_of};
ghost use Rattle.flow_component.specs.Alone.{HoldsOnly};
ghost use Rattle.flow_component.specs.Resumes.{Resumes};
ghost use Rattle.flow_streams.specs.Copy.{CopyState};

use flow_component::{Answer, Component, Port, Shape, Stop, Wish};
use flow_limits::ELEMENT_LIMIT;
use flow_packet::{Hands, PacketId};
use std::marker::Model;

/// What a Copy does once a packet was sent.
#[derive(Clone, Copy, Debug, PartialEq, Eq)]
pub enum CopyPlace {
    Waiting,
    /// This packet is still to be sent to the outputs from this one on.
    Copying { packet: PacketId, output: u32 },
}

/// Sends a packet of the same kind and text to each of its outputs but the last, and the packet that
/// it received to that.
#[derive(Drop)]
pub struct Copy {
    count: u32,
    place: CopyPlace,
}

impl Model for Copy {
    ghost use Rattle.flow_streams.specs.Copy.{CopyState};

    ghost Value = { CopyState };

    ghost view = { λ c. record { count = c.count; place = c.place } };
}

impl Copy {
    ghost use Rattle.flow_streams.specs.Copy.{copies, goes_on, IsReadyOn};

    /// The component before its first packet, with so many outputs. Takes no memory.
    pub fn new(elements: u32) -> Copy
        requires one { 1 ≤ elements }
        requires few { elements ≤ ELEMENT_LIMIT }
        ensures { result ≡ record { count = elements; place = CopyPlace.Waiting } }
    {
        Copy {
            count: elements,
            place: CopyPlace::Waiting,
        }
    }

    // Sends a copy to this output, or the packet itself to the last.
    fn copy(&mut self, hands: &mut Hands, packet: PacketId, output: u32) -> Result<Wish, Stop>
        requires alone { HoldsOnly (held_of hands.old) packet }
        requires output { output < self.old.count }
        requires room { hands.old.made < 4294967295 }
        ensures { Resumes (λ state held _ outcome. outcome ≡ copies state held packet output) self.old hands.old Answer.Sent result self.new hands.new }
    {
        let count = self.count;
        if output + 1 < count {
            let end = hands.text(packet).len();
            let kind = hands.kind(packet);
            let Ok(made) = hands.make_piece(kind, packet, 0, end) else {
                return Err(Stop::NoMemory);
            };
            self.place = CopyPlace::Copying {
                packet,
                output: output + 1,
            };
            return Ok(Wish::Send(Port(output), made));
        }
        self.place = CopyPlace::Waiting;
        Ok(Wish::Send(Port(output), packet))
    }

    // A packet was sent.
    fn go_on(&mut self, hands: &mut Hands) -> Result<Wish, Stop>
        requires ready { IsReadyOn self.old (held_of hands.old) self.old.place }
        requires room { hands.old.made < 4294967295 }
        ensures { Resumes (λ state held _ outcome. outcome ≡ goes_on state held state.place) self.old hands.old Answer.Sent result self.new hands.new }
    {
        let place = self.place;
        match place {
            CopyPlace::Waiting => Ok(Wish::Receive(Port(0))),
            CopyPlace::Copying { packet, output } => self.copy(hands, packet, output),
        }
    }
}

impl Component for Copy {
    ghost use Rattle.flow_streams.specs.Copy.{copy_rules};
    ghost use Rattle.flow_streams.specs.CopyLaws.{copy_lawful};

    ghost rules = { copy_rules };

    ghost lawful = { copy_lawful };

    fn shape(&self) -> Shape {
        Shape {
            inputs: 1,
            outputs: self.count,
        }
    }

    #[inline(never)]
    fn resume(&mut self, hands: &mut Hands, answer: Answer) -> Result<Wish, Stop> {
        match answer {
            Answer::Start => Ok(Wish::Receive(Port(0))),
            Answer::Got(packet) => self.copy(hands, packet, 0),
            Answer::End => Ok(Wish::Deactivate),
            Answer::Sent => self.go_on(hands),
            Answer::Level(_) => unreachable!(),
        }
    }

    fn end(&mut self) {}
}
