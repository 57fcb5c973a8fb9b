//! The component that counts packets.

ghost use Rattle.std.specs.Prelude.{◌≡◌, ◌<◌, false, []};
ghost use Rattle.flow_component.specs.Resumes.{Resumes};
ghost use Rattle.flow_parts.specs.Count.{CountState};

use flow_component::{Answer, Component, Port, Shape, Stop, Wish};
use flow_packet::{Hands, HandsStop, Kind, PacketId};
use std::alloc::Global;
use std::marker::Model;

/// Counts Normal packets, and sends their number at the end.
///
/// Its first output gets each packet where it is connected; the second gets one packet, the number in
/// decimal. The number stands still at 2^64 - 1.
#[derive(Drop)]
pub struct Count {
    alloc: Global,
    connected: bool,
    number: u64,
    leaving: bool,
}

impl Model for Count {
    ghost use Rattle.std.specs.Prelude.{◌<◌, ◌^◌};
    ghost use Rattle.flow_parts.specs.Count.{CountState};

    ghost Value = { CountState };

    ghost view = { λ c. record { connected = c.connected; number = c.number; leaving = c.leaving } };

    ghost invariant = { λ c. c.number < 2 ^ 64 };
}

impl Count {
    ghost use Rattle.flow_parts.specs.Count.{count_next, counts};
    ghost use Rattle.flow_packet.specs.Held.{held_of};
    ghost use Rattle.flow_component.specs.Alone.{HoldsOnly};

    /// The component before its first packet; `connected` says whether its first output is. Takes no
    /// memory.
    pub fn new(alloc: Global, connected: bool) -> Count
        ensures { result ≡ record { connected = connected; number = 0; leaving = false } }
    {
        Count {
            alloc,
            connected,
            number: 0,
            leaving: false,
        }
    }

    // Counts a packet, and passes it on or drops it.
    fn take(&mut self, hands: &mut Hands, packet: PacketId) -> Result<Wish, Stop>
        requires alone { HoldsOnly (held_of hands.old) packet }
        ensures { Resumes (λ state held answer outcome. outcome ≡ count_next state held answer) self.old hands.old (Answer.Got packet) result self.new hands.new }
    {
        match hands.kind(packet) {
            Kind::Normal => self.number = self.number.saturating_add(1),
            Kind::Open | Kind::Close => {}
        }
        if self.connected {
            return Ok(Wish::Send(Port(0), packet));
        }
        hands.drop_packet(packet);
        Ok(Wish::Receive(Port(0)))
    }

    // Makes a packet of the number.
    fn tell(&mut self, hands: &mut Hands) -> Result<Wish, Stop>
        requires empty { hands.old.packets ≡ [] }
        requires room { hands.old.made < 4294967295 }
        ensures { Resumes (λ state held answer outcome. outcome ≡ count_next state held answer) self.old hands.old Answer.End result self.new hands.new }
    {
        let Ok(digits) = self.number.to_string(self.alloc) else {
            return Err(Stop::NoMemory);
        };
        match hands.make(Kind::Normal, digits.as_bytes()) {
            Ok(made) => {
                self.leaving = true;
                Ok(Wish::Send(Port(1), made))
            }
            Err(HandsStop::NoMemory) => Err(Stop::NoMemory),
            Err(HandsStop::TextLimit(_)) => unreachable!(),
            Err(HandsStop::HandsLimit) => unreachable!(),
        }
    }
}

impl Component for Count {
    ghost use Rattle.flow_parts.specs.Count.{count_rules};
    ghost use Rattle.flow_parts.specs.CountLaws.{count_lawful};

    ghost rules = { count_rules };

    ghost lawful = { count_lawful };

    fn shape(&self) -> Shape {
        Shape {
            inputs: 1,
            outputs: 2,
        }
    }

    #[inline(never)]
    fn resume(&mut self, hands: &mut Hands, answer: Answer) -> Result<Wish, Stop> {
        match answer {
            Answer::Start => Ok(Wish::Receive(Port(0))),
            Answer::Got(packet) => self.take(hands, packet),
            Answer::End => self.tell(hands),
            Answer::Sent => {
                if self.leaving {
                    self.leaving = false;
                    return Ok(Wish::Deactivate);
                }
                Ok(Wish::Receive(Port(0)))
            }
            Answer::Level(_) => unreachable!(),
        }
    }

    fn end(&mut self) {}
}
