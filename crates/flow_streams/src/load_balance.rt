//! The component that balances the load of its outputs.

ghost use Rattle.std.specs.Prelude.{◌≡◌, ◌+◌, ◌<◌, ◌≤◌};
ghost use Rattle.flow_packet.specs.Held.{Held, held_of};
ghost use Rattle.flow_component.specs.Laws.{Wishes};
ghost use Rattle.flow_component.specs.Alone.{HoldsOnly};
ghost use Rattle.flow_component.specs.Resumes.{Resumes};
ghost use Rattle.flow_streams.specs.LoadBalance.{LoadState, no_level};

use flow_component::{Answer, Component, Port, Shape, Stop, Wish};
use flow_limits::ELEMENT_LIMIT;
use flow_packet::{Hands, Kind, PacketId};
use std::marker::Model;

// More than any level is: a connection holds at most CAPACITY_LIMIT packets.
const NO_LEVEL: u32 = 65_536;

/// What a LoadBalance does once it is answered.
#[derive(Clone, Copy, Debug, PartialEq, Eq)]
pub enum LoadPlace {
    Waiting,
    /// It asked for the level of this output; the least of those that were told before is `least`.
    Asking {
        packet: PacketId,
        output: u32,
        least: u32,
    },
}

/// Sends each packet, and each substream as a whole, to the output on whose connection the fewest
/// packets are, the first among equals.
///
/// That a substream stays on one output is this project's own.
#[derive(Drop)]
pub struct LoadBalance {
    count: u32,
    depth: u64,
    chosen: u32,
    place: LoadPlace,
}

impl Model for LoadBalance {
    ghost use Rattle.flow_streams.specs.LoadBalance.{LoadState};

    ghost Value = { LoadState };

    ghost view = { λ b. record { count = b.count; depth = b.depth; chosen = b.chosen; place = b.place } };
}

impl LoadBalance {
    ghost use Rattle.flow_streams.specs.LoadBalance.{asks_on, weighs, comes, IsAsking, learns};
    ghost use Rattle.flow_packet.specs.Hands.{kind_at};

    /// The component before its first packet, with so many outputs. Takes no memory.
    pub fn new(elements: u32) -> LoadBalance
        requires one { 1 ≤ elements }
        requires few { elements ≤ ELEMENT_LIMIT }
        ensures { result ≡ record { count = elements; depth = 0; chosen = 0; place = LoadPlace.Waiting } }
    {
        LoadBalance {
            count: elements,
            depth: 0,
            chosen: 0,
            place: LoadPlace::Waiting,
        }
    }

    // A packet came. Outside of all brackets the levels are asked for it.
    fn take(&mut self, hands: &mut Hands, packet: PacketId) -> Result<Wish, Stop>
        requires alone { HoldsOnly (held_of hands.old) packet }
        ensures { Resumes (λ state held _ outcome. outcome ≡ comes state held packet (kind_at held.packets packet)) self.old hands.old Answer.Sent result self.new hands.new }
    {
        let depth = self.depth;
        match hands.kind(packet) {
            Kind::Normal => {}
            Kind::Open => self.depth = depth.saturating_add(1),
            Kind::Close => self.depth = depth.saturating_sub(1),
        }
        if depth > 0 {
            return Ok(Wish::Send(Port(self.chosen), packet));
        }
        self.place = LoadPlace::Asking {
            packet,
            output: 0,
            least: NO_LEVEL,
        };
        Ok(Wish::Level(Port(0)))
    }

    // Asks for the level of the next output, or sends the packet to the chosen one.
    fn ask_on(&mut self, packet: PacketId, output: u32, least: u32) -> Wish
        requires output { output < self.old.count }
        ensures { (held : Held) → asks_on self.old held packet output least ≡ Wishes self.new held result }
    {
        let count = self.count;
        if output + 1 < count {
            self.place = LoadPlace::Asking {
                packet,
                output: output + 1,
                least,
            };
            return Wish::Level(Port(output + 1));
        }
        self.place = LoadPlace::Waiting;
        Wish::Send(Port(self.chosen), packet)
    }

    // The level of the output that was asked.
    fn learn(&mut self, _hands: &mut Hands, level: u32) -> Result<Wish, Stop>
        requires asking { IsAsking self.old (held_of _hands.old) self.old.place }
        ensures { Resumes (λ state held _ outcome. outcome ≡ learns state held state.place level) self.old _hands.old Answer.Sent result self.new _hands.new }
    {
        let place = self.place;
        match place {
            LoadPlace::Waiting => unreachable!(),
            LoadPlace::Asking {
                packet,
                output,
                least,
            } => {
                if level < least {
                    self.chosen = output;
                    return Ok(self.ask_on(packet, output, level));
                }
                Ok(self.ask_on(packet, output, least))
            }
        }
    }
}

impl Component for LoadBalance {
    ghost use Rattle.flow_streams.specs.LoadBalance.{load_rules};
    ghost use Rattle.flow_streams.specs.LoadBalanceLaws.{load_lawful};

    ghost rules = { load_rules };

    ghost lawful = { load_lawful };

    fn shape(&self) -> Shape {
        Shape {
            inputs: 1,
            outputs: self.count,
        }
    }

    #[inline(never)]
    fn resume(&mut self, hands: &mut Hands, answer: Answer) -> Result<Wish, Stop> {
        match answer {
            Answer::Start => Ok(Wish::Receive(Port(0))),
            Answer::Got(packet) => self.take(hands, packet),
            Answer::End => Ok(Wish::Deactivate),
            Answer::Sent => Ok(Wish::Receive(Port(0))),
            Answer::Level(level) => self.learn(hands, level),
        }
    }

    fn end(&mut self) {}
}
