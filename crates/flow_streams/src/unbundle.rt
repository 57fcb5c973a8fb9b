//! The component that makes a substream of each bundle.

ghost use Rattle.std.specs.Prelude.{◌≡◌, ◌<◌};
ghost use Rattle.flow_packet.specs.Held.{held_of};
ghost use Rattle.flow_packet.specs.Hands.{chain_of_root};
ghost use Rattle.flow_component.specs.Alone.{HoldsOnly};
ghost use Rattle.flow_component.specs.Resumes.{Resumes};
ghost use Rattle.flow_streams.specs.Bundle.{items};

use crate::bundle::ITEMS;
use flow_component::{Answer, Component, Port, Shape, Stop, Wish};
use flow_packet::{Hands, HandsStop, Kind, PacketId};

/// Replaces each packet with a chain `items` by an Open packet with its text, the packets of the
/// chain, and a Close packet.
#[derive(Clone, Copy, Debug, PartialEq, Eq)]
pub enum Unbundle {
    Waiting,
    /// The chain of this packet is sent, one packet after another.
    Unpacking(PacketId),
}

impl Unbundle {
    ghost use Rattle.flow_streams.specs.Unbundle.{opens_up, unpacks, goes_on, IsReadyOn};

    /// The component before its first packet.
    pub fn new() -> Unbundle
        ensures { result ≡ Unbundle.Waiting }
    {
        Unbundle::Waiting
    }

    // A packet has come.
    fn open(&mut self, hands: &mut Hands, packet: PacketId) -> Result<Wish, Stop>
        requires alone { HoldsOnly (held_of hands.old) packet }
        requires room { hands.old.made < 4294967295 }
        ensures { Resumes (λ _ held _ outcome. outcome ≡ opens_up held packet (chain_of_root held.packets packet items)) self.old hands.old Answer.Start result self.new hands.new }
    {
        if hands.chain_len(packet, ITEMS) == 0 {
            *self = Unbundle::Waiting;
            return Ok(Wish::Send(Port(0), packet));
        }
        let end = hands.text(packet).len();
        let Ok(bracket) = hands.make_piece(Kind::Open, packet, 0, end) else {
            return Err(Stop::NoMemory);
        };
        *self = Unbundle::Unpacking(packet);
        Ok(Wish::Send(Port(0), bracket))
    }

    // The next packet of the chain is sent, or what comes after the last.
    fn unpack(&mut self, hands: &mut Hands, packet: PacketId) -> Result<Wish, Stop>
        requires alone { HoldsOnly (held_of hands.old) packet }
        requires room { hands.old.made < 4294967295 }
        ensures { Resumes (λ _ held _ outcome. outcome ≡ unpacks held packet (chain_of_root held.packets packet items)) self.old hands.old Answer.Sent result self.new hands.new }
    {
        match hands.detach(packet, ITEMS) {
            Ok(Some(child)) => {
                *self = Unbundle::Unpacking(packet);
                Ok(Wish::Send(Port(0), child))
            }
            Ok(None) => {
                let Ok(bracket) = hands.make_piece(Kind::Close, packet, 0, 0) else {
                    return Err(Stop::NoMemory);
                };
                hands.drop_packet(packet);
                *self = Unbundle::Waiting;
                Ok(Wish::Send(Port(0), bracket))
            }
            Err(HandsStop::TextLimit(_)) => unreachable!(),
            Err(HandsStop::HandsLimit) => unreachable!(),
            Err(HandsStop::NoMemory) => Err(Stop::NoMemory),
        }
    }

    // A packet was sent.
    fn go_on(&mut self, hands: &mut Hands) -> Result<Wish, Stop>
        requires ready { IsReadyOn (held_of hands.old) self.old }
        requires room { hands.old.made < 4294967295 }
        ensures { Resumes (λ component held _ outcome. outcome ≡ goes_on held component) self.old hands.old Answer.Sent result self.new hands.new }
    {
        let place = *self;
        match place {
            Unbundle::Waiting => Ok(Wish::Receive(Port(0))),
            Unbundle::Unpacking(packet) => self.unpack(hands, packet),
        }
    }
}

impl Component for Unbundle {
    ghost use Rattle.flow_streams.specs.Unbundle.{unbundle_rules};
    ghost use Rattle.flow_streams.specs.UnbundleLaws.{unbundle_lawful};

    ghost rules = { unbundle_rules };

    ghost lawful = { unbundle_lawful };

    fn shape(&self) -> Shape {
        Shape {
            inputs: 1,
            outputs: 1,
        }
    }

    #[inline(never)]
    fn resume(&mut self, hands: &mut Hands, answer: Answer) -> Result<Wish, Stop> {
        match answer {
            Answer::Start => {
                *self = Unbundle::Waiting;
                Ok(Wish::Receive(Port(0)))
            }
            Answer::Got(packet) => self.open(hands, packet),
            Answer::End => {
                *self = Unbundle::Waiting;
                Ok(Wish::Deactivate)
            }
            Answer::Sent => self.go_on(hands),
            Answer::Level(_) => unreachable!(),
        }
    }

    fn end(&mut self) {}
}
