//! The component that makes one packet of each substream.

ghost use Rattle.std.specs.Prelude.{◌≡◌, ◌<◌};
ghost use Rattle.flow_packet.specs.Held.{held_of};
ghost use Rattle.flow_component.specs.Alone.{HoldsOnly};
ghost use Rattle.flow_component.specs.Resumes.{Resumes};
ghost use Rattle.flow_streams.specs.Bundle.{HoldsTwo};

use flow_component::{Answer, Component, Fail, Port, Shape, Stop, Wish};
use flow_packet::{AttachStop, Hands, Kind, PacketId};

// The name of the chain that holds the packets of a bundle.
pub(crate) const ITEMS: &[u8] = b"items";

/// Replaces each substream by one Normal packet with the text of its Open packet, which holds the
/// packets between the brackets in its chain `items`.
#[derive(Clone, Copy, Debug, PartialEq, Eq)]
pub enum Bundle {
    Outside,
    /// So many brackets are open, and the packets are gathered in this bundle.
    Inside { bundle: PacketId, depth: u64 },
}

impl Bundle {
    ghost use Rattle.flow_streams.specs.Bundle.{begins, gathers, ends_bundle};

    /// The component before its first packet.
    pub fn new() -> Bundle
        ensures { result ≡ Bundle.Outside }
    {
        Bundle::Outside
    }

    // An Open packet begins a bundle.
    fn begin(&mut self, hands: &mut Hands, packet: PacketId) -> Result<Wish, Stop>
        requires alone { HoldsOnly (held_of hands.old) packet }
        requires room { hands.old.made < 4294967295 }
        ensures { Resumes (λ _ held _ outcome. outcome ≡ begins held packet) self.old hands.old Answer.Sent result self.new hands.new }
    {
        let end = hands.text(packet).len();
        let Ok(bundle) = hands.make_piece(Kind::Normal, packet, 0, end) else {
            return Err(Stop::NoMemory);
        };
        hands.drop_packet(packet);
        *self = Bundle::Inside { bundle, depth: 1 };
        Ok(Wish::Receive(Port(0)))
    }

    // A packet goes into the bundle.
    fn gather(
        &mut self,
        hands: &mut Hands,
        bundle: PacketId,
        packet: PacketId,
        depth: u64,
    ) -> Result<Wish, Stop>
        requires two { HoldsTwo (held_of hands.old) bundle packet }
        ensures { Resumes (λ component held _ outcome. outcome ≡ gathers component held bundle packet depth) self.old hands.old Answer.Sent result self.new hands.new }
    {
        match hands.attach(bundle, ITEMS, packet) {
            Ok(()) => {
                *self = Bundle::Inside { bundle, depth };
                Ok(Wish::Receive(Port(0)))
            }
            Err(AttachStop::TreeDepth) => Err(Stop::Fail(Fail::TreeDepth)),
            Err(AttachStop::NoMemory) => Err(Stop::NoMemory),
        }
    }

    // The matching Close packet ends the bundle.
    fn end(&mut self, hands: &mut Hands, bundle: PacketId, packet: PacketId) -> Result<Wish, Stop>
        requires two { HoldsTwo (held_of hands.old) bundle packet }
        ensures { Resumes (λ _ held _ outcome. outcome ≡ ends_bundle held bundle packet) self.old hands.old Answer.Sent result self.new hands.new }
    {
        hands.drop_packet(packet);
        *self = Bundle::Outside;
        Ok(Wish::Send(Port(0), bundle))
    }
}

impl Component for Bundle {
    ghost use Rattle.flow_streams.specs.Bundle.{bundle_rules};
    ghost use Rattle.flow_streams.specs.BundleLaws.{bundle_lawful};

    ghost rules = { bundle_rules };

    ghost lawful = { bundle_lawful };

    fn shape(&self) -> Shape {
        Shape {
            inputs: 1,
            outputs: 1,
        }
    }

    #[inline(never)]
    fn resume(&mut self, hands: &mut Hands, answer: Answer) -> Result<Wish, Stop> {
        let place = *self;
        match answer {
            Answer::Start => Ok(Wish::Receive(Port(0))),
            Answer::Got(packet) => match place {
                Bundle::Outside => match hands.kind(packet) {
                    Kind::Normal => Ok(Wish::Send(Port(0), packet)),
                    Kind::Open => self.begin(hands, packet),
                    Kind::Close => Ok(Wish::Send(Port(0), packet)),
                },
                Bundle::Inside { bundle, depth } => match hands.kind(packet) {
                    Kind::Normal => self.gather(hands, bundle, packet, depth),
                    Kind::Open => self.gather(hands, bundle, packet, depth.saturating_add(1)),
                    Kind::Close if depth > 1 => self.gather(hands, bundle, packet, depth - 1),
                    Kind::Close => self.end(hands, bundle, packet),
                },
            },
            Answer::End => Ok(Wish::Deactivate),
            Answer::Sent => Ok(Wish::Receive(Port(0))),
            Answer::Level(_) => unreachable!(),
        }
    }

    fn end(&mut self) {}
}
