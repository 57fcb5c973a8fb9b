//! The component that drops every packet.

use flow_component::{Answer, Component, Port, Shape, Stop, Wish};
use flow_packet::Hands;

/// Drops every packet, with its tree.
#[derive(Drop)]
pub struct Discard;

impl Discard {
    /// The component, which has no state.
    pub fn new() -> Discard {
        Discard
    }
}

impl Component for Discard {
    ghost use Rattle.flow_streams.specs.Discard.{discard_rules};
    ghost use Rattle.flow_streams.specs.DiscardLaws.{discard_lawful};

    ghost rules = { discard_rules };

    ghost lawful = { discard_lawful };

    fn shape(&self) -> Shape {
        Shape {
            inputs: 1,
            outputs: 0,
        }
    }

    #[inline(never)]
    fn resume(&mut self, hands: &mut Hands, answer: Answer) -> Result<Wish, Stop> {
        match answer {
            Answer::Start => Ok(Wish::Receive(Port(0))),
            Answer::Got(packet) => {
                hands.drop_packet(packet);
                Ok(Wish::Receive(Port(0)))
            }
            Answer::End => Ok(Wish::Deactivate),
            Answer::Sent => Ok(Wish::Receive(Port(0))),
            Answer::Level(_) => unreachable!(),
        }
    }

    fn end(&mut self) {}
}
