//! The component that keeps every packet.

use flow_component::{Answer, Component, Port, Shape, Stop, Wish};
use flow_packet::Hands;

/// Keeps every packet in its hands.
#[derive(Drop)]
pub struct Hoard;

impl Hoard {
    /// The component, which has no state.
    pub fn new() -> Hoard {
        Hoard
    }
}

impl Component for Hoard {
    ghost use Rattle.flow_streams.specs.Hoard.{hoard_rules};
    ghost use Rattle.flow_streams.specs.HoardLaws.{hoard_lawful};

    ghost rules = { hoard_rules };

    ghost lawful = { hoard_lawful };

    fn shape(&self) -> Shape {
        Shape {
            inputs: 1,
            outputs: 0,
        }
    }

    fn resume(&mut self, _hands: &mut Hands, answer: Answer) -> Result<Wish, Stop> {
        match answer {
            Answer::Start => Ok(Wish::Receive(Port(0))),
            Answer::Got(_) => Ok(Wish::Receive(Port(0))),
            Answer::End => Ok(Wish::Deactivate),
            Answer::Sent => Ok(Wish::Receive(Port(0))),
            Answer::Level(_) => unreachable!(),
        }
    }

    fn end(&mut self) {}
}
