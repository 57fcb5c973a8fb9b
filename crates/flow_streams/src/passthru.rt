//! The component that passes every packet on.

use flow_component::{Answer, Component, Port, Shape, Stop, Wish};
use flow_packet::Hands;

/// Passes every packet on, with its tree (JavaFBP's component of that name).
#[derive(Drop)]
pub struct Passthru;

impl Passthru {
    /// The component, which has no state.
    pub fn new() -> Passthru {
        Passthru
    }
}

impl Component for Passthru {
    ghost use Rattle.flow_streams.specs.Passthru.{passthru_rules};
    ghost use Rattle.flow_streams.specs.PassthruLaws.{passthru_lawful};

    ghost rules = { passthru_rules };

    ghost lawful = { passthru_lawful };

    fn shape(&self) -> Shape {
        Shape {
            inputs: 1,
            outputs: 1,
        }
    }

    fn resume(&mut self, _hands: &mut Hands, answer: Answer) -> Result<Wish, Stop> {
        match answer {
            Answer::Start => Ok(Wish::Receive(Port(0))),
            Answer::Got(id) => Ok(Wish::Send(Port(0), id)),
            Answer::End => Ok(Wish::Deactivate),
            Answer::Sent => Ok(Wish::Receive(Port(0))),
            Answer::Level(_) => unreachable!(),
        }
    }

    fn end(&mut self) {}
}
