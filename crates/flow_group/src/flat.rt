//! The component that takes brackets off.

use flow_component::{Answer, Component, Port, Shape, Stop, Wish};
use flow_packet::{Hands, Kind};

/// Drops brackets, with their trees, and passes Normal packets on, with theirs.
#[derive(Drop)]
pub struct Flat;

impl Flat {
    /// The component, which has no state.
    pub fn new() -> Flat {
        Flat
    }
}

impl Component for Flat {
    ghost use Rattle.flow_group.specs.Flat.{flat_rules};
    ghost use Rattle.flow_group.specs.FlatLaws.{flat_lawful};

    ghost rules = { flat_rules };

    ghost lawful = { flat_lawful };

    fn shape(&self) -> Shape {
        Shape {
            inputs: 1,
            outputs: 1,
        }
    }

    #[inline(never)]
    fn resume(&mut self, hands: &mut Hands, answer: Answer) -> Result<Wish, Stop> {
        match answer {
            Answer::Start => Ok(Wish::Receive(Port(0))),
            Answer::Got(packet) => match hands.kind(packet) {
                Kind::Normal => Ok(Wish::Send(Port(0), packet)),
                Kind::Open | Kind::Close => {
                    hands.drop_packet(packet);
                    Ok(Wish::Receive(Port(0)))
                }
            },
            Answer::End => Ok(Wish::Deactivate),
            Answer::Sent => Ok(Wish::Receive(Port(0))),
            Answer::Level(_) => unreachable!(),
        }
    }

    fn end(&mut self) {}
}
