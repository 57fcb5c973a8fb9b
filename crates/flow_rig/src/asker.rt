//! A component for trials, which asks for a level.

use flow_component::{Answer, Component, Port, Shape, Stop, Wish};
use flow_packet::Hands;

/// Of whatever shape it is, it asks at its start for the level of its first output, if it has one, and does no more.
#[derive(Drop)]
pub struct Asker {
    pub shape: Shape,
}

impl Component for Asker {
    ghost use Rattle.flow_rig.specs.Asker.{asker_rules, asker_lawful};

    ghost rules = { asker_rules };

    ghost lawful = { asker_lawful };

    fn shape(&self) -> Shape {
        self.shape
    }

    fn resume(&mut self, _hands: &mut Hands, answer: Answer) -> Result<Wish, Stop> {
        match answer {
            Answer::Start => {
                if self.shape.outputs == 0 {
                    Ok(Wish::Deactivate)
                } else {
                    Ok(Wish::Level(Port(0)))
                }
            }
            Answer::Got(_) => Ok(Wish::Deactivate),
            Answer::End => Ok(Wish::Deactivate),
            Answer::Sent => Ok(Wish::Deactivate),
            Answer::Level(_) => Ok(Wish::Deactivate),
        }
    }

    fn end(&mut self) {}
}
