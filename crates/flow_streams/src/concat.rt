//! The component that passes on one input after another.

ghost use Rattle.std.specs.Prelude.{◌≡◌, ◌≤◌};
ghost use Rattle.flow_streams.specs.Concat.{ConcatState};

use flow_component::{Answer, Component, Port, Shape, Stop, Wish};
use flow_limits::ELEMENT_LIMIT;
use flow_packet::Hands;
use std::marker::Model;

/// Passes on all packets of its first input, then those of the next, and so on.
#[derive(Drop)]
pub struct Concat {
    count: u32,
    at: u32,
}

impl Model for Concat {
    ghost use Rattle.flow_streams.specs.Concat.{ConcatState};

    ghost Value = { ConcatState };

    ghost view = { λ c. record { count = c.count; at = c.at } };
}

impl Concat {
    /// The component before its first packet, with so many inputs. Takes no memory.
    pub fn new(elements: u32) -> Concat
        requires one { 1 ≤ elements }
        requires few { elements ≤ ELEMENT_LIMIT }
        ensures { result ≡ record { count = elements; at = 0 } }
    {
        Concat {
            count: elements,
            at: 0,
        }
    }
}

impl Component for Concat {
    ghost use Rattle.flow_streams.specs.Concat.{concat_rules};
    ghost use Rattle.flow_streams.specs.ConcatLaws.{concat_lawful};

    ghost rules = { concat_rules };

    ghost lawful = { concat_lawful };

    fn shape(&self) -> Shape {
        Shape {
            inputs: self.count,
            outputs: 1,
        }
    }

    fn resume(&mut self, _hands: &mut Hands, answer: Answer) -> Result<Wish, Stop> {
        match answer {
            Answer::Start => Ok(Wish::Receive(Port(self.at))),
            Answer::Got(packet) => Ok(Wish::Send(Port(0), packet)),
            Answer::End => {
                if self.at + 1 < self.count {
                    self.at += 1;
                    Ok(Wish::Receive(Port(self.at)))
                } else {
                    Ok(Wish::Deactivate)
                }
            }
            Answer::Sent => Ok(Wish::Receive(Port(self.at))),
            Answer::Level(_) => unreachable!(),
        }
    }

    fn end(&mut self) {}
}
