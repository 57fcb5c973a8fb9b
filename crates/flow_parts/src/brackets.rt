//! The component that makes brackets of packets.

ghost use Rattle.std.specs.Prelude.{◌≡◌, ◌<◌};
ghost use Rattle.flow_packet.specs.Held.{held_of};
ghost use Rattle.flow_component.specs.Alone.{HoldsOnly};
ghost use Rattle.flow_component.specs.Resumes.{Resumes};
ghost use Rattle.flow_parts.specs.Brackets.{bracket_of, takes};

use flow_component::{Answer, Component, Port, Shape, Stop, Wish};
use flow_packet::{Hands, Kind, PacketId};

/// Replaces each Normal packet whose text begins with a parenthesis by a bracket with the rest of the
/// text, and passes all others on.
#[derive(Drop)]
pub struct Brackets;

// The bracket that a text names by its first byte.
fn bracket_of(text: &[u8]) -> Option<Kind>
    ensures { result ≡ bracket_of text.now }
{
    match text {
        [b'(', ..] => Some(Kind::Open),
        [b')', ..] => Some(Kind::Close),
        _ => None,
    }
}

impl Brackets {
    /// The component, which has no state.
    pub fn new() -> Brackets {
        Brackets
    }

    fn take(&mut self, hands: &mut Hands, packet: PacketId) -> Result<Wish, Stop>
        requires alone { HoldsOnly (held_of hands.old) packet }
        requires room { hands.old.made < 4294967295 }
        ensures { Resumes (λ component held _ outcome. outcome ≡ takes component held packet Kind.Normal) self.old hands.old Answer.Sent result self.new hands.new }
    {
        let text = hands.text(packet);
        let end = text.len();
        let Some(kind) = bracket_of(text) else {
            return Ok(Wish::Send(Port(0), packet));
        };
        let Ok(bracket) = hands.make_piece(kind, packet, 1, end) else {
            return Err(Stop::NoMemory);
        };
        hands.drop_packet(packet);
        Ok(Wish::Send(Port(0), bracket))
    }
}

impl Component for Brackets {
    ghost use Rattle.flow_parts.specs.Brackets.{brackets_rules};
    ghost use Rattle.flow_parts.specs.BracketsLaws.{brackets_lawful};

    ghost rules = { brackets_rules };

    ghost lawful = { brackets_lawful };

    fn shape(&self) -> Shape {
        Shape {
            inputs: 1,
            outputs: 1,
        }
    }

    #[inline(never)]
    fn resume(&mut self, hands: &mut Hands, answer: Answer) -> Result<Wish, Stop> {
        match answer {
            Answer::Start => Ok(Wish::Receive(Port(0))),
            Answer::Got(packet) => match hands.kind(packet) {
                Kind::Normal => self.take(hands, packet),
                Kind::Open => Ok(Wish::Send(Port(0), packet)),
                Kind::Close => Ok(Wish::Send(Port(0), packet)),
            },
            Answer::End => Ok(Wish::Deactivate),
            Answer::Sent => Ok(Wish::Receive(Port(0))),
            Answer::Level(_) => unreachable!(),
        }
    }

    fn end(&mut self) {}
}
