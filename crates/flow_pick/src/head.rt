//! The component that passes the first packets of each stretch on.

ghost use Rattle.std.specs.Prelude.{◌≡◌, ◌<◌};
ghost use Rattle.flow_packet.specs.declared.packet.Kind.{Kind};
ghost use Rattle.flow_packet.specs.Hands.{text_at};
ghost use Rattle.flow_packet.specs.Held.{held_of};
ghost use Rattle.flow_component.specs.Alone.{HoldsOnly};
ghost use Rattle.flow_component.specs.Resumes.{Resumes};
ghost use Rattle.flow_pick.specs.Head.{HeadState};

use crate::parting::{IN, OUT, REST, SHAPE};
use flow_component::{Answer, Component, Shape, Stop, Wish};
use flow_packet::{Hands, Kind, PacketId};
use std::marker::Model;

/// Passes on the first packets of each stretch, which are the Normal packets between two brackets.
///
/// So many at most go to the first output, and the brackets too; the others go to the second one, or are dropped where that isn't
/// connected.
#[derive(Drop)]
pub struct Head {
    count: u32,
    rest: bool,
    passed: u32,
}

impl Model for Head {
    ghost use Rattle.std.specs.Prelude.{◌≤◌};
    ghost use Rattle.flow_pick.specs.Head.{HeadState};

    ghost Value = { HeadState };

    ghost view = { λ h. record { count = h.count; rest = h.rest; passed = h.passed } };
}

impl Head {
    ghost use Rattle.flow_pick.specs.Picking.{meets};
    ghost use Rattle.flow_pick.specs.Head.{head_picker};

    /// The component before its first packet; `rest` says whether its second output is connected.
    pub fn new(count: u32, rest: bool) -> Head
        ensures { result ≡ record { count = count; rest = rest; passed = 0 } }
    {
        Head {
            count,
            rest,
            passed: 0,
        }
    }

    // A Normal packet came.
    fn take(&mut self, hands: &mut Hands, packet: PacketId) -> Result<Wish, Stop>
        requires alone { HoldsOnly (held_of hands.old) packet }
        ensures { Resumes (λ state held _ outcome. outcome ≡ meets head_picker state held packet Kind.Normal (text_at held.packets packet)) self.old hands.old Answer.Sent result self.new hands.new }
    {
        if self.passed < self.count {
            self.passed += 1;
            return Ok(Wish::Send(OUT, packet));
        }
        if self.rest {
            return Ok(Wish::Send(REST, packet));
        }
        hands.drop_packet(packet);
        Ok(Wish::Receive(IN))
    }
}

impl Component for Head {
    ghost use Rattle.flow_pick.specs.Head.{head_rules};
    ghost use Rattle.flow_pick.specs.HeadLaws.{head_lawful};

    ghost rules = { head_rules };

    ghost lawful = { head_lawful };

    fn shape(&self) -> Shape {
        SHAPE
    }

    #[inline(never)]
    fn resume(&mut self, hands: &mut Hands, answer: Answer) -> Result<Wish, Stop> {
        match answer {
            Answer::Start => Ok(Wish::Receive(IN)),
            Answer::Got(packet) => match hands.kind(packet) {
                Kind::Normal => self.take(hands, packet),
                Kind::Open | Kind::Close => {
                    self.passed = 0;
                    Ok(Wish::Send(OUT, packet))
                }
            },
            Answer::End => Ok(Wish::Deactivate),
            Answer::Sent => Ok(Wish::Receive(IN)),
            Answer::Level(_) => unreachable!(),
        }
    }

    fn end(&mut self) {}
}
