//! The component that accepts packets whose number is within a bound.

ghost use Rattle.std.specs.Prelude.{◌≡◌};
ghost use Rattle.flow_packet.specs.declared.packet.Kind.{Kind};
ghost use Rattle.flow_packet.specs.Hands.{text_at};
ghost use Rattle.flow_packet.specs.Held.{held_of};
ghost use Rattle.flow_component.specs.Alone.{HoldsOnly};
ghost use Rattle.flow_component.specs.Resumes.{Resumes};
ghost use Rattle.flow_where.specs.Where.{WhereState};

use flow_component::{Answer, Component, Port, Shape, Stop, Wish};
use flow_decimal::{Bound, Decimal};
use flow_packet::{Hands, Kind, PacketId};
use std::marker::Model;

const IN: Port = Port(0);

const ACCEPTED: Port = Port(0);

const REJECTED: Port = Port(1);

/// Accepts packets whose text is a number for which a bound holds, and all brackets.
///
/// What is accepted goes to the first output. What is rejected, which a text that is no number is too, goes to the second
/// one, or is dropped where that isn't connected.
#[derive(Drop)]
pub struct Where {
    bound: Bound,
    rejects: bool,
}

impl Model for Where {
    ghost use Rattle.flow_where.specs.Where.{WhereState};

    ghost Value = { WhereState };

    ghost view = { λ w. record { bound = w.bound; rejects = w.rejects } };
}

impl Where {
    ghost use Rattle.flow_pick.specs.Picking.{meets};
    ghost use Rattle.flow_where.specs.Where.{where_picker, is_within};

    /// The component before its first packet; `rejects` says whether its second output is connected.
    pub fn new(bound: Bound, rejects: bool) -> Where
        ensures { result ≡ record { bound = bound; rejects = rejects } }
    {
        Where { bound, rejects }
    }

    // Whether the bound holds for the number that a text is.
    fn is_within(&self, text: &[u8]) -> bool
        ensures { result ≡ is_within self.now.bound text.now }
    {
        match Decimal::parse(text) {
            Ok(number) => self.bound.holds(&number),
            Err(_) => false,
        }
    }

    // A Normal packet came.
    fn take(&mut self, hands: &mut Hands, packet: PacketId) -> Result<Wish, Stop>
        requires alone { HoldsOnly (held_of hands.old) packet }
        ensures { Resumes (λ state held _ outcome. outcome ≡ meets where_picker state held packet Kind.Normal (text_at held.packets packet)) self.old hands.old Answer.Sent result self.new hands.new }
    {
        if self.is_within(hands.text(packet)) {
            return Ok(Wish::Send(ACCEPTED, packet));
        }
        if self.rejects {
            return Ok(Wish::Send(REJECTED, packet));
        }
        hands.drop_packet(packet);
        Ok(Wish::Receive(IN))
    }
}

impl Component for Where {
    ghost use Rattle.flow_where.specs.Where.{where_rules};
    ghost use Rattle.flow_where.specs.WhereLaws.{where_lawful};

    ghost rules = { where_rules };

    ghost lawful = { where_lawful };

    fn shape(&self) -> Shape {
        Shape {
            inputs: 1,
            outputs: 2,
        }
    }

    #[inline(never)]
    fn resume(&mut self, hands: &mut Hands, answer: Answer) -> Result<Wish, Stop> {
        match answer {
            Answer::Start => Ok(Wish::Receive(IN)),
            Answer::Got(packet) => match hands.kind(packet) {
                Kind::Normal => self.take(hands, packet),
                Kind::Open | Kind::Close => Ok(Wish::Send(ACCEPTED, packet)),
            },
            Answer::End => Ok(Wish::Deactivate),
            Answer::Sent => Ok(Wish::Receive(IN)),
            Answer::Level(_) => unreachable!(),
        }
    }

    fn end(&mut self) {}
}
