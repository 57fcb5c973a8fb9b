//! The component that replaces the matches of a pattern.

ghost use Rattle.flow_limits.specs.declared.TheConstants.{TEXT_LIMIT};
ghost use Rattle.std.specs.Prelude.{◌≡◌, ◌<◌, ◌≤◌, length, IfOk};
ghost use Rattle.flow_packet.specs.Held.{held_of};
ghost use Rattle.flow_component.specs.Alone.{HoldsOnly};
ghost use Rattle.flow_component.specs.Resumes.{Resumes};
ghost use Rattle.flow_pattern.specs.Pattern.{IsPattern, Replacement};

use flow_component::{Answer, Component, Fail, Port, Shape, Stop, Wish};
use flow_limits::TEXT_LIMIT;
use flow_packet::{Hands, Kind, PacketId};
use flow_pattern::{Replacer, Rewritten};
use std::alloc::{AllocError, Global};
use std::marker::Model;

const IN: Port = Port(0);

const OUT: Port = Port(0);

/// Replaces the matches of a pattern in each Normal packet, and passes brackets on.
///
/// A packet with the new text takes the place of the old one, which is dropped with what hangs on it. A packet in which
/// nothing matches is passed on itself.
// What searches lies in a box: it is large, and a component is moved at each turn.
#[derive(Drop)]
pub struct Replace {
    alloc: Global,
    replacer: Box<Replacer>,
}

impl Model for Replace {
    ghost use Rattle.flow_pattern.specs.Pattern.{Replacement};

    ghost Value = { Replacement };

    ghost view = { λ r. r.replacer.value };
}

impl Replace {
    ghost use Rattle.flow_match.specs.Replace.{renews, comes};

    /// The component before its first packet, which puts these bytes in the place of each match.
    pub fn new(alloc: Global, pattern: &[u8], with: &[u8]) -> Result<Replace, AllocError>
        requires pattern { IsPattern pattern.now }
        ensures { IfOk result (λ r. r ≡ record { pattern = pattern.now; with = with.now }) }
    {
        let replacer = Replacer::new(alloc, pattern, with)?;
        let replacer = Box::new(alloc, replacer)?;
        Ok(Replace { alloc, replacer })
    }

    // Puts a packet with this text in the place of another.
    fn renew(&mut self, hands: &mut Hands, packet: PacketId, text: Vec<u8>) -> Result<Wish, Stop>
        requires alone { HoldsOnly (held_of hands.old) packet }
        requires room { hands.old.made < 4294967295 }
        requires short { length text.items ≤ TEXT_LIMIT }
        ensures { Resumes (λ state held _ outcome. outcome ≡ renews state held packet text.items) self.old hands.old Answer.Sent result self.new hands.new }
    {
        hands.drop_packet(packet);
        let made = hands.make_normal(text);
        Ok(Wish::Send(OUT, made))
    }

    // A Normal packet came.
    fn take(&mut self, hands: &mut Hands, packet: PacketId) -> Result<Wish, Stop>
        requires alone { HoldsOnly (held_of hands.old) packet }
        requires room { hands.old.made < 4294967295 }
        ensures { Resumes (λ state held _ outcome. outcome ≡ comes state held packet Kind.Normal) self.old hands.old Answer.Sent result self.new hands.new }
    {
        match self
            .replacer
            .replaced(self.alloc, hands.text(packet), TEXT_LIMIT)
        {
            Ok(Rewritten::New(text)) => self.renew(hands, packet, text),
            Ok(Rewritten::TooLong(length)) => Err(Stop::Fail(Fail::TextLimit(length))),
            Ok(Rewritten::Same) => Ok(Wish::Send(OUT, packet)),
            Err(_) => Err(Stop::NoMemory),
        }
    }
}

impl Component for Replace {
    ghost use Rattle.flow_match.specs.Replace.{replace_rules};
    ghost use Rattle.flow_match.specs.ReplaceLaws.{replace_lawful};

    ghost rules = { replace_rules };

    ghost lawful = { replace_lawful };

    fn shape(&self) -> Shape {
        Shape {
            inputs: 1,
            outputs: 1,
        }
    }

    #[inline(never)]
    fn resume(&mut self, hands: &mut Hands, answer: Answer) -> Result<Wish, Stop> {
        match answer {
            Answer::Start => Ok(Wish::Receive(IN)),
            Answer::Got(packet) => match hands.kind(packet) {
                Kind::Normal => self.take(hands, packet),
                Kind::Open => Ok(Wish::Send(OUT, packet)),
                Kind::Close => Ok(Wish::Send(OUT, packet)),
            },
            Answer::End => Ok(Wish::Deactivate),
            Answer::Sent => Ok(Wish::Receive(IN)),
            Answer::Level(_) => unreachable!(),
        }
    }

    fn end(&mut self) {}
}
