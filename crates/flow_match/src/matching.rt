//! The component that accepts packets in whose text a pattern matches.

ghost use Rattle.std.specs.Prelude.{◌≡◌, IfOk};
ghost use Rattle.flow_packet.specs.Held.{held_of};
ghost use Rattle.flow_component.specs.Alone.{HoldsOnly};
ghost use Rattle.flow_component.specs.Resumes.{Resumes};
ghost use Rattle.flow_pattern.specs.Pattern.{IsPattern};
ghost use Rattle.flow_match.specs.Match.{MatchState};

use flow_component::{Answer, Component, Port, Shape, Stop, Wish};
use flow_packet::{Hands, Kind, PacketId};
use flow_pattern::Finder;
use std::alloc::{AllocError, Global};
use std::marker::Model;

const IN: Port = Port(0);

const ACCEPTED: Port = Port(0);

const REJECTED: Port = Port(1);

/// Accepts packets in whose text a pattern matches somewhere, and all brackets.
///
/// What is accepted goes to the first output. What is rejected goes to the second one, or is dropped where that isn't
/// connected.
// What searches lies in a box: it is large, and a component is moved at each turn.
#[derive(Drop)]
pub struct Match {
    alloc: Global,
    finder: Box<Finder>,
    rejects: bool,
}

impl Model for Match {
    ghost use Rattle.flow_match.specs.Match.{MatchState};

    ghost Value = { MatchState };

    ghost view = { λ m. record { pattern = m.finder.value; rejects = m.rejects } };
}

impl Match {
    ghost use Rattle.flow_match.specs.Match.{rejects_packet, comes};

    /// The component before its first packet; `rejects` says whether its second output is connected.
    pub fn new(alloc: Global, pattern: &[u8], rejects: bool) -> Result<Match, AllocError>
        requires pattern { IsPattern pattern.now }
        ensures { IfOk result (λ m. m ≡ record { pattern = pattern.now; rejects = rejects }) }
    {
        let finder = Finder::new(alloc, pattern)?;
        let finder = Box::new(alloc, finder)?;
        Ok(Match {
            alloc,
            finder,
            rejects,
        })
    }

    // Passes a packet on to the second output, or drops it where that isn't connected.
    fn reject(&mut self, hands: &mut Hands, packet: PacketId) -> Result<Wish, Stop>
        requires alone { HoldsOnly (held_of hands.old) packet }
        ensures { Resumes (λ state held _ outcome. outcome ≡ rejects_packet state.rejects state held packet) self.old hands.old Answer.Sent result self.new hands.new }
    {
        if self.rejects {
            return Ok(Wish::Send(REJECTED, packet));
        }
        hands.drop_packet(packet);
        Ok(Wish::Receive(IN))
    }

    // A Normal packet came.
    fn judge(&mut self, hands: &mut Hands, packet: PacketId) -> Result<Wish, Stop>
        requires alone { HoldsOnly (held_of hands.old) packet }
        ensures { Resumes (λ state held _ outcome. outcome ≡ comes state held packet Kind.Normal) self.old hands.old Answer.Sent result self.new hands.new }
    {
        match self.finder.matches(self.alloc, hands.text(packet)) {
            Ok(true) => Ok(Wish::Send(ACCEPTED, packet)),
            Ok(false) => self.reject(hands, packet),
            Err(_) => Err(Stop::NoMemory),
        }
    }
}

impl Component for Match {
    ghost use Rattle.flow_match.specs.Match.{match_rules};
    ghost use Rattle.flow_match.specs.MatchLaws.{match_lawful};

    ghost rules = { match_rules };

    ghost lawful = { match_lawful };

    fn shape(&self) -> Shape {
        Shape {
            inputs: 1,
            outputs: 2,
        }
    }

    #[inline(never)]
    fn resume(&mut self, hands: &mut Hands, answer: Answer) -> Result<Wish, Stop> {
        match answer {
            Answer::Start => Ok(Wish::Receive(IN)),
            Answer::Got(packet) => match hands.kind(packet) {
                Kind::Normal => self.judge(hands, packet),
                Kind::Open => Ok(Wish::Send(ACCEPTED, packet)),
                Kind::Close => Ok(Wish::Send(ACCEPTED, packet)),
            },
            Answer::End => Ok(Wish::Deactivate),
            Answer::Sent => Ok(Wish::Receive(IN)),
            Answer::Level(_) => unreachable!(),
        }
    }

    fn end(&mut self) {}
}
