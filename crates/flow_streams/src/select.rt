//! The component that accepts packets whose text begins with a key.

ghost use Rattle.std.specs.Prelude.{◌≡◌};
ghost use Rattle.flow_packet.specs.Held.{held_of};
ghost use Rattle.flow_component.specs.Alone.{HoldsOnly};
ghost use Rattle.flow_component.specs.Resumes.{Resumes};
ghost use Rattle.flow_streams.specs.Bundle.{HoldsTwo};
ghost use Rattle.flow_streams.specs.Select.{SelectState};

use flow_component::{Answer, Component, Fail, Port, Shape, Stop, Wish};
use flow_packet::{Hands, Kind, PacketId};
use std::marker::Model;

const KEY: Port = Port(0);

const IN: Port = Port(1);

const ACCEPTED: Port = Port(0);

const REJECTED: Port = Port(1);

/// Where a Select stands in its activation.
#[derive(Clone, Copy, Debug, PartialEq, Eq)]
pub enum SelectPlace {
    /// For a start, or for a key.
    Waiting,
    /// For a packet to be selected by this key.
    Keyed(PacketId),
    /// For a packet, where no key came.
    Unkeyed,
    /// For its packet to be sent.
    Passing,
}

/// In each activation receives one key and one packet, and accepts the packet where its text begins
/// with the key's text.
///
/// An accepted packet goes to the first output, a rejected one to the second, or is dropped where that
/// isn't connected. The component is no looper: each activation is for one packet.
#[derive(Drop)]
pub struct Select {
    rejects: bool,
    place: SelectPlace,
}

impl Model for Select {
    ghost use Rattle.flow_streams.specs.Select.{SelectState};

    ghost Value = { SelectState };

    ghost view = { λ s. record { rejects = s.rejects; place = s.place } };
}

impl Select {
    ghost use Rattle.flow_streams.specs.Select.{rejects_packet, selects, comes, hears_end, HasCome, IsBetween};

    /// The component before its first key; `rejects` says whether its second output is connected. Takes
    /// no memory.
    pub fn new(rejects: bool) -> Select
        ensures { result ≡ record { rejects = rejects; place = SelectPlace.Waiting } }
    {
        Select {
            rejects,
            place: SelectPlace::Waiting,
        }
    }

    // Sends a packet to the second output, or drops it where that isn't connected.
    fn reject(&mut self, hands: &mut Hands, packet: PacketId) -> Result<Wish, Stop>
        requires alone { HoldsOnly (held_of hands.old) packet }
        ensures { Resumes (λ state held _ outcome. outcome ≡ rejects_packet state held packet) self.old hands.old Answer.Sent result self.new hands.new }
    {
        if self.rejects {
            self.place = SelectPlace::Passing;
            return Ok(Wish::Send(REJECTED, packet));
        }
        self.place = SelectPlace::Waiting;
        hands.drop_packet(packet);
        Ok(Wish::Deactivate)
    }

    // Drops the key, and accepts or rejects the packet.
    fn select(&mut self, hands: &mut Hands, key: PacketId, packet: PacketId) -> Result<Wish, Stop>
        requires two { HoldsTwo (held_of hands.old) key packet }
        ensures { Resumes (λ state held _ outcome. outcome ≡ selects state held key packet) self.old hands.old Answer.Sent result self.new hands.new }
    {
        let accepted = hands.text(packet).starts_with(hands.text(key));
        if accepted {
            hands.drop_packet(key);
            self.place = SelectPlace::Passing;
            return Ok(Wish::Send(ACCEPTED, packet));
        }
        if self.rejects {
            hands.drop_packet(key);
            self.place = SelectPlace::Passing;
            return Ok(Wish::Send(REJECTED, packet));
        }
        hands.drop_packet(key);
        hands.drop_packet(packet);
        self.place = SelectPlace::Waiting;
        Ok(Wish::Deactivate)
    }

    // A Normal packet came.
    fn take(&mut self, hands: &mut Hands, packet: PacketId) -> Result<Wish, Stop>
        requires came { HasCome (held_of hands.old) packet self.old.place }
        ensures { Resumes (λ state held _ outcome. outcome ≡ comes state held packet state.place) self.old hands.old Answer.Sent result self.new hands.new }
    {
        let place = self.place;
        match place {
            SelectPlace::Waiting => {
                self.place = SelectPlace::Keyed(packet);
                Ok(Wish::Receive(IN))
            }
            SelectPlace::Keyed(key) => self.select(hands, key, packet),
            SelectPlace::Unkeyed => self.reject(hands, packet),
            SelectPlace::Passing => unreachable!(),
        }
    }

    // Nothing will come where it receives from.
    fn end(&mut self, hands: &mut Hands) -> Result<Wish, Stop>
        requires between { IsBetween (held_of hands.old) self.old.place }
        ensures { Resumes (λ state held _ outcome. outcome ≡ hears_end state held state.place) self.old hands.old Answer.Sent result self.new hands.new }
    {
        let place = self.place;
        match place {
            SelectPlace::Waiting => {
                self.place = SelectPlace::Unkeyed;
                Ok(Wish::Receive(IN))
            }
            SelectPlace::Keyed(key) => {
                hands.drop_packet(key);
                self.place = SelectPlace::Waiting;
                Ok(Wish::Deactivate)
            }
            SelectPlace::Unkeyed => {
                self.place = SelectPlace::Waiting;
                Ok(Wish::Deactivate)
            }
            SelectPlace::Passing => unreachable!(),
        }
    }

    // The input from which it receives.
    fn input(&self) -> Port
        ensures { result ≡ Rattle.flow_streams.specs.Select.port_of self.now.place }
    {
        match self.place {
            SelectPlace::Waiting => KEY,
            SelectPlace::Keyed(_) => IN,
            SelectPlace::Unkeyed => IN,
            SelectPlace::Passing => IN,
        }
    }
}

impl Component for Select {
    ghost use Rattle.flow_streams.specs.Select.{select_rules};
    ghost use Rattle.flow_streams.specs.SelectLaws.{select_lawful};

    ghost rules = { select_rules };

    ghost lawful = { select_lawful };

    fn shape(&self) -> Shape {
        Shape {
            inputs: 2,
            outputs: 2,
        }
    }

    #[inline(never)]
    fn resume(&mut self, hands: &mut Hands, answer: Answer) -> Result<Wish, Stop> {
        match answer {
            Answer::Start => Ok(Wish::Receive(KEY)),
            Answer::Got(packet) => match hands.kind(packet) {
                Kind::Normal => self.take(hands, packet),
                Kind::Open => Err(Stop::Fail(Fail::BracketIn(self.input()))),
                Kind::Close => Err(Stop::Fail(Fail::BracketIn(self.input()))),
            },
            Answer::End => self.end(hands),
            Answer::Sent => {
                self.place = SelectPlace::Waiting;
                Ok(Wish::Deactivate)
            }
            Answer::Level(_) => unreachable!(),
        }
    }

    fn end(&mut self) {}
}
