//! The component that passes the last packets of each stretch on.

ghost use Rattle.std.specs.Prelude.{◌≡◌, ◌<◌, []};
ghost use Rattle.flow_packet.specs.declared.packet.Kind.{Kind};
ghost use Rattle.flow_packet.specs.Hands.{kind_at};
ghost use Rattle.flow_packet.specs.Held.{held_of};
ghost use Rattle.flow_component.specs.Alone.{HoldsOnly};
ghost use Rattle.flow_component.specs.Resumes.{Resumes};
ghost use Rattle.flow_pick.specs.TailState.{TailState};
ghost use Rattle.flow_pick.specs.Tail.{Carries, CarriesOne};

use crate::parting::{IN, OUT, REST, SHAPE};
use flow_component::{Answer, Component, Fail, Shape, Stop, Wish};
use flow_packet::{AttachStop, Hands, HandsStop, Kind, PacketId};
use std::marker::Model;

// The name of the chain in which a carrier holds packets.
const ITEMS: &[u8] = b"items";

/// Where a Tail stands.
#[derive(Clone, Copy, Debug, PartialEq, Eq)]
pub enum TailPlace {
    /// It holds nothing.
    Waiting,
    /// This packet holds the last packets of the stretch so far.
    Holding(PacketId),
    /// What this packet holds is sent before the bracket with that id.
    Passing(PacketId, PacketId),
    /// What this packet holds is sent before the end.
    Leaving(PacketId),
}

/// Passes on the last packets of each stretch, which are the Normal packets between two brackets.
///
/// So many at most go to the first output, before the bracket or the end that ends the stretch, and the brackets too; the others go to
/// the second output, or are dropped where that isn't connected. It holds its packets in one tree.
#[derive(Drop)]
pub struct Tail {
    count: u32,
    rest: bool,
    place: TailPlace,
}

impl Model for Tail {
    ghost use Rattle.flow_pick.specs.TailState.{TailState};

    ghost Value = { TailState };

    ghost view = { λ t. record { count = t.count; rest = t.rest; place = t.place } };
}

impl Tail {
    ghost use Rattle.flow_pick.specs.Picking.{leaves};
    ghost use Rattle.flow_pick.specs.Tail.{begins, holds, passes, ends, takes, brackets, end_comes, goes_on, held_by, HasCome, IsBetween, HasSent};

    /// The component before its first packet; `rest` says whether its second output is connected.
    pub fn new(count: u32, rest: bool) -> Tail
        ensures { result ≡ record { count = count; rest = rest; place = TailPlace.Waiting } }
    {
        Tail {
            count,
            rest,
            place: TailPlace::Waiting,
        }
    }

    // A packet that isn't held goes to the second output, or is dropped where that isn't connected.
    fn leave(&mut self, hands: &mut Hands, packet: PacketId) -> Result<Wish, Stop>
        requires alone { HoldsOnly (held_of hands.old) packet }
        ensures { Resumes (λ state held _ outcome. outcome ≡ leaves state.rest state held packet) self.old hands.old Answer.Sent result self.new hands.new }
    {
        if self.rest {
            return Ok(Wish::Send(REST, packet));
        }
        hands.drop_packet(packet);
        Ok(Wish::Receive(IN))
    }

    // The first packet of a stretch came.
    fn begin(&mut self, hands: &mut Hands, packet: PacketId) -> Result<Wish, Stop>
        requires alone { HoldsOnly (held_of hands.old) packet }
        requires room { hands.old.made < 4294967295 }
        ensures { Resumes (λ state held _ outcome. outcome ≡ begins state held packet) self.old hands.old Answer.Sent result self.new hands.new }
    {
        match hands.wrap(ITEMS, packet) {
            Ok(carrier) => {
                self.place = TailPlace::Holding(carrier);
                Ok(Wish::Receive(IN))
            }
            Err(AttachStop::TreeDepth) => Err(Stop::Fail(Fail::TreeDepth)),
            Err(AttachStop::NoMemory) => Err(Stop::NoMemory),
        }
    }

    // A later one came.
    fn hold(&mut self, hands: &mut Hands, carrier: PacketId, packet: PacketId) -> Result<Wish, Stop>
        requires carries { CarriesOne (held_of hands.old) carrier self.old.count packet }
        ensures { Resumes (λ state held _ outcome. outcome ≡ holds state held carrier packet) self.old hands.old Answer.Sent result self.new hands.new }
    {
        if let Err(stop) = hands.attach(carrier, ITEMS, packet) {
            return match stop {
                AttachStop::TreeDepth => Err(Stop::Fail(Fail::TreeDepth)),
                AttachStop::NoMemory => Err(Stop::NoMemory),
            };
        }
        if hands.chain_len(carrier, ITEMS) as u64 <= self.count as u64 {
            return Ok(Wish::Receive(IN));
        }
        match hands.detach(carrier, ITEMS) {
            Ok(Some(first)) => {
                if self.rest {
                    return Ok(Wish::Send(REST, first));
                }
                hands.drop_packet(first);
                Ok(Wish::Receive(IN))
            }
            Ok(None) => unreachable!(),
            Err(_) => unreachable!(),
        }
    }

    // The next packet that is held is sent before the bracket, or the bracket after the last.
    fn pass(
        &mut self,
        hands: &mut Hands,
        carrier: PacketId,
        bracket: PacketId,
    ) -> Result<Wish, Stop>
        requires carries { CarriesOne (held_of hands.old) carrier self.old.count bracket }
        ensures { Resumes (λ state held _ outcome. outcome ≡ passes state held carrier bracket (held_by held carrier)) self.old hands.old Answer.Sent result self.new hands.new }
    {
        match hands.detach(carrier, ITEMS) {
            Ok(Some(first)) => {
                self.place = TailPlace::Passing(carrier, bracket);
                Ok(Wish::Send(OUT, first))
            }
            Ok(None) => {
                hands.drop_packet(carrier);
                self.place = TailPlace::Waiting;
                Ok(Wish::Send(OUT, bracket))
            }
            Err(HandsStop::TextLimit(_)) => unreachable!(),
            Err(HandsStop::HandsLimit) => unreachable!(),
            Err(HandsStop::NoMemory) => Err(Stop::NoMemory),
        }
    }

    // The next packet that is held is sent before the end.
    fn leave_off(&mut self, hands: &mut Hands, carrier: PacketId) -> Result<Wish, Stop>
        requires carries { Carries (held_of hands.old) carrier self.old.count [] }
        ensures { Resumes (λ state held _ outcome. outcome ≡ ends state held carrier (held_by held carrier)) self.old hands.old Answer.Sent result self.new hands.new }
    {
        match hands.detach(carrier, ITEMS) {
            Ok(Some(first)) => {
                self.place = TailPlace::Leaving(carrier);
                Ok(Wish::Send(OUT, first))
            }
            Ok(None) => {
                hands.drop_packet(carrier);
                self.place = TailPlace::Waiting;
                Ok(Wish::Deactivate)
            }
            Err(HandsStop::TextLimit(_)) => unreachable!(),
            Err(HandsStop::HandsLimit) => unreachable!(),
            Err(HandsStop::NoMemory) => Err(Stop::NoMemory),
        }
    }

    // A Normal packet came.
    fn take(&mut self, hands: &mut Hands, packet: PacketId) -> Result<Wish, Stop>
        requires come { HasCome self.old (held_of hands.old) packet self.old.place }
        requires room { hands.old.made < 4294967295 }
        ensures { Resumes (λ state held _ outcome. outcome ≡ takes state held packet state.place) self.old hands.old Answer.Sent result self.new hands.new }
    {
        let place = self.place;
        match place {
            TailPlace::Waiting if self.count == 0 => self.leave(hands, packet),
            TailPlace::Waiting => self.begin(hands, packet),
            TailPlace::Holding(carrier) => self.hold(hands, carrier, packet),
            TailPlace::Passing(_, _) => unreachable!(),
            TailPlace::Leaving(_) => unreachable!(),
        }
    }

    // A bracket came.
    fn close(&mut self, hands: &mut Hands, packet: PacketId) -> Result<Wish, Stop>
        requires come { HasCome self.old (held_of hands.old) packet self.old.place }
        ensures { Resumes (λ state held _ outcome. outcome ≡ brackets state held packet state.place) self.old hands.old Answer.Sent result self.new hands.new }
    {
        let place = self.place;
        match place {
            TailPlace::Waiting => Ok(Wish::Send(OUT, packet)),
            TailPlace::Holding(carrier) => self.pass(hands, carrier, packet),
            TailPlace::Passing(_, _) => unreachable!(),
            TailPlace::Leaving(_) => unreachable!(),
        }
    }

    // The end came.
    fn finish(&mut self, hands: &mut Hands) -> Result<Wish, Stop>
        requires between { IsBetween self.old (held_of hands.old) self.old.place }
        ensures { Resumes (λ state held _ outcome. outcome ≡ end_comes state held state.place) self.old hands.old Answer.Sent result self.new hands.new }
    {
        let place = self.place;
        match place {
            TailPlace::Waiting => Ok(Wish::Deactivate),
            TailPlace::Holding(carrier) => self.leave_off(hands, carrier),
            TailPlace::Passing(_, _) => unreachable!(),
            TailPlace::Leaving(_) => unreachable!(),
        }
    }

    // A packet was sent.
    fn go_on(&mut self, hands: &mut Hands) -> Result<Wish, Stop>
        requires sent { HasSent self.old (held_of hands.old) self.old.place }
        ensures { Resumes (λ state held _ outcome. outcome ≡ goes_on state held state.place) self.old hands.old Answer.Sent result self.new hands.new }
    {
        let place = self.place;
        match place {
            TailPlace::Waiting => Ok(Wish::Receive(IN)),
            TailPlace::Holding(_) => Ok(Wish::Receive(IN)),
            TailPlace::Passing(carrier, bracket) => self.pass(hands, carrier, bracket),
            TailPlace::Leaving(carrier) => self.leave_off(hands, carrier),
        }
    }
}

impl Component for Tail {
    ghost use Rattle.flow_pick.specs.Tail.{tail_rules};
    ghost use Rattle.flow_pick.specs.TailLaws.{tail_lawful};

    ghost rules = { tail_rules };

    ghost lawful = { tail_lawful };

    fn shape(&self) -> Shape {
        SHAPE
    }

    #[inline(never)]
    fn resume(&mut self, hands: &mut Hands, answer: Answer) -> Result<Wish, Stop> {
        match answer {
            Answer::Start => Ok(Wish::Receive(IN)),
            Answer::Got(packet) => match hands.kind(packet) {
                Kind::Normal => self.take(hands, packet),
                Kind::Open => self.close(hands, packet),
                Kind::Close => self.close(hands, packet),
            },
            Answer::End => self.finish(hands),
            Answer::Sent => self.go_on(hands),
            Answer::Level(_) => unreachable!(),
        }
    }

    fn end(&mut self) {}
}
