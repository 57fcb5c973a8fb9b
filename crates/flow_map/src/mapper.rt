//! A component that maps, made of what a kind says of a text.

ghost use Rattle.flow_limits.specs.declared.TheConstants.{TEXT_LIMIT};
ghost use Rattle.std.specs.Prelude.{◌≡◌, ◌+◌, ◌<◌, ◌≤◌, ◌++◌, ◌∷◌, [], ℕ, List, length, IfOk, OnOk, OnErr};
ghost use Rattle.flow_packet.specs.declared.packet.Kind.{Kind};
ghost use Rattle.flow_packet.specs.Hands.{text_at, new_id, IsAtRoot};
ghost use Rattle.flow_packet.specs.Held.{held_of};
ghost use Rattle.flow_packet.specs.Tree.{packet_of};
ghost use Rattle.flow_component.specs.Alone.{HoldsOnly};
ghost use Rattle.flow_component.specs.Resumes.{Resumes};
ghost use Rattle.flow_map.specs.Mapping.{Mapping, IsMapping, IsReadyOn, gives, gives_from, passes, goes_on, waiting, itself_port, Over, Itself, Last, More};
ghost use Rattle.flow_map.specs.Becoming.{Becoming, IsBecoming};
ghost use Rattle.flow_map.specs.Telling.{Tells, IsMadeOf, product_of};

use flow_component::{Answer, Component, Fail, Port, Shape, Stop, Wish};
use flow_packet::{Hands, HandsStop, Kind, PacketId};
use std::alloc::AllocError;
use std::marker::Model;

const IN: Port = Port(0);

const OUT: Port = Port(0);

const REST: Port = Port(1);

/// A packet that is to be made of a text.
#[derive(Debug, Drop)]
pub enum Made {
    /// Its text is a piece of that text.
    Piece {
        kind: Kind,
        start: usize,
        end: usize,
    },
    /// A Normal packet with this text.
    Text(Vec<u8>),
}

/// What comes next of the packet with a text.
#[derive(Debug, Drop)]
pub enum Told {
    /// Nothing any more.
    Over,
    /// The packet itself, as the last.
    Itself,
    /// A packet that is made, as the last.
    Last(Made),
    /// A packet that is made, and then what comes from this place of the text on.
    More(Made, usize),
    /// A packet is to be made whose text would have so many bytes, more than it may.
    TooLong(u64),
}

/// What a kind makes of texts. Its meaning is the ghost member `mapping`.
pub trait Maps: Drop {
    /// What comes next of a text, and what becomes of the kind's own state.
    ghost mapping: { Mapping Self };

    /// What becomes of a text from a place on, in all.
    ghost becoming: { Self → List ℕ → ℕ → Becoming };

    /// Whether the second output is connected, where there is one.
    fn second(&self) -> Option<bool>
        ensures { result ≡ mapping.second self.now };

    /// What comes next of a packet with this text, from this place of the text on.
    fn next(&mut self, text: &[u8], place: usize) -> Result<Told, AllocError>
        requires short { length text.now ≤ TEXT_LIMIT }
        requires within { place ≤ mapping.last_place self.old text.now }
        ensures same { self.new ≡ self.old }
        ensures told { IfOk result (λ told. Tells text.now told (mapping.next self.old text.now place)) };

    /// A packet of this kind with this text is done with. Takes no memory.
    fn pass(&mut self, kind: Kind, text: &[u8])
        ensures { self.new ≡ mapping.after self.old kind text.now };

    /// The mapping is one.
    ghost laws: { IsMapping mapping };

    /// This becomes of a text by what comes next of it, again and again.
    ghost becomes: { IsBecoming mapping becoming };
}

/// Where a component that maps stands.
#[derive(Clone, Copy, Debug, PartialEq, Eq)]
pub enum MapperPlace {
    Waiting,
    /// It has begun with this packet, and goes on from this place of its text.
    Making { packet: PacketId, place: usize },
}

/// A component that maps, as its kind says.
#[derive(Drop)]
pub struct Mapper<M: Maps> {
    own: M,
    place: MapperPlace,
}

impl<M: Maps> Model for Mapper<M> {
    ghost use Rattle.flow_map.specs.Mapping.{Mapped};

    ghost Value = { Mapped M };

    ghost view = { λ m. record { own = m.own; place = m.place } };
}

// Makes the packet, which stands last. Without memory the hands are as before.
fn make(hands: &mut Hands, packet: PacketId, made: Made) -> Result<PacketId, AllocError>
    requires alone { HoldsOnly (held_of hands.old) packet }
    requires made { IsMadeOf (text_at hands.old.packets packet) made }
    requires room { hands.old.made < 4294967295 }
    ensures id { IfOk result (λ id. id ≡ new_id hands.old) }
    ensures made { OnOk result (hands.new ≡ record hands.old { made = hands.old.made + 1; packets = hands.old.packets ++ packet_of (new_id hands.old) (product_of (text_at hands.old.packets packet) made).kind (product_of (text_at hands.old.packets packet) made).text [] ∷ []; spare = hands.new.spare }) }
    ensures err { OnErr result (held_of hands.new ≡ held_of hands.old) }
    ensures dropped { hands.new.dropped ≡ hands.old.dropped }
{
    match made {
        Made::Piece { kind, start, end } => match hands.make_piece(kind, packet, start, end) {
            Ok(id) => Ok(id),
            Err(HandsStop::TextLimit(_)) => unreachable!(),
            Err(HandsStop::HandsLimit) => unreachable!(),
            Err(HandsStop::NoMemory) => Err(AllocError),
        },
        Made::Text(text) => {
            hands.reserve(1)?;
            Ok(hands.make_normal(text))
        }
    }
}

impl<M: Maps> Mapper<M> {
    /// The component before its first packet.
    pub fn new(own: M) -> Mapper<M>
        ensures { result ≡ waiting own }
    {
        Mapper {
            own,
            place: MapperPlace::Waiting,
        }
    }

    // The output of a packet that is passed on itself.
    fn itself_port(&self) -> Port
        ensures { result ≡ itself_port (M.mapping.second self.now.own) }
    {
        match self.own.second() {
            None => OUT,
            Some(false) => OUT,
            Some(true) => REST,
        }
    }

    // Nothing comes of the packet any more.
    fn leave_off(&mut self, hands: &mut Hands, packet: PacketId) -> Result<Wish, Stop>
        requires alone { HoldsOnly (held_of hands.old) packet }
        ensures { Resumes (λ component held _ outcome. outcome ≡ gives M.mapping component held packet (text_at held.packets packet) Over) self.old hands.old Answer.Sent result self.new hands.new }
    {
        self.own.pass(Kind::Normal, hands.text(packet));
        self.place = MapperPlace::Waiting;
        hands.drop_packet(packet);
        Ok(Wish::Receive(IN))
    }

    // The packet itself is passed on.
    fn pass_itself(&mut self, hands: &mut Hands, packet: PacketId) -> Result<Wish, Stop>
        requires alone { HoldsOnly (held_of hands.old) packet }
        ensures { Resumes (λ component held _ outcome. outcome ≡ gives M.mapping component held packet (text_at held.packets packet) Itself) self.old hands.old Answer.Sent result self.new hands.new }
    {
        let port = self.itself_port();
        self.own.pass(Kind::Normal, hands.text(packet));
        self.place = MapperPlace::Waiting;
        Ok(Wish::Send(port, packet))
    }

    // The last packet is made, and the other one dropped.
    fn make_last(&mut self, hands: &mut Hands, packet: PacketId, made: Made) -> Result<Wish, Stop>
        requires alone { HoldsOnly (held_of hands.old) packet }
        requires made { IsMadeOf (text_at hands.old.packets packet) made }
        requires room { hands.old.made < 4294967295 }
        ensures { Resumes (λ component held _ outcome. outcome ≡ gives M.mapping component held packet (text_at held.packets packet) (Last (product_of (text_at held.packets packet) made))) self.old hands.old Answer.Sent result self.new hands.new }
    {
        let Ok(id) = make(hands, packet, made) else {
            return Err(Stop::NoMemory);
        };
        self.own.pass(Kind::Normal, hands.text(packet));
        self.place = MapperPlace::Waiting;
        hands.drop_packet(packet);
        Ok(Wish::Send(OUT, id))
    }

    // A packet is made, and from this place more comes.
    fn make_more(
        &mut self,
        hands: &mut Hands,
        packet: PacketId,
        made: Made,
        place: usize,
    ) -> Result<Wish, Stop>
        requires alone { HoldsOnly (held_of hands.old) packet }
        requires short { length (text_at hands.old.packets packet) ≤ TEXT_LIMIT }
        requires made { IsMadeOf (text_at hands.old.packets packet) made }
        requires room { hands.old.made < 4294967295 }
        ensures { Resumes (λ component held _ outcome. outcome ≡ gives M.mapping component held packet (text_at held.packets packet) (More (product_of (text_at held.packets packet) made) place)) self.old hands.old Answer.Sent result self.new hands.new }
    {
        let Ok(id) = make(hands, packet, made) else {
            return Err(Stop::NoMemory);
        };
        self.place = MapperPlace::Making { packet, place };
        Ok(Wish::Send(OUT, id))
    }

    // It goes on with the packet from this place of its text on.
    fn give(&mut self, hands: &mut Hands, packet: PacketId, place: usize) -> Result<Wish, Stop>
        requires alone { HoldsOnly (held_of hands.old) packet }
        requires within { place ≤ M.mapping.last_place self.old.own (text_at hands.old.packets packet) }
        requires room { hands.old.made < 4294967295 }
        ensures { Resumes (λ component held _ outcome. outcome ≡ gives_from M.mapping component held packet (text_at held.packets packet) place) self.old hands.old Answer.Sent result self.new hands.new }
    {
        match self.own.next(hands.text(packet), place) {
            Ok(Told::Over) => self.leave_off(hands, packet),
            Ok(Told::Itself) => self.pass_itself(hands, packet),
            Ok(Told::Last(made)) => self.make_last(hands, packet, made),
            Ok(Told::More(made, on)) => self.make_more(hands, packet, made, on),
            Ok(Told::TooLong(count)) => Err(Stop::Fail(Fail::TextLimit(count))),
            Err(_) => Err(Stop::NoMemory),
        }
    }

    // A bracket is passed on.
    fn pass(&mut self, hands: &mut Hands, packet: PacketId, kind: Kind) -> Result<Wish, Stop>
        requires alone { HoldsOnly (held_of hands.old) packet }
        ensures { Resumes (λ component held _ outcome. outcome ≡ passes M.mapping component held packet kind (text_at held.packets packet)) self.old hands.old Answer.Sent result self.new hands.new }
    {
        self.own.pass(kind, hands.text(packet));
        self.place = MapperPlace::Waiting;
        Ok(Wish::Send(OUT, packet))
    }

    // A packet was sent.
    fn go_on(&mut self, hands: &mut Hands) -> Result<Wish, Stop>
        requires ready { IsReadyOn M.mapping self.old.own (held_of hands.old) self.old.place }
        requires room { hands.old.made < 4294967295 }
        ensures { Resumes (λ component held _ outcome. outcome ≡ goes_on M.mapping component held component.place) self.old hands.old Answer.Sent result self.new hands.new }
    {
        let at = self.place;
        match at {
            MapperPlace::Waiting => Ok(Wish::Receive(IN)),
            MapperPlace::Making { packet, place } => self.give(hands, packet, place),
        }
    }
}

impl<M: Maps> Component for Mapper<M> {
    ghost use Rattle.flow_map.specs.Mapping.{mapper_rules};
    ghost use Rattle.flow_map.specs.MappingLaws.{mapper_lawful};

    ghost rules = { mapper_rules M.mapping };

    ghost lawful = { mapper_lawful M.mapping M.laws };

    fn shape(&self) -> Shape {
        match self.own.second() {
            None => Shape {
                inputs: 1,
                outputs: 1,
            },
            Some(_) => Shape {
                inputs: 1,
                outputs: 2,
            },
        }
    }

    #[inline(never)]
    fn resume(&mut self, hands: &mut Hands, answer: Answer) -> Result<Wish, Stop> {
        match answer {
            Answer::Start => Ok(Wish::Receive(IN)),
            Answer::Got(packet) => match hands.kind(packet) {
                Kind::Normal => self.give(hands, packet, 0),
                Kind::Open => self.pass(hands, packet, Kind::Open),
                Kind::Close => self.pass(hands, packet, Kind::Close),
            },
            Answer::End => Ok(Wish::Deactivate),
            Answer::Sent => self.go_on(hands),
            Answer::Level(_) => unreachable!(),
        }
    }

    fn end(&mut self) {}
}
