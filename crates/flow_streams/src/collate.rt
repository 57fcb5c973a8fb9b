//! The component that collates its inputs.

ghost use Rattle.std.specs.Prelude.{◌≡◌, ℕ, ◌+◌, ◌-◌, ◌*◌, ◌<◌, ◌≤◌, ◌==◌, ◌++◌, ◌∷◌, length, take, drop, sum, false, [], Some, None, IfSome, IfOk, IfErr, OnOk, OnErr, slice_index};
ghost use Rattle.flow_packet.specs.Hands.{new_id};
ghost use Rattle.flow_packet.specs.Tree.{packet_of};
ghost use Rattle.flow_packet.specs.Held.{held_of};
ghost use Rattle.flow_component.specs.Resumes.{Resumes};
ghost use Rattle.flow_streams.specs.CollateState.{CollateState};
ghost use Rattle.flow_streams.specs.Collation.{width, goes_before, first_of, or_later, levels_that_differ, packet_there};

use flow_component::{Answer, Component, Fail, Port, Shape, Stop, Wish};
use flow_limits::{ELEMENT_LIMIT, HANDS_LIMIT, TEXT_LIMIT};
use flow_packet::{Hands, HandsStop, Kind, Packet, PacketId};
use std::alloc::AllocError;
use std::cmp::Ordering;
use std::marker::Model;
use std::mem;

/// Where a Collate stands.
#[derive(Clone, Copy, Debug, PartialEq, Eq)]
pub enum CollatePlace {
    /// It receives from each input in order, and has come to this one.
    Filling(u32),
    /// A packet of this input was sent, and it receives the next one there.
    Refilling(u32),
    /// So many Close packets are still to be sent, and so many Open packets, and then the packet at
    /// the place in its hands.
    Turning {
        closes: usize,
        opens: usize,
        place: usize,
    },
    /// All inputs have ended, and so many Close packets are still to be sent.
    Leaving(usize),
}

/// Merges its inputs by the first bytes of their texts, with a bracket at each level of the key that
/// changes.
#[derive(Drop)]
pub struct Collate {
    fields: Vec<u8>,
    elements: u32,
    owners: Vec<u32>,
    opened: bool,
    last: Vec<u8>,
    place: CollatePlace,
}

impl Model for Collate {
    ghost use Rattle.std.specs.Prelude.{◌≤◌, length};
    ghost use Rattle.flow_streams.specs.CollateState.{CollateState};

    ghost Value = { CollateState };

    ghost view = { λ c. record { fields = c.fields.items; elements = c.elements; owners = c.owners.items; opened = c.opened; last = c.last.items; place = c.place } };

    ghost invariant = { λ c. length c.fields.items ≤ 8 };
}

// How many bytes the key of a level has.
fn width(fields: &[u8], level: usize) -> usize
    requires level { level ≤ length fields.now }
    requires few { length fields.now ≤ 8 }
    ensures width { result ≡ width fields.now level }
    ensures most { result ≤ 2040 }
{
    let mut bytes: usize = 0;
    for field in &fields[..level] {
        bytes += *field as usize;
    }
    bytes
}

// The first bytes of the text.
fn key(text: &[u8], bytes: usize) -> &[u8]
    ensures { result.now ≡ take bytes text.now }
{
    &text[..bytes.min(text.len())]
}

fn goes_before(
    bytes: usize,
    element: u32,
    packet: &Packet,
    other_element: u32,
    other: &Packet,
) -> bool
    ensures { result ≡ goes_before bytes element packet.now other_element other.now }
{
    match key(packet.text(), bytes).cmp(key(other.text(), bytes)) {
        Ordering::Less => true,
        Ordering::Equal => element < other_element,
        Ordering::Greater => false,
    }
}

// The packet with the number 0 goes first, unless the one that goes first of the others goes before
// it. That one's place is counted from the packet after the one with the number 0.
fn or_later(bytes: usize, owners: &[u32], packets: &[Packet], later: Option<usize>) -> Option<usize>
    requires some { 0 < length owners.now }
    requires each { length owners.now ≡ length packets.now }
    requires within { IfSome later (λ place. place + 1 < length owners.now) }
    ensures { result ≡ or_later bytes (slice_index owners.now 0) (packet_there packets.now 0) (drop 1 owners.now) (drop 1 packets.now) later }
{
    match later {
        Some(place) => {
            if goes_before(
                bytes,
                owners[place + 1],
                &packets[place + 1],
                owners[0],
                &packets[0],
            ) {
                Some(place + 1)
            } else {
                Some(0)
            }
        }
        None => Some(0),
    }
}

// The place of the packet that goes first.
fn first_of(bytes: usize, owners: &[u32], packets: &[Packet]) -> Option<usize>
    requires each { length owners.now ≡ length packets.now }
    ensures first { result ≡ first_of bytes owners.now packets.now }
    ensures within { IfSome result (λ place. place < length owners.now) }
{
    let mut first = None;
    let mut at = owners.len();
    while at > 0 {
        at -= 1;
        first = or_later(bytes, &owners[at..], &packets[at..], first);
    }
    first
}

// How many levels there are from the lowest one on at which the keys of the texts differ.
fn levels_that_differ(fields: &[u8], old: &[u8], new: &[u8]) -> usize
    requires few { length fields.now ≤ 8 }
    ensures levels { result ≡ levels_that_differ fields.now old.now new.now }
    ensures most { result ≤ length fields.now }
{
    let mut bytes: usize = 0;
    for (level, field) in fields.iter().enumerate() {
        bytes += *field as usize;
        if key(old, bytes) != key(new, bytes) {
            return fields.len() - level;
        }
    }
    0
}

// Makes a bracket, for which there is room.
fn make_bracket(hands: &mut Hands, kind: Kind, text: &[u8]) -> Result<PacketId, AllocError>
    requires short { length text.now ≤ TEXT_LIMIT }
    requires few { length hands.old.packets < HANDS_LIMIT }
    requires room { hands.old.made < 4294967295 }
    ensures id { IfOk result (λ id. id ≡ new_id hands.old) }
    ensures made { OnOk result (hands.new ≡ record hands.old { made = hands.old.made + 1; packets = hands.old.packets ++ packet_of (new_id hands.old) kind text.now [] ∷ []; spare = hands.new.spare }) }
    ensures err { OnErr result (hands.new ≡ hands.old) }
{
    match hands.make(kind, text) {
        Ok(bracket) => Ok(bracket),
        Err(HandsStop::TextLimit(_)) => unreachable!(),
        Err(HandsStop::HandsLimit) => unreachable!(),
        Err(HandsStop::NoMemory) => Err(AllocError),
    }
}

impl Collate {
    ghost use Rattle.flow_streams.specs.Collate.{whole, sends_packet, sends_bracket, turns, turns_to, leaves, chooses, goes_on, sent_on, element_of, opening, IsReceiving, IsReadyOn};

    /// The component before its first packet. Takes no memory.
    pub fn new(fields: Vec<u8>, elements: u32) -> Collate
        requires one_field { 1 ≤ length fields.items }
        requires few_fields { length fields.items ≤ 8 }
        requires one { 1 ≤ elements }
        requires few { elements ≤ ELEMENT_LIMIT }
        ensures { result ≡ record { fields = fields.items; elements = elements; owners = []; opened = false; last = []; place = CollatePlace.Filling 0 } }
    {
        let alloc = *fields.allocator();
        Collate {
            fields,
            elements,
            owners: Vec::new(alloc),
            opened: false,
            last: Vec::new(alloc),
            place: CollatePlace::Filling(0),
        }
    }

    // How many bytes the key of all fields has.
    fn whole(&self) -> usize
        ensures { result ≡ whole self.now }
    {
        width(&self.fields, self.fields.len())
    }

    // The levels that the packet opens.
    fn opening(&self, packet: &Packet) -> usize
        ensures levels { result ≡ opening self.now packet.now }
        ensures most { result ≤ length self.now.fields }
    {
        if self.opened {
            levels_that_differ(&self.fields, &self.last, packet.text())
        } else {
            self.fields.len()
        }
    }

    // Sends the packet at the place.
    fn send_packet(&mut self, hands: &mut Hands, place: usize) -> Result<Wish, Stop>
        requires place { place < length self.old.owners }
        requires each { length self.old.owners ≡ length hands.old.packets }
        ensures sends { Resumes (λ state held _ outcome. outcome ≡ sends_packet state held place) self.old hands.old Answer.Sent result self.new hands.new }
        ensures only { IfErr result (λ stop. stop ≡ Stop.NoMemory) }
    {
        let packet = hands.packets()[place].id();
        let element = self.owners.remove(place);
        self.place = CollatePlace::Refilling(element);
        Ok(Wish::Send(Port(0), packet))
    }

    // Sends a Close packet.
    fn close(&mut self, hands: &mut Hands, place: CollatePlace) -> Result<Wish, Stop>
        requires few { length hands.old.packets < HANDS_LIMIT }
        requires room { hands.old.made < 4294967295 }
        ensures sends { Resumes (λ state held _ outcome. outcome ≡ sends_bracket state held place Kind.Close []) self.old hands.old Answer.Sent result self.new hands.new }
        ensures only { IfErr result (λ stop. stop ≡ Stop.NoMemory) }
    {
        let Ok(bracket) = make_bracket(hands, Kind::Close, &[]) else {
            return Err(Stop::NoMemory);
        };
        self.place = place;
        Ok(Wish::Send(Port(0), bracket))
    }

    // Sends an Open packet with the key of the level.
    fn open(&mut self, hands: &mut Hands, place: CollatePlace, level: usize) -> Result<Wish, Stop>
        requires level { level ≤ length self.old.fields }
        requires few { length hands.old.packets < HANDS_LIMIT }
        requires room { hands.old.made < 4294967295 }
        ensures sends { Resumes (λ state held _ outcome. outcome ≡ sends_bracket state held place Kind.Open (take (width state.fields level) state.last)) self.old hands.old Answer.Sent result self.new hands.new }
        ensures only { IfErr result (λ stop. stop ≡ Stop.NoMemory) }
    {
        let bytes = width(&self.fields, level);
        let Ok(bracket) = make_bracket(hands, Kind::Open, key(&self.last, bytes)) else {
            return Err(Stop::NoMemory);
        };
        self.place = place;
        Ok(Wish::Send(Port(0), bracket))
    }

    // Sends what is due before the packet at the place, or that packet.
    fn turns(
        &mut self,
        hands: &mut Hands,
        closes: usize,
        opens: usize,
        place: usize,
    ) -> Result<Wish, Stop>
        requires opens { opens ≤ length self.old.fields }
        requires place { place < length self.old.owners }
        requires each { length self.old.owners ≡ length hands.old.packets }
        requires few { length hands.old.packets < HANDS_LIMIT }
        requires room { hands.old.made < 4294967295 }
        ensures sends { Resumes (λ state held _ outcome. outcome ≡ turns state held closes opens place) self.old hands.old Answer.Sent result self.new hands.new }
        ensures only { IfErr result (λ stop. stop ≡ Stop.NoMemory) }
    {
        if closes > 0 {
            let next = CollatePlace::Turning {
                closes: closes - 1,
                opens,
                place,
            };
            return self.close(hands, next);
        }
        if opens > 0 {
            let next = CollatePlace::Turning {
                closes: 0,
                opens: opens - 1,
                place,
            };
            let level = self.fields.len() - (opens - 1);
            return self.open(hands, next, level);
        }
        self.send_packet(hands, place)
    }

    // The packet at the place comes next.
    fn turns_to(&mut self, hands: &mut Hands, place: usize) -> Result<Wish, Stop>
        requires place { place < length self.old.owners }
        requires each { length self.old.owners ≡ length hands.old.packets }
        requires few { length hands.old.packets < HANDS_LIMIT }
        requires room { hands.old.made < 4294967295 }
        ensures sends { Resumes (λ state held _ outcome. outcome ≡ turns_to state held place (opening state (packet_there held.packets place))) self.old hands.old Answer.Sent result self.new hands.new }
        ensures only { IfErr result (λ stop. stop ≡ Stop.NoMemory) }
    {
        let packet = &hands.packets()[place];
        let opens = self.opening(packet);
        if opens == 0 {
            return self.send_packet(hands, place);
        }
        let Ok(last) = Vec::from_slice(*self.last.allocator(), key(packet.text(), self.whole()))
        else {
            return Err(Stop::NoMemory);
        };
        let closes = if self.opened { opens } else { 0 };
        let opened = mem::replace(&mut self.opened, true);
        let last = mem::replace(&mut self.last, last);
        let result = self.turns(hands, closes, opens, place);
        if result.is_err() {
            self.opened = opened;
            self.last = last;
        }
        result
    }

    // Sends what is due after the last packet, or deactivates.
    fn leaves(&mut self, hands: &mut Hands, closes: usize) -> Result<Wish, Stop>
        requires few { length hands.old.packets < HANDS_LIMIT }
        requires room { hands.old.made < 4294967295 }
        ensures sends { Resumes (λ state held _ outcome. outcome ≡ leaves state held closes) self.old hands.old Answer.Sent result self.new hands.new }
        ensures only { IfErr result (λ stop. stop ≡ Stop.NoMemory) }
    {
        if closes > 0 {
            return self.close(hands, CollatePlace::Leaving(closes - 1));
        }
        self.opened = false;
        self.place = CollatePlace::Filling(0);
        Ok(Wish::Deactivate)
    }

    // The packet that goes first comes next.
    fn chooses(&mut self, hands: &mut Hands) -> Result<Wish, Stop>
        requires each { length self.old.owners ≡ length hands.old.packets }
        requires few { length hands.old.packets < HANDS_LIMIT }
        requires room { hands.old.made < 4294967295 }
        ensures sends { Resumes (λ state held _ outcome. outcome ≡ chooses state held) self.old hands.old Answer.Sent result self.new hands.new }
        ensures only { IfErr result (λ stop. stop ≡ Stop.NoMemory) }
    {
        match first_of(self.whole(), &self.owners, hands.packets()) {
            Some(place) => self.turns_to(hands, place),
            None => {
                let closes = if self.opened { self.fields.len() } else { 0 };
                self.leaves(hands, closes)
            }
        }
    }

    // An input gave a packet or its end.
    fn goes_on(&mut self, hands: &mut Hands) -> Result<Wish, Stop>
        requires each { length self.old.owners ≡ length hands.old.packets }
        requires few { length hands.old.packets < HANDS_LIMIT }
        requires room { hands.old.made < 4294967295 }
        requires small { self.old.elements ≤ ELEMENT_LIMIT }
        requires below { element_of self.old.place < self.old.elements }
        ensures sends { Resumes (λ state held _ outcome. outcome ≡ goes_on state held state.place) self.old hands.old Answer.Sent result self.new hands.new }
        ensures only { IfErr result (λ stop. stop ≡ Stop.NoMemory) }
    {
        if let CollatePlace::Filling(element) = self.place {
            if element + 1 < self.elements {
                self.place = CollatePlace::Filling(element + 1);
                return Ok(Wish::Receive(Port(element + 1)));
            }
        }
        self.chooses(hands)
    }

    // The input from which it receives.
    fn element(&self) -> u32
        ensures { result ≡ element_of self.now.place }
    {
        match self.place {
            CollatePlace::Filling(element) => element,
            CollatePlace::Refilling(element) => element,
            CollatePlace::Turning { .. } => 0,
            CollatePlace::Leaving(_) => 0,
        }
    }

    // A packet has come from an input.
    fn comes(&mut self, hands: &mut Hands) -> Result<Wish, Stop>
        requires each { length self.old.owners + 1 ≡ length hands.old.packets }
        requires few { length hands.old.packets < HANDS_LIMIT }
        requires room { hands.old.made < 4294967295 }
        requires small { self.old.elements ≤ ELEMENT_LIMIT }
        requires below { element_of self.old.place < self.old.elements }
        ensures { Resumes (λ state held _ outcome. outcome ≡ goes_on (record state { owners = state.owners ++ element_of state.place ∷ [] }) held state.place) self.old hands.old Answer.Sent result self.new hands.new }
    {
        let element = self.element();
        if self.owners.push(element).is_err() {
            return Err(Stop::NoMemory);
        }
        let result = self.goes_on(hands);
        if result.is_err() {
            self.owners.pop();
        }
        result
    }

    // A packet was sent.
    fn sent_on(&mut self, hands: &mut Hands) -> Result<Wish, Stop>
        requires ready { IsReadyOn self.old self.old.place }
        requires each { length self.old.owners ≡ length hands.old.packets }
        requires few { length hands.old.packets < HANDS_LIMIT }
        requires room { hands.old.made < 4294967295 }
        ensures { Resumes (λ state held _ outcome. outcome ≡ sent_on state held state.place) self.old hands.old Answer.Sent result self.new hands.new }
    {
        match self.place {
            CollatePlace::Filling(element) => Ok(Wish::Receive(Port(element))),
            CollatePlace::Refilling(element) => Ok(Wish::Receive(Port(element))),
            CollatePlace::Turning {
                closes,
                opens,
                place,
            } => self.turns(hands, closes, opens, place),
            CollatePlace::Leaving(closes) => self.leaves(hands, closes),
        }
    }
}

impl Component for Collate {
    ghost use Rattle.flow_streams.specs.Collate.{collate_rules};
    ghost use Rattle.flow_streams.specs.CollateLaws.{collate_lawful};

    ghost rules = { collate_rules };

    ghost lawful = { collate_lawful };

    fn shape(&self) -> Shape {
        Shape {
            inputs: self.elements,
            outputs: 1,
        }
    }

    #[inline(never)]
    fn resume(&mut self, hands: &mut Hands, answer: Answer) -> Result<Wish, Stop> {
        match answer {
            Answer::Start => Ok(Wish::Receive(Port(self.element()))),
            Answer::Got(packet) => match hands.kind(packet) {
                Kind::Normal => self.comes(hands),
                Kind::Open => Err(Stop::Fail(Fail::BracketIn(Port(self.element())))),
                Kind::Close => Err(Stop::Fail(Fail::BracketIn(Port(self.element())))),
            },
            Answer::End => self.goes_on(hands),
            Answer::Sent => self.sent_on(hands),
            Answer::Level(_) => unreachable!(),
        }
    }

    fn end(&mut self) {}
}
