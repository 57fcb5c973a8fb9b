//! The desk: what a part sees of its hands, and where it says what is to be done with them.

ghost use Rattle.std.specs.Prelude.{◌≡◌, ◌==◌, ◌≢◌, ◌↔◌, ◌⊎◌, ℕ, ◌<◌, ◌≤◌, ◌++◌, ◌∷◌, [], false, true, length, Some, None, IsSome, OnOk, OnErr, IfOk, IfErr, is_some, Err};
ghost use Rattle.std.specs.Option.{option_copied, option_map};
ghost use Rattle.std.specs.List.{list_any};
ghost use Rattle.flow_packet.specs.Tree.{text_of, kind_of};
ghost use Rattle.flow_packet.specs.Hands.{packet_at};
ghost use Rattle.flow_packet.specs.Held.{held_of, next_id};
ghost use Rattle.flow_own.specs.Desks.{is_there};
ghost use Rattle.flow_own.specs.Acts.{IsActs};

use flow_items::Text;
use flow_limits::{HANDS_LIMIT, TEXT_LIMIT};
use flow_packet::{Hands, Kind, PacketId};
use std::alloc::Global;
use std::marker::Model;

/// Why an act isn't kept.
#[derive(Clone, Copy, Debug, PartialEq, Eq)]
pub enum DeskStop {
    /// No packet with this id is at the root, or it was dropped at this desk.
    NoPacket,
    /// A packet is to be made already.
    MadeTwice,
    /// The text is longer than TEXT_LIMIT bytes. It has so many.
    TextLimit(u64),
    /// There are HANDS_LIMIT packets at the root.
    HandsLimit,
    NoMemory,
}

/// What a part has before it in one resume. The hands change only once the part has answered: first the packet is made, and then the
/// others are dropped, in the order of the calls.
#[derive(Drop)]
pub struct Desk<'a> {
    hands: &'a Hands,
    made: Option<(Kind, Text)>,
    dropped: Vec<PacketId>,
}

impl<'a> Model for Desk<'a> {
    ghost use Rattle.std.specs.Prelude.{◌<◌};
    ghost use Rattle.flow_packet.specs.Held.{held_of};
    ghost use Rattle.flow_own.specs.Acts.{IsActs};
    ghost use Rattle.flow_own.specs.Desks.{DeskValue, desk_code};

    ghost Value = { DeskValue };

    ghost coded = { desk_code };

    ghost view = { λ d. record { held = held_of d.hands.now; made = d.made; dropped = d.dropped.items } };

    ghost invariant = { λ d. IsActs (held_of d.hands.now) d.made d.dropped.items × (d.hands.now.made < 4294967295) };
}

impl<'a> Desk<'a> {
    /// A desk over these hands, without acts. Takes no memory.
    pub fn new(alloc: Global, hands: &'a Hands) -> Desk<'a>
        requires room { hands.now.made < 4294967295 }
        ensures { result ≡ record { held = held_of hands.now; made = None; dropped = [] } }
    {
        Desk {
            hands,
            made: None,
            dropped: Vec::new(alloc),
        }
    }

    /// The text of a packet; none where no packet at the root has this id.
    pub fn text(&self, id: PacketId) -> Option<&[u8]>
        ensures { option_copied result ≡ option_map text_of (packet_at self.now.held.packets id) }
    {
        if self.hands.has(id) {
            Some(self.hands.text(id))
        } else {
            None
        }
    }

    /// The kind of a packet; none where no packet at the root has this id.
    pub fn kind(&self, id: PacketId) -> Option<Kind>
        ensures { result ≡ option_map kind_of (packet_at self.now.held.packets id) }
    {
        if self.hands.has(id) {
            Some(self.hands.kind(id))
        } else {
            None
        }
    }

    // The packet is to be dropped.
    fn was_dropped(&self, id: PacketId) -> bool
        ensures { result ≡ list_any (λ other. other == id) self.now.dropped }
    {
        self.dropped.iter().any(|other| *other == id)
    }

    // The packet is at the root, and wasn't dropped at this desk.
    fn is_there(&self, id: PacketId) -> bool
        ensures there { result ≡ is_there self.now id }
        ensures few { length self.now.held.packets ≤ HANDS_LIMIT }
    {
        let held = self.hands.has(id);
        held && !self.was_dropped(id)
    }

    /// A packet at the root is to be dropped. After an `Err` the desk is as before.
    pub fn drop_packet(&mut self, id: PacketId) -> Result<(), DeskStop>
        ensures ok { OnOk result (self.new ≡ record self.old { dropped = self.old.dropped ++ id ∷ [] }) }
        ensures err { OnErr result (self.new ≡ self.old) }
        ensures no_packet { (result ≡ Err DeskStop.NoPacket) ↔ (is_there self.old id ≡ false) }
        ensures others { IfErr result (λ e. (e ≡ DeskStop.NoPacket) ⊎ (e ≡ DeskStop.NoMemory)) }
    {
        if !self.is_there(id) {
            return Err(DeskStop::NoPacket);
        }
        if self.dropped.push(id).is_err() {
            return Err(DeskStop::NoMemory);
        }
        Ok(())
    }

    /// A packet is to be made, which will have this id. After an `Err` the desk is as before.
    pub fn make(&mut self, kind: Kind, text: &[u8]) -> Result<PacketId, DeskStop>
        ensures id { IfOk result (λ id. id ≡ next_id self.old.held) }
        ensures ok { OnOk result (self.new ≡ record self.old { made = Some (kind, text.now) }) }
        ensures err { OnErr result (self.new ≡ self.old) }
        ensures no_packet { result ≢ Err DeskStop.NoPacket }
        ensures made_twice { (result ≡ Err DeskStop.MadeTwice) ↔ (is_some self.old.made ≡ true) }
        ensures text_limit { (n : ℕ) → (result ≡ Err (DeskStop.TextLimit n)) ↔ ((self.old.made ≡ None) × (n ≡ length text.now) × (TEXT_LIMIT < length text.now)) }
        ensures hands_limit { (result ≡ Err DeskStop.HandsLimit) ↔ ((self.old.made ≡ None) × (length text.now ≤ TEXT_LIMIT) × (length self.old.held.packets ≡ HANDS_LIMIT)) }
    {
        if self.made.is_some() {
            return Err(DeskStop::MadeTwice);
        }
        if text.len() > TEXT_LIMIT {
            return Err(DeskStop::TextLimit(text.len() as u64));
        }
        if self.hands.packets().len() == HANDS_LIMIT {
            return Err(DeskStop::HandsLimit);
        }
        let Ok(text) = Text::from_slice(*self.dropped.allocator(), text) else {
            return Err(DeskStop::NoMemory);
        };
        self.made = Some((kind, text));
        Ok(self.hands.next_id())
    }

    /// The acts that were kept.
    pub(crate) fn into_acts(self) -> (Option<(Kind, Text)>, Vec<PacketId>)
        ensures made { result.0 ≡ self.entry.made }
        ensures dropped { result.1.items ≡ self.entry.dropped }
        ensures can { IsActs self.entry.held self.entry.made self.entry.dropped }
    {
        let Desk {
            hands: _,
            made,
            dropped,
        } = self;
        (made, dropped)
    }
}
