//! Packets go out of their cells and into them, by two steps each, between which the cell is the worker's.
ghost use Rattle.std.specs.Prelude.{◌≡◌, ℕ, ◌+◌, ◌<◌, ◌≤◌, slice_index, IfSome, None};
ghost use Rattle.flow_machine.specs.Effects.{WishesSend};
ghost use Rattle.flow_machine.specs.Nets.{packet_wished};
ghost use Rattle.flow_ring.specs.Words.{level_in};
ghost use Rattle.flow_floor.specs.Ends.{capacities_of, HasWithdrawn, MayDraw, MayPlace, Receives};
ghost use Rattle.flow_floor.specs.Plays.{drawn_count, placed_count, WouldAlwaysBeThere, WouldAlwaysHold};
ghost use Rattle.flow_floor.specs.Views.{drawing, emptying, filling, placing, seeing};
ghost use Rattle.flow_floor.specs.Floors.{connection_count, opened_net, process_count, woken_of, IsSeatedAt};
ghost use Rattle.flow_floor.specs.Workers.{view, HandsOut, MatchDrawn, MatchPlaced};

use crate::floor::{Drawn, Floor, Held, Placed, Worker};
use crate::plays::{Draw, Empty, Fill, Parcel, Place, Spot};
use flow_component::Component;
use flow_ring::level;

impl<K: Component> Floor<K> {
    /// Draws the oldest packet that the worker hasn't drawn, where the level counts one: it has drawn so many.
    #[inline(always)]
    pub(crate) fn draw<S: Spot>(
        &self,
        worker: &mut Worker<K>,
        held: &Held<K>,
        connection: usize,
        drawn: u32,
    ) -> Drawn
        requires spot { (S.processes ≡ process_count self.now) × (S.capacities ≡ capacities_of (opened_net self.now)) × (S.connection ≡ connection) }
        requires seated { IsSeatedAt self.now worker.old held.now }
        requires range { connection < connection_count self.now }
        requires receives { Receives (view worker.old).held connection }
        requires may { MayDraw connection (view worker.old).receiving }
        requires count { drawn_count (view worker.old).receiving ≡ drawn }
        ensures seated { IsSeatedAt self.now worker.new held.now }
        ensures drawn { MatchDrawn result (λ word. (level_in word ≤ drawn) × (view worker.new ≡ seeing (view worker.old) (self.now.layout.processes + connection) word)) (λ place packet. WouldAlwaysBeThere K.rules (process_count self.now) (connection_count self.now) (view worker.old) connection packet × (view worker.new ≡ emptying (drawing (view worker.old) connection place packet))) }
        ensures woken { woken_of worker.new ≡ woken_of worker.old }
    {
        let _ = held;
        let shared = &self.table.shared;
        let word_at = self.layout.level_word(connection);
        let word = shared.load::<Draw<S>>(&mut worker.seat, word_at);
        if level(word) <= drawn {
            return Drawn::Nothing(word);
        }
        let (_, slot) = self.layout.end_slots(connection);
        let place = self.count_up(&mut worker.seat, slot);
        worker.seat.turn();
        let cell = self.layout.cell(connection, place);
        let packet = self.take_out(&mut worker.seat, cell);
        worker.seat.turn();
        worker.seat.turn();
        shared.load::<Empty>(&mut worker.seat, word_at);
        Drawn::Packet(place, packet)
    }

    /// Places the packet of the body's wish behind all packets, where there is room: the worker has placed so many that aren't stamped.
    #[inline(always)]
    pub(crate) fn place<S: Spot, B: Parcel>(
        &self,
        worker: &mut Worker<K>,
        held: &mut Held<K>,
        connection: usize,
        most: u32,
        placed: u32,
    ) -> Placed
        requires spot { (S.processes ≡ process_count self.now) × (S.capacities ≡ capacities_of (opened_net self.now)) × (S.connection ≡ connection) × (S.most ≡ most) }
        requires parcel { IfSome (packet_wished held.old.body.process) (λ packet. packet ≡ B.packet) }
        requires most { most ≡ slice_index (capacities_of (opened_net self.now)) connection }
        requires seated { IsSeatedAt self.now worker.old held.old }
        requires range { connection < connection_count self.now }
        requires withdrawn { HasWithdrawn (view worker.old).receiving }
        requires may { MayPlace connection (view worker.old).sending }
        requires count { placed_count (view worker.old).sending ≡ placed }
        requires fits { placed ≤ most }
        requires whole { held.old.body.leaving ≡ None }
        requires wishes { WishesSend held.old.body.process.stage }
        ensures seated { IsSeatedAt self.now worker.new held.new }
        ensures placed { MatchPlaced result (λ word. (most ≤ level_in word + placed) × (held.new ≡ held.old) × (view worker.new ≡ seeing (view worker.old) (self.now.layout.processes + connection) word)) ((placed < most) × (puts : ℕ) × (view worker.new ≡ filling (placing (view worker.old) puts B.packet)) × HandsOut held.old held.new B.packet × WouldAlwaysHold K.rules (process_count self.now) (connection_count self.now) (view worker.old)) }
        ensures woken { woken_of worker.new ≡ woken_of worker.old }
    {
        let shared = &self.table.shared;
        let word_at = self.layout.level_word(connection);
        let word = shared.load::<Place<S, B>>(&mut worker.seat, word_at);
        if level(word) >= most - placed {
            return Placed::Full(word);
        }
        let (slot, _) = self.layout.end_slots(connection);
        let place = self.count_up(&mut worker.seat, slot);
        worker.seat.turn();
        let cell = self.layout.cell(connection, place);
        let packet = held.body.outgoing();
        self.put_in(&mut worker.seat, cell, packet);
        worker.seat.turn();
        worker.seat.turn();
        shared.load::<Fill>(&mut worker.seat, word_at);
        Placed::Put
    }
}
