//! Whole turns at an output.
ghost use Rattle.std.specs.Prelude.{◌≡◌, ◌+◌, ◌<◌, ◌≤◌, [], IfSome, None, Some, slice_get, slice_index};
ghost use Rattle.flow_component.specs.declared.Wish.TheVariants.{Level};
ghost use Rattle.flow_model.specs.Events.{Learns, Sends};
ghost use Rattle.flow_model.specs.States.{outlets, output_at};
ghost use Rattle.flow_model.specs.declared.Stage.TheVariants.{Closing, Wishing};
ghost use Rattle.flow_machine.specs.Nets.{SendsAt, packet_wished};
ghost use Rattle.flow_machine.specs.Outlets.{connection_at};
ghost use Rattle.flow_machine.specs.Thoughts.{HasRoom};
ghost use Rattle.flow_ring.specs.Words.{level_in};
ghost use Rattle.flow_ring.specs.declared.TheConstants.{FIELD};
ghost use Rattle.flow_floor.specs.Turning.{closed_event};
ghost use Rattle.flow_floor.specs.Ends.{capacities_of, sending_at};
ghost use Rattle.flow_floor.specs.Floors.{capacity_of, connection_count, opened_net, process_count, woken_of, IsDeedOf, IsHeldAt, IsMidwayAt, IsSameWorker, Readies, TurnsAt};
ghost use Rattle.flow_floor.specs.Midway.{closed_at, learnt_at, put_at, MakesTurn, MatchSent};
ghost use Rattle.flow_floor.specs.Views.{seeing};
ghost use Rattle.flow_floor.specs.Workers.{view};

use crate::floor::{Floor, Held, Placed, Sent, Turned, Worker};
use crate::plays::{Deed, Parcel, Spot};
use flow_component::{Component, Port};
use flow_machine::{Block, Effect};
use flow_ring::level;
use std::marker::Brand;

impl<K: Component> Floor<K> {
    /// Sends the packet of the wish where there is room: it is placed behind all others, and the turn is stamped.
    pub(crate) fn send_as<S: Spot, D: Deed<K>, B: Parcel>(
        &self,
        worker: &mut Worker<K>,
        held: &mut Held<K>,
        connection: usize,
        port: Port,
    ) -> Sent
        requires spot { (S.processes ≡ process_count self.now) × (S.capacities ≡ capacities_of (opened_net self.now)) × (S.connection ≡ connection) × (S.most ≡ capacity_of self.now connection) }
        requires parcel { IfSome (packet_wished held.old.body.process) (λ packet. packet ≡ B.packet) }
        requires deed { IsDeedOf self.now held.old (Sends port.0 connection B.packet) D.turns D.start }
        requires held { IsMidwayAt K.rules self.now worker.old held.old (Some (sending_at connection)) None [] }
        requires range { connection < connection_count self.now }
        requires stage { SendsAt held.old.body.process.stage port }
        requires output { output_at held.old.body.process port.0 ≡ Some connection }
        requires room { HasRoom held.old.body }
        ensures sent { MatchSent result (λ word. (capacity_of self.now connection ≤ level_in word) × (held.new ≡ held.old) × IsMidwayAt K.rules self.now worker.new held.new (Some (sending_at connection)) None [] × (view worker.new ≡ seeing (view worker.old) (self.now.layout.processes + connection) word)) (λ stamp. IsMidwayAt K.rules self.now worker.new held.new (Some (put_at connection)) None [] × MakesTurn K.rules (opened_net self.now) held.old worker.old held.new worker.new (Sends port.0 connection B.packet) stamp) }
        ensures woken { woken_of worker.new ≡ woken_of worker.old }
    {
        let _ = port;
        let most = self.layout.capacities[connection];
        match self.place::<S, B>(worker, held, connection, most, 0) {
            Placed::Full(word) => Sent::Full(word),
            Placed::Put => {
                let stamp = self.stamp::<D>(worker, held, 1);
                held.body.effect(Effect::Sent, stamp);
                Sent::Stamped(stamp)
            }
        }
    }

    /// Is told the level that was learnt.
    pub(crate) fn learn_as<D: Deed<K>>(
        &self,
        worker: &mut Worker<K>,
        held: &mut Held<K>,
        connection: usize,
        port: Port,
        level: u32,
    ) -> u32
        requires deed { IsDeedOf self.now held.old (Learns port.0 level) D.turns D.start }
        requires held { IsMidwayAt K.rules self.now worker.old held.old (Some (learnt_at connection level)) None [] }
        requires stage { held.old.body.process.stage ≡ Wishing (Level port) }
        requires output { output_at held.old.body.process port.0 ≡ Some connection }
        requires room { HasRoom held.old.body }
        requires small { level < FIELD }
        ensures held { IsMidwayAt K.rules self.now worker.new held.new (Some (learnt_at connection level)) None [] }
        ensures turn { MakesTurn K.rules (opened_net self.now) held.old worker.old held.new worker.new (Learns port.0 level) result }
    {
        let _ = connection;
        let _ = port;
        let stamp = self.stamp::<D>(worker, held, 1);
        held.body.effect(Effect::Level(level), stamp);
        stamp
    }

    /// Closes one more of its connected outputs, at whose sending end the worker is.
    pub(crate) fn close_as<D: Deed<K>>(
        &self,
        worker: &mut Worker<K>,
        held: &mut Held<K>,
        connection: usize,
        place: u32,
    ) -> u32
        requires deed { IsDeedOf self.now held.old (closed_event (slice_get (outlets held.old.body.process) place)) D.turns D.start }
        requires held { IsMidwayAt K.rules self.now worker.old held.old (Some (sending_at connection)) None [] }
        requires stage { held.old.body.process.stage ≡ Closing place }
        requires outlet { connection_at (outlets held.old.body.process) place ≡ Some connection }
        requires room { HasRoom held.old.body }
        ensures held { IsMidwayAt K.rules self.now worker.new held.new (Some (closed_at connection)) None [] }
        ensures turn { MakesTurn K.rules (opened_net self.now) held.old worker.old held.new worker.new (closed_event (slice_get (outlets held.old.body.process) place)) result }
    {
        let _ = connection;
        let _ = place;
        let stamp = self.stamp::<D>(worker, held, 1);
        held.body.effect(Effect::Closed, stamp);
        stamp
    }

    /// Sends the packet of the wish, where there is room. The process that receives there is woken.
    pub(crate) fn send_turn(
        &self,
        worker: &mut Worker<K>,
        held: &mut Held<K>,
        connection: u32,
        port: Port,
    ) -> Turned
        requires held { IsHeldAt K.rules self.now worker.old held.old }
        requires range { connection < connection_count self.now }
        requires stage { SendsAt held.old.body.process.stage port }
        requires output { output_at held.old.body.process port.0 ≡ Some connection }
        requires room { HasRoom held.old.body }
        requires clear { woken_of worker.old ≡ [] }
        ensures held { IsHeldAt K.rules self.now worker.new held.new }
        ensures turned { TurnsAt K.rules self.now held.old worker.old held.new worker.new result }
        ensures seat { IsSameWorker worker.old worker.new }
        ensures readies { Readies self.now worker.old worker.new }
    {
        let c = connection as usize;
        if let Some(word) = self.arrive::<Brand>(worker, held, c) {
            return Turned::Busy(connection, word);
        }
        match self.send_as::<Brand, Brand, Brand>(worker, held, c, port) {
            Sent::Full(word) => {
                self.depart(worker, held, c);
                Turned::Blocked(Block::Full { connection, port }, word)
            }
            Sent::Stamped(stamp) => {
                self.tell_put(worker, held, c);
                Turned::Made(stamp)
            }
        }
    }

    /// Is told the number of packets in the connection.
    pub(crate) fn level_turn(
        &self,
        worker: &mut Worker<K>,
        held: &mut Held<K>,
        connection: u32,
        port: Port,
    ) -> Turned
        requires held { IsHeldAt K.rules self.now worker.old held.old }
        requires range { connection < connection_count self.now }
        requires stage { held.old.body.process.stage ≡ Wishing (Level port) }
        requires output { output_at held.old.body.process port.0 ≡ Some connection }
        requires room { HasRoom held.old.body }
        requires clear { woken_of worker.old ≡ [] }
        ensures held { IsHeldAt K.rules self.now worker.new held.new }
        ensures turned { TurnsAt K.rules self.now held.old worker.old held.new worker.new result }
        ensures seat { IsSameWorker worker.old worker.new }
        ensures readies { Readies self.now worker.old worker.new }
    {
        let c = connection as usize;
        if let Some(word) = self.arrive::<Brand>(worker, held, c) {
            return Turned::Busy(connection, word);
        }
        let word = self.learn::<Brand>(worker, held, c);
        let stamp = self.learn_as::<Brand>(worker, held, c, port, level(word));
        self.depart(worker, held, c);
        Turned::Made(stamp)
    }

    /// Closes one more of its connected outputs. The process that receives there is woken.
    pub(crate) fn close_turn(
        &self,
        worker: &mut Worker<K>,
        held: &mut Held<K>,
        connection: u32,
        place: u32,
    ) -> Turned
        requires held { IsHeldAt K.rules self.now worker.old held.old }
        requires range { connection < connection_count self.now }
        requires stage { held.old.body.process.stage ≡ Closing place }
        requires outlet { connection_at (outlets held.old.body.process) place ≡ Some connection }
        requires room { HasRoom held.old.body }
        requires clear { woken_of worker.old ≡ [] }
        ensures held { IsHeldAt K.rules self.now worker.new held.new }
        ensures turned { TurnsAt K.rules self.now held.old worker.old held.new worker.new result }
        ensures seat { IsSameWorker worker.old worker.new }
        ensures readies { Readies self.now worker.old worker.new }
    {
        let c = connection as usize;
        if let Some(word) = self.arrive::<Brand>(worker, held, c) {
            return Turned::Busy(connection, word);
        }
        let stamp = self.close_as::<Brand>(worker, held, c, place);
        self.tell_closed(worker, held, c);
        Turned::Made(stamp)
    }
}
