//! Whole turns at an input.
ghost use Rattle.std.specs.Prelude.{◌≡◌, ◌<◌, [], None, Some, slice_get};
ghost use Rattle.flow_packet.specs.Held.{Sound, with_packet};
ghost use Rattle.flow_component.specs.declared.Wish.TheVariants.{Receive};
ghost use Rattle.flow_model.specs.Events.{Gets, Hears_end, Signals};
ghost use Rattle.flow_model.specs.States.{From};
ghost use Rattle.flow_model.specs.declared.Stage.TheVariants.{Idle, Wishing};
ghost use Rattle.flow_machine.specs.FitNets.{FitNet};
ghost use Rattle.flow_machine.specs.Thoughts.{HasRoom};
ghost use Rattle.flow_floor.specs.Floors.{connection_count, opened_net, process_count, woken_of, IsDeedOf, IsHeldAt, IsMidwayAt, IsSameWorker, Readies, TurnsAt};
ghost use Rattle.flow_floor.specs.Looks.{InSeen, SawOver};
ghost use Rattle.flow_floor.specs.Midway.{drawn_at, taken_at, MakesTurn};
ghost use Rattle.flow_floor.specs.Turning.{Happens};
ghost use Rattle.flow_floor.specs.Workers.{view};

use crate::floor::{Drawn, Floor, Held, Turned, Worker};
use crate::plays::Deed;
use flow_component::{Component, Port};
use flow_machine::{Block, Effect};
use flow_packet::Packet;
use flow_ring::senders;
use std::marker::Brand;

impl<K: Component> Floor<K> {
    /// Hears the end of a connection that was seen over.
    pub(crate) fn end_as<D: Deed<K>>(
        &self,
        worker: &mut Worker<K>,
        held: &mut Held<K>,
        connection: usize,
        port: Port,
    ) -> u32
        requires deed { IsDeedOf self.now held.old (Hears_end port.0) D.turns D.start }
        requires held { IsHeldAt K.rules self.now worker.old held.old }
        requires range { connection < connection_count self.now }
        requires stage { held.old.body.process.stage ≡ Wishing (Receive port) }
        requires input { slice_get held.old.body.process.inputs port.0 ≡ Some (From connection) }
        requires room { HasRoom held.old.body }
        requires over { InSeen (SawOver (process_count self.now) 0 connection) (view worker.old).seen }
        ensures held { IsHeldAt K.rules self.now worker.new held.new }
        ensures turn { MakesTurn K.rules (opened_net self.now) held.old worker.old held.new worker.new (Hears_end port.0) result }
    {
        let _ = connection;
        let _ = port;
        let stamp = self.stamp::<D>(worker, held, 1);
        held.body.effect(Effect::End, stamp);
        stamp
    }

    /// Receives the packet that was drawn.
    pub(crate) fn got_as<D: Deed<K>>(
        &self,
        worker: &mut Worker<K>,
        held: &mut Held<K>,
        connection: usize,
        port: Port,
        packet: Packet,
    ) -> u32
        requires deed { IsDeedOf self.now held.old (Gets port.0 connection packet) D.turns D.start }
        requires held { IsMidwayAt K.rules self.now worker.old held.old None (Some (drawn_at connection packet)) [] }
        requires stage { held.old.body.process.stage ≡ Wishing (Receive port) }
        requires input { slice_get held.old.body.process.inputs port.0 ≡ Some (From connection) }
        requires room { HasRoom held.old.body }
        requires sound { Sound (with_packet held.old.body.process.held packet) }
        ensures held { IsMidwayAt K.rules self.now worker.new held.new None (Some (taken_at connection)) [] }
        ensures turn { MakesTurn K.rules (opened_net self.now) held.old worker.old held.new worker.new (Gets port.0 connection packet) result }
    {
        let _ = connection;
        let _ = port;
        let stamp = self.stamp::<D>(worker, held, 1);
        held.body.effect(Effect::Got(packet), stamp);
        stamp
    }

    /// Takes the packet that was drawn at the automatic input. It is dropped, with its tree.
    pub(crate) fn signal_as<D: Deed<K>>(
        &self,
        worker: &mut Worker<K>,
        held: &mut Held<K>,
        connection: usize,
        packet: Packet,
    ) -> u32
        requires deed { IsDeedOf self.now held.old (Signals connection packet) D.turns D.start }
        requires held { IsMidwayAt K.rules self.now worker.old held.old None (Some (drawn_at connection packet)) [] }
        requires stage { held.old.body.process.stage ≡ Idle }
        requires room { HasRoom held.old.body }
        requires happens { Happens (FitNet K.rules) (process_count self.now) (connection_count self.now) held.old.process held.old.body None (Some (drawn_at connection packet)) (view worker.old).seen (Signals connection packet) }
        ensures held { IsMidwayAt K.rules self.now worker.new held.new None (Some (taken_at connection)) [] }
        ensures turn { MakesTurn K.rules (opened_net self.now) held.old worker.old held.new worker.new (Signals connection packet) result }
    {
        let _ = connection;
        let stamp = self.stamp::<D>(worker, held, 1);
        held.body.effect(Effect::Signal(packet), stamp);
        stamp
    }

    /// Receives from a connection, or hears its end, where it can. The processes that send there are woken where a packet was received.
    pub(crate) fn receive_turn(
        &self,
        worker: &mut Worker<K>,
        held: &mut Held<K>,
        connection: u32,
        port: Port,
    ) -> Turned
        requires held { IsHeldAt K.rules self.now worker.old held.old }
        requires range { connection < connection_count self.now }
        requires stage { held.old.body.process.stage ≡ Wishing (Receive port) }
        requires input { slice_get held.old.body.process.inputs port.0 ≡ Some (From connection) }
        requires room { HasRoom held.old.body }
        requires clear { woken_of worker.old ≡ [] }
        ensures held { IsHeldAt K.rules self.now worker.new held.new }
        ensures turned { TurnsAt K.rules self.now held.old worker.old held.new worker.new result }
        ensures seat { IsSameWorker worker.old worker.new }
        ensures readies { Readies self.now worker.old worker.new }
    {
        let c = connection as usize;
        match self.draw::<Brand>(worker, held, c, 0) {
            Drawn::Nothing(word) => {
                if senders(word) != 0 {
                    return Turned::Blocked(Block::Empty { connection, port }, word);
                }
                Turned::Made(self.end_as::<Brand>(worker, held, c, port))
            }
            Drawn::Packet(_, packet) => {
                let stamp = self.got_as::<Brand>(worker, held, c, port, packet);
                self.tell_taken(worker, held, c);
                Turned::Made(stamp)
            }
        }
    }
}
