//! A turn of a held body.
ghost use Rattle.std.specs.Prelude.{◌≡◌, ℕ, List, [], Some, slice_get};
ghost use Rattle.flow_machine.specs.Thoughts.{HasRoom, IsSet};
ghost use Rattle.flow_model.specs.declared.Stage.TheVariants.{Wishing};
ghost use Rattle.flow_component.specs.declared.Wish.TheVariants.{Receive, Deactivate};
ghost use Rattle.flow_model.specs.States.{Text};
ghost use Rattle.flow_floor.specs.Floors.{woken_of, IsHeldAt, IsSameWorker, IsWiredAt, Readies, TurnsAt};

use crate::floor::{Floor, Held, Turned, Worker};
use flow_component::{Component, Port};
use flow_machine::{Case, Stage};
use std::marker::Brand;

impl<K: Component> Floor<K> {
    /// Deactivates, as it wished.
    pub(crate) fn sleep_turn(&self, worker: &mut Worker<K>, held: &mut Held<K>) -> Turned
        requires held { IsHeldAt K.rules self.now worker.old held.old }
        requires stage { held.old.body.process.stage ≡ Wishing Deactivate }
        requires room { HasRoom held.old.body }
        requires clear { woken_of worker.old ≡ [] }
        ensures held { IsHeldAt K.rules self.now worker.new held.new }
        ensures turned { TurnsAt K.rules self.now held.old worker.old held.new worker.new result }
        ensures seat { IsSameWorker worker.old worker.new }
        ensures readies { Readies self.now worker.old worker.new }
    {
        Turned::Made(self.deactivate_as::<Brand>(worker, held))
    }

    /// Receives on a port with an initial text.
    pub(crate) fn text_turn(&self, worker: &mut Worker<K>, held: &mut Held<K>, port: Port) -> Turned
        requires held { IsHeldAt K.rules self.now worker.old held.old }
        requires stage { held.old.body.process.stage ≡ Wishing (Receive port) }
        requires input { (text : List ℕ) × (slice_get held.old.body.process.inputs port.0 ≡ Some (Text text)) }
        requires room { HasRoom held.old.body }
        requires clear { woken_of worker.old ≡ [] }
        ensures held { IsHeldAt K.rules self.now worker.new held.new }
        ensures turned { TurnsAt K.rules self.now held.old worker.old held.new worker.new result }
        ensures seat { IsSameWorker worker.old worker.new }
        ensures readies { Readies self.now worker.old worker.new }
    {
        Turned::Made(self.text_as::<Brand>(worker, held, port))
    }

    /// A turn of the held body, if it has one now.
    pub(crate) fn take_turn(&self, worker: &mut Worker<K>, held: &mut Held<K>) -> Turned
        requires held { IsHeldAt K.rules self.now worker.old held.old }
        requires wired { IsWiredAt self.now held.old }
        requires set { IsSet held.old.body }
        requires clear { woken_of worker.old ≡ [] }
        ensures held { IsHeldAt K.rules self.now worker.new held.new }
        ensures wired { IsWiredAt self.now held.new }
        ensures turned { TurnsAt K.rules self.now held.old worker.old held.new worker.new result }
        ensures seat { IsSameWorker worker.old worker.new }
        ensures readies { Readies self.now worker.old worker.new }
    {
        match held.body.case() {
            Case::Idle => self.idle_turn(worker, held),
            Case::Receive { connection, port } => self.receive_turn(worker, held, connection, port),
            Case::Initial(port) => self.text_turn(worker, held, port),
            Case::Send { connection, port } => self.send_turn(worker, held, connection, port),
            Case::Level { connection, port } => self.level_turn(worker, held, connection, port),
            Case::Deactivate => self.sleep_turn(worker, held),
            Case::Close { connection } => {
                let Stage::Closing(place) = held.body.stage() else {
                    unreachable!()
                };
                self.close_turn(worker, held, connection, place)
            }
            Case::Over(over) => Turned::Over(over),
        }
    }

    /// A turn of the held body, if it has one now. Where it is blocked it may be parked. Takes no memory.
    pub fn turn(&self, worker: &mut Worker<K>, held: &mut Held<K>) -> Turned
        requires held { IsHeldAt K.rules self.now worker.old held.old }
        requires wired { IsWiredAt self.now held.old }
        requires set { IsSet held.old.body }
        ensures held { IsHeldAt K.rules self.now worker.new held.new }
        ensures wired { IsWiredAt self.now held.new }
        ensures turned { TurnsAt K.rules self.now held.old worker.old held.new worker.new result }
        ensures seat { IsSameWorker worker.old worker.new }
        ensures readies { Readies self.now worker.old worker.new }
    {
        worker.woken.clear();
        self.take_turn(worker, held)
    }
}
