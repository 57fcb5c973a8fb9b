//! What follows the stamp of a turn at a connection: its level word is told of the turn, the worker goes from there, and wakes those whom that may unblock.
ghost use Rattle.std.specs.Prelude.{◌≡◌, ◌<◌, [], None, Some};
ghost use Rattle.flow_floor.specs.Floors.{connection_count, woken_of, IsHeldAt, IsMidwayAt, IsSameWorker, Readies};
ghost use Rattle.flow_floor.specs.Midway.{closed_at, put_at, taken_at};
ghost use Rattle.flow_floor.specs.Workers.{view};

use crate::floor::{Floor, Held, Worker};
use flow_component::Component;
use std::marker::Brand;

impl<K: Component> Floor<K> {
    /// Withdraws the one packet that was taken, and wakes the processes that send there.
    pub(crate) fn tell_taken(&self, worker: &mut Worker<K>, held: &Held<K>, connection: usize)
        requires held { IsMidwayAt K.rules self.now worker.old held.now None (Some (taken_at connection)) [] }
        requires range { connection < connection_count self.now }
        requires clear { woken_of worker.old ≡ [] }
        ensures held { IsHeldAt K.rules self.now worker.new held.now }
        ensures made { (view worker.new).made ≡ (view worker.old).made }
        ensures seat { IsSameWorker worker.old worker.new }
        ensures readies { Readies self.now worker.old worker.new }
    {
        let senders = self.plan[connection].senders.as_slice();
        self.withdraw::<Brand>(worker, held, connection, 1);
        self.wake_all(worker, held, senders);
    }

    /// Publishes the one packet that was put, goes from the sending end, and wakes the process that receives there.
    pub(crate) fn tell_put(&self, worker: &mut Worker<K>, held: &Held<K>, connection: usize)
        requires held { IsMidwayAt K.rules self.now worker.old held.now (Some (put_at connection)) None [] }
        requires range { connection < connection_count self.now }
        requires clear { woken_of worker.old ≡ [] }
        ensures held { IsHeldAt K.rules self.now worker.new held.now }
        ensures made { (view worker.new).made ≡ (view worker.old).made }
        ensures seat { IsSameWorker worker.old worker.new }
        ensures readies { Readies self.now worker.old worker.new }
    {
        let receiver = self.plan[connection].receiver;
        self.publish::<Brand>(worker, held, connection, 1);
        self.depart(worker, held, connection);
        self.wake(worker, held, receiver as usize);
    }

    /// Subtracts the one sender that was closed, goes from the sending end, and wakes the process that receives there.
    pub(crate) fn tell_closed(&self, worker: &mut Worker<K>, held: &Held<K>, connection: usize)
        requires held { IsMidwayAt K.rules self.now worker.old held.now (Some (closed_at connection)) None [] }
        requires range { connection < connection_count self.now }
        requires clear { woken_of worker.old ≡ [] }
        ensures held { IsHeldAt K.rules self.now worker.new held.now }
        ensures made { (view worker.new).made ≡ (view worker.old).made }
        ensures seat { IsSameWorker worker.old worker.new }
        ensures readies { Readies self.now worker.old worker.new }
    {
        let receiver = self.plan[connection].receiver;
        self.subtract::<Brand>(worker, held, connection);
        self.depart(worker, held, connection);
        self.wake(worker, held, receiver as usize);
    }
}
