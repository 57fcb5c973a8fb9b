//! Steps at the ends of connections. Each keeps the rule of the table.
ghost use Rattle.std.specs.Prelude.{◌≡◌, ◌≢◌, ◌+◌, ◌<◌, ◌≤◌, false, true, slice_index, None};
ghost use Rattle.flow_ring.specs.Words.{level_in};
ghost use Rattle.flow_floor.specs.Ends.{capacities_of, is_shared, HasWithdrawn, IsToldAt, IsWholeAt, Sends};
ghost use Rattle.flow_floor.specs.Views.{entering, exiting, learning, looked, seeing};
ghost use Rattle.flow_floor.specs.Floors.{connection_count, opened_net, woken_of, IsSeatedAt};
ghost use Rattle.flow_floor.specs.Workers.{view};

use crate::floor::{Floor, Held, Worker};
use crate::plays::{Come, Enter, Exit, Learn, Look, Spot};
use flow_component::Component;

const TAKEN: u64 = 1;

const FREE: u64 = 0;

impl<K: Component> Floor<K> {
    /// Reads the level word of a connection, and keeps what it read.
    pub(crate) fn look(&self, worker: &mut Worker<K>, held: &Held<K>, connection: usize) -> u64
        requires seated { IsSeatedAt self.now worker.old held.now }
        requires range { connection < connection_count self.now }
        requires withdrawn { HasWithdrawn (view worker.old).receiving }
        ensures seated { IsSeatedAt self.now worker.new held.now }
        ensures view { view worker.new ≡ seeing (view worker.old) (self.now.layout.processes + connection) result }
        ensures woken { woken_of worker.new ≡ woken_of worker.old }
    {
        let _ = held;
        let place = self.layout.level_word(connection);
        self.table.shared.load::<Look>(&mut worker.seat, place)
    }

    /// Takes the gate of a connection into which several send, unless another worker has it: the number that the step read is 0 where it was free.
    pub(crate) fn enter<S: Spot>(
        &self,
        worker: &mut Worker<K>,
        held: &Held<K>,
        connection: usize,
    ) -> u64
        requires spot { S.connection ≡ connection }
        requires seated { IsSeatedAt self.now worker.old held.now }
        requires range { connection < connection_count self.now }
        requires sends { Sends (view worker.old).held connection }
        requires shared { is_shared (opened_net self.now) connection ≡ true }
        requires nowhere { (view worker.old).sending ≡ None }
        ensures seated { IsSeatedAt self.now worker.new held.now }
        ensures free { result ≡ 0 → view worker.new ≡ entering (view worker.old) connection }
        ensures taken { result ≢ 0 → view worker.new ≡ looked (view worker.old) (self.now.layout.processes + self.now.layout.connections + connection) result }
        ensures one { result ≢ 0 → result ≡ 1 }
        ensures woken { woken_of worker.new ≡ woken_of worker.old }
    {
        let _ = held;
        let place = self.layout.gate_word(connection);
        self.table
            .shared
            .fetch_or::<Enter<S>>(&mut worker.seat, place, TAKEN)
    }

    /// Comes to the sending end of a connection into which the held process alone sends. It reads the gate word, which is 0.
    pub(crate) fn come<S: Spot>(&self, worker: &mut Worker<K>, held: &Held<K>, connection: usize)
        requires spot { S.connection ≡ connection }
        requires seated { IsSeatedAt self.now worker.old held.now }
        requires range { connection < connection_count self.now }
        requires sends { Sends (view worker.old).held connection }
        requires alone { is_shared (opened_net self.now) connection ≡ false }
        requires nowhere { (view worker.old).sending ≡ None }
        ensures seated { IsSeatedAt self.now worker.new held.now }
        ensures view { view worker.new ≡ entering (view worker.old) connection }
        ensures woken { woken_of worker.new ≡ woken_of worker.old }
    {
        let _ = held;
        let place = self.layout.gate_word(connection);
        self.table.shared.load::<Come<S>>(&mut worker.seat, place);
    }

    /// Reads the level at the sending end, to be told it.
    pub(crate) fn learn<S: Spot>(
        &self,
        worker: &mut Worker<K>,
        held: &Held<K>,
        connection: usize,
    ) -> u64
        requires spot { S.most ≡ slice_index (capacities_of (opened_net self.now)) connection }
        requires seated { IsSeatedAt self.now worker.old held.now }
        requires range { connection < connection_count self.now }
        requires withdrawn { HasWithdrawn (view worker.old).receiving }
        requires whole { IsWholeAt connection (view worker.old).sending }
        ensures seated { IsSeatedAt self.now worker.new held.now }
        ensures view { view worker.new ≡ learning (view worker.old) (self.now.layout.processes + connection) result }
        ensures most { level_in result ≤ slice_index (capacities_of (opened_net self.now)) connection }
        ensures woken { woken_of worker.new ≡ woken_of worker.old }
    {
        let _ = held;
        let place = self.layout.level_word(connection);
        self.table.shared.load::<Learn<S>>(&mut worker.seat, place)
    }

    /// Goes from the sending end, and frees the gate.
    pub(crate) fn exit(&self, worker: &mut Worker<K>, held: &Held<K>, connection: usize)
        requires seated { IsSeatedAt self.now worker.old held.now }
        requires range { connection < connection_count self.now }
        requires told { IsToldAt connection (view worker.old).sending }
        ensures seated { IsSeatedAt self.now worker.new held.now }
        ensures view { view worker.new ≡ exiting (view worker.old) }
        ensures woken { woken_of worker.new ≡ woken_of worker.old }
    {
        let _ = held;
        let place = self.layout.gate_word(connection);
        self.table
            .shared
            .swap::<Exit>(&mut worker.seat, place, FREE);
    }

    /// Goes from the sending end of a connection into which the held process alone sends. It reads the gate word, which is 0.
    pub(crate) fn go(&self, worker: &mut Worker<K>, held: &Held<K>, connection: usize)
        requires seated { IsSeatedAt self.now worker.old held.now }
        requires range { connection < connection_count self.now }
        requires alone { is_shared (opened_net self.now) connection ≡ false }
        requires told { IsToldAt connection (view worker.old).sending }
        ensures seated { IsSeatedAt self.now worker.new held.now }
        ensures view { view worker.new ≡ exiting (view worker.old) }
        ensures woken { woken_of worker.new ≡ woken_of worker.old }
    {
        let _ = held;
        let place = self.layout.gate_word(connection);
        self.table.shared.load::<Exit>(&mut worker.seat, place);
    }
}
