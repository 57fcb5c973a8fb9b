//! How a worker comes to the sending end of a connection, and how it goes from there.
ghost use Rattle.std.specs.Prelude.{◌≡◌, ℕ, ◌+◌, ◌<◌, [], false, true, MatchOption, None, Some};
ghost use Rattle.flow_floor.specs.Wired.{IsOutput};
ghost use Rattle.flow_floor.specs.Ends.{is_shared, sending_at, IsToldAt, Sends};
ghost use Rattle.flow_floor.specs.Floors.{connection_count, opened_net, woken_of, IsHeldAt, IsMidwayAt, IsSeatedAt};
ghost use Rattle.flow_floor.specs.Views.{entering, exiting, looked};
ghost use Rattle.flow_floor.specs.Workers.{view};

use crate::floor::{Floor, Held, Worker};
use crate::plays::Spot;
use flow_component::Component;

const FREE: u64 = 0;

impl<K: Component> Floor<K> {
    /// Several send into the connection.
    fn is_shared(&self, connection: usize) -> bool
        requires { connection < connection_count self.now }
        ensures { result ≡ is_shared (opened_net self.now) connection }
    {
        self.plan[connection].senders.as_slice().len() > 1
    }

    /// Comes to the sending end of a connection: through its gate, where several send. The worker may have pending turns. It answers whether it came there.
    pub(crate) fn reach<S: Spot>(
        &self,
        worker: &mut Worker<K>,
        held: &Held<K>,
        connection: usize,
    ) -> bool
        requires spot { S.connection ≡ connection }
        requires seated { IsSeatedAt self.now worker.old held.now }
        requires range { connection < connection_count self.now }
        requires sends { Sends (view worker.old).held connection }
        requires nowhere { (view worker.old).sending ≡ None }
        ensures seated { IsSeatedAt self.now worker.new held.now }
        ensures came { result ≡ true → view worker.new ≡ entering (view worker.old) connection }
        ensures busy { result ≡ false → (word : ℕ) × (view worker.new ≡ looked (view worker.old) (self.now.layout.processes + self.now.layout.connections + connection) word) }
        ensures woken { woken_of worker.new ≡ woken_of worker.old }
    {
        if !self.is_shared(connection) {
            self.come::<S>(worker, held, connection);
            return true;
        }
        self.enter::<S>(worker, held, connection) == FREE
    }

    /// Comes to the sending end of a connection: through its gate, where several send. Where another worker is there it answers the word that it read at
    /// the gate.
    pub(crate) fn arrive<S: Spot>(
        &self,
        worker: &mut Worker<K>,
        held: &Held<K>,
        connection: usize,
    ) -> Option<u64>
        requires spot { S.connection ≡ connection }
        requires held { IsHeldAt K.rules self.now worker.old held.now }
        requires range { connection < connection_count self.now }
        requires output { IsOutput held.now.body connection }
        ensures came { MatchOption result (IsMidwayAt K.rules self.now worker.new held.now (Some (sending_at connection)) None [] × (view worker.new ≡ entering (view worker.old) connection)) (λ word. IsHeldAt K.rules self.now worker.new held.now × (is_shared (opened_net self.now) connection ≡ true) × (word ≡ 1) × (view worker.new ≡ looked (view worker.old) (self.now.layout.processes + self.now.layout.connections + connection) word)) }
        ensures woken { woken_of worker.new ≡ woken_of worker.old }
    {
        if !self.is_shared(connection) {
            self.come::<S>(worker, held, connection);
            return None;
        }
        let word = self.enter::<S>(worker, held, connection);
        if word == FREE { None } else { Some(word) }
    }

    /// Goes from the sending end of a connection, and frees its gate, where several send.
    pub(crate) fn depart(&self, worker: &mut Worker<K>, held: &Held<K>, connection: usize)
        requires seated { IsSeatedAt self.now worker.old held.now }
        requires range { connection < connection_count self.now }
        requires told { IsToldAt connection (view worker.old).sending }
        ensures seated { IsSeatedAt self.now worker.new held.now }
        ensures view { view worker.new ≡ exiting (view worker.old) }
        ensures woken { woken_of worker.new ≡ woken_of worker.old }
    {
        if self.is_shared(connection) {
            self.exit(worker, held, connection);
        } else {
            self.go(worker, held, connection);
        }
    }
}
