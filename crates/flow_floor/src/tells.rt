//! The step that stamps turns, and those that tell the level word of what was stamped. Each keeps the rule of the table.
ghost use Rattle.std.specs.Prelude.{◌≡◌, ◌+◌, ◌≤◌, ◌<◌, ◌^◌, List, length};
ghost use Rattle.flow_limits.specs.declared.TheConstants.{RUN_LIMIT};
ghost use Rattle.flow_floor.specs.Made.{Below};
ghost use Rattle.flow_floor.specs.Ends.{AllReceivers, AllSenders, HasClosedAt, HasPutAt, HasTakenAt};
ghost use Rattle.flow_floor.specs.Pending.{AllMay, MachineTurns};
ghost use Rattle.flow_floor.specs.Plays.{StampsAll};
ghost use Rattle.flow_floor.specs.Views.{Move, publishing, stamping, subtracting, withdrawing};
ghost use Rattle.flow_floor.specs.Floors.{connection_count, opened_net, process_count, woken_of, IsSeatedAt};
ghost use Rattle.flow_floor.specs.Workers.{view};

use crate::floor::{Floor, Held, Worker};
use crate::plays::{Deed, Deeds, Noting, Publish, Stamp, StampAll, Subtract, Withdraw};
use flow_component::Component;
use flow_ring::FIELD;

impl<K: Component> Floor<K> {
    /// Stamps the pending turns, which are so many, by one step: the clock gives the first stamp, and the others follow.
    pub(crate) fn stamp<D: Deed<K>>(
        &self,
        worker: &mut Worker<K>,
        held: &Held<K>,
        turns: u32,
    ) -> u32
        requires deed { D.start ≡ opened_net self.now }
        requires count { length D.turns ≡ turns }
        requires seated { IsSeatedAt self.now worker.old held.now }
        requires pending { AllMay K.rules (process_count self.now) (connection_count self.now) (view worker.old) D.turns }
        ensures seated { IsSeatedAt self.now worker.new held.now }
        ensures view { view worker.new ≡ stamping (view worker.old) result D.turns }
        ensures above { Below result (view worker.old).made }
        ensures most { result + turns ≤ RUN_LIMIT + 1 }
        ensures machine { MachineTurns K.rules (opened_net self.now) (view worker.old).made result (view worker.old).held D.turns }
        ensures woken { woken_of worker.new ≡ woken_of worker.old }
    {
        let _ = held;
        let clock = self.layout.clock();
        let found = self
            .table
            .shared
            .fetch_add::<Stamp<D>>(&mut worker.seat, clock, turns as u64);
        found as u32
    }

    /// Stamps the pending turns of which something is known, as many as is known, by one step.
    pub(crate) fn stamp_all<D: Deeds<K>>(
        &self,
        worker: &mut Worker<K>,
        held: &Held<K>,
        turns: u32,
    ) -> u32
        requires deeds { D.start ≡ opened_net self.now }
        requires count { (ts : List (Move K)) → D.are ts → length ts ≡ turns }
        requires seated { IsSeatedAt self.now worker.old held.now }
        requires pending { (ts : List (Move K)) × D.are ts × AllMay K.rules (process_count self.now) (connection_count self.now) (view worker.old) ts }
        ensures seated { IsSeatedAt self.now worker.new held.now }
        ensures stamps { StampsAll K.rules (opened_net self.now) D.are (view worker.old) (view worker.new) result }
        ensures above { Below result (view worker.old).made }
        ensures most { result + turns ≤ RUN_LIMIT + 1 }
        ensures woken { woken_of worker.new ≡ woken_of worker.old }
    {
        let _ = held;
        let clock = self.layout.clock();
        let found = self
            .table
            .shared
            .fetch_add::<StampAll<D>>(&mut worker.seat, clock, turns as u64);
        found as u32
    }

    /// Publishes all puts, which are so many, and notes whom that may unblock.
    pub(crate) fn publish<N: Noting>(
        &self,
        worker: &mut Worker<K>,
        held: &Held<K>,
        connection: usize,
        puts: u32,
    )
        requires seated { IsSeatedAt self.now worker.old held.now }
        requires range { connection < connection_count self.now }
        requires put { HasPutAt connection puts (view worker.old).sending }
        requires noted { AllReceivers (opened_net self.now) connection N.notes }
        ensures seated { IsSeatedAt self.now worker.new held.now }
        ensures view { view worker.new ≡ publishing (view worker.old) N.notes }
        ensures woken { woken_of worker.new ≡ woken_of worker.old }
    {
        let _ = held;
        let place = self.layout.level_word(connection);
        self.table
            .shared
            .fetch_add::<Publish<N>>(&mut worker.seat, place, puts as u64);
    }

    /// Takes the closed sender out of the level word, and notes whom that may unblock.
    pub(crate) fn subtract<N: Noting>(
        &self,
        worker: &mut Worker<K>,
        held: &Held<K>,
        connection: usize,
    )
        requires seated { IsSeatedAt self.now worker.old held.now }
        requires range { connection < connection_count self.now }
        requires closed { HasClosedAt connection (view worker.old).sending }
        requires noted { AllReceivers (opened_net self.now) connection N.notes }
        ensures seated { IsSeatedAt self.now worker.new held.now }
        ensures view { view worker.new ≡ subtracting (view worker.old) N.notes }
        ensures woken { woken_of worker.new ≡ woken_of worker.old }
    {
        let _ = held;
        let place = self.layout.level_word(connection);
        self.table
            .shared
            .fetch_sub::<Subtract<N>>(&mut worker.seat, place, FIELD as u64);
    }

    /// Withdraws all takes, which are so many, goes from the receiving end, and notes whom that may unblock.
    pub(crate) fn withdraw<N: Noting>(
        &self,
        worker: &mut Worker<K>,
        held: &Held<K>,
        connection: usize,
        takes: u32,
    )
        requires seated { IsSeatedAt self.now worker.old held.now }
        requires range { connection < connection_count self.now }
        requires taken { HasTakenAt connection takes (view worker.old).receiving }
        requires noted { AllSenders (opened_net self.now) connection N.notes }
        ensures seated { IsSeatedAt self.now worker.new held.now }
        ensures view { view worker.new ≡ withdrawing (view worker.old) N.notes }
        ensures woken { woken_of worker.new ≡ woken_of worker.old }
    {
        let _ = held;
        let place = self.layout.level_word(connection);
        self.table
            .shared
            .fetch_sub::<Withdraw<N>>(&mut worker.seat, place, takes as u64);
    }
}
