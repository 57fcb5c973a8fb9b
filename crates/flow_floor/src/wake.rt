//! How noted processes are woken.
ghost use Rattle.std.specs.Prelude.{◌≡◌, ◌+◌, ◌<◌, ◌≤◌, ◌∷◌, ◌++◌, [], All, Some, length, drop, slice_get};
ghost use Rattle.flow_limits.specs.declared.TheConstants.{SENDER_LIMIT};
ghost use Rattle.flow_plan.specs.declared.plan.Sender.{Sender};
ghost use Rattle.flow_floor.specs.Floors.{process_count, woken_of, IsSameWorker, IsWakingAt, Readies, WakesOne};
ghost use Rattle.flow_floor.specs.Plans.{is_followed, sending_processes};
ghost use Rattle.flow_floor.specs.Workers.{view};

use crate::floor::{Floor, Held, Worker};
use crate::plays::{Glance, Lower, Nudge, Poke, Raise};
use flow_component::Component;
use flow_plan::Sender;

const PARKED: u64 = 0;

const HELD: u64 = 1;

const POKE: u64 = 2;

const POKED: u64 = 3;

/// The sender behind this one is of the same process.
fn is_followed(senders: &[Sender], i: usize) -> bool
    requires { i < length senders.now }
    ensures { (s : Sender) → slice_get senders.now i ≡ Some s → result ≡ is_followed s.process (drop (i + 1) senders.now) }
{
    if i + 1 < senders.len() {
        senders[i + 1].process == senders[i].process
    } else {
        false
    }
}

impl<K: Component> Floor<K> {
    /// Counts live up by one, and pokes the process, which is the first that is noted. A parked one is ready then, and that uses the token up. Otherwise
    /// live is counted down again.
    fn rouse(&self, worker: &mut Worker<K>, held: &Held<K>, process: usize)
        requires waking { IsWakingAt K.rules self.now worker.old held.now (process ∷ drop 1 (view worker.old).noted) }
        requires below { process < process_count self.now }
        requires room { length (woken_of worker.old) ≤ SENDER_LIMIT }
        ensures waking { IsWakingAt K.rules self.now worker.new held.now (drop 1 (view worker.old).noted) }
        ensures made { (view worker.new).made ≡ (view worker.old).made }
        ensures seat { IsSameWorker worker.old worker.new }
        ensures one { WakesOne self.now worker.old worker.new }
    {
        let _ = held;
        let shared = &self.table.shared;
        let live = self.layout.live();
        shared.fetch_add::<Raise>(&mut worker.seat, live, 1);
        let place = self.layout.process_word(process);
        let found = shared.fetch_or::<Poke>(&mut worker.seat, place, POKE);
        if found != 0 {
            shared.fetch_sub::<Lower>(&mut worker.seat, live, 1);
        } else {
            worker.woken.add(process as u32);
        }
    }

    /// Wakes the process, which is the first that is noted. One that is ready, poked or done needs nothing. One that is held has its token, and is poked
    /// without another. Only one that is parked, or was so between the two steps, is counted first.
    pub(crate) fn wake(&self, worker: &mut Worker<K>, held: &Held<K>, process: usize)
        requires waking { IsWakingAt K.rules self.now worker.old held.now (process ∷ drop 1 (view worker.old).noted) }
        requires below { process < process_count self.now }
        requires room { length (woken_of worker.old) ≤ SENDER_LIMIT }
        ensures waking { IsWakingAt K.rules self.now worker.new held.now (drop 1 (view worker.old).noted) }
        ensures made { (view worker.new).made ≡ (view worker.old).made }
        ensures seat { IsSameWorker worker.old worker.new }
        ensures one { WakesOne self.now worker.old worker.new }
    {
        let shared = &self.table.shared;
        let place = self.layout.process_word(process);
        let seen = shared.load::<Glance>(&mut worker.seat, place);
        if seen > HELD {
            return;
        }
        if seen == HELD {
            let found = shared.compare_exchange::<Nudge>(&mut worker.seat, place, HELD, POKED);
            if found != PARKED {
                return;
            }
        }
        self.rouse(worker, held, process);
    }

    /// Wakes the processes of these senders, which are the first that are noted, in order. One that has several side by side is noted once. Others may be
    /// noted behind them, as a worker does that was at both ends of its process's connections.
    pub(crate) fn wake_all(&self, worker: &mut Worker<K>, held: &Held<K>, senders: &[Sender])
        requires waking { IsWakingAt K.rules self.now worker.old held.now (sending_processes senders.now ++ drop (length (sending_processes senders.now)) (view worker.old).noted) }
        requires below { All (λ (s : Sender). s.process < process_count self.now) senders.now }
        requires few { length senders.now ≤ SENDER_LIMIT }
        requires clear { woken_of worker.old ≡ [] }
        ensures waking { IsWakingAt K.rules self.now worker.new held.now (drop (length (sending_processes senders.now)) (view worker.old).noted) }
        ensures made { (view worker.new).made ≡ (view worker.old).made }
        ensures seat { IsSameWorker worker.old worker.new }
        ensures few { length (woken_of worker.new) ≤ length senders.now }
        ensures readies { Readies self.now worker.old worker.new }
    {
        for i in 0..senders.len() {
            if !is_followed(senders, i) {
                self.wake(worker, held, senders[i].process as usize);
            }
        }
    }
}
