//! What follows the turns of a burst: they are stamped, the level words are told of them, the worker goes from both ends, and wakes those whom that may
//! unblock.
ghost use Rattle.std.specs.Prelude.{◌≡◌, ◌≤◌, [], None, length};
ghost use Rattle.flow_limits.specs.declared.TheConstants.{SENDER_LIMIT};
ghost use Rattle.flow_machine.specs.Values.{BodyValue};
ghost use Rattle.flow_floor.specs.Bursting.{put_by, receivers_of, taken_by, turns_at, IsEndBelow, MakesBurst};
ghost use Rattle.flow_floor.specs.Floors.{connection_count, opened_net, woken_of, IsHeldAt, IsInBurstAt, IsMidwayAt, IsSameWorker, IsWakingAt, IsWiredAt, Readies, WakesOne};
ghost use Rattle.flow_floor.specs.Workers.{view};

use crate::ends::Ends;
use crate::floor::{Floor, Held, Worker};
use flow_component::Component;
use std::marker::Brand;

impl<K: Component> Floor<K> {
    /// Stamps the turns of the burst, which are so many, by one step, and gives their stamps to the body.
    pub(crate) fn settle(
        &self,
        worker: &mut Worker<K>,
        held: &mut Held<K>,
        ends: &Ends,
        count: u32,
    ) -> u32
        ghost began: { BodyValue K }
        requires burst { IsInBurstAt K.rules self.now began worker.old held.old ends.now }
        requires count { turns_at ends.now ≡ count }
        ensures held { IsMidwayAt K.rules self.now worker.new held.new (put_by ends.now.output) (taken_by ends.now.input) [] }
        ensures made { MakesBurst K.rules (opened_net self.now) began count held.old worker.old held.new worker.new result }
        ensures wired { IsWiredAt self.now held.old → IsWiredAt self.now held.new }
    {
        let _ = ends;
        let stamp = self.stamp_all::<Brand>(worker, held, count);
        held.body.restamp(count, stamp);
        stamp
    }

    /// Publishes the puts, if there are any, and goes from the sending end.
    fn tell_sent(&self, worker: &mut Worker<K>, held: &Held<K>, ends: &Ends)
        requires held { IsMidwayAt K.rules self.now worker.old held.now (put_by ends.now.output) (taken_by ends.now.input) [] }
        requires range { IsEndBelow (connection_count self.now) ends.now.output }
        ensures held { IsMidwayAt K.rules self.now worker.new held.now None (taken_by ends.now.input) (receivers_of self.now.plan.items ends.now.output) }
        ensures made { (view worker.new).made ≡ (view worker.old).made }
        ensures seat { IsSameWorker worker.old worker.new }
        ensures readied { (view worker.new).readied ≡ (view worker.old).readied }
        ensures woken { woken_of worker.new ≡ woken_of worker.old }
    {
        let Some(end) = ends.output else {
            return;
        };
        let c = end.connection as usize;
        if end.packets == 0 {
            self.depart(worker, held, c);
            return;
        }
        self.publish::<Brand>(worker, held, c, end.packets);
        self.depart(worker, held, c);
    }

    /// Withdraws the takes, and wakes the processes that send there.
    fn tell_received(&self, worker: &mut Worker<K>, held: &Held<K>, ends: &Ends)
        requires held { IsMidwayAt K.rules self.now worker.old held.now None (taken_by ends.now.input) (receivers_of self.now.plan.items ends.now.output) }
        requires range { IsEndBelow (connection_count self.now) ends.now.input }
        requires clear { woken_of worker.old ≡ [] }
        ensures waking { IsWakingAt K.rules self.now worker.new held.now (receivers_of self.now.plan.items ends.now.output) }
        ensures few { length (woken_of worker.new) ≤ SENDER_LIMIT }
        ensures made { (view worker.new).made ≡ (view worker.old).made }
        ensures seat { IsSameWorker worker.old worker.new }
        ensures readies { Readies self.now worker.old worker.new }
    {
        let Some(end) = ends.input else {
            return;
        };
        let c = end.connection as usize;
        let senders = self.plan[c].senders.as_slice();
        self.withdraw::<Brand>(worker, held, c, end.packets);
        self.wake_all(worker, held, senders);
    }

    /// Wakes the process that receives what was put, if anything was.
    fn wake_receiver(&self, worker: &mut Worker<K>, held: &Held<K>, ends: &Ends)
        requires waking { IsWakingAt K.rules self.now worker.old held.now (receivers_of self.now.plan.items ends.now.output) }
        requires range { IsEndBelow (connection_count self.now) ends.now.output }
        requires few { length (woken_of worker.old) ≤ SENDER_LIMIT }
        ensures held { IsHeldAt K.rules self.now worker.new held.now }
        ensures made { (view worker.new).made ≡ (view worker.old).made }
        ensures seat { IsSameWorker worker.old worker.new }
        ensures one { WakesOne self.now worker.old worker.new }
    {
        let Some(end) = ends.output else {
            return;
        };
        if end.packets == 0 {
            return;
        }
        let receiver = self.plan[end.connection as usize].receiver;
        self.wake(worker, held, receiver as usize);
    }

    /// Tells the level words of the turns, goes from both ends, and wakes those whom the turns may unblock.
    pub(crate) fn tell(&self, worker: &mut Worker<K>, held: &Held<K>, ends: &Ends)
        requires held { IsMidwayAt K.rules self.now worker.old held.now (put_by ends.now.output) (taken_by ends.now.input) [] }
        requires input { IsEndBelow (connection_count self.now) ends.now.input }
        requires output { IsEndBelow (connection_count self.now) ends.now.output }
        requires clear { woken_of worker.old ≡ [] }
        ensures held { IsHeldAt K.rules self.now worker.new held.now }
        ensures made { (view worker.new).made ≡ (view worker.old).made }
        ensures seat { IsSameWorker worker.old worker.new }
        ensures readies { Readies self.now worker.old worker.new }
    {
        self.tell_sent(worker, held, ends);
        self.tell_received(worker, held, ends);
        self.wake_receiver(worker, held, ends);
    }
}
