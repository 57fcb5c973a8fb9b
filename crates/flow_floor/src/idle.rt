//! A whole turn of an idle process.
ghost use Rattle.std.specs.Prelude.{◌≡◌, []};
ghost use Rattle.flow_model.specs.declared.Stage.TheVariants.{Idle};
ghost use Rattle.flow_machine.specs.Thoughts.{HasRoom};
ghost use Rattle.flow_floor.specs.Floors.{woken_of, IsHeldAt, IsSameWorker, IsWiredAt, Readies, TurnsAt};

use crate::floor::{Floor, Held, Idling, Turned, Worker};
use flow_component::Component;
use flow_machine::Block;
use std::marker::Brand;

impl<K: Component> Floor<K> {
    /// Starts, goes to its end, takes the packet at its automatic input, or is dormant, by what it sees at its inputs. The processes that send to the
    /// automatic input are woken where a packet was taken there.
    pub(crate) fn idle_turn(&self, worker: &mut Worker<K>, held: &mut Held<K>) -> Turned
        requires held { IsHeldAt K.rules self.now worker.old held.old }
        requires wired { IsWiredAt self.now held.old }
        requires stage { held.old.body.process.stage ≡ Idle }
        requires room { HasRoom held.old.body }
        requires clear { woken_of worker.old ≡ [] }
        ensures held { IsHeldAt K.rules self.now worker.new held.new }
        ensures turned { TurnsAt K.rules self.now held.old worker.old held.new worker.new result }
        ensures seat { IsSameWorker worker.old worker.new }
        ensures readies { Readies self.now worker.old worker.new }
    {
        match self.look_idle(worker, held) {
            Idling::Start => Turned::Made(self.start_as::<Brand>(worker, held)),
            Idling::Finish => Turned::Made(self.finish_as::<Brand>(worker, held)),
            Idling::Dormant(word) => Turned::Blocked(Block::Dormant, word),
            Idling::Signal(connection, packet) => {
                let c = connection as usize;
                let stamp = self.signal_as::<Brand>(worker, held, c, packet);
                self.tell_taken(worker, held, c);
                Turned::Made(stamp)
            }
        }
    }
}
