//! How a floor is taken apart.
ghost use Rattle.std.specs.Prelude.{◌≡◌, ℕ, ◌<◌, ◌≤◌, [], All, length, true, vec_capacity, slice_index_or, false};
ghost use Rattle.std.specs.Mem.Slots.{slots_items, slots_filled, slots_len, IsFull};
ghost use Rattle.flow_limits.specs.declared.TheConstants.{PROCESS_LIMIT, WORKER_LIMIT};
ghost use Rattle.flow_machine.specs.Quiet.{AllUnset, EndedAreTold, IsQuietNet};
ghost use Rattle.flow_ring.specs.Spaced.{ranked};
ghost use Rattle.flow_floor.specs.Shut.{IsShut, ListsStarved, starves, listed, HasBodies, BodiesIn};
ghost use Rattle.flow_floor.specs.Crew.{made_by};
ghost use Rattle.flow_floor.specs.Floors.{opened_net, HasReadZero, SomeReadZero, HasRoomsFor, IsCrewOf, IsIdleAt, turns_of};
ghost use Rattle.flow_ring.specs.Places.{word_count};
ghost use Rattle.flow_floor.specs.Workers.{view};

use crate::board::Slot;
use crate::floor::{Floor, Worker};
use crate::refill::refill_all;
use crate::rooms::Rooms;
use atomic_table::Closed;
use flow_component::Component;
use flow_machine::{Body, Closed as Shut, Parts};
use flow_ring::Layout;
use std::alloc::Global;

const DONE: u64 = 4;

const DONE_POKED: u64 = 6;

/// Takes the bodies out of the first slots.
fn take_bodies<K: Component>(
    closed: &mut Closed<Slot<K>, Global>,
    count: usize,
    mut bodies: Vec<Body<K>>,
) -> Vec<Body<K>>
    requires full { IsFull closed.old.slots }
    requires stocked { HasBodies count (slots_items closed.old.slots) }
    requires range { count ≤ slots_len closed.old.slots }
    requires room { (length bodies.items ≡ 0) × (count ≤ vec_capacity bodies) }
    ensures bodies { BodiesIn count (slots_items closed.old.slots) result.items }
    ensures same { (slots_items closed.new.slots ≡ slots_items closed.old.slots) × (slots_len closed.new.slots ≡ slots_len closed.old.slots) }
    ensures words { closed.new.words ≡ closed.old.words }
    ensures gone { (k : ℕ) → k < count → slice_index_or (slots_filled closed.new.slots) k false ≡ false }
    ensures left { (k : ℕ) → count ≤ k → k < slots_len closed.old.slots → slice_index_or (slots_filled closed.new.slots) k false ≡ true }
{
    for p in 0..count {
        let slot = closed.take(p);
        let Slot::Body(body) = slot else {
            unreachable!()
        };
        bodies.push_reserved(body.into_body());
    }
    bodies
}

/// A process with this word is done, and not over. One that is ready isn't starved: a floor may be paused.
fn starves<K: Component>(word: u64, body: &Body<K>) -> bool
    ensures { result ≡ starves word body.now.process.stage }
{
    if word == DONE || word == DONE_POKED {
        !body.stage().is_over()
    } else {
        false
    }
}

/// Lists the process, if it is to be listed.
fn with_starved(mut starved: Vec<u32>, process: u32, is: bool) -> Vec<u32>
    requires room { length starved.items < vec_capacity starved }
    ensures items { result.items ≡ listed starved.items process is }
    ensures room { vec_capacity result ≡ vec_capacity starved }
{
    if is {
        starved.push_reserved(process);
    }
    starved
}

/// The processes that are done and not over.
fn list_starved<K: Component>(
    closed: &Closed<Slot<K>, Global>,
    layout: &Layout,
    bodies: &[Body<K>],
    mut starved: Vec<u32>,
) -> Vec<u32>
    requires full { IsFull closed.now.words }
    requires bodies { length bodies.now ≡ layout.now.processes }
    requires range { slots_len closed.now.words ≡ word_count layout.now.processes layout.now.connections }
    requires few { length bodies.now ≤ PROCESS_LIMIT }
    requires room { (length starved.items ≡ 0) × (length bodies.now ≤ vec_capacity starved) }
    ensures { ListsStarved (ranked (slots_items closed.now.words)) bodies.now (length bodies.now) result.items }
{
    for process in 0..bodies.len() {
        let word = closed.word(layout.process_word(process));
        let is = starves(word, &bodies[process]);
        starved = with_starved(starved, process as u32, is);
    }
    starved
}

impl<K: Component> Floor<K> {
    /// The net after all turns, from a worker that took in all others, and the processes that found no memory.
    fn shut(self, worker: Worker<K>, rooms: Rooms<K>) -> Shut<K>
        requires worker { IsIdleAt self worker }
        requires all { (view worker).shares ≡ WORKER_LIMIT }
        requires rooms { HasRoomsFor self rooms }
        ensures net { IsShut K.rules (opened_net self) (turns_of worker) result.net }
        ensures starved { AllUnset result.net result.starved.items }
        ensures ended_are_told { HasReadZero worker → EndedAreTold result.net }
        ensures quiet { HasReadZero worker → result.starved.items ≡ [] → IsQuietNet result.net }
    {
        let Worker { seat, woken: _ } = worker;
        let Floor {
            table,
            layout,
            plan,
        } = self;
        let Rooms {
            bodies,
            channels,
            starved,
        } = rooms;
        let mut closed = table.close_with(seat);
        let bodies = take_bodies(&mut closed, layout.processes, bodies);
        let starved = list_starved(&closed, &layout, bodies.as_slice(), starved);
        let channels = refill_all(&mut closed, &layout, channels);
        closed.free();
        let parts = Parts {
            connections: plan,
            bodies,
            channels,
        };
        Shut {
            net: parts.join(),
            starved,
        }
    }

    /// Puts the net together again, whether or not the workers read 0.
    fn rejoin(self, workers: Vec<Worker<K>>, rooms: Rooms<K>) -> Shut<K>
        requires crew { IsCrewOf self workers.items }
        requires rooms { HasRoomsFor self rooms }
        ensures net { IsShut K.rules (opened_net self) (made_by workers.items) result.net }
        ensures starved { AllUnset result.net result.starved.items }
        ensures ended_are_told { SomeReadZero workers.items → EndedAreTold result.net }
        ensures quiet { SomeReadZero workers.items → result.starved.items ≡ [] → IsQuietNet result.net }
    {
        let mut workers = workers;
        let Some(last) = workers.pop() else {
            unreachable!()
        };
        let all = self.gather(last, workers);
        self.shut(all, rooms)
    }

    /// Puts the net together again, from all workers, each of which read 0. The opened net goes on to it by their turns. It is quiet where no process
    /// found no memory, and has no live component in a process that ended or failed. Takes no memory: the room for this was taken when the floor was opened.
    pub fn close(self, workers: Vec<Worker<K>>, rooms: Rooms<K>) -> Shut<K>
        requires crew { IsCrewOf self workers.items }
        requires rooms { HasRoomsFor self rooms }
        requires zero { All HasReadZero workers.items }
        ensures net { IsShut K.rules (opened_net self) (made_by workers.items) result.net }
        ensures starved { AllUnset result.net result.starved.items }
        ensures ended_are_told { EndedAreTold result.net }
        ensures quiet { result.starved.items ≡ [] → IsQuietNet result.net }
    {
        self.rejoin(workers, rooms)
    }

    /// Puts the net together again, from all workers, whether or not they read 0. The opened net goes on to it by their turns, and it may be opened again.
    /// It is quiet where some worker read 0 and no process found no memory. Takes no memory.
    pub fn pause(self, workers: Vec<Worker<K>>, rooms: Rooms<K>) -> Shut<K>
        requires crew { IsCrewOf self workers.items }
        requires rooms { HasRoomsFor self rooms }
        ensures net { IsShut K.rules (opened_net self) (made_by workers.items) result.net }
        ensures starved { AllUnset result.net result.starved.items }
        ensures ended_are_told { SomeReadZero workers.items → EndedAreTold result.net }
        ensures quiet { SomeReadZero workers.items → result.starved.items ≡ [] → IsQuietNet result.net }
    {
        self.rejoin(workers, rooms)
    }

    /// Gives the run up, and spends all that the floor holds. The workers needn't have read 0. Takes no memory.
    pub fn discard(self, workers: Vec<Worker<K>>, rooms: Rooms<K>)
        requires crew { IsCrewOf self workers.items }
        requires rooms { HasRoomsFor self rooms }
    {
        self.rejoin(workers, rooms).discard();
    }
}
