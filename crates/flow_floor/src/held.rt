//! How a worker takes a process, and gives it back.
ghost use Rattle.std.specs.Prelude.{◌≡◌, ◌≢◌, ◌+◌, ◌<◌, ◌⊎◌, ◌↔◌, None, true};
ghost use Rattle.flow_floor.specs.Looks.{IsLook};
ghost use Rattle.flow_floor.specs.declared.floor.Floor.{Floor};
ghost use Rattle.flow_floor.specs.declared.floor.Worker.{Worker};
ghost use Rattle.flow_machine.specs.Thoughts.{Thinks, KeepsTurns, PassesFirst};
ghost use Rattle.flow_machine.specs.declared.answers.Thought.TheVariants.{NoMemory};
ghost use Rattle.flow_floor.specs.Floors.{process_count, connection_count, turns_of, woken_of, HasReadZero, IsDoneAt, IsHeldAt, IsIdleAt, IsOverAs, IsSameWorker, IsStuckAt, IsWiredAt, Readies};
ghost use Rattle.flow_floor.specs.Workers.{view, MatchClaim};
ghost use Rattle.flow_floor.specs.Views.{looked, refusing, claiming, leaving, lowering, parking, reading};

use crate::board::Slot;
use crate::floor::{Claim, Floor, Held, Worker};
use crate::plays::{Leave, Live, Lower, Park, Retire, Spot, Take};
use flow_component::{Component, Gate};
use flow_machine::{Over, Thought};
use std::marker::Brand;

const READY: u64 = 2;

const HELD: u64 = 1;

const PARKED: u64 = 0;

const DONE: u64 = 4;

impl<K: Component> Floor<K> {
    #[inline(always)]
    fn claim_at<S: Spot>(&self, worker: &mut Worker<K>, process: usize) -> Claim<K>
        requires spot { S.connection ≡ connection_count self.now }
        requires worker { IsIdleAt self.now worker.old }
        requires range { process < process_count self.now }
        ensures { MatchClaim result (λ h. (h.process ≡ process) × IsHeldAt K.rules self.now worker.new h × IsWiredAt self.now h × (view worker.new ≡ claiming (view worker.old) process h.body) × (woken_of worker.new ≡ woken_of worker.old)) (λ n. (n ≢ 2) × IsIdleAt self.now worker.new × (view worker.new ≡ refusing (view worker.old) process n) × (woken_of worker.new ≡ woken_of worker.old)) }
    {
        let shared = &self.table.shared;
        let place = self.layout.process_word(process);
        let found = shared.compare_exchange::<Take<S>>(&mut worker.seat, place, READY, HELD);
        if found != READY {
            return Claim::NotReady(found);
        }
        let slot = self.layout.body_slot(process);
        let old = shared.exchange(&mut worker.seat, slot, Slot::Vacant);
        let Slot::Body(body) = old else {
            unreachable!()
        };
        Claim::Held(Held {
            body,
            process,
            starved: false,
        })
    }

    /// Claims the process if it is ready. `NotReady` has what this call's exchange read.
    #[inline(always)]
    pub fn claim(&self, worker: &mut Worker<K>, process: usize) -> Claim<K>
        requires worker { IsIdleAt self.now worker.old }
        requires range { process < process_count self.now }
        ensures claimed { MatchClaim result (λ h. (h.process ≡ process) × IsHeldAt K.rules self.now worker.new h × IsWiredAt self.now h × (view worker.new ≡ claiming (view worker.old) process h.body)) (λ n. (n ≢ 2) × IsIdleAt self.now worker.new × (view worker.new ≡ refusing (view worker.old) process n)) }
        ensures readies { Readies self.now worker.old worker.new }
    {
        worker.woken.clear();
        self.claim_at::<Brand>(worker, process)
    }

    /// The process is ready again.
    #[inline(always)]
    pub fn hand_back(&self, worker: &mut Worker<K>, held: Held<K>)
        requires { IsHeldAt K.rules self.now worker.old held }
        ensures idle { IsIdleAt self.now worker.new }
        ensures view { view worker.new ≡ leaving (view worker.old) }
        ensures readies { Readies self.now worker.old worker.new }
    {
        worker.woken.clear();
        let Held {
            body,
            process,
            starved: _,
        } = held;
        let shared = &self.table.shared;
        let slot = self.layout.body_slot(process);
        let old = shared.exchange(&mut worker.seat, slot, Slot::Body(body));
        let Slot::Vacant = old else { unreachable!() };
        let place = self.layout.process_word(process);
        shared.swap::<Leave>(&mut worker.seat, place, READY);
        worker.woken.add(process as u32);
    }

    /// The process is done: it is over and was told its end, or its last thought found no memory.
    #[inline(always)]
    pub fn retire(&self, worker: &mut Worker<K>, held: Held<K>, over: Over)
        requires held { IsHeldAt K.rules self.now worker.old held }
        requires over { IsOverAs over held }
        ensures idle { IsIdleAt self.now worker.new }
        ensures view { view worker.new ≡ lowering (parking (view worker.old)) }
        ensures made { turns_of worker.new ≡ turns_of worker.old }
        ensures seat { IsSameWorker worker.old worker.new }
        ensures readies { Readies self.now worker.old worker.new }
    {
        let _ = over;
        worker.woken.clear();
        let Held {
            body,
            process,
            starved: _,
        } = held;
        let shared = &self.table.shared;
        let slot = self.layout.body_slot(process);
        let old = shared.exchange(&mut worker.seat, slot, Slot::Body(body));
        let Slot::Vacant = old else { unreachable!() };
        let place = self.layout.process_word(process);
        shared.swap::<Retire>(&mut worker.seat, place, DONE);
        self.lower(worker);
    }

    /// The process is parked, unless it was poked since it was claimed. Then it is ready again.
    #[inline(always)]
    pub fn park(&self, worker: &mut Worker<K>, held: Held<K>)
        requires held { IsHeldAt K.rules self.now worker.old held }
        requires blocked { IsStuckAt self.now worker.old held }
        ensures idle { IsIdleAt self.now worker.new }
        ensures view { (view worker.new ≡ lowering (parking (view worker.old))) ⊎ (view worker.new ≡ leaving (looked (view worker.old) held.process 3)) }
        ensures look { ((view worker.new).look ≡ (view worker.old).look) ⊎ IsLook 0 (view worker.old).steps held.process 3 (view worker.new).look }
        ensures made { turns_of worker.new ≡ turns_of worker.old }
        ensures seat { IsSameWorker worker.old worker.new }
        ensures readies { Readies self.now worker.old worker.new }
    {
        worker.woken.clear();
        let Held {
            body,
            process,
            starved: _,
        } = held;
        let shared = &self.table.shared;
        let slot = self.layout.body_slot(process);
        let old = shared.exchange(&mut worker.seat, slot, Slot::Body(body));
        let Slot::Vacant = old else { unreachable!() };
        let place = self.layout.process_word(process);
        let found = shared.compare_exchange::<Park>(&mut worker.seat, place, HELD, PARKED);
        if found == HELD {
            self.lower(worker);
        } else {
            shared.swap::<Leave>(&mut worker.seat, place, READY);
            worker.woken.add(process as u32);
        }
    }

    /// Takes the spare token from the live word.
    fn lower(&self, worker: &mut Worker<K>)
        requires { IsDoneAt self.now worker.old 1 }
        ensures idle { IsIdleAt self.now worker.new }
        ensures view { view worker.new ≡ lowering (view worker.old) }
        ensures woken { woken_of worker.new ≡ woken_of worker.old }
    {
        let live = self.layout.live();
        self.table
            .shared
            .fetch_sub::<Lower>(&mut worker.seat, live, 1);
    }

    /// How many processes are ready or held, with the tokens on their way. At 0 no process but a starved one will ever have a turn again.
    pub fn live(&self, worker: &mut Worker<K>) -> u64
        requires { IsIdleAt self.now worker.old }
        ensures idle { IsIdleAt self.now worker.new }
        ensures view { view worker.new ≡ reading (view worker.old) (process_count self.now + connection_count self.now + connection_count self.now + 1) result }
        ensures seen { result ≡ 0 → HasReadZero worker.new }
        ensures readies { Readies self.now worker.old worker.new }
    {
        worker.woken.clear();
        let live = self.layout.live();
        self.table.shared.load::<Live>(&mut worker.seat, live)
    }
}

impl<K: Component> Worker<K> {
    /// The processes that its last call of the floor made ready, in the order of the steps.
    pub fn woken(&self) -> &[u32]
        ensures { result.now ≡ woken_of self.now }
    {
        self.woken.names.as_slice()
    }
}

impl<K: Component> Held<K> {
    pub fn process(&self) -> usize
        ensures { result ≡ self.now.process }
    {
        self.process
    }

    /// The body's think: does the pending work, if any, and takes the room of the next turn. It stays its worker's.
    #[inline(always)]
    pub fn think<G: Gate>(&mut self, gate: &G) -> Thought
        requires { self.old.body.leaving ≡ None }
        ensures thinks { Thinks K.rules self.old.body result self.new.body }
        ensures starved { (self.new.starved ≡ true) ↔ (result ≡ NoMemory) }
        ensures keeps { KeepsTurns self.old.body self.new.body }
        ensures process { self.new.process ≡ self.old.process }
        ensures wired { (f : Floor _) → IsWiredAt f self.old → IsWiredAt f self.new }
        ensures held { (f : Floor _) (w : Worker _) → IsHeldAt K.rules f w self.old → IsHeldAt K.rules f w self.new }
        ensures passed { PassesFirst (G.has_passed gate.now) self.old.body }
    {
        let thought = self.body.think(gate);
        self.starved = matches!(&thought, Thought::NoMemory);
        thought
    }
}
