//! Many turns of a held body at one input and one output, which one step of the clock stamps.
ghost use Rattle.std.specs.Prelude.{◌≡◌, ◌+◌, ◌<◌, ◌≤◌, ◌^◌, ℕ, false, true, [], None, Some, slice_get};
ghost use Rattle.flow_component.specs.declared.Wish.TheVariants.{Receive};
ghost use Rattle.flow_model.specs.States.{From, output_at};
ghost use Rattle.flow_model.specs.declared.Stage.TheVariants.{Wishing};
ghost use Rattle.flow_machine.specs.Nets.{SendsAt};
ghost use Rattle.flow_machine.specs.Thoughts.{HasRoom, IsSet, PassesFirst};
ghost use Rattle.flow_machine.specs.Values.{BodyValue};
ghost use Rattle.flow_floor.specs.Law.{Rests};
ghost use Rattle.flow_floor.specs.Bursting.{turns_at, GoesOn, IsEndAt, IsTurned, OwesOrFailed};
ghost use Rattle.flow_floor.specs.Bursts.{IsOneAtMost, PassesBetween, PassesInBurst};
ghost use Rattle.flow_floor.specs.Floors.{connection_count, woken_of, BurstsAt, IsHeldAt, IsInBurstAt, IsSameWorker, IsWiredAt, Readies};
ghost use Rattle.flow_floor.specs.declared.floor.Floor.{Floor};

use crate::ends::{End, Ends, may_come_to, packets};
use crate::floor::{Burst, Drawn, Floor, Held, Placed, Turned, Worker};
use flow_component::{Component, Gate, Port};
use flow_machine::{Case, Effect, Thought};
use std::marker::Brand;

/// The stamp of a turn before the clock has given it one. It doesn't count.
const NO_STAMP: u32 = 0;

impl<K: Component> Held<K> {
    /// Thinks, and tells whether the body is set for one more turn of a burst.
    fn goes_on<G: Gate>(&mut self, gate: &G) -> bool
        requires { self.old.body.leaving ≡ None }
        ensures set { result ≡ true → IsSet self.new.body }
        ensures rests { Rests K.rules self.old.body self.new.body }
        ensures process { self.new.process ≡ self.old.process }
        ensures wired { (f : Floor _) → IsWiredAt f self.old → IsWiredAt f self.new }
        ensures passed { PassesFirst (G.has_passed gate.now) self.old.body }
        ensures gated { result ≡ true → OwesOrFailed self.old.body.process.stage → (maker : ℕ) × G.has_passed gate.now maker self.old.body.process.turns }
    {
        match self.think(gate) {
            Thought::Wishing => true,
            Thought::Failed(_) => false,
            Thought::NoMemory => false,
        }
    }
}

impl<K: Component> Floor<K> {
    /// Receives at the input at which the burst is, or comes to it. There is no turn where the burst is at another input, or no packet is there.
    fn receive_on(
        &self,
        worker: &mut Worker<K>,
        held: &mut Held<K>,
        ends: &mut Ends,
        connection: u32,
        port: Port,
    ) -> bool
        ghost began: { BodyValue K }
        requires burst { IsInBurstAt K.rules self.now began worker.old held.old ends.old }
        requires begins { turns_at ends.old ≡ 0 → began ≡ held.old.body }
        requires few { turns_at ends.old + 1 < 2 ^ 32 }
        requires range { connection < connection_count self.now }
        requires stage { held.old.body.process.stage ≡ Wishing (Receive port) }
        requires input { slice_get held.old.body.process.inputs port.0 ≡ Some (From connection) }
        requires room { HasRoom held.old.body }
        ensures burst { IsInBurstAt K.rules self.now began worker.new held.new ends.new }
        ensures goes { GoesOn worker.old worker.new }
        ensures one { result ≡ true → turns_at ends.new ≡ turns_at ends.old + 1 }
        ensures turned { result ≡ true → IsTurned held.old.body held.new.body }
        ensures none { result ≡ false → (held.new ≡ held.old) × (turns_at ends.new ≡ turns_at ends.old) }
        ensures process { held.new.process ≡ held.old.process }
        ensures wired { IsWiredAt self.now held.old → IsWiredAt self.now held.new }
    {
        if !may_come_to(ends.input, connection) {
            return false;
        }
        let drawn = packets(ends.input);
        match self.draw::<Brand>(worker, held, connection as usize, drawn) {
            Drawn::Nothing(_) => false,
            Drawn::Packet(_, packet) => {
                held.body.effect(Effect::Got(packet), NO_STAMP);
                ends.input = Some(End {
                    connection,
                    packets: drawn + 1,
                });
                true
            }
        }
    }

    /// Comes to the sending end of this connection, if the burst is at none. It doesn't where the burst is at another, or another worker is there.
    fn come_to(
        &self,
        worker: &mut Worker<K>,
        held: &Held<K>,
        ends: &mut Ends,
        connection: u32,
        port: Port,
    ) -> bool
        ghost began: { BodyValue K }
        requires burst { IsInBurstAt K.rules self.now began worker.old held.now ends.old }
        requires range { connection < connection_count self.now }
        requires output { output_at held.now.body.process port.0 ≡ Some connection }
        ensures burst { IsInBurstAt K.rules self.now began worker.new held.now ends.new }
        ensures goes { GoesOn worker.old worker.new }
        ensures came { result ≡ true → IsEndAt connection ends.new.output }
        ensures same { turns_at ends.new ≡ turns_at ends.old }
    {
        let _ = port;
        match ends.output {
            Some(end) => end.connection == connection,
            None => {
                if !self.reach::<Brand>(worker, held, connection as usize) {
                    return false;
                }
                ends.output = Some(End {
                    connection,
                    packets: 0,
                });
                true
            }
        }
    }

    /// Sends at the output at which the burst is, or comes to it. There is no turn where the burst is at another output, another worker is there, or the
    /// connection is full.
    fn send_on(
        &self,
        worker: &mut Worker<K>,
        held: &mut Held<K>,
        ends: &mut Ends,
        connection: u32,
        port: Port,
    ) -> bool
        ghost began: { BodyValue K }
        requires burst { IsInBurstAt K.rules self.now began worker.old held.old ends.old }
        requires begins { turns_at ends.old ≡ 0 → began ≡ held.old.body }
        requires range { connection < connection_count self.now }
        requires stage { SendsAt held.old.body.process.stage port }
        requires output { output_at held.old.body.process port.0 ≡ Some connection }
        requires room { HasRoom held.old.body }
        ensures burst { IsInBurstAt K.rules self.now began worker.new held.new ends.new }
        ensures goes { GoesOn worker.old worker.new }
        ensures one { result ≡ true → turns_at ends.new ≡ turns_at ends.old + 1 }
        ensures turned { result ≡ true → IsTurned held.old.body held.new.body }
        ensures none { result ≡ false → (held.new ≡ held.old) × (turns_at ends.new ≡ turns_at ends.old) }
        ensures process { held.new.process ≡ held.old.process }
        ensures wired { IsWiredAt self.now held.old → IsWiredAt self.now held.new }
    {
        if !self.come_to(worker, held, ends, connection, port) {
            return false;
        }
        let c = connection as usize;
        let most = self.layout.capacities[c];
        let placed = packets(ends.output);
        match self.place::<Brand, Brand>(worker, held, c, most, placed) {
            Placed::Full(_) => false,
            Placed::Put => {
                held.body.effect(Effect::Sent, NO_STAMP);
                ends.output = Some(End {
                    connection,
                    packets: placed + 1,
                });
                true
            }
        }
    }

    /// One turn more of the burst, if the held body has one now at its ends.
    fn go_on(&self, worker: &mut Worker<K>, held: &mut Held<K>, ends: &mut Ends) -> bool
        ghost began: { BodyValue K }
        requires burst { IsInBurstAt K.rules self.now began worker.old held.old ends.old }
        requires begins { turns_at ends.old ≡ 0 → began ≡ held.old.body }
        requires few { turns_at ends.old + 1 < 2 ^ 32 }
        requires wired { IsWiredAt self.now held.old }
        requires set { IsSet held.old.body }
        ensures burst { IsInBurstAt K.rules self.now began worker.new held.new ends.new }
        ensures goes { GoesOn worker.old worker.new }
        ensures one { result ≡ true → turns_at ends.new ≡ turns_at ends.old + 1 }
        ensures turned { result ≡ true → IsTurned held.old.body held.new.body }
        ensures none { result ≡ false → (held.new ≡ held.old) × (turns_at ends.new ≡ turns_at ends.old) }
        ensures process { held.new.process ≡ held.old.process }
        ensures wired { IsWiredAt self.now held.new }
    {
        match held.body.case() {
            Case::Receive { connection, port } => self.receive_on(
                worker, held, ends, connection, port,
            ),
            Case::Send { connection, port } => self.send_on(worker, held, ends, connection, port),
            _ => false,
        }
    }

    /// Makes turns at the ends of the burst, so many at most, while the held body has one there; how many they are.
    fn pass<G: Gate>(
        &self,
        worker: &mut Worker<K>,
        held: &mut Held<K>,
        gate: &G,
        ends: &mut Ends,
        most: u32,
    ) -> u32
        ghost began: { BodyValue K }
        requires burst { IsInBurstAt K.rules self.now began worker.old held.old ends.old }
        requires none { turns_at ends.old ≡ 0 }
        requires begins { began ≡ held.old.body }
        requires wired { IsWiredAt self.now held.old }
        requires set { IsSet held.old.body }
        ensures burst { IsInBurstAt K.rules self.now began worker.new held.new ends.new }
        ensures goes { GoesOn worker.old worker.new }
        ensures count { turns_at ends.new ≡ result }
        ensures most { result ≤ most }
        ensures passed { PassesBetween (G.has_passed gate.now) held.old.body.process.turns result }
        ensures same { result ≡ 0 → held.new ≡ held.old }
        ensures process { held.new.process ≡ held.old.process }
        ensures wired { IsWiredAt self.now held.new }
    {
        for count in 0..most {
            if !self.go_on(worker, held, ends) {
                return count;
            }
            if !held.goes_on(gate) {
                return count + 1;
            }
        }
        most
    }

    /// Where no turn was made, goes from the sending end to which the burst had come.
    fn leave(&self, worker: &mut Worker<K>, held: &Held<K>, ends: &Ends)
        ghost began: { BodyValue K }
        requires burst { IsInBurstAt K.rules self.now began worker.old held.now ends.now }
        requires none { turns_at ends.now ≡ 0 }
        ensures held { IsHeldAt K.rules self.now worker.new held.now }
        ensures goes { GoesOn worker.old worker.new }
    {
        let Some(end) = ends.output else {
            return;
        };
        self.depart(worker, held, end.connection as usize);
    }

    /// One whole turn, as a burst of its own.
    fn take_one(&self, worker: &mut Worker<K>, held: &mut Held<K>) -> Burst
        requires held { IsHeldAt K.rules self.now worker.old held.old }
        requires wired { IsWiredAt self.now held.old }
        requires set { IsSet held.old.body }
        requires clear { woken_of worker.old ≡ [] }
        ensures held { IsHeldAt K.rules self.now worker.new held.new }
        ensures wired { IsWiredAt self.now held.new }
        ensures burst { (most : ℕ) → 1 ≤ most → BurstsAt K.rules self.now most held.old worker.old held.new worker.new result }
        ensures one { IsOneAtMost result }
        ensures seat { IsSameWorker worker.old worker.new }
        ensures readies { Readies self.now worker.old worker.new }
    {
        match self.take_turn(worker, held) {
            Turned::Made(first) => Burst::Made { first, count: 1 },
            Turned::Busy(connection, word) => Burst::Busy(connection, word),
            Turned::Blocked(block, word) => Burst::Blocked(block, word),
            Turned::Over(over) => Burst::Over(over),
        }
    }

    /// A burst of the body that is held.
    fn burst_as<G: Gate>(
        &self,
        worker: &mut Worker<K>,
        held: &mut Held<K>,
        gate: &G,
        most: u32,
    ) -> Burst
        ghost began: { BodyValue K }
        requires held { IsHeldAt K.rules self.now worker.old held.old }
        requires wired { IsWiredAt self.now held.old }
        requires set { IsSet held.old.body }
        requires most { 1 ≤ most }
        requires begins { began ≡ held.old.body }
        requires clear { woken_of worker.old ≡ [] }
        ensures held { IsHeldAt K.rules self.now worker.new held.new }
        ensures wired { IsWiredAt self.now held.new }
        ensures burst { BurstsAt K.rules self.now most held.old worker.old held.new worker.new result }
        ensures passed { PassesInBurst (G.has_passed gate.now) held.old.body result }
        ensures seat { IsSameWorker worker.old worker.new }
        ensures readies { Readies self.now worker.old worker.new }
    {
        let mut ends = Ends {
            input: None,
            output: None,
        };
        let count = self.pass(worker, held, gate, &mut ends, most);
        if count == 0 {
            self.leave(worker, held, &ends);
            return self.take_one(worker, held);
        }
        let first = self.settle(worker, held, &ends, count);
        self.tell(worker, held, &ends);
        Burst::Made { first, count }
    }

    /// Up to so many turns of the held body: as many receives and sends as it has one after another at one input and one output, stamped by one step of the
    /// clock; or else one turn of another kind. A turn is followed by a thought, which takes memory where its component does. Where the process is blocked it
    /// may be parked.
    pub fn burst<G: Gate>(
        &self,
        worker: &mut Worker<K>,
        held: &mut Held<K>,
        gate: &G,
        most: u32,
    ) -> Burst
        requires held { IsHeldAt K.rules self.now worker.old held.old }
        requires wired { IsWiredAt self.now held.old }
        requires set { IsSet held.old.body }
        requires most { 1 ≤ most }
        ensures held { IsHeldAt K.rules self.now worker.new held.new }
        ensures wired { IsWiredAt self.now held.new }
        ensures burst { BurstsAt K.rules self.now most held.old worker.old held.new worker.new result }
        ensures passed { PassesInBurst (G.has_passed gate.now) held.old.body result }
        ensures seat { IsSameWorker worker.old worker.new }
        ensures readies { Readies self.now worker.old worker.new }
    {
        worker.woken.clear();
        self.burst_as(worker, held, gate, most)
    }
}
