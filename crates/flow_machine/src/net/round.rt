//! One thread runs a network: each process takes turns until it has none, round and round.
ghost use Rattle.std.specs.Prelude.{◌≡◌, ◌<◌, ◌≤◌, ◌+◌, length, [], OnOk, IfOk, IfErr};
ghost use Rattle.flow_limits.specs.declared.TheConstants.{RUN_LIMIT};
ghost use Rattle.std.specs.Bool.{OnTrue, OnFalse};
ghost use Rattle.flow_machine.specs.NetSteps.{IsSetIn};
ghost use Rattle.flow_machine.specs.Quiet.{EndedAreTold};
ghost use Rattle.flow_machine.specs.Starts.{AllSet};
ghost use Rattle.flow_machine.specs.Logs.{turns_made};
ghost use Rattle.flow_machine.specs.Solo.{Goes, MakesTurn, SettlesNet, StarvesNet, IsFirstUnset, ReachesNet, StopsAt, all_settled, burst_of, pass_below, round_robin};

use super::Net;
use crate::answers::{Thought, Turn};
use flow_component::{Component, Gate, NoGate};
use std::alloc::Global;

/// A run that is over: the network, and the processes whose thoughts found no memory.
pub struct Closed<K: Component> {
    pub net: Net<K>,
    pub starved: Vec<u32>,
}

impl<K: Component> Closed<K> {
    pub fn into_net(self) -> Net<K>
        ensures { result ≡ self.net }
    {
        let Closed { net, starved: _ } = self;
        net
    }

    /// Gives the run up, and spends all that it holds.
    pub fn discard(self) {
        let Closed { net, starved: _ } = self;
        net.discard();
    }
}

impl<K: Component> Net<K> {
    /// Makes a turn of a process, if it has one. Takes no memory. Nearly all turns receive or send, and have a way of their own.
    #[inline(always)]
    fn make_turn(&mut self, process: u32, stamp: u32) -> bool
        requires in_range { process < length self.old.bodies }
        requires set { IsSetIn self.old process }
        requires next { stamp ≡ turns_made self.old }
        ensures turn { MakesTurn self.old process stamp result self.new }
        ensures reaches { ReachesNet K.rules self.old self.new }
        ensures next { OnTrue result (turns_made self.new ≡ stamp + 1) }
        ensures few { turns_made self.new ≤ RUN_LIMIT }
    {
        if self.body(process).wishes_packet() {
            self.try_turn(process, stamp)
        } else {
            self.try_turn_apart(process, stamp)
        }
    }

    /// The same, apart from the turns that receive or send.
    #[cold]
    #[inline(never)]
    fn try_turn_apart(&mut self, process: u32, stamp: u32) -> bool
        requires in_range { process < length self.old.bodies }
        requires set { IsSetIn self.old process }
        requires next { stamp ≡ turns_made self.old }
        ensures turn { MakesTurn self.old process stamp result self.new }
        ensures reaches { ReachesNet K.rules self.old self.new }
        ensures next { OnTrue result (turns_made self.new ≡ stamp + 1) }
        ensures few { turns_made self.new ≤ RUN_LIMIT }
    {
        self.try_turn(process, stamp)
    }

    /// Makes a turn of a process, if it has one.
    #[inline(always)]
    fn try_turn(&mut self, process: u32, stamp: u32) -> bool
        requires in_range { process < length self.old.bodies }
        requires set { IsSetIn self.old process }
        requires next { stamp ≡ turns_made self.old }
        ensures turn { MakesTurn self.old process stamp result self.new }
        ensures reaches { ReachesNet K.rules self.old self.new }
        ensures next { OnTrue result (turns_made self.new ≡ stamp + 1) }
        ensures few { turns_made self.new ≤ RUN_LIMIT }
    {
        match self.turn(process, stamp) {
            Turn::Made(_) => true,
            Turn::Blocked(_) => false,
            Turn::Over(_) => false,
        }
    }

    /// Does the pending work of a process, and takes the room of its next turn. False: there was no memory.
    #[inline(always)]
    fn settle<G: Gate>(&mut self, process: u32, gate: &G) -> bool
        requires { process < length self.old.bodies }
        ensures settles { OnTrue result (SettlesNet K.rules self.old process self.new) }
        ensures starves { OnFalse result (StarvesNet self.old process self.new) }
        ensures reaches { ReachesNet K.rules self.old self.new }
        ensures len { length self.new.bodies ≡ length self.old.bodies }
        ensures turns { turns_made self.new ≡ turns_made self.old }
    {
        match self.think(process, gate) {
            Thought::Wishing => true,
            Thought::Failed(_) => true,
            Thought::NoMemory => false,
        }
    }

    /// Does all pending works. An error is the first process that found no memory.
    fn settle_all<G: Gate>(&mut self, gate: &G) -> Result<(), u32>
        ensures set { OnOk result (AllSet self.new.bodies) }
        ensures goes { OnOk result (Goes K.rules (all_settled K.rules) self.old (turns_made self.old) self.new (turns_made self.old)) }
        ensures reaches { ReachesNet K.rules self.old self.new }
        ensures starved { IfErr result (IsFirstUnset self.new.bodies) }
        ensures len { length self.new.bodies ≡ length self.old.bodies }
        ensures turns { turns_made self.new ≡ turns_made self.old }
    {
        for process in 0..self.processes() {
            if !self.settle(process, gate) {
                return Err(process);
            }
        }
        Ok(())
    }

    /// A process takes turns until it has none.
    fn burst<G: Gate>(&mut self, process: u32, stamp: &mut u32, gate: &G) -> Result<(), u32>
        requires in_range { process < length self.old.bodies }
        requires set { AllSet self.old.bodies }
        requires next { stamp.old ≡ turns_made self.old }
        requires few { stamp.old ≤ RUN_LIMIT }
        ensures set { OnOk result (AllSet self.new.bodies) }
        ensures next { OnOk result (stamp.new ≡ turns_made self.new) }
        ensures few { OnOk result (stamp.new ≤ RUN_LIMIT) }
        ensures len { length self.new.bodies ≡ length self.old.bodies }
        ensures goes { OnOk result (Goes K.rules (burst_of K.rules process) self.old stamp.old self.new stamp.new) }
        ensures reaches { ReachesNet K.rules self.old self.new }
        ensures starved { IfErr result (IsFirstUnset self.new.bodies) }
    {
        while self.make_turn(process, *stamp) {
            *stamp += 1;
            if !self.settle(process, gate) {
                return Err(process);
            }
        }
        Ok(())
    }

    /// A burst of each process. It answers whether a turn was made.
    fn pass<G: Gate>(&mut self, stamp: &mut u32, gate: &G) -> Result<bool, u32>
        requires set { AllSet self.old.bodies }
        requires next { stamp.old ≡ turns_made self.old }
        requires few { stamp.old ≤ RUN_LIMIT }
        ensures set { OnOk result (AllSet self.new.bodies) }
        ensures next { OnOk result (stamp.new ≡ turns_made self.new) }
        ensures few { OnOk result (stamp.new ≤ RUN_LIMIT) }
        ensures len { length self.new.bodies ≡ length self.old.bodies }
        ensures goes { OnOk result (Goes K.rules (pass_below K.rules (length self.old.bodies)) self.old stamp.old self.new stamp.new) }
        ensures moved { IfOk result (λ moved. OnTrue moved (stamp.old < stamp.new) × OnFalse moved (stamp.new ≡ stamp.old)) }
        ensures reaches { ReachesNet K.rules self.old self.new }
        ensures starved { IfErr result (IsFirstUnset self.new.bodies) }
    {
        let before = *stamp;
        for process in 0..self.processes() {
            self.burst(process, stamp, gate)?;
        }
        Ok(*stamp != before)
    }

    /// Passes, until one has no turn.
    fn go_round<G: Gate>(&mut self, gate: &G) -> Result<(), u32>
        ensures set { OnOk result (AllSet self.new.bodies) }
        ensures goes { OnOk result (Goes K.rules (round_robin K.rules) self.old (turns_made self.old) self.new (turns_made self.new)) }
        ensures reaches { ReachesNet K.rules self.old self.new }
        ensures starved { IfErr result (IsFirstUnset self.new.bodies) }
    {
        self.settle_all(gate)?;
        let mut stamp = self.turns_made();
        while self.pass(&mut stamp, gate)? {}
        Ok(())
    }
}

/// Runs a network on one thread: all pending works are done, and then passes are made over the processes 0, 1, 2 and so on, in each of which a process
/// takes turns until it has none; after a pass without a turn the network is quiet. Without memory what stands is handed back, with the one process
/// whose thought found none: the first one that isn't set. Where the room for its number wasn't found, before the first turn, none is named.
pub fn solo<K: Component>(alloc: Global, net: Net<K>) -> Result<Closed<K>, Closed<K>>
    ensures quiet { IfOk result (λ closed. Goes K.rules (round_robin K.rules) net (turns_made net) closed.net (turns_made closed.net)) }
    ensures none { IfOk result (λ closed. closed.starved.items ≡ []) }
    ensures ended_are_told { IfOk result (λ closed. EndedAreTold closed.net) }
    ensures reaches { IfErr result (λ closed. ReachesNet K.rules net closed.net) }
    ensures stops { IfErr result (λ closed. StopsAt net closed.net closed.starved.items) }
{
    solo_past(alloc, net, &NoGate)
}

/// The same, past a gate before each resume of a component.
pub fn solo_past<K: Component, G: Gate>(
    alloc: Global,
    net: Net<K>,
    gate: &G,
) -> Result<Closed<K>, Closed<K>>
    ensures quiet { IfOk result (λ closed. Goes K.rules (round_robin K.rules) net (turns_made net) closed.net (turns_made closed.net)) }
    ensures none { IfOk result (λ closed. closed.starved.items ≡ []) }
    ensures ended_are_told { IfOk result (λ closed. EndedAreTold closed.net) }
    ensures reaches { IfErr result (λ closed. ReachesNet K.rules net closed.net) }
    ensures stops { IfErr result (λ closed. StopsAt net closed.net closed.starved.items) }
{
    let mut net = net;
    let Ok(mut starved) = Vec::with_capacity(alloc, 1) else {
        return Err(Closed {
            net,
            starved: Vec::new(alloc),
        });
    };
    match net.go_round(gate) {
        Ok(()) => Ok(Closed { net, starved }),
        Err(process) => {
            starved.push(process).unwrap();
            Err(Closed { net, starved })
        }
    }
}
