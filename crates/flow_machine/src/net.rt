//! A network that runs.
ghost use Rattle.std.specs.Prelude.{◌≡◌, ◌<◌, ◌≤◌, length, IfSome, None, Some, slice_get, sum_by};
ghost use Rattle.flow_limits.specs.declared.TheConstants.{RUN_LIMIT};
ghost use Rattle.flow_model.specs.Events.{Event};
ghost use Rattle.flow_model.specs.Stages.{IsThoughtStage};
ghost use Rattle.flow_machine.specs.Nets.{level_of, looks_of, block_at, is_asking, asks_level, IsAt, NetTurn, TurnsNet, SeesNet};
ghost use Rattle.flow_machine.specs.Inlets.{watches_signal};
ghost use Rattle.flow_machine.specs.NetSteps.{IsSetIn, ThinksNet, GoesByTurn};
ghost use Rattle.flow_machine.specs.Thoughts.{PassesFirst};
ghost use Rattle.flow_machine.specs.Logs.{turns_made, HasLog};

use self::begin::{discard_bodies, discard_channels};
use crate::answers::{Thought, Turn};
use crate::body::Body;
use crate::channel::Channel;
use flow_component::{Component, Gate, Wish};
use flow_limits::PROCESS_LIMIT;
use flow_model::{Block, Stage};
use flow_plan::Connection;
use std::marker::Model;

mod begin;
mod blocks;
mod levels;
mod pair;
mod parts;
mod round;
mod turns;

pub use parts::Parts;
pub use round::{Closed, solo, solo_past};

/// A network: the connections of its plan, its processes, and a channel for each connection.
pub struct Net<K: Component> {
    connections: Vec<Connection>,
    bodies: Vec<Body<K>>,
    channels: Vec<Channel>,
}

impl<K: Component> Model for Net<K> {
    ghost use Rattle.flow_machine.specs.Values.{NetValue, net_with};
    ghost use Rattle.flow_machine.specs.Codes.{net_code};
    ghost use Rattle.flow_machine.specs.FitNets.{IsNet};

    ghost Value = { NetValue K };

    ghost coded = { net_code K.code };

    ghost view = { λ n. net_with n.connections.items n.bodies.items n.channels.items };

    ghost invariant = { λ n. IsNet K.rules (net_with n.connections.items n.bodies.items n.channels.items) };
}

/// The turns of these processes together.
fn count_turns<K: Component>(bodies: &[Body<K>]) -> u32
    requires { sum_by (λ b. b.process.turns) bodies.now ≤ RUN_LIMIT }
    ensures turns { result ≡ sum_by (λ b. b.process.turns) bodies.now }
    ensures stamps { result ≡ sum_by (λ b. length b.stamps) bodies.now }
{
    let mut count = 0;
    for body in bodies {
        count += body.turns().len() as u32;
    }
    count
}

impl<K: Component> Net<K> {
    /// How many processes it has.
    pub fn processes(&self) -> u32
        ensures count { result ≡ length self.now.bodies }
        ensures few { result ≤ PROCESS_LIMIT }
    {
        self.bodies.len() as u32
    }

    /// How many connections it has.
    pub fn connections(&self) -> usize
        ensures { result ≡ length self.now.channels }
    {
        self.channels.len()
    }

    pub fn body(&self, process: u32) -> &Body<K>
        requires { process < length self.now.bodies }
        ensures { slice_get self.now.bodies process ≡ Some result.now }
    {
        &self.bodies[process as usize]
    }

    pub fn channel(&self, connection: u32) -> &Channel
        requires { connection < length self.now.channels }
        ensures { slice_get self.now.channels connection ≡ Some result.now }
    {
        &self.channels[connection as usize]
    }

    /// Does the pending work of a process, if any, and takes the room of its next turn.
    #[inline(always)]
    pub fn think<G: Gate>(&mut self, process: u32, gate: &G) -> Thought
        requires { process < length self.old.bodies }
        ensures thinks { ThinksNet K.rules self.old process result self.new }
        ensures passed { IfSome (slice_get self.old.bodies process) (PassesFirst (G.has_passed gate.now)) }
    {
        self.bodies[process as usize].think(gate)
    }

    /// A turn of a process, if it has one. A level turn sees the exact length. Takes no memory.
    #[inline(always)]
    pub fn turn(&mut self, process: u32, stamp: u32) -> Turn
        requires in_range { process < length self.old.bodies }
        requires set { IsSetIn self.old process }
        requires next { stamp ≡ turns_made self.old }
        ensures turns { TurnsNet self.old process (level_of self.old process) stamp result self.new }
        ensures goes { (event : Event) → NetTurn self.old process (level_of self.old process) event stamp self.new → GoesByTurn K.rules self.old process event self.new }
        ensures few { turns_made self.new ≤ RUN_LIMIT }
    {
        turns::turn_of(&mut self.bodies, &mut self.channels, process, stamp)
    }

    /// The process asks for a level.
    pub fn wishes_level(&self, process: u32) -> bool
        requires { process < length self.now.bodies }
        ensures { IsAt self.now process (λ stage. result ≡ is_asking stage) }
    {
        match self.bodies[process as usize].stage() {
            Stage::Wishing(wish) => match wish {
                Wish::Level(_) => true,
                _ => false,
            },
            _ => false,
        }
    }

    /// A turn of a process that asks for a level, which is told the given number. `None`: that number does not lie from the packets that are in the
    /// connection to its capacity. Takes no memory.
    pub fn turn_seen(&mut self, process: u32, stamp: u32, seen: u32) -> Option<Turn>
        requires in_range { process < length self.old.bodies }
        requires set { IsSetIn self.old process }
        requires next { stamp ≡ turns_made self.old }
        requires asks { IsAt self.old process asks_level }
        ensures sees { SeesNet self.old process seen stamp result self.new }
        ensures goes { (event : Event) → NetTurn self.old process seen event stamp self.new → GoesByTurn K.rules self.old process event self.new }
    {
        levels::seen_of(&mut self.bodies, &self.channels, process, stamp, seen)
    }

    /// What a process waits for while it has no turn. `None`: it has one, or is over.
    pub fn block(&self, process: u32) -> Option<Block>
        requires in_range { process < length self.now.bodies }
        requires thought { IsAt self.now process IsThoughtStage }
        ensures { result ≡ block_at self.now process }
    {
        blocks::block_of(&self.bodies, &self.channels, process)
    }

    /// An idle process watches its automatic input alone, of all its inputs.
    pub fn watches_signal(&self, process: u32) -> bool
        requires { process < length self.now.bodies }
        ensures { IfSome (slice_get self.now.bodies process) (λ b. result ≡ watches_signal (looks_of self.now.channels) b.process) }
    {
        self.bodies[process as usize].watches_signal(&self.channels)
    }

    /// How many turns were made.
    pub fn turns_made(&self) -> u32
        ensures turns { result ≡ turns_made self.now }
        ensures few { result ≤ RUN_LIMIT }
        ensures stamps { result ≡ sum_by (λ b. length b.stamps) self.now.bodies }
        ensures log { HasLog self.now }
    {
        count_turns(&self.bodies)
    }

    /// Gives the run up, and spends all that it holds.
    pub fn discard(self) {
        let Net {
            connections: _,
            bodies,
            channels,
        } = self;
        discard_bodies(bodies);
        discard_channels(channels);
    }
}
