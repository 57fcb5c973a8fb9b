//! The workers together.
ghost use Rattle.flow_floor.specs.Shut.{IsShut};
ghost use Rattle.flow_limits.specs.declared.TheConstants.{WORKER_LIMIT};
ghost use Rattle.flow_machine.specs.Quiet.{AllUnset, EndedAreTold, IsQuietNet};
ghost use Rattle.flow_machine.specs.Solo.{ReachesNet};
ghost use Rattle.flow_runner.specs.Crews.{HasWorkers, MergeToAll, made_each, turns_each, turns_of_crew};
ghost use Rattle.std.specs.Prelude.{◌≡◌, ◌≤◌, IfOk, [], length};

use crate::groups::first_lines;
use crate::together::make_turns;
use crate::turns::Turns;
use crate::worked::{Crew, Worked};
use flow_component::{Component, Gate};
use flow_floor::{Floor, OpenStop, Opened, Worker};
use flow_limits::WORKER_LIMIT;
use flow_machine::{Closed, Net};
use std::alloc::Global;
use std::sync::Wait;
use std::thread::Threads;

/// Why a network isn't run. It is given up then.
#[derive(Clone, Copy, Debug, PartialEq, Eq)]
pub enum RunStop {
    NoMemory,
}

impl Crew {
    /// Nobody. Takes no memory.
    pub fn nobody() -> Crew
        ensures { HasWorkers 0 result }
    {
        Crew {
            count: 0,
            turns: Turns::none(),
        }
    }

    /// These workers.
    pub(crate) fn of<K: Component>(workers: &Vec<Worker<K>>) -> Crew
        ensures turns { turns_each result ≡ made_each workers.now.items }
        ensures count { HasWorkers (length workers.now.items) result }
    {
        Crew {
            count: workers.len(),
            turns: Turns::of(workers),
        }
    }
}

/// The turns that each of some workers made are together, in the order of their stamps, those that a floor says they all made: so a crew, which has no
/// workers, has their turns.
pub fn what_each_made_is_what_all_made<K: Component>()
    ensures { MergeToAll K }
{}

impl<K: Component> Worked<K> {
    /// The network, with the processes that found no memory.
    pub fn into_closed(self) -> Closed<K>
        ensures { result ≡ self.closed }
    {
        let Worked { closed, crew: _ } = self;
        closed
    }
}

/// Runs a network by so many workers, each in a thread of its own, until no process will ever have a turn again, and tells who they were: all turns of
/// the run are theirs, each that of one of them. Takes memory for the floor and for what the components do, and none for a turn.
pub fn run<K: Component + Send, G: Gate + Sync, R: Threads + Wait + Sync>(
    rt: &R,
    alloc: Global,
    net: Net<K>,
    workers: u32,
    gate: &G,
) -> Result<Worked<K>, RunStop>
    requires least { 1 ≤ workers }
    requires most { workers ≤ WORKER_LIMIT }
    ensures crew { IfOk result (λ worked. HasWorkers workers worked.crew) }
    ensures made { IfOk result (λ worked. IsShut K.rules net (turns_of_crew worked.crew) worked.closed.net) }
    ensures reaches { IfOk result (λ worked. ReachesNet K.rules net worked.closed.net) }
    ensures starved { IfOk result (λ worked. AllUnset worked.closed.net worked.closed.starved.items) }
    ensures ended_are_told { IfOk result (λ worked. EndedAreTold worked.closed.net) }
    ensures quiet { IfOk result (λ worked. worked.closed.starved.items ≡ [] → IsQuietNet worked.closed.net) }
{
    let Ok(begins) = first_lines(alloc, &net, workers) else {
        net.discard();
        return Err(RunStop::NoMemory);
    };
    let opened = match Floor::open(alloc, net, workers) {
        Ok(opened) => opened,
        Err(OpenStop { net }) => {
            net.discard();
            return Err(RunStop::NoMemory);
        }
    };
    let Opened {
        floor,
        workers: crew,
        rooms,
    } = opened;
    match make_turns(
        rt,
        alloc,
        &floor,
        crew,
        workers,
        begins.as_slice(),
        gate,
        None,
    ) {
        Ok(crew) => {
            let by = Crew::of(&crew);
            let closed = floor.close(crew, rooms);
            Ok(Worked { closed, crew: by })
        }
        Err(crew) => {
            floor.discard(crew, rooms);
            Err(RunStop::NoMemory)
        }
    }
}
