//! Workers who make so many turns each.
ghost use Rattle.flow_floor.specs.Shut.{IsShut};
ghost use Rattle.flow_limits.specs.declared.TheConstants.{WORKER_LIMIT};
ghost use Rattle.flow_machine.specs.Logs.{turns_made};
ghost use Rattle.flow_machine.specs.Quiet.{AllUnset, EndedAreTold, IsQuietNet};
ghost use Rattle.flow_machine.specs.Solo.{ReachesNet};
ghost use Rattle.flow_runner.specs.Crews.{HasWorkers, turns_each, turns_of_crew};
ghost use Rattle.std.specs.Prelude.{◌≡◌, ◌+◌, ◌*◌, ◌≤◌, ◌⊎◌, All, IfOk, [], length};

use crate::crew::RunStop;
use crate::groups::first_lines;
use crate::together::make_turns;
use crate::worked::{Crew, Worked};
use flow_component::{Component, Gate};
use flow_floor::{Floor, OpenStop, Opened};
use flow_limits::WORKER_LIMIT;
use flow_machine::Net;
use std::alloc::Global;
use std::sync::Wait;
use std::thread::Threads;

/// Runs a network by so many workers, each of which makes so many turns at most, and tells who they were: all turns of the call are theirs. Where they weren't
/// all made, and no process is listed as starved, no process will ever have a turn again; where some are listed, the contract says nothing of the others. The net
/// may be run on. Where all turns were made, a process whose last turn ended it may not have been told its end yet: the next run tells it.
pub fn run_for<K: Component + Send, G: Gate + Sync, R: Threads + Wait + Sync>(
    rt: &R,
    alloc: Global,
    net: Net<K>,
    workers: u32,
    gate: &G,
    budget: u64,
) -> Result<Worked<K>, RunStop>
    requires least { 1 ≤ workers }
    requires most { workers ≤ WORKER_LIMIT }
    requires budget { 1 ≤ budget }
    ensures crew { IfOk result (λ worked. HasWorkers workers worked.crew) }
    ensures each { IfOk result (λ worked. All (λ turns. length turns ≤ budget) (turns_each worked.crew)) }
    ensures made { IfOk result (λ worked. IsShut K.rules net (turns_of_crew worked.crew) worked.closed.net) }
    ensures reaches { IfOk result (λ worked. ReachesNet K.rules net worked.closed.net) }
    ensures starved { IfOk result (λ worked. AllUnset worked.closed.net worked.closed.starved.items) }
    ensures most { IfOk result (λ worked. turns_made worked.closed.net ≤ turns_made net + workers * budget) }
    ensures spent { IfOk result (λ worked. (turns_made worked.closed.net ≡ turns_made net + workers * budget) ⊎ (worked.closed.starved.items ≡ [] → IsQuietNet worked.closed.net)) }
    ensures ended_are_told { IfOk result (λ worked. (turns_made worked.closed.net ≡ turns_made net + workers * budget) ⊎ EndedAreTold worked.closed.net) }
{
    let Ok(begins) = first_lines(alloc, &net, workers) else {
        net.discard();
        return Err(RunStop::NoMemory);
    };
    let opened = match Floor::open(alloc, net, workers) {
        Ok(opened) => opened,
        Err(OpenStop { net }) => {
            net.discard();
            return Err(RunStop::NoMemory);
        }
    };
    let Opened {
        floor,
        workers: crew,
        rooms,
    } = opened;
    match make_turns(
        rt,
        alloc,
        &floor,
        crew,
        workers,
        begins.as_slice(),
        gate,
        Some(budget),
    ) {
        Ok(crew) => {
            let by = Crew::of(&crew);
            let closed = floor.pause(crew, rooms);
            Ok(Worked { closed, crew: by })
        }
        Err(crew) => {
            floor.discard(crew, rooms);
            Err(RunStop::NoMemory)
        }
    }
}
