//! A race: four branches side by side, by workers or on one thread.
ghost use Rattle.std.specs.Prelude.{◌≡◌, ◌≤◌, IfOk, IfSome};
ghost use Rattle.flow_limits.specs.declared.TheConstants.{WORKER_LIMIT};
ghost use Rattle.flow_machine.specs.Logs.{turns_made};
ghost use Rattle.flow_bench.specs.RaceSizes.{IsSize};
ghost use Rattle.flow_bench.specs.RaceRuns.{GoesRound, GoesToItsEnd, MakesTurns, RunsBy};

mod branches;
mod loaded;
mod size;

use crate::lines::input_of;
use branches::{BRANCHES, started};
use flow_component::NoGate;
use flow_limits::WORKER_LIMIT;
use flow_machine::{Closed, Net, solo};
use flow_rig::TrialStop;
use flow_runner::run;
use loaded::Loaded;
pub use size::RaceSize;
use std::alloc::Global;
use std::rt::Clock;
use std::sync::Wait;
use std::thread::Threads;
use std::time::Instant;

/// How many turns a race made, and how many microseconds its run took, without its start.
#[derive(Clone, Copy, Debug, PartialEq, Eq)]
pub struct Raced {
    pub turns: u32,
    pub micros: u128,
}

// Runs a network on one thread. None: memory ran out.
fn alone(alloc: Global, net: Net<Loaded>) -> Option<Closed<Loaded>>
    ensures { IfSome result (λ closed. GoesRound net closed.net) }
{
    match solo(alloc, net) {
        Ok(closed) => Some(closed),
        Err(closed) => {
            closed.discard();
            None
        }
    }
}

// Runs a network by workers. None: memory ran out.
fn together<R: Threads + Wait + Sync>(
    rt: &R,
    alloc: Global,
    net: Net<Loaded>,
    workers: u32,
) -> Option<Closed<Loaded>>
    requires least { 1 ≤ workers }
    requires most { workers ≤ WORKER_LIMIT }
    ensures { IfSome result (λ closed. GoesToItsEnd net closed.net) }
{
    let Ok(worked) = run(rt, alloc, net, workers, &NoGate) else {
        return None;
    };
    let closed = worked.into_closed();
    if closed.starved.is_empty() {
        Some(closed)
    } else {
        closed.discard();
        None
    }
}

// Runs a network on one thread where there are no workers, and by workers else. None: memory ran out.
fn run_by<R: Threads + Wait + Sync>(
    rt: &R,
    alloc: Global,
    net: Net<Loaded>,
    workers: u32,
) -> Option<Closed<Loaded>>
    requires { workers ≤ WORKER_LIMIT }
    ensures { IfSome result (λ closed. RunsBy workers net closed.net) }
{
    if workers == 0 {
        alone(alloc, net)
    } else {
        together(rt, alloc, net, workers)
    }
}

// How many turns a run made.
fn turns_of(closed: Closed<Loaded>) -> u32
    ensures { result ≡ turns_made closed.net }
{
    let turns = closed.net.turns_made();
    closed.discard();
    turns
}

// The microseconds since then, or 0 where the clock can't be read.
fn micros_since<R: Clock>(rt: &R, begun: Option<Instant>) -> u128 {
    match begun {
        Some(begun) => match begun.elapsed(rt) {
            Ok(took) => took.as_micros(),
            Err(_) => 0,
        },
        None => 0,
    }
}

/// Runs a race of this size.
pub fn run_race<R: Threads + Wait + Clock + Sync>(
    rt: &R,
    alloc: Global,
    size: RaceSize,
) -> Result<Raced, TrialStop>
    requires { IsSize size }
    ensures { IfOk result (λ raced. MakesTurns BRANCHES.now size raced.turns) }
{
    let input = input_of(alloc, size.packets)?;
    let net = started(alloc, BRANCHES, &input, size.rounds)?;
    let begun = Instant::now(rt).ok();
    let Some(closed) = run_by(rt, alloc, net, size.workers) else {
        return Err(TrialStop::NoMemory);
    };
    let micros = micros_since(rt, begun);
    Ok(Raced {
        turns: turns_of(closed),
        micros,
    })
}
