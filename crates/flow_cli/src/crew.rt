//! Who makes the turns of a network: one thread, or workers in threads.
ghost use Rattle.std.specs.Prelude.{◌≤◌, IfOk};
ghost use Rattle.flow_cli.specs.Engines.{RanBy, WentBy};

use crate::live::{LiveNet, LiveWorked};
use crate::watch::Watch;
use flow_component::Component;
use flow_limits::WORKER_LIMIT;
use flow_machine::{Net, solo_past};
use flow_own::{Part, Sorted};
use flow_runner::{Crew, RunStop, Worked, run};
use std::alloc::{AllocError, Global};
use std::sync::Wait;
use std::thread::Threads;

/// Runs a network on one thread, round and round, until no process can go on, past this watch. Without memory it is given up.
pub fn run_alone<W: Watch, P: Part>(
    alloc: Global,
    net: LiveNet<P>,
    watch: &W,
) -> Result<LiveWorked<P>, AllocError>
    ensures { IfOk result (RanBy 0 net) }
{
    let LiveNet { net } = net;
    match net {
        Sorted::Unmixed(net) => match go_alone(alloc, net, watch) {
            Ok(worked) => Ok(LiveWorked::unmixed(worked)),
            Err(AllocError) => Err(AllocError),
        },
        Sorted::Mixed(net) => match go_alone(alloc, net, watch) {
            Ok(worked) => Ok(LiveWorked::mixed(worked)),
            Err(AllocError) => Err(AllocError),
        },
    }
}

// The same of a network of either sort.
fn go_alone<W: Watch, K: Component>(
    alloc: Global,
    net: Net<K>,
    watch: &W,
) -> Result<Worked<K>, AllocError>
    ensures { IfOk result (WentBy K.rules 0 net) }
{
    let closed = solo_past(alloc, net, watch);
    watch.end_turns();
    match closed {
        Ok(closed) => Ok(Worked {
            closed,
            crew: Crew::nobody(),
        }),
        Err(closed) => {
            closed.discard();
            Err(AllocError)
        }
    }
}

/// Runs a network by so many workers, each in a thread of its own, until no process can go on, and tells who they were. Without memory it is given up,
/// and so it is where the work of a process found none. They pass this watch.
pub fn run_by_workers<R: Threads + Wait + Sync, W: Watch + Sync, P: Part + Send>(
    rt: &R,
    alloc: Global,
    net: LiveNet<P>,
    workers: u32,
    watch: &W,
) -> Result<LiveWorked<P>, AllocError>
    requires least { 1 ≤ workers }
    requires most { workers ≤ WORKER_LIMIT }
    ensures { IfOk result (RanBy workers net) }
{
    let LiveNet { net } = net;
    match net {
        Sorted::Unmixed(net) => match go_by_workers(rt, alloc, net, workers, watch) {
            Ok(worked) => Ok(LiveWorked::unmixed(worked)),
            Err(AllocError) => Err(AllocError),
        },
        Sorted::Mixed(net) => match go_by_workers(rt, alloc, net, workers, watch) {
            Ok(worked) => Ok(LiveWorked::mixed(worked)),
            Err(AllocError) => Err(AllocError),
        },
    }
}

// The same of a network of either sort.
fn go_by_workers<R: Threads + Wait + Sync, W: Watch + Sync, K: Component + Send>(
    rt: &R,
    alloc: Global,
    net: Net<K>,
    workers: u32,
    watch: &W,
) -> Result<Worked<K>, AllocError>
    requires least { 1 ≤ workers }
    requires most { workers ≤ WORKER_LIMIT }
    ensures { IfOk result (WentBy K.rules workers net) }
{
    let worked = run(rt, alloc, net, workers, watch);
    watch.end_turns();
    match worked {
        Ok(worked) => {
            if worked.closed.starved.is_empty() {
                return Ok(worked);
            }
            worked.into_closed().discard();
            Err(AllocError)
        }
        Err(RunStop::NoMemory) => Err(AllocError),
    }
}
