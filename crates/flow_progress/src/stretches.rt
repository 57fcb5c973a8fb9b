//! A run in stretches, between which its caller has the network.
ghost use Rattle.flow_catalogue.specs.Std.{std_rules};
ghost use Rattle.flow_machine.specs.Quiet.{AllUnset, IsQuietNet};
ghost use Rattle.flow_machine.specs.Solo.{ReachesNet};
ghost use Rattle.std.specs.Prelude.{◌≡◌, IfOk, []};

use flow_catalogue::Std;
use flow_component::NoGate;
use flow_machine::{Closed, Net, Status};
use flow_rig::TrialStop;
use flow_runner::{RunStop, Worked, run_for, two_stretches_are_one};
use std::alloc::{AllocError, Global};
use std::sync::Wait;
use std::thread::Threads;

const WORKERS: u32 = 2;

/// How many turns each worker makes before the run is paused.
const STRETCH: u64 = 10_000;

/// Why there is no report.
#[derive(Clone, Copy, Debug, PartialEq, Eq)]
pub(crate) enum ProgressStop {
    /// The network is refused.
    Refused,
    NoMemory,
}

impl From<AllocError> for ProgressStop {
    fn from(_: AllocError) -> Self {
        ProgressStop::NoMemory
    }
}

impl From<RunStop> for ProgressStop {
    fn from(_: RunStop) -> Self {
        ProgressStop::NoMemory
    }
}

impl From<TrialStop> for ProgressStop {
    fn from(stop: TrialStop) -> Self {
        match stop {
            TrialStop::Refused => ProgressStop::Refused,
            TrialStop::NoMemory => ProgressStop::NoMemory,
        }
    }
}

/// How many processes have ended.
fn ended(net: &Net<Std>) -> u32 {
    let mut count: u32 = 0;
    for process in 0..net.processes() {
        if net.body(process).status() == Status::Ended {
            count = count.saturating_add(1);
        }
    }
    count
}

/// Tells how far the network has come. That it can't be told is of no matter.
fn tell<R: Eprint>(rt: &R, net: &Net<Std>) {
    let _ = eprintln!(rt;
        "turns {}, processes that have ended {} of {}",
        net.turns_made(),
        ended(net),
        net.processes()
    );
}

/// Runs the network until it can't go on, in stretches, and tells after each of them how far it has come. All stretches are one run.
pub(crate) fn to_the_end<R: Threads + Wait + Sync + Eprint>(
    rt: &R,
    alloc: Global,
    net: Net<Std>,
) -> Result<Closed<Std>, ProgressStop>
    ensures reaches { IfOk result (λ closed. ReachesNet std_rules net closed.net) }
    ensures starved { IfOk result (λ closed. AllUnset closed.net closed.starved.items) }
    ensures quiet { IfOk result (λ closed. closed.starved.items ≡ [] → IsQuietNet closed.net) }
{
    two_stretches_are_one::<Std>();
    let mut net = net;
    for _ in rt.forever() {
        let before = net.turns_made() as u64;
        let Worked { closed, crew: _ } = run_for(rt, alloc, net, WORKERS, &NoGate, STRETCH)?;
        tell(rt, &closed.net);
        if (closed.net.turns_made() as u64) < before + WORKERS as u64 * STRETCH {
            return Ok(closed);
        }
        let Closed {
            net: paused,
            starved: _,
        } = closed;
        net = paused;
    }
    unreachable!()
}
