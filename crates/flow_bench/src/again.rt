//! A run by workers, the same turns on one thread, and the run of one thread.
ghost use Rattle.flow_limits.specs.declared.TheConstants.{WORKER_LIMIT};
ghost use Rattle.std.specs.Prelude.{◌≤◌, ◌<◌, length};

mod words;

use flow_catalogue::Std;
use flow_component::NoGate;
use flow_determinate::determinate;
use flow_journal::{Journal, ReplayStop, replay};
use flow_limits::RUN_LIMIT;
use flow_machine::{Closed, Net, solo};
use flow_plan::Plan;
use flow_report::Report;
use flow_rig::{TrialStop, plan_of_text, started};
use flow_runner::{RunStop, run};
use std::alloc::{AllocError, Global};
use std::sync::Wait;
use std::thread::Threads;
pub use words::{Comparison, asked_by};

/// Why nothing was compared.
#[derive(Clone, Copy, Debug, PartialEq, Eq)]
pub enum AgainStop {
    /// The network file is refused.
    Refused,
    NoMemory,
}

impl From<TrialStop> for AgainStop {
    fn from(stop: TrialStop) -> Self {
        match stop {
            TrialStop::Refused => AgainStop::Refused,
            TrialStop::NoMemory => AgainStop::NoMemory,
        }
    }
}

impl From<AllocError> for AgainStop {
    fn from(_: AllocError) -> Self {
        AgainStop::NoMemory
    }
}

/// What a process wrote; nothing where it is no writer, or isn't there.
fn written(net: &Net<Std>, process: u32) -> &[u8] {
    if process < net.processes() {
        net.body(process).component().written().unwrap_or(b"")
    } else {
        b""
    }
}

/// Whether the two have the same report, and each process wrote the same in both.
fn leave_the_same(
    alloc: Global,
    plan: &Plan,
    one: &Closed<Std>,
    other: &Closed<Std>,
) -> Result<bool, AllocError> {
    for process in 0..one.net.processes() {
        if written(&one.net, process) != written(&other.net, process) {
            return Ok(false);
        }
    }
    let report = Report::of(alloc, plan, one)?.print()?;
    Ok(report.as_slice() == Report::of(alloc, plan, other)?.print()?.as_slice())
}

/// The turns of this run once more, from the same start; nothing where they can't be made.
fn made_again(
    alloc: Global,
    text: &[u8],
    bytes: &[u8],
    ran: &Closed<Std>,
) -> Result<Option<Closed<Std>>, AgainStop> {
    let journal = Journal::merge(alloc, &ran.net)?;
    if journal.turns.len() > RUN_LIMIT {
        return Ok(None);
    }
    let net = started(alloc, text, bytes)?;
    match replay(alloc, net, &journal) {
        Ok(closed) => Ok(Some(closed)),
        Err(ReplayStop::NoTurn { .. }) => Ok(None),
        Err(ReplayStop::NoMemory) => Err(AgainStop::NoMemory),
    }
}

/// Whether a run is what comes of its own journal.
fn is_its_journals(
    alloc: Global,
    text: &[u8],
    bytes: &[u8],
    ran: &Closed<Std>,
) -> Result<bool, AgainStop> {
    let plan = plan_of_text(alloc, text)?;
    match made_again(alloc, text, bytes, ran)? {
        Some(again) => {
            let same = leave_the_same(alloc, &plan, ran, &again);
            again.discard();
            Ok(same?)
        }
        None => Ok(false),
    }
}

/// Whether a run of a determinate plan left what one thread leaves; nothing is asked of any other run.
fn is_as_alone(
    alloc: Global,
    text: &[u8],
    bytes: &[u8],
    ran: &Closed<Std>,
) -> Result<bool, AgainStop> {
    let plan = plan_of_text(alloc, text)?;
    if !determinate(&plan) {
        return Ok(true);
    }
    match solo(alloc, started(alloc, text, bytes)?) {
        Ok(alone) => {
            let same = leave_the_same(alloc, &plan, ran, &alone);
            alone.discard();
            Ok(same?)
        }
        Err(stopped) => {
            stopped.discard();
            Err(AgainStop::NoMemory)
        }
    }
}

/// Whether a run is what it is to be: what comes of its own journal, and what one thread leaves where its plan is determinate.
fn is_right(
    alloc: Global,
    text: &[u8],
    bytes: &[u8],
    ran: &Closed<Std>,
) -> Result<bool, AgainStop> {
    Ok(is_its_journals(alloc, text, bytes, ran)? && is_as_alone(alloc, text, bytes, ran)?)
}

/// Runs the network of this text by so many workers, each reader on these bytes, makes its turns again on one thread by its journal, and answers whether
/// the two left the same; and where its plan is determinate, whether the run of one thread left the same too.
pub fn is_same<R: Threads + Wait + Sync>(
    rt: &R,
    alloc: Global,
    text: &[u8],
    bytes: &[u8],
    workers: u32,
) -> Result<bool, AgainStop>
    requires least { 1 ≤ workers }
    requires most { workers ≤ WORKER_LIMIT }
{
    let net = started(alloc, text, bytes)?;
    match run(rt, alloc, net, workers, &NoGate) {
        Ok(worked) => {
            let ran = worked.into_closed();
            let same = is_right(alloc, text, bytes, &ran);
            ran.discard();
            same
        }
        Err(RunStop::NoMemory) => Err(AgainStop::NoMemory),
    }
}
