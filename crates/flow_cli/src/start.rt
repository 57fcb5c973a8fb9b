//! The start of a network: its net before the first turn.
ghost use Rattle.std.specs.Prelude.{◌≡◌, ◌≤◌, ℕ, List, IfOk};
ghost use Rattle.flow_machine.specs.Starts.{StartsNet};
ghost use Rattle.flow_offer.specs.Processes.{IsOfferedPlan};
ghost use Rattle.flow_load.specs.Components.{AreLive};
ghost use Rattle.flow_cli.specs.Begins.{BeginsMake};
ghost use Rattle.flow_load.specs.Offers.{known};

use crate::begin::{Goal, Running};
use crate::live::LiveNet;
use flow_catalogue::Std;
use flow_limits::NUMBER_LIMIT;
use flow_load::{Job, Stop, job_of_make};
use flow_model::a_valid_plan_is_ready;
use flow_offer::own_components_fit;
use flow_own::{Mixed, Part};
use flow_plan::KindSpec;
use std::alloc::{AllocError, Global};

/// The net of a network that can run, and what is kept of it meanwhile. The kinds are those of the caller's own among which its plan was made.
pub(crate) fn start<'a, P: Part>(
    alloc: Global,
    job: Job<Mixed<Std, P>>,
    own: &[KindSpec],
    goal: Goal<'a>,
) -> Result<(Running<'a>, LiveNet<P>), AllocError>
    requires offered { IsOfferedPlan own.now job.plan }
    requires live { (given : List (List ℕ)) × AreLive own.now job.plan given job.components.items }
    ensures plan { IfOk result (λ both. both.0.plan ≡ job.plan) }
    ensures goal { IfOk result (λ both. both.0.goal ≡ goal.entry) }
    ensures starts { IfOk result (λ both. StartsNet job.plan (known job.components.items) both.1) }
{
    own_components_fit::<Std>();
    a_valid_plan_is_ready::<Mixed<Std, P>>();
    let Job { plan, components } = job;
    let net = LiveNet::start(alloc, &plan, components)?;
    Ok((Running { plan, goal }, net))
}

/// The same of the network that is made from a number. It is never refused, since its text has a plan.
pub(crate) fn start_made<'a, P: Part>(
    alloc: Global,
    number: u32,
    workers: u32,
) -> Result<(Running<'a>, LiveNet<P>), Stop>
    requires least { 1 ≤ number }
    requires most { number ≤ NUMBER_LIMIT }
    ensures { BeginsMake number workers result }
{
    let made = match job_of_make(alloc, number) {
        Ok(made) => made,
        Err(stop) => return Err(stop),
    };
    let goal = Goal::Make {
        number,
        workers,
        bytes: made.bytes,
    };
    match start(alloc, made.job, &[], goal) {
        Ok(both) => Ok(both),
        Err(AllocError) => Err(Stop::NoMemory),
    }
}
