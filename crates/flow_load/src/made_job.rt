//! The network that is made from a number, ready to run.
ghost use Rattle.std.specs.Prelude.{◌≤◌, IfOk};
ghost use Rattle.flow_load.specs.MadeJobs.{AreNoParts, IsMadeJob};

use crate::before::Job;
use crate::components::live_components;
use crate::inputs::give_inputs;
use crate::made_plan::the_made_network_has_a_plan;
use crate::net_file::network;
use crate::stop::Stop;
use flow_catalogue::Std;
use flow_component::Component;
use flow_limits::NUMBER_LIMIT;
use flow_make::make;
use flow_own::{Mixed, Part};
use std::alloc::{AllocError, Global};

/// A made network that can run, and how many bytes its input has.
#[derive(Drop)]
pub struct MadeJob<K: Component> {
    pub job: Job<K>,
    pub bytes: usize,
}

/// The made network with its components. It is never refused, since its text has a plan.
pub fn job_of_make<P: Part>(alloc: Global, number: u32) -> Result<MadeJob<Mixed<Std, P>>, Stop>
    requires least { 1 ≤ number }
    requires most { number ≤ NUMBER_LIMIT }
    ensures { IsMadeJob number result }
{
    the_made_network_has_a_plan();
    let made = make(alloc, number)?;
    let input = made.input.as_slice();
    let plan = match network(alloc, made.network.as_slice(), &[]) {
        Ok(file) => file.plan,
        Err(stop) => return Err(stop),
    };
    let given = give_inputs(alloc, &plan, input)?;
    let parts = no_parts(alloc, plan.processes().len())?;
    let components = live_components(alloc, &plan, &[], given, parts)?;
    Ok(MadeJob {
        job: Job { plan, components },
        bytes: input.len(),
    })
}

// No part for each of so many processes.
fn no_parts<P: Part>(alloc: Global, count: usize) -> Result<Vec<Option<P>>, AllocError>
    ensures { IfOk result (λ parts. AreNoParts count parts.items) }
{
    let mut parts = Vec::new(alloc);
    for _place in 0..count {
        parts.push(None)?;
    }
    Ok(parts)
}
