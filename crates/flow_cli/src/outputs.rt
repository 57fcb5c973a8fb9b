//! What the writers of a network wrote.
ghost use Rattle.std.specs.Prelude.{◌≡◌, ◌<◌, ◌∷◌, [], IfOk, IfSome, IfNone, length, map, option_and_then, slice_get};
ghost use Rattle.std.specs.Option.{option_copied};
ghost use Rattle.flow_offer.specs.Processes.{IsOfferedPlan};
ghost use Rattle.flow_load.specs.Components.{written_by};
ghost use Rattle.flow_load.specs.Many.{output_of};
ghost use Rattle.flow_cli.specs.Leaves.{bytes_at, net_outputs};
ghost use Rattle.flow_load.specs.Runs.{written_in};

use crate::live::LiveNet;
use crate::ran::Ran;
use flow_catalogue::{FileUse, Std, file_of};
use flow_load::Output;
use flow_offer::own_kind;
use flow_own::{Mix, Mixed, Part, Sorted};
use flow_plan::{KindSpec, Plan};
use std::alloc::{AllocError, Global};

/// The file that a process writes, if it does.
pub fn written_name<'a>(plan: &'a Plan, process: u32, own: &[KindSpec]) -> Option<&'a str>
    requires offered { IsOfferedPlan own.now plan.now }
    requires there { process < length plan.now.processes }
    ensures none { IfNone result (IfSome (slice_get plan.now.processes process) (λ p. written_by p ≡ [])) }
    ensures some { IfSome result (λ name. IfSome (slice_get plan.now.processes process) (λ p. written_by p ≡ name.now ∷ [])) }
{
    match own_kind(plan, process, own) {
        Some(_) => None,
        None => match file_of(plan, process) {
            Some(FileUse::Write(name)) => Some(name),
            Some(FileUse::Read(_)) => None,
            None => None,
        },
    }
}

// What a component wrote, if it is a writer.
fn written_in<P: Part>(component: &Mixed<Std, P>) -> Option<&[u8]>
    ensures { option_copied result ≡ written_in component.now }
{
    match component.mix() {
        Mix::Other(component) => component.written(),
        Mix::Own(_) => None,
    }
}

// What the component of a process wrote, if it is a writer.
fn wrote<P: Part>(net: &LiveNet<P>, process: u32) -> Option<&[u8]>
    requires { process < length net.now.bodies }
    ensures { option_copied result ≡ option_and_then (λ body. written_in body.process.component) (slice_get net.now.bodies process) }
{
    match &net.net {
        Sorted::Unmixed(net) => net.body(process).component().component().written(),
        Sorted::Mixed(net) => written_in(net.body(process).component()),
    }
}

/// What the writer of this number wrote. A process that is no writer wrote nothing.
pub fn written_at<P: Part>(net: &LiveNet<P>, process: u32) -> &[u8]
    ensures { result.now ≡ bytes_at net.now.bodies process }
{
    if process < net.processes() {
        match wrote(net, process) {
            Some(bytes) => bytes,
            None => b"",
        }
    } else {
        b""
    }
}

impl<P: Part> Ran<LiveNet<P>> {
    /// The files that are to be written with their bytes, in the order of the processes that wrote them.
    pub fn outputs(&self, alloc: Global, own: &[KindSpec]) -> Result<Vec<Output<'_>>, AllocError>
        requires { IsOfferedPlan own.now self.now.plan }
        ensures { IfOk result (λ outputs. map output_of outputs.items ≡ net_outputs self.now.plan self.now.net) }
    {
        let mut outputs = Vec::new(alloc);
        for process in 0..self.plan.processes().len() {
            match written_name(&self.plan, process as u32, own) {
                None => {}
                Some(name) => {
                    let bytes = written_at(&self.net, process as u32);
                    outputs.push(Output { name, bytes })?;
                }
            }
        }
        Ok(outputs)
    }
}
