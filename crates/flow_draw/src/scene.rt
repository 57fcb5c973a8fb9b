//! What a drawing shows is read: the plan of a network file, and what a journal says besides.
ghost use Rattle.std.specs.Prelude.{◌≡◌, ◌≢◌, [], true, false, Some, None};
ghost use Rattle.std.specs.Option.{option_map};
ghost use Rattle.flow_offer.specs.Kinds.{AreOwnKinds};
ghost use Rattle.flow_offer.specs.Processes.{IsOfferedPlan, own_processes};
ghost use Rattle.flow_draw.specs.Draws.{Reads};
ghost use Rattle.flow_draw.specs.Loads.{Loads};

use crate::again::remarks_after;
use flow_drawing::Remarks;
use flow_limits::FILE_LIMIT;
use flow_load::{
    Stop, TapesRefusal, network, played_components, read_file, read_inputs, read_journal, read_stop,
};
use flow_offer::own_kind;
use flow_plan::{KindSpec, Plan};
use flow_text::Shelf;
use std::alloc::{AllocError, Global};

/// What a drawing shows: a plan, and what is said besides.
#[derive(Drop)]
pub struct Scene {
    pub plan: Plan,
    pub remarks: Remarks,
}

/// Reads what a drawing of this network file shows, of the state to which a journal leads where its file is named: beside the standard kinds it may have
/// these. Of a network that has some of them no state is drawn. No call is made on the shelf after its first
/// fault.
pub fn scene_of<F: Shelf>(
    alloc: Global,
    shelf: &mut F,
    own: &[KindSpec],
    name: &str,
    journal: Option<&str>,
) -> Result<Scene, Stop>
    requires { AreOwnKinds own.now }
    ensures { Reads own.now (F.outside shelf.old) (F.outside shelf.new) name.now (option_map (λ s. s.now) journal.entry) result }
{
    match journal {
        None => scene_of_net(alloc, shelf, own, name),
        Some(kept) => scene_of_state(alloc, shelf, own, name, kept),
    }
}

// The network of this file, of which nothing is said besides.
fn scene_of_net<F: Shelf>(
    alloc: Global,
    shelf: &mut F,
    own: &[KindSpec],
    name: &str,
) -> Result<Scene, Stop>
    requires { AreOwnKinds own.now }
    ensures { Reads own.now (F.outside shelf.old) (F.outside shelf.new) name.now None result }
{
    match load(alloc, shelf, own, name) {
        Ok(plan) => Ok(Scene {
            plan,
            remarks: Remarks::none(alloc),
        }),
        Err(stop) => Err(stop),
    }
}

// The network of this file, in the state to which the journal of that one leads.
fn scene_of_state<F: Shelf>(
    alloc: Global,
    shelf: &mut F,
    own: &[KindSpec],
    name: &str,
    kept: &str,
) -> Result<Scene, Stop>
    requires { AreOwnKinds own.now }
    ensures { Reads own.now (F.outside shelf.old) (F.outside shelf.new) name.now (Some kept.now) result }
{
    // No `?` here: with it each way out would want an answer of its own in the proof files.
    let plan = match load(alloc, shelf, own, name) {
        Ok(plan) => plan,
        Err(stop) => return Err(stop),
    };
    if has_own(&plan, own) {
        return Err(Stop::TapesRefused(TapesRefusal::Count(0)));
    }
    let journal = match read_journal(alloc, shelf, kept) {
        Ok(journal) => journal,
        Err(stop) => return Err(stop),
    };
    let given = match read_inputs(alloc, shelf, &plan, own) {
        Ok(given) => given,
        Err(stop) => return Err(stop),
    };
    let components = match played_components(alloc, &plan, own, given, &[]) {
        Ok(components) => components,
        Err(AllocError) => return Err(Stop::NoMemory),
    };
    match remarks_after(alloc, &plan, components, &journal) {
        Ok(remarks) => Ok(Scene { plan, remarks }),
        Err(stop) => Err(stop),
    }
}

// Whether a process of this plan is of one of these kinds.
fn has_own(plan: &Plan, own: &[KindSpec]) -> bool
    requires { IsOfferedPlan own.now plan.now }
    ensures some { result ≡ true → own_processes own.now plan.now ≢ [] }
    ensures none { result ≡ false → own_processes own.now plan.now ≡ [] }
{
    for process in 0..plan.processes().len() as u32 {
        if own_kind(plan, process, own).is_some() {
            return true;
        }
    }
    false
}

// The plan of the network file of this name, over the standard kinds and these.
fn load<F: Shelf>(alloc: Global, shelf: &mut F, own: &[KindSpec], name: &str) -> Result<Plan, Stop>
    requires { AreOwnKinds own.now }
    ensures { Loads own.now (F.outside shelf.old) (F.outside shelf.new) name.now result }
{
    let net = match read_file(alloc, shelf, name, FILE_LIMIT) {
        Ok(net) => net,
        Err(stop) => return Err(read_stop(alloc, stop, name)),
    };
    match network(alloc, &net, own) {
        Ok(file) => Ok(file.plan),
        Err(stop) => Err(stop),
    }
}
