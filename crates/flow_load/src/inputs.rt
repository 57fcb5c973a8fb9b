//! The files that a plan's readers read.
ghost use Rattle.std.specs.Prelude.{◌<◌, [], IfOk, length};
ghost use Rattle.flow_catalogue.specs.Processes.{IsStandard};
ghost use Rattle.flow_offer.specs.Processes.{IsOfferedPlan};
ghost use Rattle.flow_load.specs.Components.{GivesAll, GivesOne, ReadsInput, ReadsInputs, contents_of};

use crate::step::read_file;
use crate::stop::{Stop, read_stop};
use flow_catalogue::{FileUse, file_of};
use flow_limits::FILE_LIMIT;
use flow_offer::{each_process_is_standard_or_own, own_kind};
use flow_plan::{KindSpec, Plan};
use flow_text::Shelf;
use std::alloc::{AllocError, Global};

/// Reads the files of the plan's readers in the order of the processes, and gives each process what its file holds; one that reads none is given nothing.
pub fn read_inputs<F: Shelf>(
    alloc: Global,
    shelf: &mut F,
    plan: &Plan,
    own: &[KindSpec],
) -> Result<Vec<Vec<u8>>, Stop>
    requires { IsOfferedPlan own.now plan.now }
    ensures { ReadsInputs (F.outside shelf.old) (F.outside shelf.new) plan.now result }
{
    let mut given = Vec::new(alloc);
    for process in 0..plan.processes().len() {
        let bytes = match read_input(alloc, shelf, plan, process as u32, own) {
            Ok(bytes) => bytes,
            Err(stop) => return Err(stop),
        };
        // The error of a push holds what wasn't pushed, and so is no `Stop`.
        if given.push(bytes).is_err() {
            return Err(Stop::NoMemory);
        }
    }
    Ok(given)
}

// What the file of one process holds.
fn read_input<F: Shelf>(
    alloc: Global,
    shelf: &mut F,
    plan: &Plan,
    process: u32,
    own: &[KindSpec],
) -> Result<Vec<u8>, Stop>
    requires offered { IsOfferedPlan own.now plan.now }
    requires there { process < length plan.now.processes }
    ensures { ReadsInput (F.outside shelf.old) (F.outside shelf.new) plan.now process result }
{
    if own_kind(plan, process, own).is_some() {
        return Ok(Vec::new(alloc));
    }
    match file_of(plan, process) {
        Some(FileUse::Read(name)) => match read_file(alloc, shelf, name, FILE_LIMIT) {
            Ok(bytes) => Ok(bytes),
            Err(stop) => Err(read_stop(alloc, stop, name)),
        },
        _ => Ok(Vec::new(alloc)),
    }
}

/// Gives each reader of a plan of standard processes the same bytes, and every other process nothing.
pub(crate) fn give_inputs(
    alloc: Global,
    plan: &Plan,
    input: &[u8],
) -> Result<Vec<Vec<u8>>, AllocError>
    requires { IsOfferedPlan [] plan.now }
    ensures { IfOk result (λ given. GivesAll plan.now input.now (contents_of given.items)) }
{
    each_process_is_standard_or_own();
    let mut given = Vec::new(alloc);
    for process in 0..plan.processes().len() {
        given.push(give_input(alloc, plan, process as u32, input)?)?;
    }
    Ok(given)
}

// What one process is given then.
fn give_input(alloc: Global, plan: &Plan, process: u32, input: &[u8]) -> Result<Vec<u8>, AllocError>
    requires { IsStandard plan.now process }
    ensures { IfOk result (λ given. GivesOne plan.now process input.now given.items) }
{
    match file_of(plan, process) {
        Some(FileUse::Read(_)) => input.to_vec(alloc),
        _ => Ok(Vec::new(alloc)),
    }
}
