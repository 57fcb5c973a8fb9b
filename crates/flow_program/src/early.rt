//! The files that a run is to write, tried before it begins: where one can't be written, the call ends at once, and not
//! only when the network has run.
ghost use Rattle.flow_offer.specs.Processes.{IsOfferedPlan};

use crate::own::Known;
use flow_cli::written_name;
use flow_files::FileShelf;
use flow_load::{Stop, network, write_stop};
use flow_offer::no_part;
use flow_plan::{KindSpec, Plan};
use flow_words::{Command, RunCommand, command};
use std::alloc::{AllocError, Global};
use std::fs::{File, Files};

/// Tries each file of the run that these words ask for, in the order in which they are written, and gives the stop of the
/// first that can't be: it is the one that the run would come to. The network file comes to this text when it is filled. Of
/// a network that is refused nothing is tried, since the call says so itself; and a call that is no run writes nothing.
pub fn try_outputs<R: Files<File = File> + Eprint + Drop>(
    alloc: Global,
    shelf: &mut FileShelf<&R>,
    words: &[String],
    text: &[u8],
    known: &Known,
) -> Result<(), Stop> {
    let asked = match command(alloc, words) {
        Ok(Some(Command::Run(asked))) => asked,
        Ok(_) => return Ok(()),
        Err(AllocError) => return Err(Stop::NoMemory),
    };
    let plan = match network(alloc, text, &known.kinds) {
        Ok(file) => file.plan,
        Err(_) => return Ok(()),
    };
    if wants_part(&plan, known) {
        return Ok(());
    }
    try_writers(alloc, shelf, &plan, &known.kinds)?;
    try_kept(alloc, shelf, &asked)
}

// Whether a process finds no part of its kind, where the parts are counted: then the run is refused.
fn wants_part(plan: &Plan, known: &Known) -> bool {
    known.parts.len() == known.kinds.len() && no_part(plan, &known.kinds, &known.parts).is_some()
}

// Tries the files of the writers, in the order of the processes.
fn try_writers<R: Files<File = File> + Eprint + Drop>(
    alloc: Global,
    shelf: &mut FileShelf<&R>,
    plan: &Plan,
    own: &[KindSpec],
) -> Result<(), Stop>
    requires { IsOfferedPlan own.now plan.now }
{
    for process in 0..plan.processes().len() {
        if let Some(name) = written_name(plan, process as u32, own) {
            try_file(alloc, shelf, name)?;
        }
    }
    Ok(())
}

// Tries the files that the options of a run name.
fn try_kept<R: Files<File = File> + Eprint + Drop>(
    alloc: Global,
    shelf: &mut FileShelf<&R>,
    asked: &RunCommand<'_>,
) -> Result<(), Stop> {
    for name in [asked.journal, asked.tapes, asked.report.file] {
        if let Some(name) = name {
            try_file(alloc, shelf, name)?;
        }
    }
    Ok(())
}

fn try_file<R: Files<File = File> + Eprint + Drop>(
    alloc: Global,
    shelf: &mut FileShelf<&R>,
    name: &str,
) -> Result<(), Stop> {
    match shelf.try_output(name) {
        Ok(()) => Ok(()),
        Err(why) => Err(write_stop(alloc, why, name)),
    }
}
