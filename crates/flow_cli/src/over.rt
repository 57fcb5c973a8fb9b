//! What a call does once the turns of a network are over: its report, its journal and its tapes are made, and the files of those that are to be kept.
ghost use Rattle.std.specs.Prelude.{◌≡◌, [], IfOk, length};
ghost use Rattle.std.specs.Option.{option_map};
ghost use Rattle.flow_journal.specs.Files.{IsWritable};
ghost use Rattle.flow_tape.specs.Files.{IsWritable as IsTapesWritable};
ghost use Rattle.flow_words.specs.Words.{report_by, run_by};
ghost use Rattle.flow_offer.specs.Processes.{IsOfferedPlan};
ghost use Rattle.flow_cli.specs.Begins.{EndsAsRan, MakeEnds, RunEnds, WasRunUnderWay, WasUnderWay};
ghost use Rattle.flow_load.specs.MadeJobs.{made_input};
ghost use Rattle.flow_load.specs.Runs.{journal_file, tapes_file};
ghost use Rattle.flow_cli.specs.Top.{kept_file};

use crate::begin::{Goal, Running};
use crate::live::{LiveNet, LiveWorked};
use crate::made::said_of_make;
use crate::ran::{Ran, told};
use crate::run::{Done, KeptFile, Said, Unwritten};
use flow_journal::Journal;
use flow_load::Stop;
use flow_own::{Part, Tape};
use flow_plan::{KindSpec, Plan};
use flow_tape::to_bytes;
use flow_words::RunCommand;
use std::alloc::{AllocError, Global};

/// What there is to write and to print of a network whose turns were made.
pub(crate) fn over<'a, P: Part>(
    alloc: Global,
    running: Running<'a>,
    worked: LiveWorked<P>,
    own: &[KindSpec],
) -> Result<Done<'a, LiveNet<P>>, Stop>
    requires { WasUnderWay own.now running worked }
    ensures { EndsAsRan own.now running.entry worked result }
{
    let Running { plan, goal } = running;
    match goal {
        Goal::Run(asked) => match run_over(alloc, plan, asked, worked, own) {
            Ok(run) => Ok(Done::Ran(run)),
            Err(AllocError) => Err(Stop::NoMemory),
        },
        Goal::Make {
            number,
            workers: _,
            bytes,
        } => match make_over(alloc, plan, number, bytes, worked) {
            Ok(said) => Ok(Done::Said(said)),
            Err(AllocError) => Err(Stop::NoMemory),
        },
    }
}

// A run whose turns were made, with the files that it keeps.
fn run_over<'a, P: Part>(
    alloc: Global,
    plan: Plan,
    asked: RunCommand<'a>,
    worked: LiveWorked<P>,
    own: &[KindSpec],
) -> Result<Unwritten<'a, LiveNet<P>>, AllocError>
    requires { WasRunUnderWay own.now plan (run_by asked) worked }
    ensures { IfOk result (RunEnds own.now plan (run_by asked.entry) worked) }
{
    let ran = told(alloc, plan, worked, own)?;
    unwritten(alloc, ran, asked)
}

// What is said of a make whose turns were made.
fn make_over<P: Part>(
    alloc: Global,
    plan: Plan,
    number: u32,
    bytes: usize,
    worked: LiveWorked<P>,
) -> Result<Said, AllocError>
    requires offered { IsOfferedPlan [] plan }
    requires input { bytes ≡ length (made_input number) }
    ensures { IfOk result (MakeEnds plan number worked) }
{
    let ran = told(alloc, plan, worked, &[])?;
    said_of_make(alloc, number, bytes, ran)
}

// A run with the files that it keeps. Without memory it is given up.
fn unwritten<'a, P: Part>(
    alloc: Global,
    ran: Ran<LiveNet<P>>,
    asked: RunCommand<'a>,
) -> Result<Unwritten<'a, LiveNet<P>>, AllocError>
    requires journal { IsWritable ran.journal }
    requires tapes { IsTapesWritable ran.tapes.items }
    ensures ran { IfOk result (λ run. run.ran ≡ ran) }
    ensures journal { IfOk result (λ run. kept_file run.journal ≡ journal_file (run_by asked.entry).journal ran.journal) }
    ensures tapes { IfOk result (λ run. kept_file run.tapes ≡ tapes_file (run_by asked.entry).tapes ran.tapes.items) }
    ensures telling { IfOk result (λ run. report_by run.telling ≡ (run_by asked.entry).report) }
{
    match kept_files(alloc, &ran, asked) {
        Ok((journal, tapes)) => Ok(Unwritten {
            ran,
            journal,
            tapes,
            telling: asked.report,
        }),
        Err(AllocError) => {
            ran.discard();
            Err(AllocError)
        }
    }
}

// The files that a run keeps, where they are named.
fn kept_files<'a, N>(
    alloc: Global,
    ran: &Ran<N>,
    asked: RunCommand<'a>,
) -> Result<(Option<KeptFile<'a>>, Option<KeptFile<'a>>), AllocError>
    requires journal { IsWritable ran.now.journal }
    requires tapes { IsTapesWritable ran.now.tapes.items }
    ensures journal { IfOk result (λ kept. kept_file kept.0 ≡ journal_file (run_by asked.entry).journal ran.now.journal) }
    ensures tapes { IfOk result (λ kept. kept_file kept.1 ≡ tapes_file (run_by asked.entry).tapes ran.now.tapes.items) }
{
    Ok((
        keep(alloc, &ran.journal, asked.journal)?,
        keep_tapes(alloc, &ran.tapes, asked.tapes)?,
    ))
}

// The file of tapes, where one is named.
fn keep_tapes<'a>(
    alloc: Global,
    tapes: &[Tape],
    name: Option<&'a str>,
) -> Result<Option<KeptFile<'a>>, AllocError>
    requires { IsTapesWritable tapes.now }
    ensures { IfOk result (λ kept. kept_file kept ≡ tapes_file (option_map (λ s. s.now) name.entry) tapes.now) }
{
    match name {
        None => Ok(None),
        Some(name) => {
            let bytes = to_bytes(alloc, tapes)?;
            Ok(Some(KeptFile { name, bytes }))
        }
    }
}

// The file of a journal, where one is named.
fn keep<'a>(
    alloc: Global,
    journal: &Journal,
    name: Option<&'a str>,
) -> Result<Option<KeptFile<'a>>, AllocError>
    requires { IsWritable journal.now }
    ensures { IfOk result (λ kept. kept_file kept ≡ journal_file (option_map (λ s. s.now) name.entry) journal.now) }
{
    match name {
        None => Ok(None),
        Some(name) => {
            let bytes = journal.to_bytes(alloc)?;
            Ok(Some(KeptFile { name, bytes }))
        }
    }
}
