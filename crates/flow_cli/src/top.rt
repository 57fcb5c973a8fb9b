//! The top calls.
ghost use Rattle.std.specs.Prelude.{◌≡◌, ◌↔◌, IfOk, IsTrue, List, String, length};
ghost use Rattle.std.specs.declared.alloc.Global.{Global};
ghost use Rattle.flow_text.specs.Edge.{Outside};
ghost use Rattle.flow_offer.specs.Kinds.{AreOwnKinds};
ghost use Rattle.flow_offer.specs.Processes.{IsOfferedPlan};
ghost use Rattle.flow_runner.specs.Crews.{HasWorkers};
ghost use Rattle.flow_load.specs.Offers.{AreOffered, IsNothing, Offer, offers_of, specs_of};
ghost use Rattle.flow_words.specs.Words.{report_by};
ghost use Rattle.flow_cli.specs.After.{outputs_at};
ghost use Rattle.flow_cli.specs.Promises.{KeepsPromises};
ghost use Rattle.flow_load.specs.Reads.{AsksWorkers};
ghost use Rattle.flow_cli.specs.Top.{Concludes, Finishes, IsManned, IsRunnable, Performs, PrintsReport, PrintsStop, PrintsWritten, call_of, recorded_by, recorded_of};

use crate::after::{print_text, verdict_status, write_outputs};
use crate::begin::{Begun, begin};
use crate::crew::{run_alone, run_by_workers};
use crate::live::LiveNet;
use crate::over::over;
use crate::ran::{Account, PrintedReport};
use crate::run::{Done, Unwritten, no_journal};
use crate::watch::{Unwatched, Watch};
use flow_catalogue::{Std, standard_components_come_to_one_outcome};
use flow_component::{Gate, NoGate};
use flow_determinate::a_determinate_plan_ends_as_on_one_thread;
use flow_journal::{
    Journal, a_file_has_one_journal_or_one_fault, a_journal_that_stops_is_no_schedule,
};
use flow_load::{OwnKind, Status, Stop, kinds_and_parts};
use flow_meanings::{
    a_batch_update_that_sorts_writes_its_book, a_batch_update_writes_its_book,
    a_finished_network_composes_its_meanings, an_ended_collate_has_sent_the_collation,
};
use flow_model::{a_finished_network_leads_on, a_valid_plan_is_ready};
use flow_offer::{each_process_is_standard_or_own, own_components_fit};
use flow_own::{Part, Tape};
use flow_plan::KindSpec;
use flow_played::{
    Played, a_network_without_own_components_runs_as_it_is,
    a_network_without_own_components_tells_as_it_is, components_without_own_ones_are_others,
    players_come_to_one_outcome,
};
use flow_report::a_state_has_one_report;
use flow_runner::Crew;
use flow_tape::a_file_has_one_list_of_tapes_or_one_fault;
use flow_text::{Shelf, Sink};
use flow_words::{Command, ReportCommand, command};
use std::alloc::{AllocError, Global};
use std::sync::Wait;
use std::thread::Threads;

/// How a call ended.
#[derive(Drop)]
pub struct Outcome {
    /// The status with which the program ends.
    pub status: Status,
    /// The journal of the run, and empty where none was made.
    pub journal: Journal,
    /// The tapes of the processes of kinds of the caller's own, in the order of the processes; none where no network ran, or there was no memory for them.
    pub tapes: Vec<Tape>,
    /// The workers that made its turns, and nobody where one thread did, or none were made.
    pub crew: Crew,
}

/// Whether the words ask for workers: then `busy_top` does what they ask for, and otherwise `plain_top`.
pub fn needs_workers(alloc: Global, words: &[String]) -> Result<bool, AllocError>
    ensures { IfOk result (λ needs. IsTrue needs ↔ AsksWorkers words.now) }
{
    match command(alloc, words)? {
        Some(Command::Run(asked)) => Ok(asked.workers > 0),
        Some(Command::Make { workers, .. }) => Ok(workers > 0),
        Some(Command::Check(_)) => Ok(false),
        Some(Command::Judge(_)) => Ok(false),
        Some(Command::Page(_)) => Ok(false),
        Some(Command::Replay { .. }) => Ok(false),
        None => Ok(false),
    }
}

/// Does what the program does without workers: runs the network that the words name on one thread, or the one that is made from a number,
/// or makes the turns of a journal again in it, and prints the report; or checks the network file and prints its canonical spelling, or judges it
/// and prints whether its plan is determinate; or prints a page; or prints why it stopped. The error output gets nothing but a report in brief whose whole goes to a file. The kinds of the caller's own stand beside
/// the standard ones.
pub fn plain_top<F: Shelf, O: Sink, E: Sink, P: Part>(
    alloc: Global,
    words: &[String],
    shelf: &mut F,
    out: &mut O,
    err: &mut E,
    own: Vec<OwnKind<P>>,
) -> Outcome
    requires alone { AsksWorkers words.now → ⊥ }
    requires own { AreOwnKinds (specs_of (offers_of own.items)) }
    ensures promises { KeepsPromises (call_of words.now (offers_of own.items) (F.outside shelf.old) (F.outside shelf.new) (outputs_at (O.outside out.old) (E.outside err.old)) (outputs_at (O.outside out.new) (E.outside err.new)) (recorded_of result) result.status) }
    ensures crew { IsManned words.now result }
{
    plain_top_past(alloc, words, shelf, out, err, &NoGate, own)
}

/// The same; the turns of a run or a make pass a watch.
pub fn plain_top_past<F: Shelf, O: Sink, E: Sink, W: Watch, P: Part>(
    alloc: Global,
    words: &[String],
    shelf: &mut F,
    out: &mut O,
    err: &mut E,
    watch: &W,
    own: Vec<OwnKind<P>>,
) -> Outcome
    requires alone { AsksWorkers words.now → ⊥ }
    requires own { AreOwnKinds (specs_of (offers_of own.items)) }
    ensures promises { KeepsPromises (call_of words.now (offers_of own.items) (F.outside shelf.old) (F.outside shelf.new) (outputs_at (O.outside out.old) (E.outside err.old)) (outputs_at (O.outside out.new) (E.outside err.new)) (recorded_of result) result.status) }
    ensures crew { IsManned words.now result }
{
    let Ok((kinds, parts)) = kinds_and_parts(alloc, own) else {
        return conclude::<F, O, E, P>(alloc, shelf, out, err, Err(Stop::NoMemory), &[]);
    };
    let done = perform_alone(alloc, words, shelf, watch, &kinds, parts);
    conclude(alloc, shelf, out, err, done, &kinds)
}

/// Does what the program does where the words ask for workers: runs the network that they name, or the one that is made from a number, by so many
/// workers, each in a thread of its own, and prints the report; or prints why it stopped. Its promises hold if it returns.
pub fn busy_top<
    R: Threads + Wait + Sync,
    F: Shelf,
    O: Sink,
    E: Sink,
    G: Gate + Sync,
    P: Part + Send,
>(
    rt: &R,
    alloc: Global,
    words: &[String],
    shelf: &mut F,
    out: &mut O,
    err: &mut E,
    gate: &G,
    own: Vec<OwnKind<P>>,
) -> Outcome
    requires workers { AsksWorkers words.now }
    requires own { AreOwnKinds (specs_of (offers_of own.items)) }
    ensures promises { KeepsPromises (call_of words.now (offers_of own.items) (F.outside shelf.old) (F.outside shelf.new) (outputs_at (O.outside out.old) (E.outside err.old)) (outputs_at (O.outside out.new) (E.outside err.new)) (recorded_of result) result.status) }
    ensures crew { IsManned words.now result }
{
    let watch = Unwatched { gate };
    busy_top_past(rt, alloc, words, shelf, out, err, &watch, own)
}

/// The same; the turns pass a watch.
pub fn busy_top_past<
    R: Threads + Wait + Sync,
    F: Shelf,
    O: Sink,
    E: Sink,
    W: Watch + Sync,
    P: Part + Send,
>(
    rt: &R,
    alloc: Global,
    words: &[String],
    shelf: &mut F,
    out: &mut O,
    err: &mut E,
    watch: &W,
    own: Vec<OwnKind<P>>,
) -> Outcome
    requires workers { AsksWorkers words.now }
    requires own { AreOwnKinds (specs_of (offers_of own.items)) }
    ensures promises { KeepsPromises (call_of words.now (offers_of own.items) (F.outside shelf.old) (F.outside shelf.new) (outputs_at (O.outside out.old) (E.outside err.old)) (outputs_at (O.outside out.new) (E.outside err.new)) (recorded_of result) result.status) }
    ensures crew { IsManned words.now result }
{
    let Ok((kinds, parts)) = kinds_and_parts(alloc, own) else {
        return conclude::<F, O, E, P>(alloc, shelf, out, err, Err(Stop::NoMemory), &[]);
    };
    let done = perform_by_workers(rt, alloc, words, shelf, watch, &kinds, parts);
    conclude(alloc, shelf, out, err, done, &kinds)
}

// Does all that comes before something is written or printed; one thread makes the turns.
fn perform_alone<'a, F: Shelf, W: Watch, P: Part>(
    alloc: Global,
    words: &'a [String],
    shelf: &mut F,
    watch: &W,
    kinds: &[KindSpec],
    parts: Vec<Vec<P>>,
) -> Result<Done<'a, LiveNet<P>>, Stop>
    requires alone { AsksWorkers words.now → ⊥ }
    requires kinds { AreOwnKinds kinds.now }
    requires parts { length parts.items ≡ length kinds.now }
    ensures { (own : List Offer) → AreOffered own kinds.now parts.items → Performs own (F.outside shelf.old) (F.outside shelf.new) words.entry.now result }
{
    match begin(alloc, words, shelf, kinds, parts) {
        Ok(Begun::Running(running, net)) => match run_alone(alloc, net, watch) {
            Ok(worked) => over(alloc, running, worked, kinds),
            Err(AllocError) => Err(Stop::NoMemory),
        },
        Ok(Begun::Said(said)) => Ok(Done::Said(said)),
        Err(stop) => Err(stop),
    }
}

// The same; workers make the turns.
fn perform_by_workers<'a, R: Threads + Wait + Sync, F: Shelf, W: Watch + Sync, P: Part + Send>(
    rt: &R,
    alloc: Global,
    words: &'a [String],
    shelf: &mut F,
    watch: &W,
    kinds: &[KindSpec],
    parts: Vec<Vec<P>>,
) -> Result<Done<'a, LiveNet<P>>, Stop>
    requires workers { AsksWorkers words.now }
    requires kinds { AreOwnKinds kinds.now }
    requires parts { length parts.items ≡ length kinds.now }
    ensures { (own : List Offer) → AreOffered own kinds.now parts.items → Performs own (F.outside shelf.old) (F.outside shelf.new) words.entry.now result }
{
    match begin(alloc, words, shelf, kinds, parts) {
        Ok(Begun::Running(running, net)) => {
            match run_by_workers(rt, alloc, net, running.goal.workers(), watch) {
                Ok(worked) => over(alloc, running, worked, kinds),
                Err(AllocError) => Err(Stop::NoMemory),
            }
        }
        Ok(Begun::Said(said)) => Ok(Done::Said(said)),
        Err(stop) => Err(stop),
    }
}

// Writes what there is to write, and prints what there is to print, or why there is nothing. What was done keeps the promises then.
fn conclude<F: Shelf, O: Sink, E: Sink, P: Part>(
    alloc: Global,
    shelf: &mut F,
    out: &mut O,
    err: &mut E,
    done: Result<Done<'_, LiveNet<P>>, Stop>,
    own: &[KindSpec],
) -> Outcome
    requires { IfOk done (IsRunnable own.now) }
    ensures promises { (own : List Offer) (words : List (String Global)) (before : Outside) → Performs own before (F.outside shelf.old) words done.entry → KeepsPromises (call_of words own before (F.outside shelf.new) (outputs_at (O.outside out.old) (E.outside err.old)) (outputs_at (O.outside out.new) (E.outside err.new)) (recorded_of result) result.status) }
    ensures crew { (own : List Offer) (words : List (String Global)) (before : Outside) → Performs own before (F.outside shelf.old) words done.entry → IsManned words result }
{
    each_process_is_standard_or_own();
    own_components_fit::<Std>();
    a_valid_plan_is_ready::<Std>();
    a_finished_network_composes_its_meanings();
    an_ended_collate_has_sent_the_collation();
    a_batch_update_writes_its_book();
    a_batch_update_that_sorts_writes_its_book();
    a_determinate_plan_ends_as_on_one_thread();
    a_valid_plan_is_ready::<Played<Std>>();
    a_state_has_one_report::<Played<Std>>();
    a_finished_network_leads_on::<Played<Std>>();
    standard_components_come_to_one_outcome();
    players_come_to_one_outcome::<Std>();
    a_network_without_own_components_runs_as_it_is::<Std>();
    components_without_own_ones_are_others::<Std>();
    a_network_without_own_components_tells_as_it_is::<Std>();
    a_journal_that_stops_is_no_schedule::<Played<Std>>();
    a_file_has_one_journal_or_one_fault();
    a_file_has_one_list_of_tapes_or_one_fault();
    match done {
        Ok(done) => tell(alloc, shelf, out, err, done, own),
        Err(stop) => stopped(alloc, out, err, &stop),
    }
}

// What stands after a stop before which no turn was made.
fn stopped<O: Sink, E: Sink>(alloc: Global, out: &mut O, err: &mut E, stop: &Stop) -> Outcome
    ensures status { PrintsStop (outputs_at (O.outside out.old) (E.outside err.old)) (outputs_at (O.outside out.new) (E.outside err.new)) stop.now result.status }
    ensures nothing { IsNothing (recorded_of result) }
    ensures crew { HasWorkers 0 result.crew }
{
    Outcome {
        status: print_stop(alloc, out, err, stop),
        journal: no_journal(alloc),
        tapes: Vec::new(alloc),
        crew: Crew::nobody(),
    }
}

// Writes what there is to write, and then prints what there is to print.
fn tell<F: Shelf, O: Sink, E: Sink, P: Part>(
    alloc: Global,
    shelf: &mut F,
    out: &mut O,
    err: &mut E,
    done: Done<'_, LiveNet<P>>,
    own: &[KindSpec],
) -> Outcome
    requires { IsRunnable own.now done }
    ensures { Concludes (F.outside shelf.old) (F.outside shelf.new) (outputs_at (O.outside out.old) (E.outside err.old)) (outputs_at (O.outside out.new) (E.outside err.new)) done.entry result }
{
    match done {
        Done::Ran(run) => finish(alloc, shelf, out, err, run, own),
        Done::Said(said) => Outcome {
            status: print_text(out, err, &said.text, b"", said.status),
            journal: said.journal,
            tapes: said.tapes,
            crew: said.crew,
        },
    }
}

// Writes the files of a run, and then prints its report.
fn finish<F: Shelf, O: Sink, E: Sink, P: Part>(
    alloc: Global,
    shelf: &mut F,
    out: &mut O,
    err: &mut E,
    run: Unwritten<'_, LiveNet<P>>,
    own: &[KindSpec],
) -> Outcome
    requires { IsOfferedPlan own.now run.ran.plan }
    ensures files { Finishes (F.outside shelf.old) (F.outside shelf.new) (outputs_at (O.outside out.old) (E.outside err.old)) (outputs_at (O.outside out.new) (E.outside err.new)) run.entry result.status }
    ensures recorded { recorded_of result ≡ recorded_by run.entry.ran }
    ensures crew { result.crew ≡ run.entry.ran.crew }
{
    let written = write_outputs(alloc, shelf, &run, own);
    let Unwritten {
        ran,
        journal: _,
        tapes: _,
        telling,
    } = run;
    let Account {
        report,
        journal,
        tapes,
        crew,
    } = ran.into_account();
    Outcome {
        status: print_written(alloc, out, err, &written, telling, &report),
        journal,
        tapes,
        crew,
    }
}

// Tells the report of a run whose files are written, as it was asked for, or why they aren't.
fn print_written<O: Sink, E: Sink>(
    alloc: Global,
    out: &mut O,
    err: &mut E,
    written: &Result<(), Stop>,
    telling: ReportCommand<'_>,
    report: &PrintedReport,
) -> Status
    ensures { PrintsWritten (outputs_at (O.outside out.old) (E.outside err.old)) (outputs_at (O.outside out.new) (E.outside err.new)) (report_by telling.entry) report.now written.now result }
{
    match written {
        Ok(()) => print_report(out, err, telling, report),
        Err(fault) => print_stop(alloc, out, err, fault),
    }
}

// Tells a report as it was asked for.
fn print_report<O: Sink, E: Sink>(
    out: &mut O,
    err: &mut E,
    telling: ReportCommand<'_>,
    report: &PrintedReport,
) -> Status
    ensures { PrintsReport (outputs_at (O.outside out.old) (E.outside err.old)) (outputs_at (O.outside out.new) (E.outside err.new)) (report_by telling.entry) report.now result }
{
    let text = report.printed(telling);
    let remark = report.remarked(telling);
    print_text(out, err, text, remark, verdict_status(report.verdict))
}

/// Prints the text of a stop, and gives the status that comes of it.
fn print_stop<O: Sink, E: Sink>(alloc: Global, out: &mut O, err: &mut E, stop: &Stop) -> Status
    ensures { PrintsStop (outputs_at (O.outside out.old) (E.outside err.old)) (outputs_at (O.outside out.new) (E.outside err.new)) stop.now result }
{
    match stop.text(alloc) {
        Ok(text) => print_text(out, err, &text, b"", stop.status()),
        Err(_) => print_text(out, err, b"no memory\n", b"", Status::NoMemory),
    }
}
