//! The steps before a network runs, or is checked or judged: the words, the network file, a journal's file and that of tapes, the input files.
ghost use Rattle.std.specs.Prelude.{◌≡◌, IfOk, length, List};
ghost use Rattle.std.specs.Option.{option_map};
ghost use Rattle.flow_words.specs.Words.{run_by};
ghost use Rattle.flow_offer.specs.Kinds.{AreOwnKinds};
ghost use Rattle.flow_load.specs.Components.{HoldTheirParts};
ghost use Rattle.flow_load.specs.Offers.{AreOffered, Offer, parts_in};
ghost use Rattle.flow_load.specs.Prepare.{HoldsTheirParts, Loads, Prepares, ReadsAgain, ReadsRun};

use crate::components::{live_components, played_components};
use crate::inputs::read_inputs;
use crate::journal_file::read_journal;
use crate::net_file::{NetFile, network};
use crate::parts::parts_for;
use crate::step::read_file;
use crate::stop::{Stop, read_stop};
use crate::tapes::{count_own, read_tapes};
use flow_catalogue::Std;
use flow_component::Component;
use flow_journal::Journal;
use flow_limits::FILE_LIMIT;
use flow_own::{Mixed, Part, Tape};
use flow_parse::NetText;
use flow_plan::{KindSpec, Plan};
use flow_played::Played;
use flow_text::Shelf;
use flow_words::{Command, Page, RunCommand, command};
use std::alloc::{AllocError, Global};

/// A network that can run: its plan, and the components of its processes on what their files hold.
#[derive(Drop)]
pub struct Job<K: Component> {
    pub plan: Plan,
    pub components: Vec<K>,
}

/// A network that can run, each component of the caller's own a player, and the journal whose turns are to be made again in it, with the tapes.
#[derive(Drop)]
pub struct Again {
    pub job: Job<Played<Std>>,
    pub journal: Journal,
    pub tapes: Vec<Tape>,
}

/// What is to be done.
#[derive(Drop)]
pub enum Task<'a, K: Component> {
    /// A network is to run, as it was asked for.
    Run { job: Job<K>, asked: RunCommand<'a> },
    /// The value of a network file is to be printed.
    Check(NetText),
    /// Whether this plan is determinate is to be told.
    Judge(Plan),
    /// This page is to be printed.
    Page(Page),
    /// The turns of a journal are to be made again.
    Replay(Again),
    /// The network that is made from this number is to run by so many workers, or on one thread where there are none.
    Make { number: u32, workers: u32 },
}

/// Reads the words, and what they name. The first stop comes in the order of these steps.
pub fn prepare<'a, F: Shelf, P: Part>(
    alloc: Global,
    words: &'a [String],
    shelf: &mut F,
    kinds: &[KindSpec],
    parts: Vec<Vec<P>>,
) -> Result<Task<'a, Mixed<Std, P>>, Stop>
    requires kinds { AreOwnKinds kinds.now }
    requires parts { length parts.items ≡ length kinds.now }
    ensures prepares { (own : List Offer) → AreOffered own kinds.now parts.items → Prepares own (F.outside shelf.old) (F.outside shelf.new) words.entry.now result }
    ensures parts { IfOk result (λ task. HoldsTheirParts P.seen kinds.now (parts_in parts.items) task) }
{
    let asked = match command(alloc, words) {
        Ok(Some(asked)) => asked,
        Ok(None) => return Err(Stop::Words),
        Err(_) => return Err(Stop::NoMemory),
    };
    match asked {
        Command::Run(asked) => match runnable(alloc, shelf, kinds, parts, asked) {
            Ok(job) => Ok(Task::Run { job, asked }),
            Err(stop) => Err(stop),
        },
        Command::Check(name) => match load(alloc, shelf, name, kinds) {
            Ok(file) => Ok(Task::Check(file.text)),
            Err(stop) => Err(stop),
        },
        Command::Judge(name) => match load(alloc, shelf, name, kinds) {
            Ok(file) => Ok(Task::Judge(file.plan)),
            Err(stop) => Err(stop),
        },
        Command::Page(page) => Ok(Task::Page(page)),
        Command::Replay {
            net,
            journal,
            tapes,
        } => match replayable(alloc, shelf, kinds, net, journal, tapes) {
            Ok(again) => Ok(Task::Replay(again)),
            Err(stop) => Err(stop),
        },
        Command::Make { number, workers } => Ok(Task::Make { number, workers }),
    }
}

// The network of a run, with its components.
fn runnable<F: Shelf, P: Part>(
    alloc: Global,
    shelf: &mut F,
    kinds: &[KindSpec],
    parts: Vec<Vec<P>>,
    asked: RunCommand<'_>,
) -> Result<Job<Mixed<Std, P>>, Stop>
    requires kinds { AreOwnKinds kinds.now }
    requires parts { length parts.items ≡ length kinds.now }
    ensures reads { (own : List Offer) → AreOffered own kinds.now parts.items → ReadsRun own (F.outside shelf.old) (F.outside shelf.new) (run_by asked.entry) result }
    ensures parts { IfOk result (λ job. HoldTheirParts P.seen kinds.now (parts_in parts.items) job.plan job.components.items) }
{
    let plan = match load(alloc, shelf, asked.net, kinds) {
        Ok(file) => file.plan,
        Err(stop) => return Err(stop),
    };
    let parts = match parts_for(alloc, &plan, kinds, parts) {
        Ok(parts) => parts,
        Err(stop) => return Err(stop),
    };
    let given = match read_inputs(alloc, shelf, &plan, kinds) {
        Ok(given) => given,
        Err(stop) => return Err(stop),
    };
    match live_components(alloc, &plan, kinds, given, parts) {
        Ok(components) => Ok(Job { plan, components }),
        Err(AllocError) => Err(Stop::NoMemory),
    }
}

// The network of this file, then the journal of that one and the tapes, then the components.
fn replayable<F: Shelf>(
    alloc: Global,
    shelf: &mut F,
    kinds: &[KindSpec],
    name: &str,
    kept: &str,
    tapes: Option<&str>,
) -> Result<Again, Stop>
    requires { AreOwnKinds kinds.now }
    ensures { ReadsAgain kinds.now (F.outside shelf.old) (F.outside shelf.new) name.now kept.now (option_map (λ s. s.now) tapes.entry) result }
{
    let plan = match load(alloc, shelf, name, kinds) {
        Ok(file) => file.plan,
        Err(stop) => return Err(stop),
    };
    let journal = match read_journal(alloc, shelf, kept) {
        Ok(journal) => journal,
        Err(stop) => return Err(stop),
    };
    let wanted = count_own(&plan, kinds);
    let tapes = match read_tapes(alloc, shelf, tapes, wanted) {
        Ok(tapes) => tapes,
        Err(stop) => return Err(stop),
    };
    let given = match read_inputs(alloc, shelf, &plan, kinds) {
        Ok(given) => given,
        Err(stop) => return Err(stop),
    };
    match played_components(alloc, &plan, kinds, given, &tapes) {
        Ok(components) => Ok(Again {
            job: Job { plan, components },
            journal,
            tapes,
        }),
        Err(AllocError) => Err(Stop::NoMemory),
    }
}

// What the network file of this name holds.
fn load<F: Shelf>(
    alloc: Global,
    shelf: &mut F,
    name: &str,
    kinds: &[KindSpec],
) -> Result<NetFile, Stop>
    requires { AreOwnKinds kinds.now }
    ensures { Loads kinds.now (F.outside shelf.old) (F.outside shelf.new) name.now result }
{
    let net = match read_file(alloc, shelf, name, FILE_LIMIT) {
        Ok(net) => net,
        Err(stop) => return Err(read_stop(alloc, stop, name)),
    };
    network(alloc, &net, kinds)
}
