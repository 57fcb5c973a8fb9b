//! What a call does up to the turns of a network: it reads what its words name, and starts the net; or it says at once what there is to say.
ghost use Rattle.std.specs.Prelude.{◌≡◌, List, length};
ghost use Rattle.flow_offer.specs.Kinds.{AreOwnKinds};
ghost use Rattle.flow_cli.specs.Begins.{Begins, workers_to};
ghost use Rattle.flow_load.specs.Offers.{AreOffered, Offer};

use crate::live::LiveNet;
use crate::run::{Said, judgement, page, run_again, spelling};
use crate::start::{start, start_made};
use flow_load::{Stop, Task, prepare};
use flow_own::Part;
use flow_plan::{KindSpec, Plan};
use flow_text::Shelf;
use flow_words::RunCommand;
use std::alloc::{AllocError, Global};

/// What is to be made of a network whose turns are over.
#[derive(Clone, Copy)]
pub(crate) enum Goal<'a> {
    /// The files and the report of a run.
    Run(RunCommand<'a>),
    /// What is said of a make from this number, whose input has so many bytes.
    Make {
        number: u32,
        workers: u32,
        bytes: usize,
    },
}

/// What is kept of a network while its turns are made.
#[derive(Drop)]
pub(crate) struct Running<'a> {
    pub plan: Plan,
    pub goal: Goal<'a>,
}

/// How a call begins.
pub(crate) enum Begun<'a, N> {
    /// A network is under way: this is its net at the start.
    Running(Running<'a>, N),
    /// There is something to print, and no network has to run for it.
    Said(Said),
}

impl<'a> Goal<'a> {
    /// How many workers are to make the turns; none is one thread.
    pub(crate) fn workers(&self) -> u32
        ensures { result ≡ workers_to self.now }
    {
        match self {
            Goal::Run(asked) => asked.workers,
            Goal::Make { workers, .. } => *workers,
        }
    }
}

/// Does all that comes before turns are made. No call is made on the shelf after its first fault.
pub(crate) fn begin<'a, F: Shelf, P: Part>(
    alloc: Global,
    words: &'a [String],
    shelf: &mut F,
    kinds: &[KindSpec],
    parts: Vec<Vec<P>>,
) -> Result<Begun<'a, LiveNet<P>>, Stop>
    requires kinds { AreOwnKinds kinds.now }
    requires parts { length parts.items ≡ length kinds.now }
    ensures { (own : List Offer) → AreOffered own kinds.now parts.items → Begins own (F.outside shelf.old) (F.outside shelf.new) words.entry.now result }
{
    // No `?` here, nor in the steps below: with it each way out would want an answer of its own in the proof files.
    let task = match prepare(alloc, words, shelf, kinds, parts) {
        Ok(task) => task,
        Err(stop) => return Err(stop),
    };
    match task {
        Task::Run { job, asked } => match start(alloc, job, kinds, Goal::Run(asked)) {
            Ok((running, net)) => Ok(Begun::Running(running, net)),
            Err(AllocError) => Err(Stop::NoMemory),
        },
        Task::Make { number, workers } => match start_made(alloc, number, workers) {
            Ok((running, net)) => Ok(Begun::Running(running, net)),
            Err(stop) => Err(stop),
        },
        Task::Check(text) => match spelling(alloc, &text) {
            Ok(said) => Ok(Begun::Said(said)),
            Err(AllocError) => Err(Stop::NoMemory),
        },
        Task::Judge(plan) => match judgement(alloc, &plan) {
            Ok(said) => Ok(Begun::Said(said)),
            Err(AllocError) => Err(Stop::NoMemory),
        },
        Task::Page(asked) => match page(alloc, asked, kinds) {
            Ok(said) => Ok(Begun::Said(said)),
            Err(AllocError) => Err(Stop::NoMemory),
        },
        Task::Replay(again) => match run_again(alloc, again, kinds) {
            Ok(said) => Ok(Begun::Said(said)),
            Err(stop) => Err(stop),
        },
    }
}
