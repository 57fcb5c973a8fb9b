//! What there is to write and to print, and what is said where no network has to run: a network file is checked or judged, the turns of a journal are made
//! again, or a page is made.
ghost use Rattle.std.specs.Prelude.{◌≡◌, IfOk, length};
ghost use Rattle.flow_journal.specs.Files.{IsWritable};
ghost use Rattle.flow_runner.specs.Crews.{HasWorkers};
ghost use Rattle.flow_parse.specs.Canonical.{canonical};
ghost use Rattle.flow_offer.specs.Processes.{IsOfferedPlan};
ghost use Rattle.flow_load.specs.Components.{HasComponents};
ghost use Rattle.flow_load.specs.Offers.{IsEmptyJournal, IsNothing};
ghost use Rattle.flow_cli.specs.Top.{SaysTurnsAgain, TellsWhether, answer, page_text, recorded_in};
ghost use Rattle.flow_load.specs.declared.status.Status.TheVariants.{Finished};
ghost use Rattle.flow_words.specs.declared.asked.Page.TheVariants.{Kinds};

use crate::after::verdict_status;
use crate::again::replay_net;
use crate::ran::Ran;
use flow_determinate::determinate;
use flow_items::Items;
use flow_journal::Journal;
use flow_kinds::{kinds_page, put_own_kinds};
use flow_load::{Again, Status, Stop};
use flow_own::Tape;
use flow_parse::{NetText, print};
use flow_plan::{KindSpec, Plan};
use flow_runner::Crew;
use flow_words::{Page, ReportCommand, help_page, version_line};
use std::alloc::{AllocError, Global};

/// A file that a run keeps for a replay: that of its journal, or that of its tapes.
#[derive(Drop)]
pub struct KeptFile<'a> {
    pub name: &'a str,
    pub bytes: Vec<u8>,
}

/// What a call says that writes no file.
#[derive(Drop)]
pub struct Said {
    /// What is to be printed.
    pub text: Vec<u8>,
    /// The status with which the program ends where that is printed.
    pub status: Status,
    /// The journal of the turns that were made, and empty where none was.
    pub journal: Journal,
    /// The tapes of a replay, and else none.
    pub tapes: Vec<Tape>,
    /// Who made them: the workers of a make, and else nobody.
    pub crew: Crew,
}

/// A run that is over, the files of its journal and of its tapes where they were named, and how its report is to be told. Nothing of it is written yet.
pub struct Unwritten<'a, N> {
    pub ran: Ran<N>,
    pub journal: Option<KeptFile<'a>>,
    pub tapes: Option<KeptFile<'a>>,
    /// How its report is to be told.
    pub telling: ReportCommand<'a>,
}

/// What there is to write and to print.
pub enum Done<'a, N> {
    /// A run: its files are to be written, and then its report is to be printed.
    Ran(Unwritten<'a, N>),
    /// The spelling of a checked network file, the answer on a judged one, a page, or the report of a replay or of a make.
    Said(Said),
}

/// The canonical spelling of a network file's value.
pub(crate) fn spelling(alloc: Global, text: &NetText) -> Result<Said, AllocError>
    ensures text { IfOk result (λ said. said.text.items ≡ canonical text.now) }
    ensures status { IfOk result (λ said. said.status ≡ Finished) }
    ensures nothing { IfOk result (λ said. IsNothing (recorded_in said)) }
    ensures crew { IfOk result (λ said. HasWorkers 0 said.crew) }
{
    Ok(Said {
        text: print(alloc, text)?,
        status: Status::Finished,
        journal: no_journal(alloc),
        tapes: Vec::new(alloc),
        crew: Crew::nobody(),
    })
}

/// Whether a plan is determinate.
pub(crate) fn judgement(alloc: Global, plan: &Plan) -> Result<Said, AllocError>
    ensures text { IfOk result (λ said. TellsWhether plan.now said.text.items) }
    ensures status { IfOk result (λ said. said.status ≡ Finished) }
    ensures nothing { IfOk result (λ said. IsNothing (recorded_in said)) }
    ensures crew { IfOk result (λ said. HasWorkers 0 said.crew) }
{
    let text = answer(determinate(plan)).to_vec(alloc)?;
    Ok(Said {
        text,
        status: Status::Finished,
        journal: no_journal(alloc),
        tapes: Vec::new(alloc),
        crew: Crew::nobody(),
    })
}

// The line of an answer.
fn answer(yes: bool) -> &'static [u8]
    ensures { result.now ≡ answer yes }
{
    if yes {
        b"determinate yes\n"
    } else {
        b"determinate no\n"
    }
}

/// A page.
pub(crate) fn page(alloc: Global, page: Page, own: &[KindSpec]) -> Result<Said, AllocError>
    ensures text { IfOk result (λ said. said.text.items ≡ page_text own.now page) }
    ensures status { IfOk result (λ said. said.status ≡ Finished) }
    ensures nothing { IfOk result (λ said. IsNothing (recorded_in said)) }
    ensures crew { IfOk result (λ said. HasWorkers 0 said.crew) }
{
    Ok(Said {
        text: page_text(alloc, page, own)?,
        status: Status::Finished,
        journal: no_journal(alloc),
        tapes: Vec::new(alloc),
        crew: Crew::nobody(),
    })
}

// The text of a page.
fn page_text(alloc: Global, page: Page, own: &[KindSpec]) -> Result<Vec<u8>, AllocError>
    ensures { IfOk result (λ text. text.items ≡ page_text own.now page) }
{
    match page {
        Page::Kinds => all_kinds_page(alloc, own),
        Page::Help => help_page().to_vec(alloc),
        Page::Version => version_line().to_vec(alloc),
    }
}

// The standard kinds, and then those of the caller's own.
fn all_kinds_page(alloc: Global, own: &[KindSpec]) -> Result<Vec<u8>, AllocError>
    ensures { IfOk result (λ text. text.items ≡ page_text own.now Kinds) }
{
    let mut text = kinds_page(alloc)?;
    put_own_kinds(&mut text, own)?;
    Ok(text)
}

/// Makes the turns of a journal again.
pub(crate) fn run_again(alloc: Global, again: Again, own: &[KindSpec]) -> Result<Said, Stop>
    requires offered { IsOfferedPlan own.now again.job.plan }
    requires components { HasComponents own.now again.job.plan again.job.components.items }
    requires writable { IsWritable again.journal }
    ensures { SaysTurnsAgain again.job.plan again.job.components.items (record { journal = again.journal; tapes = again.tapes.items }) result }
{
    let Again {
        job,
        journal,
        tapes,
    } = again;
    match replay_net(alloc, job, &journal, own) {
        Ok(report) => Ok(Said {
            text: report.text,
            status: verdict_status(report.verdict),
            journal,
            tapes,
            crew: Crew::nobody(),
        }),
        Err(stop) => Err(stop),
    }
}

/// The journal where no turn was made. Takes no memory.
pub fn no_journal(alloc: Global) -> Journal
    ensures { IsEmptyJournal result }
{
    Journal {
        turns: Items::new(alloc),
        seen: Items::new(alloc),
    }
}
