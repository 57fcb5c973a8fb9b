//! The run of a network, and what it leaves.
ghost use Rattle.std.specs.Prelude.{◌≡◌, IfOk};
ghost use Rattle.flow_offer.specs.Processes.{IsOfferedPlan};
ghost use Rattle.flow_cli.specs.Begins.{LeavesAsRan};
ghost use Rattle.flow_cli.specs.Leaves.{AreTapesOfNet, IsJournalOfNet, IsRecordedAt, IsToldOfNet, tape_by};

use crate::live::{LiveNet, LiveWorked};
use flow_catalogue::Std;
use flow_component::Component;
use flow_journal::{
    Journal, a_round_of_a_net_is_a_run, a_schedule_sees_no_more_than_its_turns,
    what_workers_reach_is_a_run,
};
use flow_machine::{Closed, Net};
use flow_model::a_valid_plan_is_ready;
use flow_offer::{own_components_fit, own_kind};
use flow_own::{Mixed, Part, Sorted, Tape, Unmixed};
use flow_plan::{KindSpec, Plan};
use flow_played::{a_run_of_parts_is_one_of_players, parts_stay_parts, players_are_told_of};
use flow_report::{Report, Verdict, a_report_tells_of_its_state};
use flow_runner::Crew;
use std::alloc::{AllocError, Global};

/// A run that is over: its plan, its network, the journal of its turns, the tapes of the caller's own components in the order of their processes, who made the
/// turns, and the report of what it came to.
pub struct Ran<N> {
    pub plan: Plan,
    pub net: N,
    pub journal: Journal,
    pub tapes: Vec<Tape>,
    pub crew: Crew,
    pub report: PrintedReport,
}

/// The report of what a network came to: its verdict, its text, and its text in brief.
#[derive(Drop)]
pub struct PrintedReport {
    pub verdict: Verdict,
    pub text: Vec<u8>,
    pub brief: Vec<u8>,
}

/// What is told of a run: its report, its journal, its tapes, and who made its turns.
#[derive(Drop)]
pub struct Account {
    pub report: PrintedReport,
    pub journal: Journal,
    pub tapes: Vec<Tape>,
    pub crew: Crew,
}

impl<P: Part> Ran<LiveNet<P>> {
    /// What is told of the run. What else it holds is given up.
    pub fn into_account(self) -> Account
        ensures { result ≡ record { report = self.report; journal = self.journal; tapes = self.tapes; crew = self.crew } }
    {
        let Ran {
            plan: _,
            net,
            journal,
            tapes,
            crew,
            report,
        } = self;
        net.discard();
        Account {
            report,
            journal,
            tapes,
            crew,
        }
    }

    /// Gives up all that the run holds.
    pub fn discard(self) {
        let _given_up = self.into_account();
    }
}

/// The run of a network whose turns were made, with its report, its journal and its tapes. These are the kinds of the caller's own among which its plan was made.
/// Without memory it is given up.
pub(crate) fn told<P: Part>(
    alloc: Global,
    plan: Plan,
    worked: LiveWorked<P>,
    own: &[KindSpec],
) -> Result<Ran<LiveNet<P>>, AllocError>
    requires { IsOfferedPlan own.now plan }
    ensures plan { IfOk result (λ ran. ran.plan ≡ plan) }
    ensures leaves { IfOk result (λ ran. LeavesAsRan own.now plan worked ran) }
{
    own_components_fit::<Std>();
    a_valid_plan_is_ready::<Mixed<Std, P>>();
    a_round_of_a_net_is_a_run::<Mixed<Std, P>>();
    what_workers_reach_is_a_run::<Mixed<Std, P>>();
    a_schedule_sees_no_more_than_its_turns::<Mixed<Std, P>>();
    a_report_tells_of_its_state::<Mixed<Std, P>>();
    a_run_of_parts_is_one_of_players::<Std>();
    players_are_told_of::<Std>();
    parts_stay_parts::<Std>();
    tell(alloc, plan, worked, own)
}

// The same, as the net has it.
fn tell<P: Part>(
    alloc: Global,
    plan: Plan,
    worked: LiveWorked<P>,
    own: &[KindSpec],
) -> Result<Ran<LiveNet<P>>, AllocError>
    requires { IsOfferedPlan own.now plan }
    ensures plan { IfOk result (λ ran. ran.plan ≡ plan) }
    ensures net { IfOk result (λ ran. ran.net ≡ worked.closed.net) }
    ensures crew { IfOk result (λ ran. ran.crew ≡ worked.crew) }
    ensures report { IfOk result (λ ran. IsToldOfNet plan worked.closed.net ran.report) }
    ensures journal { IfOk result (λ ran. IsJournalOfNet worked.closed.net ran.journal) }
    ensures tapes { IfOk result (λ ran. AreTapesOfNet own.now plan worked.closed.net ran.tapes.items) }
{
    let account = worked.account(alloc, &plan);
    let (net, crew) = worked.into_net();
    let tapes = tapes_of(alloc, &plan, &net, own);
    match (account, tapes) {
        (Ok(NetAccount { report, journal }), Ok(tapes)) => Ok(Ran {
            plan,
            net,
            journal,
            tapes,
            crew,
            report,
        }),
        _ => {
            net.discard();
            Err(AllocError)
        }
    }
}

/// The report of a network, and the journal of its turns.
#[derive(Drop)]
struct NetAccount {
    report: PrintedReport,
    journal: Journal,
}

impl<P: Part> LiveWorked<P> {
    // What is told of the network, but for its tapes.
    fn account(&self, alloc: Global, plan: &Plan) -> Result<NetAccount, AllocError>
        ensures report { IfOk result (λ account. IsToldOfNet plan.now self.now.closed.net account.report) }
        ensures journal { IfOk result (λ account. IsJournalOfNet self.now.closed.net account.journal) }
    {
        match &self.worked {
            Sorted::Unmixed(worked) => account_of(alloc, plan, &worked.closed),
            Sorted::Mixed(worked) => account_of(alloc, plan, &worked.closed),
        }
    }
}

// The same of a network of either sort.
fn account_of<K: Component>(
    alloc: Global,
    plan: &Plan,
    closed: &Closed<K>,
) -> Result<NetAccount, AllocError>
    ensures report { IfOk result (λ account. IsToldOfNet plan.now closed.now.net account.report) }
    ensures journal { IfOk result (λ account. IsJournalOfNet closed.now.net account.journal) }
{
    // Its contract says that no net has made more turns than a run may have, and so that the journal has a file.
    let _turns = closed.net.turns_made();
    Ok(NetAccount {
        report: report_of(alloc, plan, closed)?,
        journal: Journal::merge(alloc, &closed.net)?,
    })
}

// Copies of the tapes of a net, one for each process of a kind of the caller's own, in the order of the processes.
fn tapes_of<P: Part>(
    alloc: Global,
    plan: &Plan,
    net: &LiveNet<P>,
    own: &[KindSpec],
) -> Result<Vec<Tape>, AllocError>
    requires { IsOfferedPlan own.now plan.now }
    ensures { IfOk result (λ tapes. AreTapesOfNet own.now plan.now net.now tapes.items) }
{
    let mut tapes = Vec::new(alloc);
    for process in 0..plan.processes().len() {
        if own_kind(plan, process as u32, own).is_some() {
            tapes.push(tape_at(alloc, net, process as u32)?)?;
        }
    }
    Ok(tapes)
}

// A copy of the tape of a process; an empty one where its component isn't the caller's own.
fn tape_at<P: Part>(alloc: Global, net: &LiveNet<P>, process: u32) -> Result<Tape, AllocError>
    ensures tape { IfOk result (λ tape. tape ≡ tape_by net.now.bodies process) }
    ensures recorded { IsRecordedAt net.now.bodies process }
{
    match &net.net {
        Sorted::Unmixed(net) => no_tape(alloc, net, process),
        Sorted::Mixed(net) => tape_in(alloc, net, process),
    }
}

// An empty one, of a network in which no component is the caller's own.
fn no_tape(alloc: Global, net: &Net<Unmixed<Std>>, process: u32) -> Result<Tape, AllocError>
    ensures tape { IfOk result (λ tape. tape ≡ tape_by net.now.bodies process) }
    ensures recorded { IsRecordedAt net.now.bodies process }
{
    if process >= net.processes() {
        return Ok(Tape::new(alloc));
    }
    // Its contract says that no component of such a network has a tape.
    let _component = net.body(process).component().component();
    Ok(Tape::new(alloc))
}

// The same in a network in which components may be the caller's own.
fn tape_in<P: Part>(
    alloc: Global,
    net: &Net<Mixed<Std, P>>,
    process: u32,
) -> Result<Tape, AllocError>
    ensures tape { IfOk result (λ tape. tape ≡ tape_by net.now.bodies process) }
    ensures recorded { IsRecordedAt net.now.bodies process }
{
    if process >= net.processes() {
        return Ok(Tape::new(alloc));
    }
    match net.body(process).component().tape() {
        Some(tape) => tape.copy(),
        None => Ok(Tape::new(alloc)),
    }
}

/// The report of a network that was run on this plan.
pub fn report_of<K: Component>(
    alloc: Global,
    plan: &Plan,
    closed: &Closed<K>,
) -> Result<PrintedReport, AllocError>
    ensures { IfOk result (λ report. IsToldOfNet plan.now closed.now.net report) }
{
    let report = Report::of(alloc, plan, closed)?;
    Ok(PrintedReport {
        verdict: report.verdict(),
        text: report.print()?,
        brief: report.print_brief()?,
    })
}
