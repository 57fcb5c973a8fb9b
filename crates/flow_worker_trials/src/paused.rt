//! Runs that are paused, and go on.
ghost use Rattle.std.specs.Prelude.{◌≤◌};

use flow_catalogue::Std;
use flow_component::NoGate;
use flow_journal::{Journal, replay};
use flow_limits::RUN_LIMIT;
use flow_machine::{Closed, Net};
use flow_plan::Plan;
use flow_report::Report;
use flow_rig::{plan_of_text, started};
use flow_runner::{run, run_for};
use std::alloc::Global;
use std::process::Abort;
use std::sync::Wait;
use std::thread::Threads;

const NET: &[u8] =
    b"flow 1\n'in' -> FILE Read(ReadLines)\nRead OUT -> IN Words(Words)\nWords OUT -> (20) IN Fill(Fill)\n'12' -> SIZE Fill\nFill OUT -> IN Write(WriteLines)\n'out' -> FILE Write\n";

const INPUT: &[u8] = b"To be or not to be\nthat is the question\n";

const REPORT: &[u8] =
    b"verdict finished\nprocess Read ReadLines ended turns 6 made 2 dropped 0 left 0\nprocess Words Words ended turns 17 made 10 dropped 2 left 0\nprocess Fill Fill ended turns 19 made 4 dropped 10 left 0\nprocess Write WriteLines ended turns 8 made 0 dropped 4 left 0\nconnection Words.IN capacity 10 puts 2 takes 2 left 0\nconnection Fill.IN capacity 20 puts 10 takes 10 left 0\nconnection Write.IN capacity 10 puts 4 takes 4 left 0\ntotal turns 50 made 16 dropped 16 left 0\n";

/// The lines of the report.
fn told(rt: &impl Abort, alloc: Global, plan: &Plan, closed: &Closed<Std>) -> Vec<u8> {
    let report = Report::of(alloc, plan, closed).expect(rt, "no memory");
    report.print().expect(rt, "no memory")
}

/// The network at its start, run by two workers of whom each makes so many turns.
fn begun<R: Threads + Wait + Sync + Abort>(rt: &R, alloc: Global, budget: u64) -> Closed<Std>
    requires { 1 ≤ budget }
{
    let net = started(alloc, NET, INPUT).expect(rt, "no network");
    match run_for(rt, alloc, net, 2, &NoGate, budget) {
        Ok(worked) => worked.into_closed(),
        Err(_) => panic!(rt; "no memory"),
    }
}

/// The same network, run on by four workers to its end.
fn ended<R: Threads + Wait + Sync + Abort>(rt: &R, alloc: Global, net: Net<Std>) -> Closed<Std> {
    match run(rt, alloc, net, 4, &NoGate) {
        Ok(worked) => worked.into_closed(),
        Err(_) => panic!(rt; "no memory"),
    }
}

/// The report of the network from its start, after the turns of this journal.
fn made_again(rt: &impl Abort, alloc: Global, plan: &Plan, journal: &Journal) -> Vec<u8> {
    if journal.turns.len() > RUN_LIMIT {
        panic!(rt; "a long journal");
    }
    let net = started(alloc, NET, INPUT).expect(rt, "no network");
    let closed = match replay(alloc, net, journal) {
        Ok(closed) => closed,
        Err(_) => panic!(rt; "no replay"),
    };
    let report = told(rt, alloc, plan, &closed);
    closed.discard();
    report
}

#[test]
fn a_paused_run_goes_on_as_one(rt: HostRuntime) {
    let alloc = rt.alloc();
    let plan = plan_of_text(alloc, NET).expect(&rt, "no plan");
    let paused = begun(&rt, alloc, 5);
    let middle = told(&rt, alloc, &plan, &paused);
    let Closed { net, starved: _ } = paused;
    assert_eq!(rt; net.turns_made(), 10);
    assert!(rt; middle.starts_with(b"verdict running\n"));
    let closed = ended(&rt, alloc, net);
    assert_eq!(rt; closed.net.turns_made(), 50);
    let end = told(&rt, alloc, &plan, &closed);
    let journal = Journal::merge(alloc, &closed.net).expect(&rt, "no memory");
    closed.discard();
    assert_eq!(rt; end.as_slice(), REPORT);
    assert_eq!(rt; journal.turns.len(), 50);
    assert!(rt; made_again(&rt, alloc, &plan, &journal).as_slice() == REPORT);
}

#[test]
fn a_run_ends_before_its_budget(rt: HostRuntime) {
    let alloc = rt.alloc();
    let plan = plan_of_text(alloc, NET).expect(&rt, "no plan");
    let closed = begun(&rt, alloc, 100);
    assert_eq!(rt; closed.net.turns_made(), 50);
    let report = told(&rt, alloc, &plan, &closed);
    closed.discard();
    assert_eq!(rt; report.as_slice(), REPORT);
}
