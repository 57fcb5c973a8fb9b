//! A program of one's own over the libraries: it opens a plan, runs it by two workers, so many turns at a time, tells
//! on standard error how far the network has come each time, and prints the report at the end. `docs/LIBRARY.md` goes
//! through it. Its contracts say that the network that is reported can't go on.
#![tactic(auto)]

mod stretches;

use crate::stretches::{ProgressStop, to_the_end};
use flow_catalogue::Std;
use flow_machine::{Closed, Net};
use flow_plan::Plan;
use flow_report::Report;
use flow_rig::{plan_of_text, standard_components};
use std::alloc::{AllocError, Global};
use std::io::Write;
use std::process::ExitCode;
use std::sync::Wait;
use std::thread::Threads;

/// The network: lines are cut into words, and the words are counted.
const NET: &[u8] =
    b"flow 1\n'lines' -> FILE Read(ReadLines)\nRead OUT -> IN Words(Words)\nWords OUT -> IN Count(Count)\nCount OUT -> IN Drop(Discard)\nCount COUNT -> IN Write(WriteLines)\n'count' -> FILE Write\n";

/// What its reader reads, so many times.
const LINE: &[u8] = b"to be or not to be\n";

const LINES: u32 = 2_000;

/// The status where a line can't be printed.
const NOT_PRINTED: u8 = 7;

/// The status where there is no memory, or no network.
const NOT_RUN: u8 = 8;

/// What the reader reads.
fn input(alloc: Global) -> Result<Vec<u8>, AllocError> {
    let mut lines = Vec::new(alloc);
    for _ in 0..LINES {
        lines.extend_from_slice(LINE)?;
    }
    Ok(lines)
}

/// The lines of the report of a network of this plan.
fn told(alloc: Global, plan: &Plan, closed: &Closed<Std>) -> Result<Vec<u8>, AllocError> {
    Report::of(alloc, plan, closed)?.print()
}

/// The report of the whole run.
fn report_of_run<R: Threads + Wait + Sync + Eprint>(
    rt: &R,
    alloc: Global,
) -> Result<Vec<u8>, ProgressStop> {
    let plan = plan_of_text(alloc, NET)?;
    let lines = input(alloc)?;
    let components = standard_components(alloc, &plan, &lines)?;
    let net = Net::start(alloc, &plan, components)?;
    let closed = to_the_end(rt, alloc, net)?;
    let report = told(alloc, &plan, &closed);
    closed.discard();
    Ok(report?)
}

fn main(rt: HostRuntime) -> ExitCode {
    let Ok(report) = report_of_run(&rt, rt.alloc()) else {
        return ExitCode::from(NOT_RUN);
    };
    match rt.stdout().write_all(&report) {
        Ok(()) => ExitCode::SUCCESS,
        Err(_) => ExitCode::from(NOT_PRINTED),
    }
}
