//! A chain, and its run on one thread.
ghost use Rattle.std.specs.Prelude.{IfOk};
ghost use Rattle.flow_bench.specs.ChainRuns.{MakesTurns};

mod size;

use crate::lines::input_of;
use flow_machine::solo;
use flow_rig::{TrialStop, started};
pub use size::ChainSize;
use std::alloc::{AllocError, Global};

/// The text of a chain with so many processes that pass lines on.
fn text_of(alloc: Global, passers: u32) -> Result<String, AllocError> {
    let mut text = String::from_str(
        alloc,
        "flow 1\n'in' -> FILE Read(ReadLines)\nRead OUT -> IN P1(Passthru)\n",
    )?;
    for passer in 1..passers {
        let next = passer + 1;
        let line = format!(in alloc; "P{passer} OUT -> IN P{next}(Passthru)\n")?;
        text.push_str(line.as_str())?;
    }
    let line = format!(in alloc; "P{passers} OUT -> IN Write(WriteLines)\n")?;
    text.push_str(line.as_str())?;
    text.push_str("'out' -> FILE Write\n")?;
    Ok(text)
}

/// How many turns the network of this text makes on one thread, with each reader on these bytes.
fn turns_of(alloc: Global, text: &[u8], bytes: &[u8]) -> Result<u32, TrialStop>
    ensures { IfOk result (MakesTurns text.now bytes.now) }
{
    let net = started(alloc, text, bytes)?;
    match solo(alloc, net) {
        Ok(closed) => {
            let turns = closed.net.turns_made();
            closed.discard();
            Ok(turns)
        }
        Err(closed) => {
            closed.discard();
            Err(TrialStop::NoMemory)
        }
    }
}

/// Runs the chain of this size, and answers how many turns were made.
pub fn run_chain(alloc: Global, size: ChainSize) -> Result<u32, TrialStop> {
    let text = text_of(alloc, size.passers)?;
    let input = input_of(alloc, size.lines)?;
    turns_of(alloc, text.as_bytes(), &input)
}
