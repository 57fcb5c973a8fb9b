//! The program that the benchmarks and the stress test use, with a word for each of three things. `bench/run`,
//! `tests/stress` and `tests/bench` call it. Its contracts say of each word how many turns were made, and when it
//! prints `other`.
//!
//! `flow_bench chain PASSERS LINES` runs a chain of a reader of lines in memory, of so many processes that pass them
//! on, and of a writer, on one thread, and prints how many turns were made.
//!
//! `flow_bench race WORKERS PACKETS ROUNDS` runs four branches side by side, in which each process works for so many
//! rounds on a packet that comes, by so many workers, or on one thread if there are none. It prints how many turns were
//! made, and on standard error the microseconds.
//!
//! `flow_bench again WORKERS NETFILE INPUT` runs the network of a file by so many workers, with each reader on the same
//! input, makes the turns again on one thread by the run's own journal, and compares what the two leave: the report,
//! and the bytes of each writer. Where no connection has two senders and no process is a LoadBalance, it compares these
//! with what a run on one thread leaves, too. It prints `same` or `other`.
#![tactic(auto)]

ghost use Rattle.flow_bench.specs.Asked.{IsManned};
ghost use Rattle.flow_bench.specs.RaceSizes.{IsSize};

mod again;
mod chain;
mod lines;
mod race;
mod words;

use crate::again::{AgainStop, is_same};
use crate::chain::run_chain;
use crate::race::{Raced, run_race};
use crate::words::{Benchmark, asked_by};
use flow_rig::TrialStop;
use std::alloc::{AllocError, Global};
use std::process::ExitCode;
use std::rt::{Clock, Files};
use std::sync::Wait;
use std::thread::Threads;
use std::{env, fs, io};

/// The status where the two that are compared differ.
const OTHER: u8 = 1;
/// The status where the words ask for nothing.
const BAD_WORDS: u8 = 2;
/// The status where the network is refused.
const REFUSED: u8 = 3;
/// The status where a file can't be read.
const UNREAD: u8 = 6;
/// The status where a line can't be printed.
const NOT_PRINTED: u8 = 7;
/// The status where there is no memory.
const NO_MEMORY: u8 = 8;

// The words after the program's name. Words that are no text ask for nothing, as no words do.
fn words_of(alloc: Global, args: io::Result<env::Args>) -> Result<Vec<String>, AllocError> {
    let mut words = Vec::new(alloc);
    match args {
        Ok(args) => {
            for word in args.skip(1) {
                words.push(word)?;
            }
            Ok(words)
        }
        Err(error) if error.kind() == io::ErrorKind::OutOfMemory => Err(AllocError),
        Err(_) => Ok(words),
    }
}

// The status where a network of this program's own doesn't run.
fn stopped(stop: TrialStop) -> ExitCode {
    match stop {
        TrialStop::Refused => ExitCode::from(REFUSED),
        TrialStop::NoMemory => ExitCode::from(NO_MEMORY),
    }
}

// The status where a line was printed, or wasn't.
fn told(printed: io::Result<()>, status: ExitCode) -> ExitCode {
    match printed {
        Ok(()) => status,
        Err(_) => ExitCode::from(NOT_PRINTED),
    }
}

fn tell_chain(rt: &impl Print, alloc: Global, size: chain::ChainSize) -> ExitCode {
    match run_chain(alloc, size) {
        Ok(turns) => told(println!(rt; "turns {turns}"), ExitCode::SUCCESS),
        Err(stop) => stopped(stop),
    }
}

fn tell_race<R: Print + Eprint + Threads + Wait + Clock + Sync>(
    rt: &R,
    alloc: Global,
    size: race::RaceSize,
) -> ExitCode
    requires { IsSize size }
{
    match run_race(rt, alloc, size) {
        Ok(Raced { turns, micros }) => {
            let printed = println!(rt; "turns {turns}").and_then(|_| eprintln!(rt;
                "microseconds {micros}"
            ));
            told(printed, ExitCode::SUCCESS)
        }
        Err(stop) => stopped(stop),
    }
}

fn tell_again<R: Alloc + Print + Files + Threads + Wait + Sync>(
    rt: &R,
    alloc: Global,
    asked: again::Comparison,
) -> ExitCode
    requires { IsManned asked }
{
    let (Ok(text), Ok(bytes)) = (fs::read(rt, asked.net), fs::read(rt, asked.input)) else {
        return ExitCode::from(UNREAD);
    };
    match is_same(rt, alloc, &text, &bytes, asked.workers) {
        Ok(true) => told(println!(rt; "same"), ExitCode::SUCCESS),
        Ok(false) => told(println!(rt; "other"), ExitCode::from(OTHER)),
        Err(AgainStop::Refused) => ExitCode::from(REFUSED),
        Err(AgainStop::NoMemory) => ExitCode::from(NO_MEMORY),
    }
}

fn main(rt: HostRuntime) -> ExitCode {
    let alloc = rt.alloc();
    let Ok(words) = words_of(alloc, env::args(&rt)) else {
        return ExitCode::from(NO_MEMORY);
    };
    match asked_by(&words) {
        Some(Benchmark::Chain(size)) => tell_chain(&rt, alloc, size),
        Some(Benchmark::Race(size)) => tell_race(&rt, alloc, size),
        Some(Benchmark::Again(asked)) => tell_again(&rt, alloc, asked),
        None => ExitCode::from(BAD_WORDS),
    }
}
