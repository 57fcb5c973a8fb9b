//! What a program does, from its words to its end.
ghost use Rattle.flow_offer.specs.Kinds.{AreOwnKinds};
ghost use Rattle.flow_load.specs.Offers.{offers_of, specs_of};

use crate::call::call;
use crate::explain::{Fault, explain, file_of};
use crate::filled::{filled_call, texts_call, texts_of};
use crate::kept::expect_kept;
use crate::own::{Handed, Made, Supply};
use flow_cli::{OwnKind, Status};
use flow_files::{FileShelf, StdSink, words_of};
use flow_given::split;
use flow_own::Part;
use flow_supply::Maker;
use std::alloc::{AllocError, Global};
use std::env::Args;
use std::fs::{File, Files};
use std::io;
use std::io::IsTerminal;
use std::process::ExitCode;
use std::sync::Wait;
use std::thread::Threads;
use std::time::Clock;

/// How a program ends where there is no memory to begin with.
pub fn no_memory() -> ExitCode {
    ExitCode::from(Status::NoMemory.code())
}

/// Does what `flow` does with these words, and ends as it does. These kinds of the caller's own stand beside the standard ones.
pub fn program<
    R: Files<File = File> + Eprint + Clock + Threads + Wait + Sync + Drop,
    P: Print + Drop,
    Q: Print + IsTerminal + Drop,
    T: Part + Send,
>(
    alloc: Global,
    rt: &R,
    args: io::Result<Args>,
    out: StdSink<P>,
    err: StdSink<Q>,
    own: Vec<OwnKind<T>>,
) -> ExitCode
    requires { AreOwnKinds (specs_of (offers_of own.items)) }
{
    match Handed::new(alloc, own) {
        Ok(mut supply) => supplied_program(alloc, rt, args, out, err, &mut supply),
        Err(AllocError) => no_memory(),
    }
}

/// Does the same with the kinds of this maker, which makes their parts for the network that is run.
pub fn making_program<
    R: Files<File = File> + Eprint + Clock + Threads + Wait + Sync + Drop,
    P: Print + Drop,
    Q: Print + IsTerminal + Drop,
    T: Part + Send,
    M: Maker<Part = T>,
>(
    alloc: Global,
    rt: &R,
    args: io::Result<Args>,
    out: StdSink<P>,
    err: StdSink<Q>,
    maker: &M,
) -> ExitCode {
    match Made::new(alloc, maker) {
        Ok(mut made) => supplied_program(alloc, rt, args, out, err, &mut made),
        Err(AllocError) => no_memory(),
    }
}

// The same, wherever the kinds and the parts come from.
fn supplied_program<
    R: Files<File = File> + Eprint + Clock + Threads + Wait + Sync + Drop,
    P: Print + Drop,
    Q: Print + IsTerminal + Drop,
    T: Part + Send,
    S: Supply<T>,
>(
    alloc: Global,
    rt: &R,
    args: io::Result<Args>,
    mut out: StdSink<P>,
    mut err: StdSink<Q>,
    supply: &mut S,
) -> ExitCode {
    let Ok(words) = words_of(alloc, args) else {
        return no_memory();
    };
    let status = words_call(alloc, rt, &mut out, &mut err, &words, supply);
    ExitCode::from(status.code())
}

// Does what the words ask for.
fn words_call<
    R: Files<File = File> + Eprint + Clock + Threads + Wait + Sync + Drop,
    P: Print + Drop,
    Q: Print + IsTerminal + Drop,
    T: Part + Send,
    S: Supply<T>,
>(
    alloc: Global,
    rt: &R,
    out: &mut StdSink<P>,
    err: &mut StdSink<Q>,
    words: &[String],
    supply: &mut S,
) -> Status {
    if let Some(net) = texts_of(words) {
        return texts_call(alloc, rt, out, err, net, supply.known());
    }
    match split(alloc, words) {
        Ok(Some(count)) => filled_call(alloc, rt, out, err, words, count, supply),
        Ok(None) => other_call(alloc, rt, out, err, words, supply),
        Err(_) => Status::NoMemory,
    }
}

// Makes a call that is about no network file, and explains how it ended.
fn other_call<
    R: Files<File = File> + Eprint + Clock + Threads + Wait + Sync + Drop,
    P: Print + Drop,
    Q: Print + IsTerminal + Drop,
    T: Part + Send,
    S: Supply<T>,
>(
    alloc: Global,
    rt: &R,
    out: &mut StdSink<P>,
    err: &mut StdSink<Q>,
    words: &[String],
    supply: &mut S,
) -> Status {
    let mut shelf = FileShelf::new(alloc, rt);
    if expect_kept(alloc, &mut shelf, words).is_err() {
        return Status::NoMemory;
    }
    let Ok(own) = supply.hand_in(alloc, b"") else {
        return Status::NoMemory;
    };
    let is_terminal = err.is_terminal();
    let Ok(outcome) = call(rt, alloc, words, &mut shelf, out, err, is_terminal, own) else {
        return Status::NoMemory;
    };
    let printing = out.reason().or(err.reason());
    let fault = Fault {
        reason: printing.or(shelf.reason()),
        file: file_of(printing.is_some(), shelf.last()),
    };
    let status = outcome.status;
    explain(alloc, rt, words, status, fault, None, None, supply.known());
    status
}
