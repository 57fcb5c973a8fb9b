//! The program `flow`, over real files: runs the network of a file, by workers where it is asked for them, and may keep
//! the journal of the run and its tapes; checks or judges a network file; prints the kinds of processes; makes the turns
//! of a journal again; or runs the network that is made from a number; and prints what comes of it. Whoever sits at a
//! shell uses it. Here stands the component that it hands in beside the standard ones; all else is in `flow_program`.
#![tactic(auto)]

use flow_cli::OwnKind;
use flow_files::StdSink;
use flow_number::{Number, number_is_an_own_kind, number_kind};
use flow_own::Part;
use flow_program::{no_memory, program};
use std::alloc::{AllocError, Global};
use std::env::{self, Args};
use std::fs::{File, Files};
use std::io;
use std::io::IsTerminal;
use std::process::ExitCode;
use std::sync::Wait;
use std::thread::Threads;
use std::time::Clock;

/// How many processes of a network may be of the kind Number.
const PARTS: usize = 8;

// Does what the words ask for, with PARTS parts of the kind Number. It is the example of one's own, and each part of it is changed through the interface
// of all parts alone.
fn numbering<
    R: Files<File = File> + Eprint + Clock + Threads + Wait + Sync + Drop,
    P: Print + Drop,
    Q: Print + IsTerminal + Drop,
>(
    alloc: Global,
    rt: &R,
    args: io::Result<Args>,
    out: StdSink<P>,
    err: StdSink<Q>,
) -> Result<ExitCode, AllocError> {
    let mut parts: Vec<Box<dyn Part + Send>> = Vec::new(alloc);
    for _ in 0..PARTS {
        parts.push(Box::new(alloc, Number::new(alloc))?)?;
    }
    let spec = number_kind(alloc)?;
    let mut own = Vec::new(alloc);
    own.push(OwnKind { spec, parts })?;
    number_is_an_own_kind();
    Ok(program(alloc, rt, args, out, err, own))
}

fn main(rt: HostRuntime) -> ExitCode {
    let out = StdSink::new(&rt);
    let err = StdSink::new(rt.stderr());
    match numbering(rt.alloc(), &rt, env::args(&rt), out, err) {
        Ok(code) => code,
        Err(AllocError) => no_memory(),
    }
}
