//! What a program does, from its words to its end.
ghost use Rattle.flow_offer.specs.Kinds.{AreOwnKinds};

use crate::call::Call;
use flow_files::{StdSink, words_of};
use flow_load::Status;
use flow_plan::KindSpec;
use std::alloc::Global;
use std::env::Args;
use std::fs::{File, Files};
use std::io;
use std::process::ExitCode;

/// How a program ends where there is no memory to begin with.
pub fn no_memory() -> ExitCode {
    ExitCode::from(Status::NoMemory.code())
}

/// Does what `draw` does with these words, and ends as it does. These kinds of the caller's own stand beside the standard ones.
pub fn drawing<R: Files<File = File> + Eprint + Drop, P: Print + Drop>(
    alloc: Global,
    rt: &R,
    args: io::Result<Args>,
    out: StdSink<P>,
    own: &[KindSpec],
) -> ExitCode
    requires { AreOwnKinds own.now }
{
    let Ok(words) = words_of(alloc, args) else {
        return no_memory();
    };
    let mut call = Call {
        alloc,
        rt,
        out,
        own,
    };
    ExitCode::from(call.make(&words).code())
}
