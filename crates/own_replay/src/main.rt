//! A program for whoever hasn't the component of `own_lines`: it knows the kind and has no part of it. It checks
//! networks with the kind, and makes their runs again by their tapes (`docs/OWN-COMPONENTS.md`). What it does with its
//! words is in `flow_program`.
#![tactic(auto)]

ghost use Rattle.std.specs.Prelude.{IfOk};
ghost use Rattle.flow_offer.specs.Kinds.{AreOwnKinds};
ghost use Rattle.flow_load.specs.Offers.{offers_of, specs_of};

use flow_cli::OwnKind;
use flow_files::StdSink;
use flow_number::Number;
use flow_program::{no_memory, program};
use own_kind::{lines_is_an_own_kind, lines_kind};
use std::alloc::{AllocError, Global};
use std::env;
use std::process::ExitCode;

// What is handed in: the kind, and no part of it. Of which type the parts would be is of no matter.
fn own_kinds(alloc: Global) -> Result<Vec<OwnKind<Number>>, AllocError>
    ensures { IfOk result (λ own. AreOwnKinds (specs_of (offers_of own.items))) }
{
    let parts = Vec::new(alloc);
    let spec = lines_kind(alloc)?;
    let mut own = Vec::new(alloc);
    own.push(OwnKind { spec, parts })?;
    lines_is_an_own_kind();
    Ok(own)
}

fn main(rt: HostRuntime) -> ExitCode {
    let alloc = rt.alloc();
    let Ok(own) = own_kinds(alloc) else {
        return no_memory();
    };
    let out = StdSink::new(&rt);
    let err = StdSink::new(rt.stderr());
    program(alloc, &rt, env::args(&rt), out, err, own)
}
