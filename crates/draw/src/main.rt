//! The program `draw`, over real files: draws the network of a file for Mermaid or for Graphviz, and with a journal the
//! state to which that leads. Whoever sits at a shell uses it. Here stands the kind that it knows beside the standard
//! ones, which is that of `flow`; all else is in `flow_drawn`.
#![tactic(auto)]

ghost use Rattle.std.specs.Prelude.{IfOk};
ghost use Rattle.flow_offer.specs.Kinds.{AreOwnKinds};

use flow_drawn::{drawing, no_memory};
use flow_files::StdSink;
use flow_number::{number_is_an_own_kind, number_kind};
use flow_plan::KindSpec;
use std::alloc::{AllocError, Global};
use std::env;
use std::process::ExitCode;

// What is handed in: the kind Number.
fn own_kinds(alloc: Global) -> Result<Vec<KindSpec>, AllocError>
    ensures { IfOk result (λ own. AreOwnKinds own.items) }
{
    let mut own = Vec::new(alloc);
    own.push(number_kind(alloc)?)?;
    number_is_an_own_kind();
    Ok(own)
}

fn main(rt: HostRuntime) -> ExitCode {
    let alloc = rt.alloc();
    let Ok(own) = own_kinds(alloc) else {
        return no_memory();
    };
    drawing(alloc, &rt, env::args(&rt), StdSink::new(&rt), &own)
}
