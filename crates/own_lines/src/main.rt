//! A program like `flow` with a component of one's own: the kind Lines. Whoever writes such a program starts from it
//! (`docs/OWN-COMPONENTS.md`). What it does with its words is in `flow_program`.
#![tactic(auto)]

use flow_files::StdSink;
use flow_line::ByLine;
use flow_plan::KindSpec;
use flow_program::making_program;
use flow_supply::{Asked, Maker};
use own_kind::{lines_is_an_own_kind, lines_kind};
use own_part::Lines;
use std::alloc::{AllocError, Global};
use std::env;
use std::process::ExitCode;

/// Makes a part for each process of the kind.
struct Own;

impl Maker for Own {
    type Part = ByLine<Lines>;

    fn kinds(&self, alloc: Global) -> Result<Vec<KindSpec>, AllocError> {
        lines_is_an_own_kind();
        let mut kinds = Vec::new(alloc);
        kinds.push(lines_kind(alloc)?)?;
        Ok(kinds)
    }

    fn make(&self, alloc: Global, asked: &Asked<'_>) -> Result<ByLine<Lines>, AllocError> {
        let first = asked.number(b"START").unwrap_or(1);
        Ok(ByLine::new(alloc, Lines::new(first)))
    }
}

fn main(rt: HostRuntime) -> ExitCode {
    let out = StdSink::new(&rt);
    let err = StdSink::new(rt.stderr());
    making_program(rt.alloc(), &rt, env::args(&rt), out, err, &Own)
}
