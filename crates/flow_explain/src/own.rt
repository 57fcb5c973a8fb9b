//! Kinds of the caller's own, which a network file may name beside the standard ones.
ghost use Rattle.flow_offer.specs.Kinds.{AreOwnKinds};

use crate::shown::put_word;
use flow_plan::{KindSpec, Plan};
use std::alloc::AllocError;

/// Kinds of the caller's own, as the top calls take them.
#[derive(Clone, Copy)]
pub struct OwnKinds<'a> {
    pub kinds: &'a [KindSpec],
    pub ghost are_own: { AreOwnKinds kinds.now },
}

// How many processes of a plan are of the kind.
fn processes_of(plan: &Plan, kind: &KindSpec) -> usize {
    plan.processes()
        .iter()
        .filter(|process| process.kind == kind.name)
        .count()
}

/// Tells of the first of these kinds of which a plan has more processes than there are parts for them.
pub fn put_no_part(
    page: &mut String,
    plan: &Plan,
    own: &[KindSpec],
    parts: &[usize],
) -> Result<(), AllocError> {
    for (kind, parts) in own.iter().zip(parts.iter()) {
        let processes = processes_of(plan, kind);
        if processes > *parts {
            return put_too_few(page, kind, processes, *parts);
        }
    }
    Ok(())
}

fn put_too_few(
    page: &mut String,
    kind: &KindSpec,
    processes: usize,
    parts: usize,
) -> Result<(), AllocError> {
    let noun = if processes == 1 {
        "process"
    } else {
        "processes"
    };
    write!(page, "The network has {processes} {noun} of the kind ")?;
    put_word(page, kind.name.as_slice())?;
    page.push_str(", and ")?;
    if parts == 1 {
        page.push_str("there is 1 part")?;
    } else {
        write!(page, "there are {parts} parts")?;
    }
    page.push_str(" of it, one for each process.\nA program of your own may hand in more.\n")
}
