//! Outputs that a network leaves open, told where it is only checked: what a process sends there is dropped, or goes
//! elsewhere, and nothing in a report says where.
ghost use Rattle.flow_offer.specs.Kinds.{AreOwnKinds};

use crate::found::{Found, Walk, Wanted, find, find_in};
use crate::kinds::{Side, ports, row, table_for};
use crate::net::put_found;
use crate::pieces::is_line_end;
use crate::refusal::bytes_of;
use crate::said::Mention;
use crate::shown::put_between;
use flow_plan::{KindSpec, PortSpec};
use flow_words::{Command, command};
use std::alloc::{AllocError, Global};
use std::fs::{File, Files};

/// Tells which outputs are left open in the network file that these words ask to have checked, or in its filled text where
/// it is filled. It may name these kinds of the caller's own.
pub fn put_open<R: Files<File = File> + Eprint + Drop>(
    alloc: Global,
    rt: &R,
    page: &mut String,
    words: &[String],
    own: &[KindSpec],
    filled: Option<&[u8]>,
) -> Result<(), AllocError>
    requires { AreOwnKinds own.now }
{
    let Some(Command::Check(name)) = command(alloc, words)? else {
        return Ok(());
    };
    if let Some(text) = filled {
        return put_all(alloc, page, text, own);
    }
    match bytes_of(alloc, rt, name) {
        Some(bytes) => put_all(alloc, page, &bytes, own),
        None => Ok(()),
    }
}

// Tells of a network file, which may name these kinds of the caller's own.
fn put_all(
    alloc: Global,
    page: &mut String,
    net: &[u8],
    own: &[KindSpec],
) -> Result<(), AllocError> {
    let kinds = table_for(alloc, net, own)?;
    put_lines(alloc, page, net, &kinds)
}

// Tells of the processes to which the lines of a network file give a kind.
fn put_lines(
    alloc: Global,
    page: &mut String,
    net: &[u8],
    kinds: &[KindSpec],
) -> Result<(), AllocError> {
    let mut walk = Walk::new();
    for line in net.split(is_line_end) {
        let found = walk.next_line(alloc, line)?;
        put_process(alloc, page, net, kinds, &found, found.said.from)?;
        put_process(alloc, page, net, kinds, &found, found.said.to)?;
    }
    Ok(())
}

// Tells of the outputs of a process, where a line gives it a kind of the table.
fn put_process(
    alloc: Global,
    page: &mut String,
    net: &[u8],
    kinds: &[KindSpec],
    found: &Found<'_>,
    mention: Option<Mention<'_>>,
) -> Result<(), AllocError> {
    let Some(mention) = mention else {
        return Ok(());
    };
    let Some(name) = mention.kind else {
        return Ok(());
    };
    let Some(kind) = row(kinds, name) else {
        return Ok(());
    };
    // A subnet may bear the name of a kind, and then it is meant.
    match find(alloc, net, &Wanted::Subnet(name))? {
        Some(_) => Ok(()),
        None => put_outputs(alloc, page, net, kind, found, mention.process),
    }
}

// Tells of the outputs of a process of this kind that no line of its part leads on.
fn put_outputs(
    alloc: Global,
    page: &mut String,
    net: &[u8],
    kind: &KindSpec,
    found: &Found<'_>,
    process: &[u8],
) -> Result<(), AllocError> {
    for output in ports(kind, Side::Output) {
        if is_open(alloc, net, found.part, process, output)? {
            put_found(page, found)?;
            put_output(page, process, output, instead(kind))?;
        }
    }
    Ok(())
}

fn is_open(
    alloc: Global,
    net: &[u8],
    part: Option<&[u8]>,
    process: &[u8],
    output: &PortSpec,
) -> Result<bool, AllocError> {
    if output.needed {
        return Ok(false);
    }
    let wanted = Wanted::Port(Side::Output, process, output.name.as_slice());
    Ok(find_in(alloc, net, part, &wanted)?.is_none())
}

// What becomes of what a process of this kind would send to an output that is left open. A Rewrite loses nothing.
fn instead(kind: &KindSpec) -> &'static str {
    if kind.name.as_slice() == b"Rewrite".as_slice() {
        " is left open: what it would send there goes to OUT.\n"
    } else {
        " is left open: what it sends there is dropped.\n"
    }
}

fn put_output(
    page: &mut String,
    process: &[u8],
    output: &PortSpec,
    instead: &str,
) -> Result<(), AllocError> {
    put_between(page, "The output ", output.name.as_slice(), " of ")?;
    put_between(page, "", process, instead)
}
