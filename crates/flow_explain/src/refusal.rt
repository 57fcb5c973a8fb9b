//! A network file that is refused is read once more, and its fault explained.
ghost use Rattle.flow_offer.specs.Kinds.{AreOwnKinds};
ghost use Rattle.flow_parse.specs.Values.{IsNetText};

use crate::found::{Wanted, find};
use crate::line::put_fault;
use crate::own::{OwnKinds, put_no_part};
use crate::patterns::put_large;
use crate::refused::put_refused;
use flow_expand::{ExpandStop, expand};
use flow_files::FileShelf;
use flow_flat::ExpandFault;
use flow_limits::FILE_LIMIT;
use flow_offer::{own_kinds_make_a_table_of_each_version, table_of};
use flow_parse::{NetFault, NetText, ParseStop, Reason, parse};
use flow_plan::{KindSpec, Plan};
use flow_text::{Shelf, read_all};
use std::alloc::{AllocError, Global};
use std::fs::{File, Files};

/// Explains why the network file of this name is refused, where it is a regular one: a pipe has nothing left to give. It
/// may name these kinds of the caller's own, of which there are so many parts.
pub fn put_refusal<R: Files<File = File> + Eprint + Drop>(
    alloc: Global,
    rt: &R,
    page: &mut String,
    name: &str,
    own: &[KindSpec],
    parts: &[usize],
) -> Result<(), AllocError>
    requires { AreOwnKinds own.now }
{
    match bytes_of(alloc, rt, name) {
        Some(net) => put_opened(alloc, page, &net, OwnKinds { kinds: own }, parts),
        None => Ok(()),
    }
}

/// The forms that a line of the main part may have besides in a file of version 3.
const THIRD_FORMS: &str =
    "In the main part of a file of version 3 there are besides: inport WORD 'TEXT' -> FILE A, and use 'FILE'.\n";

/// Explains why a network file of version 3 is refused whose filled text is this. It may name these kinds of the caller's own, of which there are so many parts.
pub fn put_refusal_of(
    alloc: Global,
    page: &mut String,
    net: &[u8],
    own: &[KindSpec],
    parts: &[usize],
) -> Result<(), AllocError>
    requires { AreOwnKinds own.now }
{
    put_opened(alloc, page, net, OwnKinds { kinds: own }, parts)?;
    put_third(alloc, page, net)
}

// Tells of the forms of version 3 where a line of a filled text's main part has none.
fn put_third(alloc: Global, page: &mut String, text: &[u8]) -> Result<(), AllocError> {
    let fault = match parse(alloc, text) {
        Err(ParseStop::Fault(fault)) if fault.reason == Reason::Form => fault,
        _ => return Ok(()),
    };
    match find(alloc, text, &Wanted::Number(fault.line))? {
        Some(found) if found.part.is_none() => page.push_str(THIRD_FORMS),
        _ => Ok(()),
    }
}

/// Explains why memory was wanting for the network file of this name, where a pattern in it is too large.
pub fn put_too_large<R: Files<File = File> + Eprint + Drop>(
    alloc: Global,
    rt: &R,
    page: &mut String,
    name: &str,
) -> Result<(), AllocError> {
    match bytes_of(alloc, rt, name) {
        Some(net) => put_large(alloc, page, &net),
        None => Ok(()),
    }
}

/// The bytes of the file of this name, where it is a regular one that can be read.
pub fn bytes_of<R: Files<File = File> + Eprint + Drop>(
    alloc: Global,
    rt: &R,
    name: &str,
) -> Option<Vec<u8>> {
    if !is_regular(rt, name) {
        return None;
    }
    let mut shelf = FileShelf::new(alloc, rt);
    read_named(alloc, &mut shelf, name)
}

fn is_regular<R: Files<File = File>>(rt: &R, name: &str) -> bool {
    match rt.metadata(name) {
        Ok(found) => found.is_file(),
        Err(_) => false,
    }
}

// What the file of this name holds, where it can be read.
fn read_named<S: Shelf>(alloc: Global, shelf: &mut S, name: &str) -> Option<Vec<u8>> {
    if shelf.open(name).is_err() {
        return None;
    }
    read_all(alloc, shelf, FILE_LIMIT).ok()
}

// Explains why a file with these bytes is refused.
fn put_opened(
    alloc: Global,
    page: &mut String,
    net: &[u8],
    own: OwnKinds<'_>,
    parts: &[usize],
) -> Result<(), AllocError> {
    match open_network(alloc, net, own)? {
        Opened::Line(fault) => put_fault(alloc, page, net, own, fault),
        Opened::Network(fault) => put_refused(alloc, page, net, own, &fault),
        Opened::Plan(plan) => put_no_part(page, &plan, own.kinds, parts),
    }
}

/// What the bytes of a network file are.
#[derive(Drop)]
pub enum Opened {
    /// A line of the file has a fault.
    Line(NetFault),
    /// The network that the file spells has a fault.
    Network(ExpandFault),
    /// The file has no fault, and this is its plan.
    Plan(Plan),
}

/// What a network file's bytes are.
pub fn open_network(alloc: Global, net: &[u8], own: OwnKinds<'_>) -> Result<Opened, AllocError> {
    match parse(alloc, net) {
        Ok(text) => open_text(alloc, &text, own),
        Err(ParseStop::Fault(fault)) => Ok(Opened::Line(fault)),
        Err(ParseStop::NoMemory) => Err(AllocError),
    }
}

// What a text is that a network file spells.
fn open_text(alloc: Global, text: &NetText, own: OwnKinds<'_>) -> Result<Opened, AllocError>
    requires { IsNetText text.now }
{
    own_kinds_make_a_table_of_each_version();
    let kinds = table_of(alloc, text.version, own.kinds)?;
    match expand(alloc, text, kinds) {
        Ok(plan) => Ok(Opened::Plan(plan)),
        Err(ExpandStop::Fault(fault)) => Ok(Opened::Network(fault)),
        Err(ExpandStop::NoMemory) => Err(AllocError),
    }
}
