//! Where the statement stands that is at fault: the last one of the shortest beginning of the file that is refused in
//! the same way.
use crate::found::{Found, Walk};
use crate::own::OwnKinds;
use crate::pieces::{Piece, first_piece, is_line_end};
use crate::refusal::{Opened, open_network};
use crate::said::Tag;
use flow_flat::ExpandFault;
use flow_parse::{parse, print};
use std::alloc::{AllocError, Global};

/// A longer file isn't tried again and again.
const MOST_TRIED: usize = 262_144;

/// A pattern of no more bytes is soon compiled, unless it says how often something is repeated.
const QUICK: usize = 32;

/// Which lines of a canonical spelling are counted, and left out from some place on.
#[derive(Clone, Copy, PartialEq, Eq)]
pub enum Counted {
    /// Connections and initial texts.
    Statements,
    /// Processes; all that connects them is left out.
    Processes,
}

// What a line of a canonical spelling is for a count.
#[derive(Clone, Copy, PartialEq, Eq)]
enum Line {
    Counted,
    LeftOut,
    Kept,
}

fn line_of(line: &[u8], counted: Counted) -> Line {
    if line.is_empty() || is_frame(line) {
        return Line::Kept;
    }
    match counted {
        Counted::Statements => among_statements(line),
        Counted::Processes => among_processes(line),
    }
}

// Whether a line is the header, or begins or ends a subnet.
fn is_frame(line: &[u8]) -> bool {
    line.starts_with(b"flow ") || line == b"end".as_slice() || line.starts_with(b"subnet ")
}

fn is_outer(line: &[u8]) -> bool {
    line.starts_with(b"inport ") || line.starts_with(b"outport ")
}

fn is_process(line: &[u8]) -> bool {
    line.ends_with(b")") && !line.contains(&b' ')
}

fn among_statements(line: &[u8]) -> Line {
    if is_process(line) || is_outer(line) {
        Line::Kept
    } else {
        Line::Counted
    }
}

fn among_processes(line: &[u8]) -> Line {
    if is_process(line) {
        Line::Counted
    } else {
        Line::LeftOut
    }
}

// The spelling with so many of the counted lines, of which so many don't bring the fault.
fn beginning(
    alloc: Global,
    spelling: &[u8],
    counted: Counted,
    fine: usize,
    most: usize,
) -> Result<Vec<u8>, AllocError> {
    let mut kept = Vec::new(alloc);
    let mut left = most;
    let unknown = most.saturating_sub(fine);
    for line in spelling.split(is_line_end) {
        if stays(line_of(line, counted), &mut left) {
            keep(&mut kept, line, left >= unknown)?;
        }
    }
    Ok(kept)
}

// Whether a line stays, where so many counted ones are left.
fn stays(line: Line, left: &mut usize) -> bool {
    match line {
        Line::Kept => true,
        Line::LeftOut => false,
        Line::Counted => {
            let is_one = *left > 0;
            *left = left.saturating_sub(1);
            is_one
        }
    }
}

// Keeps a line. Where it doesn't bring the fault, a pattern that takes long stands in it no more, so that each is compiled
// but a few times in all: any other pattern does as well there.
fn keep(kept: &mut Vec<u8>, line: &[u8], is_fine: bool) -> Result<(), AllocError> {
    if line.is_empty() {
        return Ok(());
    }
    match behind_slow(line) {
        Some(rest) if is_fine => {
            kept.extend_from_slice(b"'x'")?;
            kept.extend_from_slice(rest)?;
        }
        _ => kept.extend_from_slice(line)?,
    }
    kept.push(b'\n')?;
    Ok(())
}

// What stands behind the text of a line that gives a pattern, where that may take long to be compiled.
fn behind_slow(line: &[u8]) -> Option<&[u8]> {
    match first_piece(line)? {
        (Piece::Quoted(text), rest) if text.len() > QUICK || text.contains(&b'{') => {
            if rest.starts_with(b" -> PATTERN ") {
                Some(rest)
            } else {
                None
            }
        }
        _ => None,
    }
}

fn count(spelling: &[u8], counted: Counted) -> usize {
    let lines = spelling.split(is_line_end);
    lines
        .filter(|line| line_of(line, counted) == Line::Counted)
        .count()
}

// Whether a network is refused for this fault.
fn is_refused(alloc: Global, net: &[u8], own: OwnKinds<'_>, fault: &ExpandFault) -> bool {
    match open_network(alloc, net, own) {
        Ok(opened) => has_fault(&opened, fault),
        Err(_) => false,
    }
}

fn has_fault(opened: &Opened, fault: &ExpandFault) -> bool {
    match opened {
        Opened::Network(found) => *found == *fault,
        _ => false,
    }
}

/// The least number of counted lines with which the spelling is refused for this fault, as with all of them.
pub fn fewest(
    alloc: Global,
    spelling: &[u8],
    own: OwnKinds<'_>,
    counted: Counted,
    fault: &ExpandFault,
) -> Result<usize, AllocError> {
    let mut fine: usize = 0;
    let mut refused = count(spelling, counted);
    for _ in 0..usize::BITS {
        let apart = refused.saturating_sub(fine);
        if apart < 2 {
            return Ok(refused);
        }
        let middle = fine.saturating_add(apart / 2);
        let tried = beginning(alloc, spelling, counted, fine, middle)?;
        if is_refused(alloc, &tried, own, fault) {
            refused = middle;
        } else {
            fine = middle;
        }
    }
    Ok(refused)
}

/// The canonical spelling of a file that has one, if it isn't long.
pub fn canonical(alloc: Global, net: &[u8]) -> Result<Option<Vec<u8>>, AllocError> {
    if net.len() > MOST_TRIED {
        return Ok(None);
    }
    match parse(alloc, net) {
        Ok(text) => Ok(Some(print(alloc, &text)?)),
        Err(_) => Ok(None),
    }
}

/// The process of this number in a canonical spelling, counted from 1.
pub fn process<'a>(
    alloc: Global,
    spelling: &'a [u8],
    number: usize,
) -> Result<Option<Found<'a>>, AllocError> {
    let mut walk = Walk::new();
    let mut count: usize = 0;
    for line in spelling.split(is_line_end) {
        let found = walk.next_line(alloc, line)?;
        if line_of(line, Counted::Processes) == Line::Counted && is_last(&mut count, number) {
            return Ok(Some(found));
        }
    }
    Ok(None)
}

// Counts one more, and tells whether it is the one of this number.
fn is_last(count: &mut usize, number: usize) -> bool {
    *count = count.saturating_add(1);
    *count == number
}

// Whether a line is a statement, of a subnet or else of the main part.
fn is_statement_of(found: &Found<'_>, is_inner: bool) -> bool {
    let tag = found.said.tag;
    (tag == Tag::Connection || tag == Tag::Initial) && found.part.is_some() == is_inner
}

// How many statements the subnets have.
fn inner_statements(alloc: Global, net: &[u8]) -> Result<usize, AllocError> {
    let mut walk = Walk::new();
    let mut inner: usize = 0;
    for line in net.split(is_line_end) {
        let found = walk.next_line(alloc, line)?;
        if is_statement_of(&found, true) {
            inner = inner.saturating_add(1);
        }
    }
    Ok(inner)
}

/// The line of this statement, where statements are counted from 1, the subnets' before main's.
pub fn statement<'a>(
    alloc: Global,
    net: &'a [u8],
    number: usize,
) -> Result<Option<Found<'a>>, AllocError> {
    let inner = inner_statements(alloc, net)?;
    if number > inner {
        return nth(alloc, net, number.saturating_sub(inner), false);
    }
    nth(alloc, net, number, true)
}

// The statement of this number among those of the subnets, or among those of the main part.
fn nth<'a>(
    alloc: Global,
    net: &'a [u8],
    number: usize,
    is_inner: bool,
) -> Result<Option<Found<'a>>, AllocError> {
    let mut walk = Walk::new();
    let mut count: usize = 0;
    for line in net.split(is_line_end) {
        let found = walk.next_line(alloc, line)?;
        if is_statement_of(&found, is_inner) && is_last(&mut count, number) {
            return Ok(Some(found));
        }
    }
    Ok(None)
}
