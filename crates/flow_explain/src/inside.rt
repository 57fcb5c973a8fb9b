//! Where a subnet stands inside itself.
use crate::found::{Found, Walk};
use crate::net::Net;
use crate::pieces::is_line_end;
use crate::said::{Mention, Said};
use std::alloc::AllocError;

/// So many kinds are followed at most, and the file is gone through so often.
const MOST_KINDS: usize = 64;

const MOST_PASSES: usize = 16;

/// The line that gives a process the kind of this subnet, in the subnet or in one that is met inside it.
pub fn met_again<'a>(net: Net<'a>, subnet: &'a [u8]) -> Result<Option<Found<'a>>, AllocError> {
    let mut met = Vec::new(net.alloc);
    met.push(subnet)?;
    for _ in 0..MOST_PASSES {
        if let Some(found) = pass(net, subnet, &mut met)? {
            return Ok(Some(found));
        }
    }
    Ok(None)
}

// Goes through the file once, and adds the kinds that are met in those that are met already.
fn pass<'a>(
    net: Net<'a>,
    subnet: &[u8],
    met: &mut Vec<&'a [u8]>,
) -> Result<Option<Found<'a>>, AllocError> {
    let mut walk = Walk::new();
    for line in net.bytes.split(is_line_end) {
        let found = walk.next_line(net.alloc, line)?;
        if is_in(met, found.part.unwrap_or(b"")) && meets(met, subnet, &found.said)? {
            return Ok(Some(found));
        }
    }
    Ok(None)
}

// Whether a line gives the kind of this subnet; another kind that it gives is met.
fn meets<'a>(met: &mut Vec<&'a [u8]>, subnet: &[u8], said: &Said<'a>) -> Result<bool, AllocError> {
    let from = kind(said.from);
    let to = kind(said.to);
    if from == subnet || to == subnet {
        return Ok(true);
    }
    add(met, from)?;
    add(met, to)?;
    Ok(false)
}

// The kind that a mention gives, or no word.
fn kind(mention: Option<Mention<'_>>) -> &[u8] {
    match mention {
        Some(mention) => mention.kind.unwrap_or(b""),
        None => b"",
    }
}

fn is_in(met: &[&[u8]], kind: &[u8]) -> bool {
    met.iter().any(|other| *other == kind)
}

fn add<'a>(met: &mut Vec<&'a [u8]>, kind: &'a [u8]) -> Result<(), AllocError> {
    if met.len() < MOST_KINDS && !kind.is_empty() && !is_in(met, kind) {
        met.push(kind)?;
    }
    Ok(())
}
