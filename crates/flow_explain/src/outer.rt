//! Outer ports of subnets.
use crate::found::{Found, Walk, is_same_part};
use crate::kinds::{Side, automatic, put_no_port};
use crate::net::{Net, put_found, put_if_found};
use crate::pieces::is_line_end;
use crate::said::Tag;
use crate::shown::{put_behind, put_between};
use flow_flat::ExpandFault;
use flow_plan::PortRef;
use std::alloc::AllocError;

/// So many outer ports of a side are named.
const MOST: usize = 16;

fn tag_of(side: Side) -> Tag {
    match side {
        Side::Input => Tag::OuterInput,
        Side::Output => Tag::OuterOutput,
    }
}

fn is_automatic(name: &[u8]) -> bool {
    name == automatic(Side::Input) || name == automatic(Side::Output)
}

/// An outer port that a subnet hasn't, or has twice.
pub fn put_outer_port(
    net: Net<'_>,
    page: &mut String,
    fault: &ExpandFault,
    process: &[u8],
    port: &PortRef,
) -> Result<(), AllocError> {
    let home = net.home(process)?;
    match net.kind(&home)? {
        Some(subnet) => put_port_of(net, page, fault, subnet, port),
        None => Ok(()),
    }
}

// An outer port that this subnet hasn't, or has twice.
fn put_port_of(
    net: Net<'_>,
    page: &mut String,
    fault: &ExpandFault,
    subnet: &[u8],
    port: &PortRef,
) -> Result<(), AllocError> {
    match second_line(net, subnet, port.name.as_slice())? {
        Some(second) => put_twice(page, &second),
        None => put_absent(net, page, fault, subnet, port),
    }
}

fn put_twice(page: &mut String, second: &Found<'_>) -> Result<(), AllocError> {
    put_found(page, second)?;
    page.push_str("A subnet has one line for each of its outer ports.\n")
}

fn put_absent(
    net: Net<'_>,
    page: &mut String,
    fault: &ExpandFault,
    subnet: &[u8],
    port: &PortRef,
) -> Result<(), AllocError> {
    put_if_found(page, net.statement(fault)?)?;
    put_misnamed(page, port)?;
    put_ports_of(net, page, subnet)
}

// Says of a port what no outer port has.
fn put_misnamed(page: &mut String, port: &PortRef) -> Result<(), AllocError> {
    if is_automatic(port.name.as_slice()) {
        page.push_str("A subnet has no automatic ports: each process in it has its own. ")?;
    }
    if port.element.is_some() {
        page.push_str("An outer port has no elements. ")?;
    }
    Ok(())
}

fn put_ports_of(net: Net<'_>, page: &mut String, subnet: &[u8]) -> Result<(), AllocError> {
    put_between(page, "The outer ports of the subnet ", subnet, ": ")?;
    put_names(net, page, subnet, Side::Input)?;
    page.push_str("; ")?;
    put_names(net, page, subnet, Side::Output)?;
    page.push_str(".\n")
}

// Which sides of a subnet have a line for an outer port of a name.
#[derive(Drop)]
struct Given {
    input: bool,
    output: bool,
}

impl Given {
    // Whether the side of a line of this form has one already; from then on it has.
    fn has_again(&mut self, tag: Tag) -> bool {
        match tag {
            Tag::OuterInput => is_again(&mut self.input),
            Tag::OuterOutput => is_again(&mut self.output),
            _ => false,
        }
    }
}

// Whether something was given already; from then on it is.
fn is_again(given: &mut bool) -> bool {
    let before = *given;
    *given = true;
    before
}

// The line of a subnet that gives an outer port of this name a second time on one side.
fn second_line<'a>(
    net: Net<'a>,
    subnet: &[u8],
    name: &[u8],
) -> Result<Option<Found<'a>>, AllocError> {
    let mut walk = Walk::new();
    let mut given = Given {
        input: false,
        output: false,
    };
    for line in net.bytes.split(is_line_end) {
        let found = walk.next_line(net.alloc, line)?;
        if is_named(&found, subnet, name) && given.has_again(found.said.tag) {
            return Ok(Some(found));
        }
    }
    Ok(None)
}

// Whether a line of a subnet has this name.
fn is_named(found: &Found<'_>, subnet: &[u8], name: &[u8]) -> bool {
    is_same_part(found.part, Some(subnet)) && found.said.name == name
}

// Whether a line gives an outer port of a subnet on this side.
fn is_outer_of(found: &Found<'_>, subnet: &[u8], side: Side) -> bool {
    is_same_part(found.part, Some(subnet)) && found.said.tag == tag_of(side)
}

// The names of a subnet's outer ports on one side.
fn put_names(net: Net<'_>, page: &mut String, subnet: &[u8], side: Side) -> Result<(), AllocError> {
    let mut walk = Walk::new();
    let mut count: usize = 0;
    for line in net.bytes.split(is_line_end) {
        let found = walk.next_line(net.alloc, line)?;
        if is_outer_of(&found, subnet, side) {
            count = count.saturating_add(1);
            if count > MOST {
                return page.push_str(", ..");
            }
            put_name(page, side, count, found.said.name)?;
        }
    }
    if count == 0 {
        return put_no_port(page, side);
    }
    Ok(())
}

// The name of the outer port of a side that is counted as this one.
fn put_name(page: &mut String, side: Side, count: usize, name: &[u8]) -> Result<(), AllocError> {
    page.push_str(if count == 1 { side.word() } else { "," })?;
    put_behind(page, " ", name)
}
