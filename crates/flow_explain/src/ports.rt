//! Ports that a network names, gives or leaves out wrongly.
use crate::found::{Found, Home, Wanted, find_in};
use crate::kinds::{
    Side, automatic, is_option, nearest_port, other_side, port, put_example, put_option, put_ports,
};
use crate::near::put_nearest;
use crate::net::{AtFault, Net, put_found, put_if_found};
use crate::patterns::{put_slip, put_template_slip};
use crate::shown::{put_between, put_word};
use flow_flat::ExpandFault;
use flow_plan::{KindSpec, PortClass, PortRef, PortSpec};
use std::alloc::AllocError;

// Whether a kind has no such port on a side.
fn is_unknown(kind: &KindSpec, side: Side, name: &PortRef) -> bool {
    match port(kind, side, name.name.as_slice()) {
        Some(port) => name.element.is_some() && !port.array,
        None => true,
    }
}

/// A port that the process's kind hasn't.
pub fn put_unknown(
    net: Net<'_>,
    page: &mut String,
    fault: &ExpandFault,
    process: &[u8],
    name: &PortRef,
) -> Result<(), AllocError> {
    let home = net.home(process)?;
    let Some(kind) = net.row(&home)? else {
        return Ok(());
    };
    let wrong = name.name.as_slice();
    let side = unknown_side(net, &home, kind, name)?;
    net.put_statement(page, fault, &home, wrong, side)?;
    put_right_ports(net, page, kind, side, wrong)
}

// The side on which a port is unknown.
fn unknown_side(
    net: Net<'_>,
    home: &Home<'_>,
    kind: &KindSpec,
    name: &PortRef,
) -> Result<Side, AllocError> {
    if !is_unknown(kind, Side::Output, name) {
        return Ok(Side::Input);
    }
    let wanted = Wanted::Port(Side::Output, home.process, name.name.as_slice());
    match find_in(net.alloc, net.bytes, home.part, &wanted)? {
        Some(_) => Ok(Side::Output),
        None => Ok(Side::Input),
    }
}

// The ports that there are in the place of a wrong one, and what may have been meant by it.
fn put_right_ports(
    net: Net<'_>,
    page: &mut String,
    kind: &KindSpec,
    side: Side,
    wrong: &[u8],
) -> Result<(), AllocError> {
    let version = net.version()?;
    put_hint(net, page, kind, side, version, wrong)?;
    put_ports(page, kind, version)
}

// What may have been meant by an unknown port.
fn put_hint(
    net: Net<'_>,
    page: &mut String,
    kind: &KindSpec,
    side: Side,
    version: u32,
    wrong: &[u8],
) -> Result<(), AllocError> {
    if port(kind, side, wrong).is_some() {
        return put_between(page, "", wrong, " has no elements.\n");
    }
    let other = other_side(side);
    if port(kind, other, wrong).is_some() {
        return put_other_side(page, other, wrong);
    }
    match nearest_port(net.alloc, kind, side, version, wrong)? {
        Some(near) => put_nearest(page, "port", near, wrong),
        None => Ok(()),
    }
}

// Tells of a port that is one of this side.
fn put_other_side(page: &mut String, side: Side, name: &[u8]) -> Result<(), AllocError> {
    put_word(page, name)?;
    write!(
        page,
        " is an {}: an output stands before the arrow, an input behind it.\n",
        side.word()
    )
}

// The input of this name that a process's kind has.
fn input<'a>(
    net: Net<'a>,
    home: &Home<'a>,
    name: &[u8],
) -> Result<Option<&'a PortSpec>, AllocError> {
    match net.row(home)? {
        Some(kind) => Ok(port(kind, Side::Input, name)),
        None => Ok(None),
    }
}

/// A connection to a port that takes a text.
pub fn put_needs_initial(
    net: Net<'_>,
    page: &mut String,
    fault: &ExpandFault,
    process: &[u8],
    name: &PortRef,
) -> Result<(), AllocError> {
    let home = net.home(process)?;
    let wanted = name.name.as_slice();
    net.put_statement(page, fault, &home, wanted, Side::Input)?;
    let Some(option) = input(net, &home, wanted)? else {
        return Ok(());
    };
    page.push_str("This port takes a text and no packets, as ")?;
    put_text_for(page, option, home.process)
}

// A line that gives an option its text, and what that may be.
fn put_text_for(page: &mut String, option: &PortSpec, process: &[u8]) -> Result<(), AllocError> {
    put_text_line(page, option, process)?;
    put_option(page, &option.name, option.class)
}

// A line that gives an option its text.
fn put_text_line(page: &mut String, option: &PortSpec, process: &[u8]) -> Result<(), AllocError> {
    page.push('\'')?;
    put_example(page, option.class)?;
    put_between(page, "' -> ", option.name.as_slice(), " ")?;
    put_between(page, "", process, ".\n")
}

// Another line of the same part that uses the port which this line uses on this side.
fn other_use<'a>(
    net: Net<'a>,
    found: Option<Found<'a>>,
    side: Side,
) -> Result<Option<Found<'a>>, AllocError> {
    let Some(found) = found else {
        return Ok(None);
    };
    let Some(mention) = found.said.mention(side) else {
        return Ok(None);
    };
    let wanted = Wanted::Other(found.number, mention, side);
    find_in(net.alloc, net.bytes, found.part, &wanted)
}

// Another line that uses the port at fault, or else that of the statement.
fn other_at<'a>(
    net: Net<'a>,
    shown: &AtFault<'a>,
    side: Side,
) -> Result<Option<Found<'a>>, AllocError> {
    match other_use(net, shown.port, side)? {
        Some(other) => Ok(Some(other)),
        None => other_use(net, shown.statement, side),
    }
}

// The side of a port of a process that is taken.
fn taken_side(net: Net<'_>, home: &Home<'_>, name: &[u8]) -> Result<Side, AllocError> {
    match net.row(home)? {
        Some(kind) if is_output(kind, name) => Ok(Side::Output),
        _ => Ok(Side::Input),
    }
}

// Whether a process of this kind has an output of this name.
fn is_output(kind: &KindSpec, name: &[u8]) -> bool {
    name == automatic(Side::Output) || port(kind, Side::Output, name).is_some()
}

/// A port that has its connection or text already.
pub fn put_taken(
    net: Net<'_>,
    page: &mut String,
    fault: &ExpandFault,
    process: &[u8],
    name: &PortRef,
) -> Result<(), AllocError> {
    let home = net.home(process)?;
    let taken = name.name.as_slice();
    let side = taken_side(net, &home, taken)?;
    let shown = net.put_statement(page, fault, &home, taken, side)?;
    if let Some(other) = other_at(net, &shown, side)? {
        write!(page, "Line {} has this port already. ", other.number)?;
    }
    page.push_str(most_uses(side))
}

// How often a port of a side is used.
fn most_uses(side: Side) -> &'static str {
    match side {
        Side::Output =>
            "An output has one connection; a process of the kind Copy sends to several.\n",
        Side::Input => "An input has one text, or else connections.\n",
    }
}

/// A text that isn't one for its port.
pub fn put_bad_option(
    net: Net<'_>,
    page: &mut String,
    fault: &ExpandFault,
    process: &[u8],
    name: &PortRef,
) -> Result<(), AllocError> {
    let home = net.home(process)?;
    let wrong = name.name.as_slice();
    if let Some(kind) = net.row(&home)? {
        if let Some((option, pattern)) = template_of(kind, wrong) {
            return put_bad_template(net, page, process, option, pattern);
        }
    }
    let shown = net.put_statement(page, fault, &home, wrong, Side::Input)?;
    match input(net, &home, wrong)? {
        Some(option) => put_bad_text(net, page, option, shown.statement),
        None => Ok(()),
    }
}

// The port of this name, where it is one for templates, and the port of its pattern.
fn template_of<'a>(kind: &'a KindSpec, name: &[u8]) -> Option<(&'a PortSpec, &'a PortSpec)> {
    let option = port(kind, Side::Input, name)?;
    let PortClass::Template { pattern } = option.class else {
        return None;
    };
    let pattern = kind.inputs.as_slice().get(pattern as usize)?;
    Some((option, pattern))
}

// A text that is no template for its pattern, which is told of a whole network and not of a statement: so its line and that
// of the pattern are shown.
fn put_bad_template<'a>(
    net: Net<'a>,
    page: &mut String,
    process: &'a [u8],
    option: &'a PortSpec,
    pattern: &'a PortSpec,
) -> Result<(), AllocError> {
    let text = net.giver(process, option.name.as_slice())?;
    put_if_found(page, text)?;
    let pattern = net.giver(process, pattern.name.as_slice())?;
    put_if_found(page, pattern)?;
    put_option(page, &option.name, option.class)?;
    match (pattern, text) {
        (Some(pattern), Some(text)) => put_template_slip(net.alloc, page, &pattern, &text),
        _ => Ok(()),
    }
}

// What the text of an option may be, and where the one of a statement goes wrong as a pattern.
fn put_bad_text(
    net: Net<'_>,
    page: &mut String,
    option: &PortSpec,
    statement: Option<Found<'_>>,
) -> Result<(), AllocError> {
    put_option(page, &option.name, option.class)?;
    match (option.class, statement) {
        (PortClass::Pattern, Some(found)) => put_slip(net.alloc, page, &found),
        _ => Ok(()),
    }
}

/// A port that has neither a connection nor a text.
pub fn put_missing(
    net: Net<'_>,
    page: &mut String,
    process: &[u8],
    name: &[u8],
) -> Result<(), AllocError> {
    let home = net.home(process)?;
    net.put_process(page, &home)?;
    match net.row(&home)? {
        Some(kind) => put_missing_port(net, page, &home, kind, name),
        None => Ok(()),
    }
}

// A port of a process of this kind that has neither.
fn put_missing_port<'a>(
    net: Net<'a>,
    page: &mut String,
    home: &Home<'a>,
    kind: &KindSpec,
    name: &[u8],
) -> Result<(), AllocError> {
    match port(kind, Side::Input, name) {
        Some(option) if is_option(option) => put_missing_text(net, page, home, kind, option),
        Some(_) => put_missing_input(page, home.process, name),
        None => put_missing_output(page, home.process, name),
    }
}

fn put_missing_text<'a>(
    net: Net<'a>,
    page: &mut String,
    home: &Home<'a>,
    kind: &KindSpec,
    option: &PortSpec,
) -> Result<(), AllocError> {
    put_other_text(net, page, home, kind)?;
    page.push_str("This port wants a text, as ")?;
    put_text_for(page, option, home.process)
}

fn put_missing_input(page: &mut String, process: &[u8], name: &[u8]) -> Result<(), AllocError> {
    put_between(page, "This input wants a line NAME PORT -> ", name, " ")?;
    put_between(page, "", process, ".\n")
}

fn put_missing_output(page: &mut String, process: &[u8], name: &[u8]) -> Result<(), AllocError> {
    put_between(page, "This output wants a line ", process, " ")?;
    put_between(
        page,
        "",
        name,
        " -> PORT NAME; a process of the kind Discard takes what nobody wants.\n",
    )
}

// The first text that a process without its option is given at a port for packets.
fn put_other_text<'a>(
    net: Net<'a>,
    page: &mut String,
    home: &Home<'a>,
    kind: &KindSpec,
) -> Result<(), AllocError> {
    for port in kind.inputs.as_slice() {
        if let Some(found) = text_at(net, home, port)? {
            return put_misled(page, &found, port);
        }
    }
    Ok(())
}

// The line that gives a text to a process at a port for packets.
fn text_at<'a>(
    net: Net<'a>,
    home: &Home<'a>,
    port: &PortSpec,
) -> Result<Option<Found<'a>>, AllocError> {
    if is_option(port) {
        return Ok(None);
    }
    net.find(home, &Wanted::Text(home.process, port.name.as_slice()))
}

// Shows a line that gives a text to a port for packets.
fn put_misled(page: &mut String, found: &Found<'_>, port: &PortSpec) -> Result<(), AllocError> {
    put_found(page, found)?;
    write!(page, "The text of line {} goes to ", found.number)?;
    put_between(page, "", port.name.as_slice(), ", which takes packets. ")
}

/// Elements of an array without one before them.
pub fn put_gap(
    net: Net<'_>,
    page: &mut String,
    process: &[u8],
    name: &[u8],
    element: u32,
) -> Result<(), AllocError> {
    let home = net.home(process)?;
    let wanted = Wanted::Behind(home.process, name, element);
    if let Some(found) = net.find(&home, &wanted)? {
        put_found(page, &found)?;
    }
    put_no_element(page, home.process, name, element)
}

fn put_no_element(
    page: &mut String,
    process: &[u8],
    name: &[u8],
    element: u32,
) -> Result<(), AllocError> {
    page.push_str("Elements are counted from 0 without a gap: no line has ")?;
    put_word(page, name)?;
    write!(page, "[{element}] of ")?;
    put_between(page, "", process, ".\n")
}

/// A connection with two capacities.
pub fn put_capacity(
    net: Net<'_>,
    page: &mut String,
    fault: &ExpandFault,
) -> Result<(), AllocError> {
    match net.statement(fault)? {
        Some(found) => put_second_capacity(net, page, &found),
        None => Ok(()),
    }
}

// A line that gives a connection its second capacity.
fn put_second_capacity<'a>(
    net: Net<'a>,
    page: &mut String,
    found: &Found<'a>,
) -> Result<(), AllocError> {
    put_found(page, found)?;
    if let Some(first) = first_capacity(net, found)? {
        put_first_capacity(page, &first)?;
    }
    page.push_str(
        "The lines that lead to one input are one connection: they give the same capacity, or none.\n",
    )
}

// The line before this one that gave the same connection a capacity.
fn first_capacity<'a>(net: Net<'a>, found: &Found<'a>) -> Result<Option<Found<'a>>, AllocError> {
    let Some(to) = found.said.to else {
        return Ok(None);
    };
    match find_in(net.alloc, net.bytes, found.part, &Wanted::Capacity(to))? {
        Some(first) if first.number < found.number => Ok(Some(first)),
        _ => Ok(None),
    }
}

fn put_first_capacity(page: &mut String, first: &Found<'_>) -> Result<(), AllocError> {
    write!(page, "Line {} gave this connection (", first.number)?;
    put_between(page, "", first.said.capacity.unwrap_or(b""), "). ")
}
