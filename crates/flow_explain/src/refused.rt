//! A network that is refused: which line is at fault, and what would be right there.
use crate::found::{Found, Wanted, find_in};
use crate::inside::met_again;
use crate::kinds::{names, put_names, table_for};
use crate::near::{nearest, put_nearest};
use crate::net::{Net, put_if_found};
use crate::outer::put_outer_port;
use crate::own::OwnKinds;
use crate::place::{Counted, canonical, fewest, process};
use crate::ports::{
    put_bad_option, put_capacity, put_gap, put_missing, put_needs_initial, put_taken, put_unknown,
};
use flow_flat::ExpandFault;
use flow_limits::{
    CAPACITY_SUM_LIMIT, CONNECTION_LIMIT, DEFAULT_CAPACITY, PROCESS_LIMIT, SENDER_LIMIT,
    SUBNET_PROCESS_LIMIT,
};
use flow_net::{Many, PlanFault};
use std::alloc::{AllocError, Global};

/// Explains the fault of a network.
pub fn put_refused(
    alloc: Global,
    page: &mut String,
    bytes: &[u8],
    own: OwnKinds<'_>,
    fault: &ExpandFault,
) -> Result<(), AllocError> {
    let table = table_for(alloc, bytes, own.kinds)?;
    let net = Net {
        alloc,
        bytes,
        kinds: &table,
        own,
    };
    put_network_fault(net, page, fault)
}

fn put_network_fault(
    net: Net<'_>,
    page: &mut String,
    fault: &ExpandFault,
) -> Result<(), AllocError> {
    match fault {
        ExpandFault::Recursive(name) => put_recursive(net, page, name.as_slice()),
        ExpandFault::Depth(name) => put_depth(net, page, name.as_slice()),
        ExpandFault::OuterPort(name, port) => {
            put_outer_port(net, page, fault, name.as_slice(), port)
        }
        ExpandFault::Plan(plan) => put_plan(net, page, fault, plan),
    }
}

fn put_plan(
    net: Net<'_>,
    page: &mut String,
    fault: &ExpandFault,
    plan: &PlanFault,
) -> Result<(), AllocError> {
    match plan {
        PlanFault::UnknownKind(name, kind) => {
            put_unknown_kind(net, page, name.as_slice(), kind.as_slice())
        }
        PlanFault::PortUnknown(name, port) => put_unknown(net, page, fault, name.as_slice(), port),
        PlanFault::NeedsInitial(name, port) => {
            put_needs_initial(net, page, fault, name.as_slice(), port)
        }
        PlanFault::PortTaken(name, port) => put_taken(net, page, fault, name.as_slice(), port),
        PlanFault::BadOption(name, port) => put_bad_option(net, page, fault, name.as_slice(), port),
        PlanFault::PortMissing(name, port) => {
            put_missing(net, page, name.as_slice(), port.as_slice())
        }
        PlanFault::ElementGap(name, port, element) => {
            put_gap(net, page, name.as_slice(), port.as_slice(), *element)
        }
        PlanFault::Capacity(_) => put_capacity(net, page, fault),
        PlanFault::TooMany(many) => put_too_many(net, page, fault, *many),
        // No file is refused for one of these.
        PlanFault::SameName(_) => Ok(()),
        PlanFault::UnknownProcess(_) => Ok(()),
    }
}

fn put_recursive(net: Net<'_>, page: &mut String, name: &[u8]) -> Result<(), AllocError> {
    put_if_found(page, met_again(net, name)?)?;
    page.push_str("A subnet doesn't stand inside itself, nor inside one that stands in it.\n")
}

fn put_depth(net: Net<'_>, page: &mut String, name: &[u8]) -> Result<(), AllocError> {
    let home = net.home(name)?;
    net.put_process(page, &home)?;
    page.push_str("Subnets stand in subnets to eight levels.\n")
}

fn put_unknown_kind(
    net: Net<'_>,
    page: &mut String,
    name: &[u8],
    kind: &[u8],
) -> Result<(), AllocError> {
    let home = net.home(name)?;
    net.put_process(page, &home)?;
    let names = names(net)?;
    put_kinds(net.alloc, page, &names, kind)
}

// The kinds that there are, and the nearest to a wrong one.
fn put_kinds(
    alloc: Global,
    page: &mut String,
    names: &[&[u8]],
    wrong: &[u8],
) -> Result<(), AllocError> {
    let near = nearest(alloc, wrong, names)?;
    if let Some(near) = near {
        put_nearest(page, "kind", near, wrong)?;
    }
    put_names(page, names, near)
}

// The line of the process with which there are too many, if the file is short enough to try.
fn put_last_process(
    net: Net<'_>,
    page: &mut String,
    fault: &ExpandFault,
) -> Result<(), AllocError> {
    match canonical(net.alloc, net.bytes)? {
        Some(spelling) => put_last_of(net, page, &spelling, fault),
        None => Ok(()),
    }
}

// The same, by the file's canonical spelling.
fn put_last_of(
    net: Net<'_>,
    page: &mut String,
    spelling: &[u8],
    fault: &ExpandFault,
) -> Result<(), AllocError> {
    let number = fewest(net.alloc, spelling, net.own, Counted::Processes, fault)?;
    match process(net.alloc, spelling, number)? {
        Some(last) => put_mentioned(net, page, &last),
        None => Ok(()),
    }
}

// The line of the file that mentions the process of a line of its canonical spelling.
fn put_mentioned(net: Net<'_>, page: &mut String, last: &Found<'_>) -> Result<(), AllocError> {
    let Some(from) = last.said.from else {
        return Ok(());
    };
    let wanted = Wanted::Process(from.process);
    let found: Option<Found<'_>> = find_in(net.alloc, net.bytes, last.part, &wanted)?;
    put_if_found(page, found)
}

fn put_too_many(
    net: Net<'_>,
    page: &mut String,
    fault: &ExpandFault,
    many: Many,
) -> Result<(), AllocError> {
    match many {
        Many::Processes | Many::Instances => put_last_process(net, page, fault)?,
        Many::Connections => put_if_found(page, net.statement(fault)?)?,
        Many::CapacitySum => {}
    }
    put_most(page, many)
}

// How many there may be.
fn put_most(page: &mut String, many: Many) -> Result<(), AllocError> {
    match many {
        Many::Processes => write!(
            page,
            "A network has at most {PROCESS_LIMIT} processes, with all subnets written out.\n"
        ),
        Many::Instances => write!(
            page,
            "At most {SUBNET_PROCESS_LIMIT} processes are subnets.\n"
        ),
        Many::Connections => write!(
            page,
            "A network has at most {CONNECTION_LIMIT} connections, and a connection at most {SENDER_LIMIT} senders.\n"
        ),
        Many::CapacitySum => write!(
            page,
            "All capacities come to at most {CAPACITY_SUM_LIMIT} packets; where no line gives one, a connection has room for {DEFAULT_CAPACITY}.\n"
        ),
    }
}
