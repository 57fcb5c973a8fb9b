// Connections that are refused, and their neighbours.
use crate::calls::{BEGUN, Call, CallRow, accepted, check, check_begun, comes_to, connect, made};
use flow_net::{PlanBuilder, PlanStop};
use std::alloc::Global;
use std::process::Abort;

const PORTS: &[CallRow] = &[
    (
        Call::Connect((b"X", b"OUT", Some(0)), None, (b"T", b"IN", Some(0))),
        "unknown process",
    ),
    (
        Call::Connect((b"S", b"OUT", Some(0)), None, (b"X", b"IN", Some(0))),
        "unknown process",
    ),
    (
        Call::Connect((b"S", b"OUT", Some(512)), None, (b"T", b"IN", Some(0))),
        "unknown port",
    ),
    (
        Call::Connect((b"S", b"OUT", Some(0)), None, (b"T", b"IN", Some(512))),
        "unknown port",
    ),
    (
        Call::Connect((b"S", b"OUT", Some(511)), None, (b"T", b"IN", Some(511))),
        "accepted",
    ),
    (
        Call::Connect((b"S", b"OUT", Some(0)), None, (b"P", b"IN", Some(0))),
        "unknown port",
    ),
    (
        Call::Connect((b"P", b"OUT", Some(0)), None, (b"S", b"IN", Some(0))),
        "unknown port",
    ),
    (
        Call::Connect((b"S", b"OUT", Some(0)), None, (b"P", b"IN", None)),
        "accepted",
    ),
    (
        Call::Connect((b"P", b"OUT", None), None, (b"S", b"IN", None)),
        "accepted",
    ),
];

#[test]
fn a_connection_is_between_ports_that_are_there(rt: HostRuntime) {
    check_begun(&rt, rt.alloc(), PORTS);
}

const STREAMS: &[CallRow] = &[
    (
        Call::Connect((b"S", b"NONE", None), None, (b"T", b"IN", None)),
        "unknown port",
    ),
    (
        Call::Connect((b"S", b"IN", None), None, (b"T", b"IN", None)),
        "unknown port",
    ),
    (
        Call::Connect((b"S", b"OUT", None), None, (b"T", b"OUT", None)),
        "unknown port",
    ),
    (
        Call::Connect((b"S", b"OUT", None), None, (b"T", b"SIZE", None)),
        "needs a text",
    ),
    (
        Call::Connect((b"S", b"OUT", None), None, (b"T", b"IN", None)),
        "accepted",
    ),
];

#[test]
fn a_connection_is_from_an_output_to_a_stream(rt: HostRuntime) {
    check_begun(&rt, rt.alloc(), STREAMS);
}

// A connection from an element of S to one of T: the elements and the capacity, and what it comes to.
type JoinRow = (u32, Option<u32>, u32, &'static str);

fn join(
    rt: &impl Abort,
    net: &mut PlanBuilder,
    alloc: Global,
    output: u32,
    capacity: Option<u32>,
    input: u32,
) -> Result<(), PlanStop> {
    let out = (b"S".as_slice(), b"OUT".as_slice(), Some(output));
    let into = (b"T".as_slice(), b"IN".as_slice(), Some(input));
    connect(rt, net, alloc, out, capacity, into)
}

fn check_join(rt: &impl Abort, net: &mut PlanBuilder, alloc: Global, row: &JoinRow) {
    let (output, capacity, input, wanted) = *row;
    let made = join(rt, net, alloc, output, capacity, input);
    comes_to(rt, made, wanted);
}

fn check_joins(rt: &impl Abort, net: &mut PlanBuilder, alloc: Global, rows: &[JoinRow]) {
    for row in rows {
        check_join(rt, net, alloc, row);
    }
}

fn check_joined(rt: &impl Abort, alloc: Global, rows: &[JoinRow]) {
    let mut net = made(rt, alloc, BEGUN);
    check_joins(rt, &mut net, alloc, rows);
}

const CAPACITIES: &[JoinRow] = &[
    (0, Some(0), 0, "capacity"),
    (0, Some(4097), 0, "capacity"),
    (0, Some(4096), 0, "accepted"),
    (1, Some(1), 1, "accepted"),
    (2, Some(4095), 0, "capacity"),
    (2, Some(4096), 0, "accepted"),
    (3, None, 0, "accepted"),
    (4, None, 2, "accepted"),
    (5, Some(7), 2, "accepted"),
    (6, Some(8), 2, "capacity"),
];

#[test]
fn a_capacity_is_from_1_to_4096_and_stays(rt: HostRuntime) {
    check_joined(&rt, rt.alloc(), CAPACITIES);
}

const OUTPUTS: &[JoinRow] = &[
    (0, None, 0, "accepted"),
    (0, None, 1, "port taken"),
    (0, None, 0, "port taken"),
    (1, None, 0, "accepted"),
];

#[test]
fn an_output_is_connected_once(rt: HostRuntime) {
    check_joined(&rt, rt.alloc(), OUTPUTS);
}

const LAST: &[CallRow] = &[
    (
        Call::Connect((b"P", b"OUT", None), None, (b"Q", b"IN", None)),
        "too many connections",
    ),
    (
        Call::Connect((b"P", b"OUT", None), None, (b"T", b"IN", None)),
        "accepted",
    ),
];

fn join_element(rt: &impl Abort, net: &mut PlanBuilder, alloc: Global, element: u32) {
    let made = join(rt, net, alloc, element, None, element);
    accepted(rt, made, element);
}

fn join_elements(rt: &impl Abort, net: &mut PlanBuilder, alloc: Global) {
    for element in 0..512 {
        join_element(rt, net, alloc, element);
    }
}

#[test]
fn a_network_has_512_connections(rt: HostRuntime) {
    let mut net = made(&rt, rt.alloc(), BEGUN);
    join_elements(&rt, &mut net, rt.alloc());
    check(&rt, &mut net, rt.alloc(), LAST);
}
