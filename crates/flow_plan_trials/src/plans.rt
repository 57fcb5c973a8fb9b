// Networks that are no plans, and their neighbours; and a whole plan.
use crate::calls::{Call, accepted, check_plan, comes_to, connect, made, planned};
use crate::checks::same;
use flow_items::Text;
use flow_net::PlanBuilder;
use flow_plan::{Plan, Process, Sender};
use std::alloc::Global;
use std::process::Abort;

// The one process S, with its size, whose elements 2, 0 and 1 are connected.
const LOOPED: &[Call] = &[
    Call::Process(b"S", b"Split"),
    Call::Give(b"12", (b"S", b"SIZE", None)),
    Call::Connect((b"S", b"OUT", Some(2)), None, (b"S", b"IN", Some(2))),
    Call::Connect((b"S", b"OUT", Some(0)), None, (b"S", b"IN", Some(0))),
    Call::Connect((b"S", b"OUT", Some(1)), None, (b"S", b"IN", Some(1))),
];

// The same without the element 1.
const GAP: &[Call] = &[
    Call::Process(b"S", b"Split"),
    Call::Give(b"12", (b"S", b"SIZE", None)),
    Call::Connect((b"S", b"OUT", Some(2)), None, (b"S", b"IN", Some(2))),
    Call::Connect((b"S", b"OUT", Some(0)), None, (b"S", b"IN", Some(0))),
];

// The same without elements.
const SIZED: &[Call] = &[
    Call::Process(b"S", b"Split"),
    Call::Give(b"12", (b"S", b"SIZE", None)),
];

#[test]
fn each_port_is_bound_and_no_element_is_left_out(rt: HostRuntime) {
    check_plan(&rt, rt.alloc(), SIZED, "port missing");
    check_plan(&rt, rt.alloc(), GAP, "gap");
    check_plan(&rt, rt.alloc(), LOOPED, "accepted");
}

// The same without its size, and with one element.
const UNSIZED: &[Call] = &[
    Call::Process(b"S", b"Split"),
    Call::Connect((b"S", b"OUT", None), None, (b"S", b"IN", None)),
];

#[test]
fn an_option_is_given(rt: HostRuntime) {
    check_plan(&rt, rt.alloc(), UNSIZED, "port missing");
}

// An output of S to its input of the same number, by a connection that is accepted.
fn loop_back(rt: &impl Abort, net: &mut PlanBuilder, alloc: Global, element: u32, capacity: u32) {
    let out = (b"S".as_slice(), b"OUT".as_slice(), Some(element));
    let into = (b"S".as_slice(), b"IN".as_slice(), Some(element));
    let made = connect(rt, net, alloc, out, Some(capacity), into);
    accepted(rt, made, element);
}

// So many of those: 64 have the capacity 1,024, and one more has the capacity 1.
fn loop_all(rt: &impl Abort, net: &mut PlanBuilder, alloc: Global, count: u32) {
    for element in 0..count {
        let capacity = if element < 64 { 1024 } else { 1 };
        loop_back(rt, net, alloc, element, capacity);
    }
}

fn check_full(rt: &impl Abort, alloc: Global, count: u32, wanted: &str) {
    let mut net = made(rt, alloc, SIZED);
    loop_all(rt, &mut net, alloc, count);
    let finished = net.finish();
    comes_to(rt, finished, wanted);
}

#[test]
fn the_capacities_come_to_65536_at_most(rt: HostRuntime) {
    check_full(&rt, rt.alloc(), 64, "accepted");
    check_full(&rt, rt.alloc(), 65, "too much capacity");
}

// The processes S, P and Q; S has its size and another text. P to S, S to Q and to P, and Q to the input of S that P is connected to.
const WHOLE: &[Call] = &[
    Call::Process(b"S", b"Split"),
    Call::Process(b"P", b"Pass"),
    Call::Process(b"Q", b"Pass"),
    Call::Give(b"12", (b"S", b"SIZE", None)),
    Call::Give(b"go", (b"S", b"IN", Some(1))),
    Call::Connect((b"P", b"OUT", None), None, (b"S", b"IN", None)),
    Call::Connect((b"S", b"OUT", Some(1)), Some(3), (b"Q", b"IN", None)),
    Call::Connect((b"S", b"OUT", None), None, (b"P", b"IN", None)),
    Call::Connect((b"Q", b"OUT", None), None, (b"S", b"IN", Some(0))),
];

fn check_process(
    rt: &impl Abort,
    plan: &Plan,
    number: usize,
    name: &[u8],
    kind: &[u8],
    ports: (u32, u32),
) {
    match plan.processes().get(number) {
        None => panic!(rt; "no process {number}"),
        Some(process) => {
            same(rt, "name", process.name.as_slice(), name);
            same(rt, "kind", process.kind.as_slice(), kind);
            same(rt, "ports", (process.inputs, process.outputs), ports);
        }
    }
}

#[test]
fn a_plan_has_its_processes_in_order(rt: HostRuntime) {
    let plan = planned(&rt, rt.alloc(), WHOLE);
    same(&rt, "processes", plan.processes().len(), 3);
    check_process(&rt, &plan, 0, b"S", b"Split", (2, 2));
    check_process(&rt, &plan, 1, b"P", b"Pass", (1, 1));
    check_process(&rt, &plan, 2, b"Q", b"Pass", (1, 1));
}

fn check_texts(rt: &impl Abort, texts: &[(u32, Text)], number: u32, text: &[u8]) {
    match texts {
        [only] => same(rt, "the text", (only.0, only.1.as_slice()), (number, text)),
        _ => panic!(rt; "not one text"),
    }
}

fn check_split(rt: &impl Abort, split: &Process) {
    check_texts(rt, split.options.as_slice(), 0, b"12");
    check_texts(rt, split.initials.as_slice(), 1, b"go");
}

#[test]
fn a_plan_has_its_texts(rt: HostRuntime) {
    let plan = planned(&rt, rt.alloc(), WHOLE);
    match plan.processes() {
        [split, pass, _] => {
            check_split(&rt, split);
            same(&rt, "options", pass.options.len(), 0);
            same(&rt, "initials", pass.initials.len(), 0);
        }
        _ => panic!(rt; "not three processes"),
    }
}

fn check_connection(
    rt: &impl Abort,
    plan: &Plan,
    number: usize,
    receiver: (u32, u32),
    capacity: u32,
    senders: &[Sender],
) {
    match plan.connections().get(number) {
        None => panic!(rt; "no connection {number}"),
        Some(connection) => {
            same(
                rt,
                "receiver",
                (connection.receiver, connection.input),
                receiver,
            );
            same(rt, "capacity", connection.capacity, capacity);
            same(rt, "senders", connection.senders.as_slice(), senders);
        }
    }
}

// The senders of the three connections.
const TO_SPLIT: &[Sender] = &[
    Sender {
        process: 1,
        output: 0,
    },
    Sender {
        process: 2,
        output: 0,
    },
];

const TO_Q: &[Sender] = &[Sender {
    process: 0,
    output: 1,
}];

const TO_P: &[Sender] = &[Sender {
    process: 0,
    output: 0,
}];

#[test]
fn a_plan_has_its_connections_by_first_mention(rt: HostRuntime) {
    let plan = planned(&rt, rt.alloc(), WHOLE);
    same(&rt, "connections", plan.connections().len(), 3);
    check_connection(&rt, &plan, 0, (0, 0), 10, TO_SPLIT);
    check_connection(&rt, &plan, 1, (2, 0), 3, TO_Q);
    check_connection(&rt, &plan, 2, (1, 0), 10, TO_P);
}
