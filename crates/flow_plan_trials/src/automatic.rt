// Automatic ports: each process has them, and they take no text and no element.
use crate::calls::{Call, CallRow, check_begun, planned};
use crate::checks::same;
use flow_plan::{Connection, Plan};
use std::process::Abort;

const ELEMENTS: &[CallRow] = &[
    (
        Call::Connect((b"P", b"*OUT", Some(0)), None, (b"Q", b"*IN", None)),
        "unknown port",
    ),
    (
        Call::Connect((b"P", b"*OUT", None), None, (b"Q", b"*IN", Some(0))),
        "unknown port",
    ),
    (
        Call::Connect((b"P", b"*IN", None), None, (b"Q", b"*IN", None)),
        "unknown port",
    ),
    (
        Call::Connect((b"P", b"*OUT", None), None, (b"Q", b"*OUT", None)),
        "unknown port",
    ),
    (
        Call::Connect((b"P", b"*OUT", None), None, (b"Q", b"*IN", None)),
        "accepted",
    ),
    (
        Call::Connect((b"P", b"*OUT", None), None, (b"Q", b"IN", None)),
        "port taken",
    ),
    (
        Call::Connect((b"P", b"OUT", None), None, (b"Q", b"*IN", None)),
        "accepted",
    ),
];

#[test]
fn an_automatic_port_has_no_element(rt: HostRuntime) {
    check_begun(&rt, rt.alloc(), ELEMENTS);
}

const TEXTS: &[CallRow] = &[
    (Call::Give(b"go", (b"P", b"*IN", None)), "unknown port"),
    (
        Call::Connect((b"P", b"OUT", None), None, (b"Q", b"*IN", None)),
        "accepted",
    ),
    (Call::Give(b"go", (b"Q", b"*IN", None)), "unknown port"),
];

#[test]
fn an_automatic_input_takes_no_text(rt: HostRuntime) {
    check_begun(&rt, rt.alloc(), TEXTS);
}

// P passes on to Q, and Q to P; as P ends, Q may begin.
const WAITING: &[Call] = &[
    Call::Process(b"P", b"Pass"),
    Call::Process(b"Q", b"Pass"),
    Call::Connect((b"P", b"OUT", None), None, (b"Q", b"IN", None)),
    Call::Connect((b"P", b"*OUT", None), None, (b"Q", b"*IN", None)),
    Call::Connect((b"Q", b"OUT", None), None, (b"P", b"IN", None)),
];

fn check_processes(rt: &impl Abort, plan: &Plan) {
    for process in plan.processes() {
        same(rt, "ports", (process.inputs, process.outputs), (1, 1));
    }
}

fn check_ended(rt: &impl Abort, ended: &Connection) {
    same(rt, "receiver", (ended.receiver, ended.input), (1, 1));
    match ended.senders.as_slice() {
        [sender] => same(rt, "sender", (sender.process, sender.output), (0, 1)),
        _ => panic!(rt; "not one sender"),
    }
}

// An automatic port has the number behind those of its process, and needn't be connected.
#[test]
fn an_automatic_port_has_the_last_number(rt: HostRuntime) {
    let plan = planned(&rt, rt.alloc(), WAITING);
    check_processes(&rt, &plan);
    match plan.connections() {
        [_, ended, _] => check_ended(&rt, ended),
        _ => panic!(rt; "not three connections"),
    }
}
