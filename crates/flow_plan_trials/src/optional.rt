// An output that may be left open, and an option that may be left out.
use crate::calls::{Call, check_plan, planned};
use crate::checks::same;
use flow_plan::{Connection, Process, Sender};
use std::process::Abort;

// A Tally that counts for itself, from the output that has to be connected.
const COUNTED: &[Call] = &[
    Call::Process(b"T", b"Tally"),
    Call::Connect((b"T", b"COUNT", None), None, (b"T", b"IN", None)),
];

// The same from the other one.
const UNCOUNTED: &[Call] = &[
    Call::Process(b"T", b"Tally"),
    Call::Connect((b"T", b"OUT", None), None, (b"T", b"IN", None)),
];

#[test]
fn only_a_needed_output_is_missed(rt: HostRuntime) {
    check_plan(&rt, rt.alloc(), COUNTED, "accepted");
    check_plan(&rt, rt.alloc(), UNCOUNTED, "port missing");
}

const SECOND: &[Sender] = &[Sender {
    process: 0,
    output: 1,
}];

fn check_counted(rt: &impl Abort, process: &Process, connection: &Connection) {
    same(rt, "ports", (process.inputs, process.outputs), (1, 2));
    same(rt, "senders", connection.senders.as_slice(), SECOND);
}

#[test]
fn an_output_left_open_keeps_its_number(rt: HostRuntime) {
    let plan = planned(&rt, rt.alloc(), COUNTED);
    match (plan.processes(), plan.connections()) {
        ([process], [connection]) => check_counted(&rt, process, connection),
        _ => panic!(rt; "not one process and one connection"),
    }
}

// A Mark that passes to itself, with both its options, the second before the first.
const MARKED: &[Call] = &[
    Call::Process(b"M", b"Mark"),
    Call::Connect((b"M", b"OUT", None), None, (b"M", b"IN", None)),
    Call::Give(b"", (b"M", b"WITH", None)),
    Call::Give(b"7", (b"M", b"SIZE", None)),
];

// One without the option that may be left out, and one without the other.
const UNSIZED: &[Call] = &[
    Call::Process(b"M", b"Mark"),
    Call::Connect((b"M", b"OUT", None), None, (b"M", b"IN", None)),
    Call::Give(b"", (b"M", b"WITH", None)),
];

const UNMARKED: &[Call] = &[
    Call::Process(b"M", b"Mark"),
    Call::Connect((b"M", b"OUT", None), None, (b"M", b"IN", None)),
    Call::Give(b"7", (b"M", b"SIZE", None)),
];

#[test]
fn only_a_needed_option_is_missed(rt: HostRuntime) {
    check_plan(&rt, rt.alloc(), MARKED, "accepted");
    check_plan(&rt, rt.alloc(), UNSIZED, "accepted");
    check_plan(&rt, rt.alloc(), UNMARKED, "port missing");
}

fn check_marked(rt: &impl Abort, process: &Process) {
    match process.options.as_slice() {
        [with, size] => {
            same(
                rt,
                "the first option",
                (with.0, with.1.as_slice()),
                (1, b""),
            );
            same(
                rt,
                "the second option",
                (size.0, size.1.as_slice()),
                (0, b"7"),
            );
        }
        _ => panic!(rt; "not two options"),
    }
}

#[test]
fn an_option_has_the_place_of_its_port(rt: HostRuntime) {
    let plan = planned(&rt, rt.alloc(), MARKED);
    match plan.processes() {
        [process] => check_marked(&rt, process),
        _ => panic!(rt; "not one process"),
    }
}
