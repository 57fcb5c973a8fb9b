// The calls of a builder, as rows of tables, and what they come to.
use crate::kinds::kinds;
use flow_items::Text;
use flow_net::{Many, PlanBuilder, PlanFault, PlanStop};
use flow_plan::{Plan, PortRef};
use std::alloc::Global;
use std::process::Abort;

/// A port of a process, and its element where there is one.
pub type PortName = (&'static [u8], &'static [u8], Option<u32>);

/// A call of a builder.
pub enum Call {
    /// A process of this name, of this kind.
    Process(&'static [u8], &'static [u8]),
    /// A connection from one port to another, of a capacity where there is one.
    Connect(PortName, Option<u32>, PortName),
    /// A text for an input.
    Give(&'static [u8], PortName),
}

/// A call, and what it comes to, in a word.
pub type CallRow = (Call, &'static str);

/// The processes S and T, which split, and P and Q, which pass on.
pub const BEGUN: &[Call] = &[
    Call::Process(b"S", b"Split"),
    Call::Process(b"T", b"Split"),
    Call::Process(b"P", b"Pass"),
    Call::Process(b"Q", b"Pass"),
];

fn named(fault: &PlanFault) -> &'static str {
    match fault {
        PlanFault::SameName(_) => "same name",
        PlanFault::UnknownKind(_, _) => "unknown kind",
        PlanFault::UnknownProcess(_) => "unknown process",
        PlanFault::PortUnknown(_, _) => "unknown port",
        PlanFault::NeedsInitial(_, _) => "needs a text",
        PlanFault::Capacity(_) => "capacity",
        PlanFault::PortTaken(_, _) => "port taken",
        PlanFault::BadOption(_, _) => "bad option",
        PlanFault::PortMissing(_, _) => "port missing",
        PlanFault::ElementGap(_, _, _) => "gap",
        PlanFault::TooMany(Many::Processes) => "too many processes",
        PlanFault::TooMany(Many::Connections) => "too many connections",
        PlanFault::TooMany(Many::CapacitySum) => "too much capacity",
        PlanFault::TooMany(Many::Instances) => "too many instances",
    }
}

// What a call came to, in a word.
fn told<T>(made: &Result<T, PlanStop>) -> &'static str {
    match made {
        Ok(_) => "accepted",
        Err(PlanStop::Fault(fault)) => named(fault),
        Err(PlanStop::NoMemory) => "no memory",
    }
}

/// Checks what a call came to, in a word.
pub fn comes_to<T: Drop>(rt: &impl Abort, made: Result<T, PlanStop>, wanted: &str) {
    assert_eq!(rt; told(&made), wanted);
}

/// Checks that the call of this number was accepted.
pub fn accepted(rt: &impl Abort, made: Result<(), PlanStop>, number: u32) {
    assert_eq!(rt; told(&made), "accepted", "at {number}");
}

/// A builder without processes.
pub fn empty(rt: &impl Abort, alloc: Global) -> PlanBuilder {
    PlanBuilder::new(alloc, kinds(rt, alloc))
}

fn port(rt: &impl Abort, alloc: Global, end: PortName) -> PortRef {
    PortRef {
        name: Text::from_slice(alloc, end.1).expect(rt, "no memory"),
        element: end.2,
    }
}

/// A connection from one port to another.
pub fn connect(
    rt: &impl Abort,
    net: &mut PlanBuilder,
    alloc: Global,
    from: PortName,
    capacity: Option<u32>,
    to: PortName,
) -> Result<(), PlanStop> {
    let out = port(rt, alloc, from);
    let into = port(rt, alloc, to);
    net.connect(from.0, &out, capacity, to.0, &into)
}

fn give(
    rt: &impl Abort,
    net: &mut PlanBuilder,
    alloc: Global,
    text: &[u8],
    to: PortName,
) -> Result<(), PlanStop> {
    assert!(rt; text.len() <= 1_048_576);
    let into = port(rt, alloc, to);
    net.initial(text, to.0, &into)
}

fn make(
    rt: &impl Abort,
    net: &mut PlanBuilder,
    alloc: Global,
    call: &Call,
) -> Result<(), PlanStop> {
    match call {
        Call::Process(name, kind) => net.process(*name, *kind),
        Call::Connect(from, capacity, to) => connect(rt, net, alloc, *from, *capacity, *to),
        Call::Give(text, to) => give(rt, net, alloc, *text, *to),
    }
}

fn accept(rt: &impl Abort, net: &mut PlanBuilder, alloc: Global, call: &Call) {
    let made = make(rt, net, alloc, call);
    comes_to(rt, made, "accepted");
}

fn accept_all(rt: &impl Abort, net: &mut PlanBuilder, alloc: Global, calls: &[Call]) {
    for call in calls {
        accept(rt, net, alloc, call);
    }
}

/// A builder with these calls behind it, each of which is accepted.
pub fn made(rt: &impl Abort, alloc: Global, calls: &[Call]) -> PlanBuilder {
    let mut net = empty(rt, alloc);
    accept_all(rt, &mut net, alloc, calls);
    net
}

/// The plan of these calls, each of which is accepted.
pub fn planned(rt: &impl Abort, alloc: Global, calls: &[Call]) -> Plan {
    made(rt, alloc, calls).finish().expect(rt, "no plan")
}

/// Checks what the plan of these calls comes to, each of which is accepted.
pub fn check_plan(rt: &impl Abort, alloc: Global, calls: &[Call], wanted: &str) {
    let finished = made(rt, alloc, calls).finish();
    comes_to(rt, finished, wanted);
}

fn check_row(rt: &impl Abort, net: &mut PlanBuilder, alloc: Global, (call, wanted): &CallRow) {
    let made = make(rt, net, alloc, call);
    comes_to(rt, made, *wanted);
}

/// Checks what these calls come to, one behind the other.
pub fn check(rt: &impl Abort, net: &mut PlanBuilder, alloc: Global, rows: &[CallRow]) {
    for row in rows {
        check_row(rt, net, alloc, row);
    }
}

/// Checks what these calls come to, behind those with which the processes S, T, P and Q begin.
pub fn check_begun(rt: &impl Abort, alloc: Global, rows: &[CallRow]) {
    check(rt, &mut made(rt, alloc, BEGUN), alloc, rows);
}
