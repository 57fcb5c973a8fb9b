// Processes that are refused, and their neighbours.
use crate::calls::{Call, CallRow, accepted, check_begun, comes_to, empty};
use flow_net::PlanBuilder;
use std::process::Abort;

const NAMES: &[CallRow] = &[
    (Call::Process(b"S", b"Pass"), "same name"),
    (Call::Process(b"U", b"None"), "unknown kind"),
    (Call::Process(b"S", b"None"), "same name"),
    (Call::Process(b"U", b"Pass"), "accepted"),
    (Call::Process(b"s", b"Pass"), "accepted"),
];

#[test]
fn a_process_has_a_new_name_and_a_known_kind(rt: HostRuntime) {
    check_begun(&rt, rt.alloc(), NAMES);
}

fn begin(rt: &impl Abort, net: &mut PlanBuilder, number: u8) {
    let made = net.process(&[number], b"Pass");
    accepted(rt, made, u32::from(number));
}

fn begin_all(rt: &impl Abort, net: &mut PlanBuilder) {
    for number in 0..128u8 {
        begin(rt, net, number);
    }
}

#[test]
fn a_network_has_128_processes(rt: HostRuntime) {
    let mut net = empty(&rt, rt.alloc());
    begin_all(&rt, &mut net);
    let made = net.process(b"last", b"Pass");
    comes_to(&rt, made, "too many processes");
}
