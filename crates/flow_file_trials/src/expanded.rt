// Faults in words.
use flow_expand::{put_fault, put_net_fault};
use flow_flat::ExpandFault;
use flow_items::Text;
use flow_net::{Many, PlanFault};
use flow_parse::{NetFault, Reason};
use flow_plan::PortRef;
use std::alloc::Global;
use std::process::Abort;

fn text(rt: &impl Abort, alloc: Global, bytes: &[u8]) -> Text {
    Text::from_slice(alloc, bytes).expect(rt, "no memory")
}

fn check_words(rt: &impl Abort, alloc: Global, fault: PlanFault, wanted: &[u8]) {
    let mut out = Vec::new(alloc);
    put_fault(&mut out, &ExpandFault::Plan(fault)).expect(rt, "no memory");
    assert!(rt; out.as_slice() == wanted);
}

fn check_line(rt: &impl Abort, alloc: Global, fault: &NetFault, wanted: &[u8]) {
    let mut out = Vec::new(alloc);
    put_net_fault(&mut out, fault).expect(rt, "no memory");
    assert!(rt; out.as_slice() == wanted);
}

#[test]
fn a_fault_is_told_in_words(rt: HostRuntime) {
    let alloc = rt.alloc();
    let port = PortRef {
        name: text(&rt, alloc, b"IN"),
        element: Some(7),
    };
    let fault = PlanFault::PortTaken(text(&rt, alloc, b"Sort"), port);
    check_words(&rt, alloc, fault, b"port taken Sort.IN[7]");
    let fault = PlanFault::ElementGap(text(&rt, alloc, b"Sort"), text(&rt, alloc, b"IN"), 12);
    check_words(&rt, alloc, fault, b"element gap Sort.IN[12]");
    let fault = PlanFault::PortMissing(text(&rt, alloc, b"Sort"), text(&rt, alloc, b"IN"));
    check_words(&rt, alloc, fault, b"port missing Sort.IN");
    check_words(&rt, alloc, PlanFault::Capacity(1025), b"capacity 1025");
    let fault = PlanFault::TooMany(Many::CapacitySum);
    check_words(&rt, alloc, fault, b"capacity sum");
    let fault = NetFault {
        line: 10,
        reason: Reason::Quote,
    };
    check_line(&rt, alloc, &fault, b"line 10: quote");
}
