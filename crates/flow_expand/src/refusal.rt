//! The words in which a refusal is told, appended one by one.
ghost use Rattle.std.specs.Prelude.{◌≡◌, ◌++◌, OnOk, codes};
ghost use Rattle.std.specs.Fmt.{decimal};
ghost use Rattle.flow_plan.specs.Network.{spelled_element};
ghost use Rattle.flow_expand.specs.Refusals.{port_text, many_text, plan_fault_text, fault_text, reason_text, net_fault_text};

use flow_flat::ExpandFault;
use flow_items::Text;
use flow_net::{Many, PlanFault};
use flow_parse::{NetFault, Reason};
use flow_plan::PortRef;
use flow_text::put_decimal;
use std::alloc::AllocError;

fn put_number(out: &mut Vec<u8>, words: &[u8], number: u64) -> Result<(), AllocError>
    ensures { OnOk result (out.new.items ≡ out.old.items ++ (words.now ++ decimal number)) }
{
    out.extend_from_slice(words)?;
    put_decimal(out, number)
}

fn put_two(out: &mut Vec<u8>, words: &[u8], name: &Text) -> Result<(), AllocError>
    ensures { OnOk result (out.new.items ≡ out.old.items ++ (words.now ++ name.now)) }
{
    out.extend_from_slice(words)?;
    out.extend_from_slice(name.as_slice())
}

fn put_element(out: &mut Vec<u8>, element: Option<u32>) -> Result<(), AllocError>
    ensures { OnOk result (out.new.items ≡ out.old.items ++ spelled_element element) }
{
    let Some(element) = element else {
        return Ok(());
    };
    put_number(out, b"[", u64::from(element))?;
    out.extend_from_slice(b"]")
}

// A process, a port of it and the element, where there is one.
fn put_named(
    out: &mut Vec<u8>,
    process: &Text,
    port: &Text,
    element: Option<u32>,
) -> Result<(), AllocError>
    ensures { OnOk result (out.new.items ≡ out.old.items ++ port_text process.now (record { name = port.now; element = element })) }
{
    out.extend_from_slice(process.as_slice())?;
    put_two(out, b".", port)?;
    put_element(out, element)
}

// The same behind words.
fn put_place(
    out: &mut Vec<u8>,
    words: &[u8],
    process: &Text,
    port: &Text,
    element: Option<u32>,
) -> Result<(), AllocError>
    ensures { OnOk result (out.new.items ≡ out.old.items ++ (words.now ++ port_text process.now (record { name = port.now; element = element }))) }
{
    out.extend_from_slice(words)?;
    put_named(out, process, port, element)
}

fn put_port(
    out: &mut Vec<u8>,
    words: &[u8],
    process: &Text,
    port: &PortRef,
) -> Result<(), AllocError>
    ensures { OnOk result (out.new.items ≡ out.old.items ++ (words.now ++ port_text process.now port.now)) }
{
    put_place(out, words, process, &port.name, port.element)
}

fn put_kind(out: &mut Vec<u8>, process: &Text, kind: &Text) -> Result<(), AllocError>
    ensures { OnOk result (out.new.items ≡ out.old.items ++ (codes "unknown kind " ++ kind.now ++ codes " of " ++ process.now)) }
{
    put_two(out, b"unknown kind ", kind)?;
    put_two(out, b" of ", process)
}

fn put_many(out: &mut Vec<u8>, many: Many) -> Result<(), AllocError>
    ensures { OnOk result (out.new.items ≡ out.old.items ++ many_text many) }
{
    match many {
        Many::Processes => out.extend_from_slice(b"too many processes"),
        Many::Connections => out.extend_from_slice(b"too many connections"),
        Many::CapacitySum => out.extend_from_slice(b"capacity sum"),
        Many::Instances => out.extend_from_slice(b"too many subnets"),
    }
}

fn put_plan_fault(out: &mut Vec<u8>, fault: &PlanFault) -> Result<(), AllocError>
    ensures { OnOk result (out.new.items ≡ out.old.items ++ plan_fault_text fault.now) }
{
    match fault {
        PlanFault::SameName(process) => put_two(out, b"same name ", process),
        PlanFault::UnknownKind(process, kind) => put_kind(out, process, kind),
        PlanFault::UnknownProcess(process) => put_two(out, b"unknown process ", process),
        PlanFault::PortUnknown(process, port) => put_port(out, b"unknown port ", process, port),
        PlanFault::NeedsInitial(process, port) => put_port(out, b"needs initial ", process, port),
        PlanFault::Capacity(capacity) => put_number(out, b"capacity ", u64::from(*capacity)),
        PlanFault::PortTaken(process, port) => put_port(out, b"port taken ", process, port),
        PlanFault::BadOption(process, port) => put_port(out, b"bad option ", process, port),
        PlanFault::PortMissing(process, port) => put_place(
            out,
            b"port missing ",
            process,
            port,
            None,
        ),
        PlanFault::ElementGap(process, port, element) => put_place(
            out,
            b"element gap ",
            process,
            port,
            Some(*element),
        ),
        PlanFault::TooMany(many) => put_many(out, *many),
    }
}

/// Appends what is wrong with a network, without the end of a line. The words are this project's own.
pub fn put_fault(out: &mut Vec<u8>, fault: &ExpandFault) -> Result<(), AllocError>
    ensures { OnOk result (out.new.items ≡ out.old.items ++ fault_text fault.now) }
{
    match fault {
        ExpandFault::Recursive(subnet) => put_two(out, b"recursive subnet ", subnet),
        ExpandFault::Depth(process) => put_two(out, b"subnet depth ", process),
        ExpandFault::OuterPort(process, port) => put_port(out, b"outer port ", process, port),
        ExpandFault::Plan(fault) => put_plan_fault(out, fault),
    }
}

fn put_reason(out: &mut Vec<u8>, reason: Reason) -> Result<(), AllocError>
    ensures { OnOk result (out.new.items ≡ out.old.items ++ reason_text reason) }
{
    match reason {
        Reason::Header => out.extend_from_slice(b"header"),
        Reason::Byte => out.extend_from_slice(b"byte"),
        Reason::Quote => out.extend_from_slice(b"quote"),
        Reason::Form => out.extend_from_slice(b"form"),
        Reason::Name => out.extend_from_slice(b"name"),
        Reason::Number => out.extend_from_slice(b"number"),
        Reason::Kind => out.extend_from_slice(b"kind"),
        Reason::Subnet => out.extend_from_slice(b"subnet"),
        Reason::Limit => out.extend_from_slice(b"limit"),
    }
}

/// Appends what is wrong with a network file, and in which line, without the end of a line. The words
/// are this project's own.
pub fn put_net_fault(out: &mut Vec<u8>, fault: &NetFault) -> Result<(), AllocError>
    ensures { OnOk result (out.new.items ≡ out.old.items ++ net_fault_text fault.now) }
{
    put_number(out, b"line ", fault.line)?;
    out.extend_from_slice(b": ")?;
    put_reason(out, fault.reason)
}
