//! The processes that a text stands for.
ghost use Rattle.std.specs.Prelude.{◌≡◌, ◌++◌, List, Ok, Err, map, ◌+◌, ◌<◌, Some, None, OnOk, IfErr, IfOk};
ghost use Rattle.flow_expand.specs.Outcomes.{Gives, IfFault};
ghost use Rattle.flow_flat.specs.Subnets.{within};
ghost use Rattle.flow_flat.specs.Firsts.{AllPass, FirstFails};
ghost use Rattle.flow_flat.specs.Texts.{InstancePasses, all_instances};
ghost use Rattle.flow_expand.specs.Ways.{part_at};
ghost use Rattle.flow_expand.specs.Places.{subnet_place};
ghost use Rattle.flow_expand.specs.Walks.{subnet_tested, plain_tested, PutsPlain, PutsSubnet, PutsNext, outline};

use crate::given::{given_name, second_given};
use crate::indexed::Indexed;
use crate::meaning::{inside, joined};
use crate::named::{is_kind, subnet_named};
use crate::stop::ExpandStop;
use crate::way::{Frame, part_of};
use flow_flat::ExpandFault;
use flow_items::Text;
use flow_limits::{PROCESS_LIMIT, SUBNET_DEPTH, SUBNET_PROCESS_LIMIT};
use flow_net::{Many, PlanFault};
use flow_parse::NetPart;
use flow_plan::{KindSpec, PortRef};
use std::alloc::{AllocError, Global};

// A process that is a subnet: there are fewer than SUBNET_PROCESS_LIMIT before it, and its subnet gives no outer name
// twice.
fn check_subnet(
    alloc: Global,
    subnets: usize,
    name: &Text,
    part: &NetPart,
) -> Result<(), ExpandStop>
    ensures tested { Gives result (λ outcome. subnet_tested subnets name.now part.now ≡ outcome) }
    ensures few { IfOk result (λ _. subnets < SUBNET_PROCESS_LIMIT) }
{
    if subnets >= SUBNET_PROCESS_LIMIT {
        let fault = PlanFault::TooMany(Many::Instances);
        return Err(ExpandStop::Fault(ExpandFault::Plan(fault)));
    }
    let Some(statement) = second_given(alloc, part)? else {
        return Ok(());
    };
    let port = PortRef {
        name: given_name(alloc, statement)?,
        element: None,
    };
    Err(ExpandStop::Fault(ExpandFault::OuterPort(name.copy(alloc)?, port)))
}

// A process that is none: its kind is in the table, and there are fewer than PROCESS_LIMIT before it.
fn check_plain(
    alloc: Global,
    kinds: &[KindSpec],
    plain: usize,
    name: &Text,
    kind: &Text,
) -> Result<(), ExpandStop>
    ensures tested { Gives result (λ outcome. plain_tested kinds.now plain name.now kind.now ≡ outcome) }
    ensures few { IfOk result (λ _. plain < PROCESS_LIMIT) }
{
    if !is_kind(kinds, kind.as_slice()) {
        let fault = PlanFault::UnknownKind(name.copy(alloc)?, kind.copy(alloc)?);
        return Err(ExpandStop::Fault(ExpandFault::Plan(fault)));
    }
    if plain >= PROCESS_LIMIT {
        let fault = PlanFault::TooMany(Many::Processes);
        return Err(ExpandStop::Fault(ExpandFault::Plan(fault)));
    }
    Ok(())
}

/// How many processes there are so far: subnets, and others.
#[derive(Clone, Copy)]
pub struct Counts {
    pub subnets: usize,
    pub plain: usize,
}

// Puts a process that is no subnet.
fn put_plain(
    alloc: Global,
    kinds: &[KindSpec],
    counts: &mut Counts,
    list: &mut Vec<(Text, Text)>,
    name: Text,
    kind: &Text,
) -> Result<(), ExpandStop>
    ensures { PutsPlain kinds.now name kind.now counts.old counts.new list.old.items list.new.items result }
{
    check_plain(alloc, kinds, counts.plain, &name, kind)?;
    counts.plain += 1;
    list.push((name, kind.copy(alloc)?))?;
    Ok(())
}

// Puts a process that is a subnet.
fn put_subnet(
    alloc: Global,
    part: &NetPart,
    counts: &mut Counts,
    list: &mut Vec<(Text, Text)>,
    name: Text,
    kind: &Text,
) -> Result<(), ExpandStop>
    ensures { PutsSubnet part.now name kind.now counts.old counts.new list.old.items list.new.items result }
{
    check_subnet(alloc, counts.subnets, &name, part)?;
    counts.subnets += 1;
    list.push((name, kind.copy(alloc)?))?;
    Ok(())
}

// The flat name of a process of a part.
fn flat_name(alloc: Global, frame: &Frame, name: &Text) -> Result<Text, AllocError>
    ensures { IfOk result (λ flat. flat ≡ frame.now.prefix ++ name.now) }
{
    let bytes = joined(alloc, frame.prefix.as_slice(), name.as_slice())?;
    Ok(Text::of(bytes))
}

// Puts a process of a part on the way, and goes on with the process behind it, or with those inside it.
fn put_process(
    alloc: Global,
    text: &Indexed<'_>,
    kinds: &[KindSpec],
    counts: &mut Counts,
    list: &mut Vec<(Text, Text)>,
    way: &mut Vec<Frame>,
    frame: Frame,
    process: &(Text, Text),
) -> Result<(), ExpandStop>
    requires { frame.next < usize.MAX }
    ensures { PutsNext text.now kinds.now frame process.now counts.old counts.new list.old.items list.new.items way.old.items way.new.items result }
{
    let name = flat_name(alloc, &frame, &process.0)?;
    let too_deep = way.len() > SUBNET_DEPTH;
    if too_deep {
        return Err(ExpandStop::Fault(ExpandFault::Depth(name)));
    }
    let next = Frame {
        next: frame.next + 1,
        ..frame
    };
    let Some(subnet) = subnet_named(text, process.1.as_slice()) else {
        way.push(next)?;
        return put_plain(alloc, kinds, counts, list, name, &process.1);
    };
    let begins = inside(alloc, next.prefix.as_slice(), process.0.as_slice())?;
    way.push(next)?;
    way.push(Frame {
        subnet: Some(subnet),
        prefix: Text::of(begins),
        next: 0,
    })?;
    let part = part_of(text, Some(subnet));
    put_subnet(alloc, part, counts, list, name, &process.1)
}

/// The processes that a text stands for, each with its flat name and its kind, or the first that can't
/// be written out: main's in their order, each that is a subnet followed at once by those inside it.
pub fn instances(
    alloc: Global,
    text: &Indexed<'_>,
    kinds: &[KindSpec],
) -> Result<Vec<(Text, Text)>, ExpandStop>
    ensures ok { IfOk result (λ list. AllPass (InstancePasses text.now kinds.now) (all_instances text.now) × (list.items ≡ map outline (all_instances text.now))) }
    ensures fault { IfErr result (λ stop. IfFault stop (λ fault. FirstFails (InstancePasses text.now kinds.now) (all_instances text.now) fault)) }
{
    let mut counts = Counts {
        subnets: 0,
        plain: 0,
    };
    let mut list = Vec::new(alloc);
    let mut way = Vec::new(alloc);
    way.push(Frame {
        subnet: None,
        prefix: Text::new(alloc),
        next: 0,
    })?;
    'way: while let Some(frame) = way.pop() {
        let processes = part_of(text, frame.subnet).processes.as_slice();
        if frame.next < processes.len() {
            let process = &processes[frame.next];
            put_process(
                alloc,
                text,
                kinds,
                &mut counts,
                &mut list,
                &mut way,
                frame,
                process,
            )?;
        }
    }
    Ok(list)
}
