//! What a drawing says of a network that stands still: what each process does, and how full each connection is.
ghost use Rattle.std.specs.Prelude.{◌≡◌, ◌++◌, IfOk, OnOk};
ghost use Rattle.flow_cycle.specs.Nets.{IsReached};
ghost use Rattle.flow_machine.specs.Joins.{processes_of};
ghost use Rattle.flow_machine.specs.Nets.{looks_of};
ghost use Rattle.flow_model.specs.States.{State};
ghost use Rattle.flow_report.specs.Of.{told_from};
ghost use Rattle.flow_report.specs.States.{TellsWaits};
ghost use Rattle.flow_report.specs.Text.{status_text};
ghost use Rattle.flow_draw.specs.States.{TellsOf, block_text, channel_said, connection_remark, process_mark, process_remark, process_said, waits_at, waits_in};

use flow_component::Component;
use flow_cycle::{Waits, block_of, cycle};
use flow_drawing::{Mark, Remark, Remarks, input_text, output_text};
use flow_items::{Items, Text};
use flow_machine::{Block, Net, Status};
use flow_plan::Plan;
use flow_text::put_decimal;
use std::alloc::{AllocError, Global};

fn status_text(status: Status) -> &'static [u8]
    ensures { result.now ≡ status_text status }
{
    match status {
        Status::Idle => b"idle",
        Status::Active => b"active",
        Status::Closing(_) => b"closing",
        Status::Ended => b"ended",
        Status::Failed(_) => b"failed",
    }
}

// Appends what a process waits for, if it waits.
fn put_block(
    alloc: Global,
    note: &mut Vec<u8>,
    plan: &Plan,
    process: u32,
    block: Option<Block>,
) -> Result<(), AllocError>
    ensures { OnOk result (note.new.items ≡ note.old.items ++ block_text plan.now process block) }
{
    match block {
        None => Ok(()),
        Some(
            Block::Empty {
                connection: _,
                port,
            },
        ) => {
            let name = input_text(alloc, plan, process, port.0)?;
            note.extend_from_slice(b", empty ")?;
            note.extend_from_slice(name.as_slice())
        }
        Some(
            Block::Full {
                connection: _,
                port,
            },
        ) => {
            let name = output_text(alloc, plan, process, port.0)?;
            note.extend_from_slice(b", full ")?;
            note.extend_from_slice(name.as_slice())
        }
        Some(Block::Dormant) => note.extend_from_slice(b", dormant"),
    }
}

fn waits_in(cycle: &[Waits], process: u32) -> bool
    ensures { result ≡ waits_in cycle.now process }
{
    for waits in cycle {
        if waits.process == process {
            return true;
        }
    }
    false
}

fn waits_at(cycle: &[Waits], connection: u32) -> bool
    ensures { result ≡ waits_at cycle.now connection }
{
    for waits in cycle {
        if waits.connection == connection {
            return true;
        }
    }
    false
}

fn process_mark(cycle: &[Waits], process: u32, block: Option<Block>) -> Mark
    ensures { result ≡ process_mark cycle.now process block }
{
    if waits_in(cycle, process) {
        Mark::Cycle
    } else if block.is_some() {
        Mark::Blocked
    } else {
        Mark::Plain
    }
}

// What is said of a process with this status that is blocked so.
fn process_remark(
    alloc: Global,
    plan: &Plan,
    cycle: &[Waits],
    process: u32,
    status: Status,
    block: Option<Block>,
) -> Result<Remark, AllocError>
    ensures { IfOk result (λ remark. remark ≡ process_remark plan.now cycle.now process status block) }
{
    let mut note = status_text(status).to_vec(alloc)?;
    put_block(alloc, &mut note, plan, process, block)?;
    Ok(Remark {
        note: Text::of(note),
        mark: process_mark(cycle, process, block),
    })
}

// What is said of a connection with so many packets, which takes so many.
fn connection_remark(
    alloc: Global,
    cycle: &[Waits],
    connection: u32,
    level: usize,
    capacity: u32,
) -> Result<Remark, AllocError>
    ensures { IfOk result (λ remark. remark ≡ connection_remark cycle.now connection level capacity) }
{
    let mut note = b"level ".to_vec(alloc)?;
    put_decimal(&mut note, level as u64)?;
    note.extend_from_slice(b" of ")?;
    put_decimal(&mut note, u64::from(capacity))?;
    let mark = if waits_at(cycle, connection) {
        Mark::Cycle
    } else {
        Mark::Plain
    };
    Ok(Remark {
        note: Text::of(note),
        mark,
    })
}

// What is said of all processes.
fn process_remarks<K: Component>(
    alloc: Global,
    plan: &Plan,
    cycle: &[Waits],
    net: &Net<K>,
) -> Result<Items<Remark>, AllocError>
    ensures { IfOk result (λ remarks. remarks ≡ told_from (process_said plan.now cycle.now (looks_of net.now.channels)) 0 (processes_of net.now.bodies)) }
{
    let mut remarks = Items::new(alloc);
    for process in 0..net.processes() {
        let status = net.body(process).status();
        let block = block_of(net, process);
        let remark = process_remark(alloc, plan, cycle, process, status, block)?;
        remarks.push(remark)?;
    }
    Ok(remarks)
}

// What is said of all connections.
fn connection_remarks<K: Component>(
    alloc: Global,
    cycle: &[Waits],
    net: &Net<K>,
) -> Result<Items<Remark>, AllocError>
    ensures { IfOk result (λ remarks. remarks ≡ told_from (channel_said cycle.now) 0 net.now.channels) }
{
    // No memory holds so many connections that there is no number for one.
    let Ok(count) = u32::try_from(net.connections()) else {
        return Err(AllocError);
    };
    let mut remarks = Items::new(alloc);
    for connection in 0..count {
        let channel = net.channel(connection);
        let remark = connection_remark(
            alloc,
            cycle,
            connection,
            channel.level(),
            channel.capacity(),
        )?;
        remarks.push(remark)?;
    }
    Ok(remarks)
}

// The cycle of a deadlock, and nobody where there is none.
fn all_waits<K: Component>(
    alloc: Global,
    plan: &Plan,
    net: &Net<K>,
) -> Result<Vec<Waits>, AllocError>
    ensures { IfOk result (λ waits. (s : State K) → IsReached K.rules plan.now net.now s → TellsWaits plan.now s waits.items) }
{
    match cycle(alloc, plan, net)? {
        Some(waits) => Ok(waits),
        None => Ok(Vec::new(alloc)),
    }
}

/// What a drawing says of a network of this plan, whether or not a process can go on there. It tells of each state of the machine that the network stands for
/// and a schedule reaches.
pub fn remarks_of<K: Component>(
    alloc: Global,
    plan: &Plan,
    net: &Net<K>,
) -> Result<Remarks, AllocError>
    ensures { IfOk result (λ remarks. (s : State K) → IsReached K.rules plan.now net.now s → TellsOf plan.now s remarks) }
{
    let cycle = all_waits(alloc, plan, net)?;
    Ok(Remarks {
        processes: process_remarks(alloc, plan, &cycle, net)?,
        connections: connection_remarks(alloc, &cycle, net)?,
    })
}
