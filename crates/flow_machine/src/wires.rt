//! Which connection stands at each port of the processes of a plan, found in one walk over the connections.
ghost use Rattle.std.specs.Prelude.{◌≡◌, ◌<◌, ◌^◌, true, false, length, None, IfOk};
ghost use Rattle.flow_model.specs.Plans.{receives_at, sends_at};
ghost use Rattle.flow_machine.specs.Wires.{ports_of, AreRows, noted, all_noted};

use crate::start::places;
use flow_items::Items;
use flow_plan::{Plan, Process, Sender};
use std::alloc::{AllocError, Global};

// How many inputs or outputs a process has, the automatic one among them.
fn ports_of(process: &Process, input: bool) -> usize
    ensures { result ≡ ports_of input process.now }
{
    if input {
        places(process.inputs) + 1
    } else {
        places(process.outputs) + 1
    }
}

// A row for each process, with nothing at its ports.
fn unwired(
    alloc: Global,
    processes: &[Process],
    input: bool,
) -> Result<Vec<Items<Option<u32>>>, AllocError>
    ensures { IfOk result (λ rows. AreRows input processes.now (λ _ _. None) rows.items) }
{
    let mut rows = Vec::new(alloc);
    for process in processes {
        let ports = ports_of(process, input);
        let mut row = Vec::new(alloc);
        row.resize(ports, None)?;
        rows.push(Items::of(row))?;
    }
    Ok(rows)
}

// Notes a connection at a port.
fn note(rows: &mut [Items<Option<u32>>], process: u32, port: u32, connection: u32)
    ensures { rows.new ≡ noted rows.old process port connection }
{
    if (process as usize) < rows.len() {
        let row = &mut rows[process as usize];
        if (port as usize) < row.len() {
            row.set(port as usize, Some(connection));
        }
    }
}

// Notes a connection at each output that sends to it.
fn note_senders(rows: &mut [Items<Option<u32>>], senders: &[Sender], connection: u32)
    ensures { rows.new ≡ all_noted rows.old senders.now connection }
{
    for sender in senders {
        note(rows, sender.process, sender.output, connection);
    }
}

/// For each process, the connections that its inputs receive from. The first of several stands at an input, so the walk is from the last on.
pub(crate) fn receiving(alloc: Global, plan: &Plan) -> Result<Vec<Items<Option<u32>>>, AllocError>
    requires { length plan.now.connections < 2 ^ 32 }
    ensures { IfOk result (λ rows. AreRows true plan.now.processes (receives_at plan.now) rows.items) }
{
    let connections = plan.connections();
    let mut rows = unwired(alloc, plan.processes(), true)?;
    let mut place = connections.len();
    while place > 0 {
        place -= 1;
        let connection = &connections[place];
        note(
            &mut rows,
            connection.receiver,
            connection.input,
            place as u32,
        );
    }
    Ok(rows)
}

/// For each process, the connections that its outputs send to.
pub(crate) fn sending(alloc: Global, plan: &Plan) -> Result<Vec<Items<Option<u32>>>, AllocError>
    requires { length plan.now.connections < 2 ^ 32 }
    ensures { IfOk result (λ rows. AreRows false plan.now.processes (sends_at plan.now) rows.items) }
{
    let connections = plan.connections();
    let mut rows = unwired(alloc, plan.processes(), false)?;
    let mut place = connections.len();
    while place > 0 {
        place -= 1;
        let senders = connections[place].senders.as_slice();
        note_senders(&mut rows, senders, place as u32);
    }
    Ok(rows)
}
