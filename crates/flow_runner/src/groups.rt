//! Which processes hang together by connections.
ghost use Rattle.std.specs.Prelude.{◌≡◌, ◌<◌, ◌≤◌, length};

use flow_component::Component;
use flow_machine::Net;
use std::alloc::{AllocError, Global};

/// Brings the process and the connection into the group of the lower of both.
fn join(groups: &mut Vec<u32>, process: usize, marks: &mut Vec<u32>, connection: Option<u32>)
    requires { process < length groups.old.items }
    ensures { length groups.new.items ≡ length groups.old.items }
{
    let Some(connection) = connection else {
        return;
    };
    let connection = connection as usize;
    if connection >= marks.len() {
        return;
    }
    let low = groups[process].min(marks[connection]);
    groups[process] = low;
    marks[connection] = low;
}

/// Brings each process and its connections into the group of the lowest of them.
fn join_all<K: Component>(net: &Net<K>, groups: &mut Vec<u32>, marks: &mut Vec<u32>)
    requires { length groups.old.items ≡ length net.now.bodies }
    ensures { length groups.new.items ≡ length net.now.bodies }
{
    for process in 0..net.processes() {
        let body = net.body(process);
        let at = process as usize;
        for input in 0..body.inputs() {
            join(groups, at, marks, body.input(input));
        }
        for output in 0..body.outputs() {
            join(groups, at, marks, body.output(output));
        }
        join(groups, at, marks, body.signal());
    }
}

/// Gives each group a line, one after another, round and round.
fn deal(groups: &mut Vec<u32>, lines: u32)
    requires { 1 ≤ lines }
{
    let mut next = 0u32;
    for process in 0..groups.len() {
        let first = groups[process] as usize;
        if first < process {
            groups[process] = groups[first];
        } else {
            groups[process] = next;
            next = if next < lines - 1 { next + 1 } else { 0 };
        }
    }
}

/// For each process the line at which it begins: those that hang together by connections at one, and the next group at the next.
pub(crate) fn first_lines<K: Component>(
    alloc: Global,
    net: &Net<K>,
    lines: u32,
) -> Result<Vec<u32>, AllocError>
    requires { 1 ≤ lines }
{
    let processes = net.processes();
    let mut groups = Vec::with_capacity(alloc, processes as usize)?;
    for process in 0..processes {
        groups.push_reserved(process);
    }
    let mut marks = vec![in alloc; processes; net.connections()]?;
    for _round in 0..processes {
        join_all(net, &mut groups, &mut marks);
    }
    deal(&mut groups, lines);
    Ok(groups)
}
