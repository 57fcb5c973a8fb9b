//! What a drawing shows where subnet processes are folded.
ghost use Rattle.std.specs.Prelude.{◌≡◌, ◌≤◌, ◌++◌, length, IfOk, OnOk};
ghost use Rattle.std.specs.List.{enumerate_from, flat_map};
ghost use Rattle.flow_limits.specs.declared.TheConstants.{PROCESS_LIMIT};
ghost use Rattle.flow_drawing.specs.Folding.{box_row, folded_edge, folded_given, folded_row, is_inside};

use crate::drawing::{Edge, Given, Remark, Row};
use crate::fronts::{first_within, folded_port, front_of, mark_within, name_of, outermost};
use crate::rows::node_of;
use flow_items::{Items, Text};
use flow_plan::{KindSpec, Process};
use std::alloc::{AllocError, Global};

// Adds the box of this name, where this process is the first one in it.
fn put_box(
    alloc: Global,
    rows: &mut Items<Row>,
    remarks: &[Remark],
    processes: &[Process],
    number: usize,
    name: Text,
) -> Result<(), AllocError>
    requires few { length processes.now ≤ PROCESS_LIMIT }
    ensures { OnOk result (rows.new ≡ rows.old ++ box_row remarks.now processes.now number name) }
{
    let first = first_within(alloc, &name, processes)?;
    if first as usize != number {
        return Ok(());
    }
    let mark = mark_within(alloc, remarks, &name, processes)?;
    rows.push(Row::Folds {
        process: number,
        name,
        mark,
    })?;
    Ok(())
}

// Adds the row of a process: itself, or its box.
fn put_row(
    alloc: Global,
    rows: &mut Items<Row>,
    kinds: &[KindSpec],
    remarks: &[Remark],
    processes: &[Process],
    number: usize,
    process: &Process,
) -> Result<(), AllocError>
    requires few { length processes.now ≤ PROCESS_LIMIT }
    ensures { OnOk result (rows.new ≡ rows.old ++ folded_row kinds.now remarks.now processes.now (number, process.now)) }
{
    match outermost(alloc, process.name.as_slice())? {
        Some(name) => put_box(alloc, rows, remarks, processes, number, name),
        None => {
            let node = node_of(alloc, kinds, remarks, number, process)?;
            rows.push(Row::Shows(node))?;
            Ok(())
        }
    }
}

/// The rows of these processes: those that stand in no box, and each outermost box once.
pub fn folded_rows(
    alloc: Global,
    kinds: &[KindSpec],
    remarks: &[Remark],
    processes: &[Process],
) -> Result<Items<Row>, AllocError>
    requires { length processes.now ≤ PROCESS_LIMIT }
    ensures { IfOk result (λ rows. rows ≡ flat_map (folded_row kinds.now remarks.now processes.now) (enumerate_from 0 processes.now)) }
{
    let mut rows = Items::new(alloc);
    for number in 0..processes.len() {
        let process = &processes[number];
        put_row(alloc, &mut rows, kinds, remarks, processes, number, process)?;
    }
    Ok(rows)
}

// Adds a text, where its process stands in no box.
fn put_given(
    alloc: Global,
    givens: &mut Items<Given>,
    processes: &[Process],
    given: &Given,
) -> Result<(), AllocError>
    ensures { OnOk result (givens.new ≡ givens.old ++ folded_given processes.now given.now) }
{
    let outer = outermost(alloc, name_of(processes, given.process))?;
    if outer.is_some() {
        return Ok(());
    }
    givens.push(Given {
        process: given.process,
        option: given.option,
        place: given.place,
        port: given.port.copy(alloc)?,
        text: given.text.copy(alloc)?,
    })?;
    Ok(())
}

/// Those of these texts whose processes stand in no box.
pub fn folded_givens(
    alloc: Global,
    processes: &[Process],
    givens: &[Given],
) -> Result<Items<Given>, AllocError>
    ensures { IfOk result (λ folded. folded ≡ flat_map (folded_given processes.now) givens.now) }
{
    let mut folded = Items::new(alloc);
    for given in givens {
        put_given(alloc, &mut folded, processes, given)?;
    }
    Ok(folded)
}

// Whether both ends of an edge stand in one box.
fn is_inside(alloc: Global, processes: &[Process], edge: &Edge) -> Result<bool, AllocError>
    requires { length processes.now ≤ PROCESS_LIMIT }
    ensures { IfOk result (λ inside. inside ≡ is_inside processes.now edge.now) }
{
    let outer = outermost(alloc, name_of(processes, edge.from as usize))?;
    let from = front_of(alloc, processes, edge.from)?;
    let to = front_of(alloc, processes, edge.to)?;
    Ok(outer.is_some() && from == to)
}

// Adds an edge between what stands for its ends.
fn put_edge(
    alloc: Global,
    edges: &mut Items<Edge>,
    processes: &[Process],
    edge: &Edge,
) -> Result<(), AllocError>
    requires { length processes.now ≤ PROCESS_LIMIT }
    ensures { OnOk result (edges.new ≡ edges.old ++ folded_edge processes.now edge.now) }
{
    if is_inside(alloc, processes, edge)? {
        return Ok(());
    }
    let from = front_of(alloc, processes, edge.from)?;
    let to = front_of(alloc, processes, edge.to)?;
    let output = folded_port(alloc, processes, edge.from, &edge.output)?;
    let input = folded_port(alloc, processes, edge.to, &edge.input)?;
    edges.push(Edge {
        from,
        output,
        to,
        input,
        capacity: edge.capacity,
        automatic: edge.automatic,
        remark: edge.remark.copy(alloc)?,
    })?;
    Ok(())
}

/// These edges, each between what stands for its ends, but for those inside of a box.
pub fn folded_edges(
    alloc: Global,
    processes: &[Process],
    edges: &[Edge],
) -> Result<Items<Edge>, AllocError>
    requires { length processes.now ≤ PROCESS_LIMIT }
    ensures { IfOk result (λ folded. folded ≡ flat_map (folded_edge processes.now) edges.now) }
{
    let mut folded = Items::new(alloc);
    for edge in edges {
        put_edge(alloc, &mut folded, processes, edge)?;
    }
    Ok(folded)
}
