//! The edges of a drawing: the senders of each connection.
ghost use Rattle.std.specs.Prelude.{◌≡◌, ◌++◌, ◌∷◌, [], IfOk, OnOk};
ghost use Rattle.std.specs.List.{enumerate_from, flat_map};
ghost use Rattle.flow_drawing.specs.Drawings.{edge_of, edges_of, told_capacity};

use crate::drawing::{Edge, Remark, remark_at};
use crate::ports::{input_text, is_automatic_input, is_automatic_output, output_text};
use flow_items::Items;
use flow_limits::DEFAULT_CAPACITY;
use flow_plan::{Connection, Plan, Sender};
use std::alloc::{AllocError, Global};

// The capacity, where it isn't the default.
fn told_capacity(capacity: u32) -> Option<u32>
    ensures { result ≡ told_capacity capacity }
{
    if capacity == DEFAULT_CAPACITY {
        None
    } else {
        Some(capacity)
    }
}

// The edge of a sender.
fn edge_of(
    alloc: Global,
    remarks: &[Remark],
    plan: &Plan,
    number: usize,
    connection: &Connection,
    sender: Sender,
) -> Result<Edge, AllocError>
    ensures { IfOk result (λ edge. edge ∷ [] ≡ edge_of remarks.now plan.now number connection.now sender) }
{
    let Sender { process, output } = sender;
    let to = connection.receiver;
    let input = connection.input;
    let sends = is_automatic_output(plan, process, output);
    let receives = is_automatic_input(plan, to, input);
    Ok(Edge {
        from: process,
        output: output_text(alloc, plan, process, output)?,
        to,
        input: input_text(alloc, plan, to, input)?,
        capacity: told_capacity(connection.capacity),
        automatic: sends || receives,
        remark: remark_at(alloc, remarks, number)?,
    })
}

// Adds the edges of these senders of a connection, in their order.
fn put_senders(
    alloc: Global,
    edges: &mut Items<Edge>,
    remarks: &[Remark],
    plan: &Plan,
    number: usize,
    connection: &Connection,
    senders: &[Sender],
) -> Result<(), AllocError>
    ensures { OnOk result (edges.new ≡ edges.old ++ flat_map (edge_of remarks.now plan.now number connection.now) senders.now) }
{
    for sender in senders {
        let edge = edge_of(alloc, remarks, plan, number, connection, *sender)?;
        edges.push(edge)?;
    }
    Ok(())
}

// The edges of these connections, in their order.
fn edges_in(
    alloc: Global,
    remarks: &[Remark],
    plan: &Plan,
    connections: &[Connection],
) -> Result<Items<Edge>, AllocError>
    ensures { IfOk result (λ edges. edges ≡ flat_map (edges_of remarks.now plan.now) (enumerate_from 0 connections.now)) }
{
    let mut edges = Items::new(alloc);
    for number in 0..connections.len() {
        let connection = &connections[number];
        let senders = connection.senders.as_slice();
        put_senders(
            alloc, &mut edges, remarks, plan, number, connection, senders,
        )?;
    }
    Ok(edges)
}

/// The edges of a plan, by its connections in their order.
pub fn all_edges(alloc: Global, remarks: &[Remark], plan: &Plan) -> Result<Items<Edge>, AllocError>
    ensures { IfOk result (λ edges. edges ≡ flat_map (edges_of remarks.now plan.now) (enumerate_from 0 plan.now.connections)) }
{
    edges_in(alloc, remarks, plan, plan.connections())
}
