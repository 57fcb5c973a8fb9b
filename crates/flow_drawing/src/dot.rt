//! A drawing in DOT, the language of Graphviz.
ghost use Rattle.std.specs.Prelude.{◌≡◌, ◌++◌, OnOk};
ghost use Rattle.std.specs.List.{flat_map};
ghost use Rattle.flow_drawing.specs.Spelling.{automatic_style, dot_edge, dot_ends, dot_given, dot_row, dot_style, edge_style};
ghost use Rattle.flow_drawing.specs.declared.drawing.Row.TheVariants.{Folds, Opens, Shows};

use crate::drawing::{Edge, Given, Mark, Node, Row};
use crate::labels::{put_edge_label, put_given_id, put_node_label, put_numbers, put_process};
use crate::quote::{Form, put_quoted};
use flow_items::Text;
use std::alloc::AllocError;

fn style(mark: Mark) -> &'static [u8]
    ensures { result.now ≡ dot_style mark }
{
    match mark {
        Mark::Plain => b"\"]\n",
        Mark::Blocked => b"\", style=dashed]\n",
        Mark::Cycle => b"\", color=red, penwidth=3]\n",
    }
}

// Begins the box of this name.
fn put_opening(
    out: &mut Vec<u8>,
    process: usize,
    depth: usize,
    name: &Text,
) -> Result<(), AllocError>
    ensures { OnOk result (out.new.items ≡ out.old.items ++ dot_row (Opens process depth name.now)) }
{
    out.extend_from_slice(b"subgraph cluster_")?;
    put_numbers(out, process, depth)?;
    out.extend_from_slice(b" {\nlabel=\"subnet ")?;
    put_quoted(out, Form::Dot, name.as_slice())?;
    out.extend_from_slice(b"\"\n")?;
    Ok(())
}

// A subnet process as one box.
fn put_folded(out: &mut Vec<u8>, process: usize, name: &Text, mark: Mark) -> Result<(), AllocError>
    ensures { OnOk result (out.new.items ≡ out.old.items ++ dot_row (Folds process name.now mark)) }
{
    put_process(out, process as u64)?;
    out.extend_from_slice(b" [peripheries=2, label=\"subnet ")?;
    put_quoted(out, Form::Dot, name.as_slice())?;
    out.extend_from_slice(style(mark))
}

fn put_node(out: &mut Vec<u8>, node: &Node) -> Result<(), AllocError>
    ensures { OnOk result (out.new.items ≡ out.old.items ++ dot_row (Shows node.now)) }
{
    put_process(out, node.number as u64)?;
    out.extend_from_slice(b" [label=\"")?;
    put_node_label(out, Form::Dot, node)?;
    out.extend_from_slice(style(node.remark.mark))
}

fn put_row(out: &mut Vec<u8>, row: &Row) -> Result<(), AllocError>
    ensures { OnOk result (out.new.items ≡ out.old.items ++ dot_row row.now) }
{
    match row {
        Row::Opens {
            process,
            depth,
            name,
        } => put_opening(out, *process, *depth, name),
        Row::Closes => out.extend_from_slice(b"}\n"),
        Row::Folds {
            process,
            name,
            mark,
        } => put_folded(out, *process, name, *mark),
        Row::Shows(node) => put_node(out, node),
    }
}

/// Appends the lines of processes and boxes.
pub fn put_rows(out: &mut Vec<u8>, rows: &[Row]) -> Result<(), AllocError>
    ensures { OnOk result (out.new.items ≡ out.old.items ++ flat_map dot_row rows.now) }
{
    for row in rows {
        put_row(out, row)?;
    }
    Ok(())
}

// From a text to its process, or from a process to the file that it writes.
fn put_ends(out: &mut Vec<u8>, given: &Given) -> Result<(), AllocError>
    ensures { OnOk result (out.new.items ≡ out.old.items ++ dot_ends given.now) }
{
    if given.option {
        put_process(out, given.process as u64)?;
        out.extend_from_slice(b" -> ")?;
        return put_given_id(out, given);
    }
    put_given_id(out, given)?;
    out.extend_from_slice(b" -> ")?;
    put_process(out, given.process as u64)
}

fn put_given(out: &mut Vec<u8>, given: &Given) -> Result<(), AllocError>
    ensures { OnOk result (out.new.items ≡ out.old.items ++ dot_given given.now) }
{
    put_given_id(out, given)?;
    out.extend_from_slice(b" [shape=oval, label=\"'")?;
    put_quoted(out, Form::Dot, given.text.as_slice())?;
    out.extend_from_slice(b"'\"]\n")?;
    put_ends(out, given)?;
    out.extend_from_slice(b" [label=\"")?;
    put_quoted(out, Form::Dot, given.port.as_slice())?;
    out.extend_from_slice(b"\"]\n")
}

/// Appends the lines of texts.
pub fn put_givens(out: &mut Vec<u8>, givens: &[Given]) -> Result<(), AllocError>
    ensures { OnOk result (out.new.items ≡ out.old.items ++ flat_map dot_given givens.now) }
{
    for given in givens {
        put_given(out, given)?;
    }
    Ok(())
}

fn edge_style(mark: Mark, automatic: bool) -> &'static [u8]
    ensures { result.now ≡ edge_style mark automatic }
{
    match (mark, automatic) {
        (Mark::Cycle, _) => b"\", color=red, penwidth=3]\n",
        (_, true) => b"\", style=dotted]\n",
        (_, false) => b"\"]\n",
    }
}

fn put_edge(out: &mut Vec<u8>, edge: &Edge) -> Result<(), AllocError>
    ensures { OnOk result (out.new.items ≡ out.old.items ++ dot_edge edge.now) }
{
    put_process(out, u64::from(edge.from))?;
    out.extend_from_slice(b" -> ")?;
    put_process(out, u64::from(edge.to))?;
    out.extend_from_slice(b" [label=\"")?;
    put_edge_label(out, Form::Dot, edge)?;
    out.extend_from_slice(edge_style(edge.remark.mark, edge.automatic))
}

/// Appends the lines of senders.
pub fn put_edges(out: &mut Vec<u8>, edges: &[Edge]) -> Result<(), AllocError>
    ensures { OnOk result (out.new.items ≡ out.old.items ++ flat_map dot_edge edges.now) }
{
    for edge in edges {
        put_edge(out, edge)?;
    }
    Ok(())
}
