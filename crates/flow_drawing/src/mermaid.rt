//! A drawing in the language of Mermaid.
ghost use Rattle.std.specs.Prelude.{◌≡◌, ◌++◌, OnOk};
ghost use Rattle.std.specs.List.{flat_map};
ghost use Rattle.flow_drawing.specs.Spelling.{arrow, automatic_arrow, mermaid_arrow, mermaid_edge, mermaid_given, mermaid_row, mermaid_style, mermaid_text};
ghost use Rattle.flow_drawing.specs.declared.drawing.Row.TheVariants.{Folds, Opens, Shows};

use crate::drawing::{Edge, Given, Mark, Node, Row};
use crate::labels::{put_edge_label, put_given_id, put_node_label, put_numbers, put_process};
use crate::quote::{Form, put_quoted};
use flow_items::Text;
use std::alloc::AllocError;

fn put_style(out: &mut Vec<u8>, mark: Mark, process: usize) -> Result<(), AllocError>
    ensures { OnOk result (out.new.items ≡ out.old.items ++ mermaid_style mark process) }
{
    let style: &[u8] = match mark {
        Mark::Plain => return Ok(()),
        Mark::Blocked => b" stroke-dasharray:4\n",
        Mark::Cycle => b" stroke:red,stroke-width:3px\n",
    };
    out.extend_from_slice(b"style ")?;
    put_process(out, process as u64)?;
    out.extend_from_slice(style)
}

// Begins the box of this name.
fn put_opening(
    out: &mut Vec<u8>,
    process: usize,
    depth: usize,
    name: &Text,
) -> Result<(), AllocError>
    ensures { OnOk result (out.new.items ≡ out.old.items ++ mermaid_row (Opens process depth name.now)) }
{
    out.extend_from_slice(b"subgraph b")?;
    put_numbers(out, process, depth)?;
    out.extend_from_slice(b"[\"subnet ")?;
    put_quoted(out, Form::Mermaid, name.as_slice())?;
    out.extend_from_slice(b"\"]\n")
}

// A subnet process as one box.
fn put_folded(out: &mut Vec<u8>, process: usize, name: &Text, mark: Mark) -> Result<(), AllocError>
    ensures { OnOk result (out.new.items ≡ out.old.items ++ mermaid_row (Folds process name.now mark)) }
{
    put_process(out, process as u64)?;
    out.extend_from_slice(b"[[\"subnet ")?;
    put_quoted(out, Form::Mermaid, name.as_slice())?;
    out.extend_from_slice(b"\"]]\n")?;
    put_style(out, mark, process)
}

fn put_node(out: &mut Vec<u8>, node: &Node) -> Result<(), AllocError>
    ensures { OnOk result (out.new.items ≡ out.old.items ++ mermaid_row (Shows node.now)) }
{
    put_process(out, node.number as u64)?;
    out.extend_from_slice(b"[\"")?;
    put_node_label(out, Form::Mermaid, node)?;
    out.extend_from_slice(b"\"]\n")?;
    put_style(out, node.remark.mark, node.number)
}

fn put_row(out: &mut Vec<u8>, row: &Row) -> Result<(), AllocError>
    ensures { OnOk result (out.new.items ≡ out.old.items ++ mermaid_row row.now) }
{
    match row {
        Row::Opens {
            process,
            depth,
            name,
        } => put_opening(out, *process, *depth, name),
        Row::Closes => out.extend_from_slice(b"end\n"),
        Row::Folds {
            process,
            name,
            mark,
        } => put_folded(out, *process, name, *mark),
        Row::Shows(node) => put_node(out, node),
    }
}

/// Appends the lines of processes and boxes.
pub fn put_rows(out: &mut Vec<u8>, rows: &[Row]) -> Result<(), AllocError>
    ensures { OnOk result (out.new.items ≡ out.old.items ++ flat_map mermaid_row rows.now) }
{
    for row in rows {
        put_row(out, row)?;
    }
    Ok(())
}

// A text in its box.
fn put_text(out: &mut Vec<u8>, given: &Given) -> Result<(), AllocError>
    ensures { OnOk result (out.new.items ≡ out.old.items ++ mermaid_text given.now) }
{
    put_given_id(out, given)?;
    out.extend_from_slice(b"([\"'")?;
    put_quoted(out, Form::Mermaid, given.text.as_slice())?;
    out.extend_from_slice(b"'\"])")
}

fn put_arrow(out: &mut Vec<u8>, given: &Given) -> Result<(), AllocError>
    ensures { OnOk result (out.new.items ≡ out.old.items ++ mermaid_arrow given.now) }
{
    out.extend_from_slice(b" -->|\"")?;
    put_quoted(out, Form::Mermaid, given.port.as_slice())?;
    out.extend_from_slice(b"\"| ")
}

fn put_given(out: &mut Vec<u8>, given: &Given) -> Result<(), AllocError>
    ensures { OnOk result (out.new.items ≡ out.old.items ++ mermaid_given given.now) }
{
    if given.option {
        put_process(out, given.process as u64)?;
        put_arrow(out, given)?;
        put_text(out, given)?;
        return out.extend_from_slice(b"\n");
    }
    put_text(out, given)?;
    put_arrow(out, given)?;
    put_process(out, given.process as u64)?;
    out.extend_from_slice(b"\n")
}

/// Appends the lines of texts.
pub fn put_givens(out: &mut Vec<u8>, givens: &[Given]) -> Result<(), AllocError>
    ensures { OnOk result (out.new.items ≡ out.old.items ++ flat_map mermaid_given givens.now) }
{
    for given in givens {
        put_given(out, given)?;
    }
    Ok(())
}

fn arrow(mark: Mark, automatic: bool) -> &'static [u8]
    ensures { result.now ≡ arrow mark automatic }
{
    match (mark, automatic) {
        (Mark::Cycle, _) => b" ==>|\"",
        (_, true) => b" -.->|\"",
        (_, false) => b" -->|\"",
    }
}

fn put_edge(out: &mut Vec<u8>, edge: &Edge) -> Result<(), AllocError>
    ensures { OnOk result (out.new.items ≡ out.old.items ++ mermaid_edge edge.now) }
{
    put_process(out, u64::from(edge.from))?;
    out.extend_from_slice(arrow(edge.remark.mark, edge.automatic))?;
    put_edge_label(out, Form::Mermaid, edge)?;
    out.extend_from_slice(b"\"| ")?;
    put_process(out, u64::from(edge.to))?;
    out.extend_from_slice(b"\n")
}

/// Appends the lines of senders.
pub fn put_edges(out: &mut Vec<u8>, edges: &[Edge]) -> Result<(), AllocError>
    ensures { OnOk result (out.new.items ≡ out.old.items ++ flat_map mermaid_edge edges.now) }
{
    for edge in edges {
        put_edge(out, edge)?;
    }
    Ok(())
}
