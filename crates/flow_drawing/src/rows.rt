//! The rows of a drawing: each process in its boxes.
ghost use Rattle.std.specs.Prelude.{◌≡◌, ◌++◌, [], IfOk, OnOk};
ghost use Rattle.flow_drawing.specs.Drawings.{node_of, rows_from};
ghost use Rattle.flow_drawing.specs.Standing.{StandInBoxes};

use crate::boxes::{boxes_of, put_closes, put_steps};
use crate::drawing::{Node, Remark, Row, remark_at};
use crate::settings::settings_of;
use flow_items::{Items, Text};
use flow_plan::{KindSpec, Process};
use std::alloc::{AllocError, Global};

/// A process with this number, as it is shown.
pub fn node_of(
    alloc: Global,
    kinds: &[KindSpec],
    remarks: &[Remark],
    number: usize,
    process: &Process,
) -> Result<Node, AllocError>
    ensures { IfOk result (λ node. node ≡ node_of kinds.now remarks.now number process.now) }
{
    let remark = remark_at(alloc, remarks, number)?;
    Ok(Node {
        number,
        name: process.name.copy(alloc)?,
        kind: process.kind.copy(alloc)?,
        options: settings_of(alloc, kinds, process)?,
        remark,
    })
}

/// The rows of these processes, in their order.
pub fn rows_of(
    alloc: Global,
    kinds: &[KindSpec],
    remarks: &[Remark],
    processes: &[Process],
) -> Result<Items<Row>, AllocError>
    ensures { IfOk result (λ rows. rows ≡ rows_from kinds.now remarks.now [] 0 processes.now) }
{
    let mut rows = Items::new(alloc);
    let mut opened: Vec<Text> = Vec::new(alloc);
    for number in 0..processes.len() {
        let process = &processes[number];
        let boxes = boxes_of(alloc, process.name.as_slice())?;
        put_steps(
            alloc,
            &mut rows,
            opened.as_slice(),
            boxes.as_slice(),
            number,
        )?;
        let node = node_of(alloc, kinds, remarks, number, process)?;
        rows.push(Row::Shows(node))?;
        opened = boxes;
    }
    put_closes(&mut rows, opened.len())?;
    Ok(rows)
}

/// The rows of processes show each of them once, in their order, and each in the boxes of its flat name.
pub fn each_process_stands_in_its_boxes()
    ensures { StandInBoxes }
{}
