//! The boxes in which a process stands, by the dots in its flat name.
ghost use Rattle.std.specs.Prelude.{◌≡◌, ◌++◌, ◌<◌, ◌≤◌, drop, length, replicate, IfOk, OnOk};
ghost use Rattle.std.specs.List.{common_prefix_len};
ghost use Rattle.std.specs.Str.{bytes_eq};
ghost use Rattle.flow_drawing.specs.Drawings.{agrees, begun, box_at, boxes_of, steps};
ghost use Rattle.flow_drawing.specs.declared.drawing.Row.TheVariants.{Closes};

use crate::drawing::Row;
use flow_items::{Items, Text};
use std::alloc::{AllocError, Global};

// Adds the box that ends before a dot at this place.
fn put_box(
    alloc: Global,
    boxes: &mut Vec<Text>,
    name: &[u8],
    place: usize,
) -> Result<(), AllocError>
    requires { place < length name.now }
    ensures { OnOk result (boxes.new.items ≡ boxes.old.items ++ box_at name.now place) }
{
    if name[place] == 46 {
        let before = Text::from_slice(alloc, &name[..place])?;
        boxes.push(before)?;
    }
    Ok(())
}

/// The names of the boxes in which the process of this flat name stands, from the outermost one.
pub fn boxes_of(alloc: Global, name: &[u8]) -> Result<Vec<Text>, AllocError>
    ensures { IfOk result (λ boxes. boxes.items ≡ boxes_of name.now) }
{
    let mut boxes = Vec::new(alloc);
    for place in 0..name.len() {
        put_box(alloc, &mut boxes, name, place)?;
    }
    Ok(boxes)
}

// Whether the boxes agree at this place, where they agree at all places before it.
fn agrees(opened: &[Text], boxes: &[Text], place: usize) -> bool
    requires { place < length opened.now }
    ensures { result ≡ agrees opened.now boxes.now place }
{
    if place >= boxes.len() {
        return false;
    }
    opened[place] == boxes[place]
}

// How many boxes stay open.
fn common(opened: &[Text], boxes: &[Text]) -> usize
    ensures same { result ≡ common_prefix_len bytes_eq opened.now boxes.now }
    ensures opened { result ≤ length opened.now }
    ensures boxes { result ≤ length boxes.now }
{
    for place in 0..opened.len() {
        if !agrees(opened, boxes, place) {
            return place;
        }
    }
    opened.len()
}

/// Ends so many boxes.
pub fn put_closes(rows: &mut Items<Row>, count: usize) -> Result<(), AllocError>
    ensures { OnOk result (rows.new ≡ rows.old ++ replicate count Closes) }
{
    for done in 0..count {
        rows.push(Row::Closes)?;
    }
    Ok(())
}

// Begins the boxes from this one on.
fn put_opens(
    alloc: Global,
    rows: &mut Items<Row>,
    boxes: &[Text],
    first: usize,
    process: usize,
) -> Result<(), AllocError>
    requires { first ≤ length boxes.now }
    ensures { OnOk result (rows.new ≡ rows.old ++ begun process first (drop first boxes.now)) }
{
    for depth in first..boxes.len() {
        let name = boxes[depth].copy(alloc)?;
        rows.push(Row::Opens {
            process,
            depth,
            name,
        })?;
    }
    Ok(())
}

/// From the boxes that are open to those of the next process: the others end, and what is missing begins.
pub fn put_steps(
    alloc: Global,
    rows: &mut Items<Row>,
    opened: &[Text],
    boxes: &[Text],
    process: usize,
) -> Result<(), AllocError>
    ensures { OnOk result (rows.new ≡ rows.old ++ steps opened.now boxes.now process) }
{
    let same = common(opened, boxes);
    put_closes(rows, opened.len() - same)?;
    put_opens(alloc, rows, boxes, same, process)
}
