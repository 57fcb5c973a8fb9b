//! What stands for a process where subnet processes are folded: the process itself, or its outermost box.
ghost use Rattle.std.specs.Prelude.{◌≡◌, ◌≤◌, ◌++◌, drop, length, IfOk, OnOk};
ghost use Rattle.flow_limits.specs.declared.TheConstants.{PROCESS_LIMIT};
ghost use Rattle.flow_drawing.specs.Folding.{first_within, folded_port, front_of, graver, inner_by, is_within, mark_within, name_of, outermost, own_mark};

use crate::boxes::boxes_of;
use crate::drawing::{Mark, Remark, remark_at};
use flow_items::Text;
use flow_plan::Process;
use std::alloc::{AllocError, Global};

/// The outermost box in which the process of this flat name stands, where it stands in one.
pub fn outermost(alloc: Global, name: &[u8]) -> Result<Option<Text>, AllocError>
    ensures { IfOk result (λ outer. outer ≡ outermost name.now) }
{
    let boxes = boxes_of(alloc, name)?;
    match boxes.first() {
        Some(outer) => Ok(Some(outer.copy(alloc)?)),
        None => Ok(None),
    }
}

// Whether it stands in this box, as its outermost one.
fn is_within(alloc: Global, outer: &Text, name: &[u8]) -> Result<bool, AllocError>
    ensures { IfOk result (λ within. within ≡ is_within outer.now name.now) }
{
    match outermost(alloc, name)? {
        Some(other) => Ok(*outer == other),
        None => Ok(false),
    }
}

/// The number of the first process that stands in this box.
pub fn first_within(alloc: Global, outer: &Text, processes: &[Process]) -> Result<u32, AllocError>
    requires { length processes.now ≤ PROCESS_LIMIT }
    ensures { IfOk result (λ first. first ≡ first_within outer.now 0 processes.now) }
{
    for number in 0..processes.len() {
        let process = &processes[number];
        if is_within(alloc, outer, process.name.as_slice())? {
            return Ok(number as u32);
        }
    }
    Ok(processes.len() as u32)
}

/// The flat name of a process, and no bytes where there is none of this number.
pub fn name_of(processes: &[Process], number: usize) -> &[u8]
    ensures { result.now ≡ name_of processes.now number }
{
    match processes.get(number) {
        Some(process) => process.name.as_slice(),
        None => b"",
    }
}

/// The number by which a process is drawn: its own, or that of the first process in its box.
pub fn front_of(alloc: Global, processes: &[Process], number: u32) -> Result<u32, AllocError>
    requires { length processes.now ≤ PROCESS_LIMIT }
    ensures { IfOk result (λ front. front ≡ front_of processes.now number) }
{
    match outermost(alloc, name_of(processes, number as usize))? {
        Some(outer) => first_within(alloc, &outer, processes),
        None => Ok(number),
    }
}

// What is left of bytes behind so many of them.
fn behind(bytes: &[u8], count: usize) -> &[u8]
    ensures { result.now ≡ drop count bytes.now }
{
    if count <= bytes.len() {
        &bytes[count..]
    } else {
        b""
    }
}

// Appends what stands before a port of the process of this flat name.
fn put_inner(alloc: Global, told: &mut Vec<u8>, name: &[u8]) -> Result<(), AllocError>
    ensures { OnOk result (told.new.items ≡ told.old.items ++ inner_by name.now (outermost name.now)) }
{
    match outermost(alloc, name)? {
        Some(outer) => {
            let rest = behind(name, outer.len());
            told.extend_from_slice(behind(rest, 1))?;
            told.extend_from_slice(b".")
        }
        None => Ok(()),
    }
}

/// A port of a process where that is drawn as a part of its box: behind the rest of its flat name, and a dot.
pub fn folded_port(
    alloc: Global,
    processes: &[Process],
    number: u32,
    port: &Text,
) -> Result<Text, AllocError>
    ensures { IfOk result (λ told. told ≡ folded_port processes.now number port.now) }
{
    let name = name_of(processes, number as usize);
    let mut told = Vec::new(alloc);
    put_inner(alloc, &mut told, name)?;
    told.extend_from_slice(port.as_slice())?;
    Ok(Text::of(told))
}

// The graver of two marks.
fn graver(mark: Mark, other: Mark) -> Mark
    ensures { result ≡ graver mark other }
{
    match (mark, other) {
        (Mark::Plain, other) => other,
        (Mark::Cycle, _) => Mark::Cycle,
        (Mark::Blocked, Mark::Plain) => Mark::Blocked,
        (Mark::Blocked, Mark::Blocked) => Mark::Blocked,
        (Mark::Blocked, Mark::Cycle) => Mark::Cycle,
    }
}

// The mark of the process with this number and name, where it stands in the box.
fn own_mark(
    alloc: Global,
    remarks: &[Remark],
    outer: &Text,
    number: usize,
    name: &[u8],
) -> Result<Mark, AllocError>
    ensures { IfOk result (λ mark. mark ≡ own_mark remarks.now outer.now number name.now) }
{
    if !is_within(alloc, outer, name)? {
        return Ok(Mark::Plain);
    }
    let remark = remark_at(alloc, remarks, number)?;
    Ok(remark.mark)
}

/// The gravest mark of the processes that stand in this box.
pub fn mark_within(
    alloc: Global,
    remarks: &[Remark],
    outer: &Text,
    processes: &[Process],
) -> Result<Mark, AllocError>
    ensures { IfOk result (λ mark. mark ≡ mark_within remarks.now outer.now 0 processes.now) }
{
    let mut mark = Mark::Plain;
    for number in 0..processes.len() {
        let name = processes[number].name.as_slice();
        let own = own_mark(alloc, remarks, outer, number, name)?;
        mark = graver(mark, own);
    }
    Ok(mark)
}
