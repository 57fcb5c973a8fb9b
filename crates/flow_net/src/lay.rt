//! The processes of a plan, with the tables of their ports.
ghost use Rattle.std.specs.Prelude.{◌≡◌, ◌≤◌, ◌<◌, length, map, IfOk, Some, slice_get, ℕ, List, true, false};
ghost use Rattle.flow_net.specs.Drafts.{is_stream_at};
ghost use Rattle.flow_net.specs.Sound.{IsPlaced, text_at};
ghost use Rattle.flow_net.specs.Finishes.{place_at, options_of, initials_of, process_of, row_of, rows_of, front, table_of};

use crate::counted::Counted;
use crate::draft::{DraftPort, DraftProcess, End};
use crate::find::{is_side, is_stream_at};
use crate::finish::{elements_in, number, total};
use flow_items::{Items, Text};
use flow_limits::ELEMENT_LIMIT;
use flow_plan::{PortRow, PortSpec, PortTable, Process};
use std::alloc::{AllocError, Global};

fn row(alloc: Global, port: &DraftPort) -> Result<PortRow, AllocError>
    requires { length port.now.elements ≤ ELEMENT_LIMIT }
    ensures { IfOk result (λ row. row ≡ row_of port.now) }
{
    let name = port.spec.name.copy(alloc)?;
    Ok(PortRow {
        spec: PortSpec {
            name,
            class: port.spec.class,
            array: port.spec.array,
            needed: port.spec.needed,
        },
        elements: elements_in(port),
    })
}

fn rows(
    alloc: Global,
    ports: &[DraftPort],
    process: u32,
    input: bool,
) -> Result<Vec<PortRow>, AllocError>
    requires { (g : ℕ) (port : DraftPort) → slice_get ports.now g ≡ Some port → length port.elements ≤ ELEMENT_LIMIT }
    ensures { IfOk result (λ rows. rows.items ≡ rows_of ports.now process input) }
{
    let mut rows = Vec::new(alloc);
    for port in ports {
        if is_side(port, process, input) {
            rows.push(row(alloc, port)?)?;
        }
    }
    Ok(rows)
}

// The same without the automatic port, which is the last.
fn own_rows(
    alloc: Global,
    ports: &[DraftPort],
    process: u32,
    input: bool,
) -> Result<Items<PortRow>, AllocError>
    requires { (g : ℕ) (port : DraftPort) → slice_get ports.now g ≡ Some port → length port.elements ≤ ELEMENT_LIMIT }
    ensures { IfOk result (λ rows. rows ≡ front (rows_of ports.now process input)) }
{
    let mut rows = rows(alloc, ports, process, input)?;
    let own = rows.len().saturating_sub(1);
    rows.truncate(own);
    Ok(Items::of(rows))
}

fn table(alloc: Global, ports: &[DraftPort], begun: &DraftProcess) -> Result<PortTable, AllocError>
    requires { (g : ℕ) (port : DraftPort) → slice_get ports.now g ≡ Some port → length port.elements ≤ ELEMENT_LIMIT }
    ensures { IfOk result (λ table. table ≡ table_of ports.now begun.now) }
{
    let inputs = own_rows(alloc, ports, begun.number, true)?;
    let outputs = own_rows(alloc, ports, begun.number, false)?;
    Ok(PortTable { inputs, outputs })
}

/// The ports of each process.
pub fn tables(
    alloc: Global,
    ports: &[DraftPort],
    processes: &[DraftProcess],
) -> Result<Vec<PortTable>, AllocError>
    requires { (g : ℕ) (port : DraftPort) → slice_get ports.now g ≡ Some port → length port.elements ≤ ELEMENT_LIMIT }
    ensures { IfOk result (λ v. v.items ≡ map (table_of ports.now) processes.now) }
{
    let mut tables = Vec::new(alloc);
    for begun in processes {
        tables.push(table(alloc, ports, begun)?)?;
    }
    Ok(tables)
}

fn place_at(ports: &[DraftPort], end: End) -> u32
    ensures { result ≡ place_at ports.now end }
{
    match ports.get(end.port as usize) {
        None => 0,
        Some(port) => port.place,
    }
}

// The texts of a process: those at option ports, and those at stream ports.
fn given(
    alloc: Global,
    draft: Counted<'_>,
    texts: Vec<(End, Text)>,
) -> Result<(Vec<(u32, Text)>, Vec<(u32, Text)>), AllocError>
    requires there { (k : ℕ) (end : End) (text : List ℕ) → slice_get texts.items k ≡ Some (end, text) → IsPlaced draft.ports.now end }
    ensures options { IfOk result (λ given. given.0.items ≡ options_of draft.entry.ports.now texts.items) }
    ensures initials { IfOk result (λ given. given.1.items ≡ initials_of draft.entry.ports.now texts.items) }
{
    let mut options = Vec::new(alloc);
    let mut initials = Vec::new(alloc);
    'texts: for (end, text) in texts {
        if is_stream_at(draft.ports, end) {
            initials.push((number(draft, end), text))?;
        } else {
            options.push((place_at(draft.ports, end), text))?;
        }
    }
    Ok((options, initials))
}

fn process(alloc: Global, draft: Counted<'_>, begun: DraftProcess) -> Result<Process, AllocError>
    requires there { (k : ℕ) (end : End) (text : List ℕ) → slice_get begun.texts k ≡ Some (end, text) → IsPlaced draft.ports.now end }
    ensures { IfOk result (λ process. process ≡ process_of draft.entry.ports.now begun) }
{
    let DraftProcess {
        number,
        name,
        kind,
        texts,
    } = begun;
    let (options, initials) = given(alloc, draft, texts.into_vec())?;
    Ok(Process {
        name,
        kind,
        options: Items::of(options),
        initials: Items::of(initials),
        inputs: total(draft, draft.ports.len(), number, true).saturating_sub(1),
        outputs: total(draft, draft.ports.len(), number, false).saturating_sub(1),
    })
}

/// The processes of a plan. Names and texts stay where they are.
pub fn processes(
    alloc: Global,
    draft: Counted<'_>,
    begun: Vec<DraftProcess>,
) -> Result<Vec<Process>, AllocError>
    requires there { (p k : ℕ) (end : End) (text : List ℕ) → text_at begun.items p k ≡ Some (end, text) → IsPlaced draft.ports.now end }
    ensures { IfOk result (λ v. v.items ≡ map (process_of draft.entry.ports.now) begun.items) }
{
    let mut processes = Vec::new(alloc);
    'begun: for each in begun {
        processes.push(process(alloc, draft, each)?)?;
    }
    Ok(processes)
}
