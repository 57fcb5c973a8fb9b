//! Whether the templates of a plan are such for their patterns.
ghost use Rattle.std.specs.Prelude.{◌≡◌, ◌↔◌, None, IfOk, IsTrue, option_map};
ghost use Rattle.flow_plan.specs.Texts.{IsTemplateFor};
ghost use Rattle.flow_plan.specs.Templates.{given_at};
ghost use Rattle.flow_net.specs.Finishes.{HaveTemplates, RowsHaveTemplates, RowHasTemplate};

use crate::fault::{PlanFault, PlanStop};
use flow_items::Text;
use flow_pattern::{is_pattern, is_template};
use flow_plan::{PortClass, PortRef, PortRow, PortTable, Process};
use std::alloc::{AllocError, Global};

// The text that the option port at this place is given.
fn given_at(process: &Process, place: usize) -> Option<&[u8]>
    ensures { option_map (λ text. text.now) result ≡ given_at place process.now.options }
{
    let given = process
        .options
        .as_slice()
        .iter()
        .find(|option| option.0 as usize == place);
    match given {
        Some(option) => Some(option.1.as_slice()),
        None => None,
    }
}

// Whether a text is a template for this pattern. To read them takes memory.
fn is_template_for(alloc: Global, pattern: Option<&[u8]>, text: &[u8]) -> Result<bool, AllocError>
    ensures { IfOk result (λ is. IsTrue is ↔ IsTemplateFor (option_map (λ pattern. pattern.now) pattern.entry) text.now) }
{
    match pattern {
        None => Ok(false),
        Some(pattern) => Ok(is_pattern(alloc, pattern)? && is_template(alloc, pattern, text)?),
    }
}

fn unfit(alloc: Global, process: &Process, row: &PortRow) -> Result<PlanFault, AllocError>
    ensures { IfOk result (λ fault. fault ≡ PlanFault.BadOption process.now.name (record { name = row.now.spec.name; element = None })) }
{
    let name = process.name.copy(alloc)?;
    let port = PortRef {
        name: row.spec.name.copy(alloc)?,
        element: None,
    };
    Ok(PlanFault::BadOption(name, port))
}

// That the port at this place, which stands in this row, is given none but a template for its pattern.
fn check_row(alloc: Global, process: &Process, place: usize, row: &PortRow) -> Result<(), PlanStop>
    ensures { RowHasTemplate process.now place row.now result }
{
    let PortClass::Template { pattern } = row.spec.class else {
        return Ok(());
    };
    let Some(text) = given_at(process, place) else {
        return Ok(());
    };
    if is_template_for(alloc, given_at(process, pattern as usize), text)? {
        return Ok(());
    }
    let fault = unfit(alloc, process, row)?;
    Err(PlanStop::Fault(fault))
}

fn check_rows(alloc: Global, process: &Process, rows: &[PortRow]) -> Result<(), PlanStop>
    ensures { RowsHaveTemplates process.now rows.now result }
{
    for (place, row) in rows.iter().enumerate() {
        check_row(alloc, process, place, row)?;
    }
    Ok(())
}

/// That each template of these processes is one for its pattern, or the first that isn't.
pub fn check_templates(
    alloc: Global,
    processes: &[Process],
    tables: &[PortTable],
) -> Result<(), PlanStop>
    ensures { HaveTemplates processes.now tables.now result }
{
    for (process, table) in processes.iter().zip(tables) {
        check_rows(alloc, process, table.inputs.as_slice())?;
    }
    Ok(())
}
