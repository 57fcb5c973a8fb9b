//! Port names, by the numbers of inputs and outputs.
ghost use Rattle.std.specs.Prelude.{◌≡◌, ◌<◌, ◌≤◌, ◌++◌, ◌∷◌, [], length, Some, IfOk, slice_get};
ghost use Rattle.std.specs.Option.{option_map};
ghost use Rattle.flow_plan.specs.Network.{elements_of, ports_of, spelled, spelled_element, unnumbered};

use crate::kind::PortClass;
use crate::plan::PortRow;
use flow_text::put_decimal;
use std::alloc::{AllocError, Global};

// The number of numbered elements of a port.
#[tactic(auto, using(crate::proofs::PortNames::length_elements_of))]
fn numbered(row: &PortRow) -> u32
    ensures { result ≡ length (elements_of row.now) }
{
    match row.spec.class {
        PortClass::Stream => { if row.spec.array { row.elements } else { 1 } }
        _ => 0,
    }
}

// A name with the number of an element behind it.
fn array_name(alloc: Global, name: &[u8], element: u32) -> Result<Vec<u8>, AllocError>
    ensures { IfOk result (λ v. v.items ≡ name.now ++ spelled_element (Some element)) }
{
    let mut spelled = Vec::from_slice(alloc, name)?;
    spelled.push(b'[')?;
    put_decimal(&mut spelled, u64::from(element))?;
    spelled.push(b']')?;
    Ok(spelled)
}

// An element of a port.
fn element_name(alloc: Global, row: &PortRow, element: u32) -> Result<Vec<u8>, AllocError>
    requires { element < length (elements_of row.now) }
    ensures { IfOk result (λ name. option_map spelled (slice_get (elements_of row.now) element) ≡ Some name.items) }
{
    let name = row.spec.name.as_slice();
    if row.spec.array {
        array_name(alloc, name, element)
    } else {
        Vec::from_slice(alloc, name)
    }
}

/// The port of this number, among the ports on one side of a process and the automatic one of this name behind them.
pub fn name_at(
    alloc: Global,
    rows: &[PortRow],
    automatic: &[u8],
    number: u32,
) -> Result<Vec<u8>, AllocError>
    requires { number ≤ length (ports_of rows.now) }
    ensures { IfOk result (λ name. option_map spelled (slice_get (ports_of rows.now ++ unnumbered automatic.now ∷ []) number) ≡ Some name.items) }
{
    let mut left = number;
    for row in rows {
        let count = numbered(row);
        if left < count {
            return element_name(alloc, row, left);
        }
        left -= count;
    }
    Vec::from_slice(alloc, automatic)
}
