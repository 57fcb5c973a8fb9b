//! What a plan says of a process for its component, read in one place: the texts of its options and what
//! they spell, and whether an output is connected. Its numbers of inputs and outputs are fields of the
//! process.

ghost use Rattle.std.specs.Prelude.{◌≡◌, ◌≤◌, ◌<◌, ◌==◌, ◌∷◌, [], IfOk, IfSome, IfNone, length, position};
ghost use Rattle.std.specs.List.{slice_split};
ghost use Rattle.flow_text.specs.Text.{number_of};
ghost use Rattle.flow_plan.specs.Texts.{IsNumberWithin, IsFields};
ghost use Rattle.flow_catalogue.specs.Processes.{option_text, fields_of, has_sender, is_connected};

use flow_net::first_field;
use flow_plan::{Connection, Plan, Process};
use flow_text::decimal;
use std::alloc::{AllocError, Global};

/// The text of the option port at this place of its kind's row; empty where none was given.
pub(crate) fn option_text(process: &Process, place: u32) -> &[u8]
    ensures { result.now ≡ option_text place process.now.options }
{
    let given = process
        .options
        .as_slice()
        .iter()
        .find(|option| option.0 == place);
    match given {
        Some(option) => option.1.as_slice(),
        None => &[],
    }
}

/// The number that a text spells.
pub(crate) fn number(text: &[u8], least: u64, most: u64) -> u64
    requires { IsNumberWithin least most text.now }
    ensures number { result ≡ number_of text.now }
    ensures least { least ≤ result }
    ensures most { result ≤ most }
{
    match decimal(text, least, most) {
        Some(number) => number,
        None => unreachable!(),
    }
}

/// The lengths that a text of fields spells.
pub(crate) fn fields(alloc: Global, text: &[u8]) -> Result<Vec<u8>, AllocError>
    requires { IsFields text.now }
    ensures fields { IfOk result (λ fields. fields.items ≡ fields_of text.now) }
    ensures some { IfOk result (λ fields. 1 ≤ length fields.items) }
    ensures few { IfOk result (λ fields. length fields.items ≤ 8) }
{
    let mut lengths = Vec::new(alloc);
    let mut rest = text;
    'parts: while let Some((field, after)) = first_field(rest) {
        lengths.push(number(field, 1, 255) as u8)?;
        rest = after;
    }
    lengths.push(number(rest, 1, 255) as u8)?;
    Ok(lengths)
}

// Whether an output is among the senders of a connection.
fn sends(connection: &Connection, process: u32, output: u32) -> bool
    ensures { result ≡ has_sender process output connection.now }
{
    connection.senders.as_slice().iter().any(|sender| sender.process == process
        && sender.output == output)
}

/// Whether an output sends to a connection.
pub fn is_connected(plan: &Plan, process: u32, output: u32) -> bool
    ensures { result ≡ is_connected plan.now process output }
{
    plan.connections()
        .iter()
        .any(|connection| sends(connection, process, output))
}
