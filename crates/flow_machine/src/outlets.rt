//! The connections at the outputs of a process.
ghost use Rattle.std.specs.Prelude.{◌≡◌, ◌+◌, ℕ, length, slice_get, Option, Some, None, option_and_then, option_map};
ghost use Rattle.flow_model.specs.States.{outlets_from};
ghost use Rattle.flow_machine.specs.Outlets.{connection_at, output_in};

use flow_component::Port;

/// The connection at an output, if it has one.
pub(crate) fn output_at(outputs: &[Option<u32>], port: Port) -> Option<u32>
    ensures { result ≡ output_in outputs.now port.0 }
{
    match outputs.get(port.0 as usize) {
        Some(connection) => *connection,
        None => None,
    }
}

/// The connection at this place of a row, if it has one there.
pub(crate) fn connection_in(row: &[Option<u32>], place: usize) -> Option<u32>
    ensures { result ≡ output_in row.now place }
{
    match row.get(place) {
        Some(connection) => *connection,
        None => None,
    }
}

/// How many outputs are connected.
pub(crate) fn outlet_count(outputs: &[Option<u32>]) -> usize
    ensures { result ≡ length (outlets_from 0 outputs.now) }
{
    outputs.iter().filter(|output| output.is_some()).count()
}

/// The connection of the connected output at this place among the connected ones.
pub(crate) fn outlet_at(outputs: &[Option<u32>], place: u32) -> Option<u32>
    ensures { result ≡ connection_at (outlets_from 0 outputs.now) place }
{
    let mut left = place;
    for output in outputs {
        if let Some(connection) = output {
            if left == 0 {
                return Some(*connection);
            }
            left -= 1;
        }
    }
    None
}
