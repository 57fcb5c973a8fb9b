//! Looking up what the parts of a text name.
ghost use Rattle.std.specs.Prelude.{◌≡◌, Some, None, MatchOption, is_some, position};
ghost use Rattle.std.specs.Str.{bytes_eq};
ghost use Rattle.std.specs.List.{list_any};
ghost use Rattle.std.specs.Option.{option_map};
ghost use Rattle.flow_flat.specs.Subnets.{subnet_called, stands_for, outer_port};
ghost use Rattle.flow_expand.specs.Places.{subnet_place, process_place};

use crate::indexed::Indexed;
use flow_items::Text;
use flow_parse::{NetPart, Statement};
use flow_plan::{KindSpec, PortRef};

/// The place of the subnet of a name among the subnets of a text.
pub fn subnet_named(text: &Indexed<'_>, name: &[u8]) -> Option<usize>
    ensures { result ≡ subnet_place text.now name.now }
{
    text.place(name)
}

/// The subnet of a name.
pub fn subnet_called<'a>(text: &Indexed<'a>, name: &[u8]) -> Option<&'a NetPart>
    ensures { subnet_called text.now name.now ≡ option_map (λ p. p.now) result }
{
    let Some(place) = subnet_named(text, name) else {
        return None;
    };
    Some(&text.value().subnets.as_slice()[place].1)
}

/// The place of the process of a name in its part.
pub fn process_named(part: &NetPart, name: &[u8]) -> Option<usize>
    ensures { result ≡ process_place part.now name.now }
{
    part.processes
        .as_slice()
        .iter()
        .position(|p| p.0.as_slice() == name)
}

/// Whether the table has a kind of this name.
pub fn is_kind(kinds: &[KindSpec], name: &[u8]) -> bool
    ensures { result ≡ list_any (λ k. bytes_eq k.name name.now) kinds.now }
{
    kinds.iter().any(|kind| kind.name.as_slice() == name)
}

fn stood_for<'a>(
    input: bool,
    name: &[u8],
    statement: &'a Statement,
) -> Option<(&'a Text, &'a PortRef)>
    ensures { MatchOption result (stands_for input name.now statement.now ≡ None) (λ p. stands_for input name.now statement.now ≡ Some (p.0.now, p.1.now)) }
{
    match statement {
        Statement::InPort { outer, to, into } => {
            if input && outer.as_slice() == name {
                Some((to, into))
            } else {
                None
            }
        }
        Statement::OutPort { from, out, outer } => {
            if !input && outer.as_slice() == name {
                Some((from, out))
            } else {
                None
            }
        }
        Statement::Connect {
            from: _,
            out: _,
            capacity: _,
            to: _,
            into: _,
        } => None,
        Statement::Initial {
            text: _,
            to: _,
            into: _,
        } => None,
    }
}

/// The process and the port of it for which an outer port of a subnet stands, by the first line that
/// gives it. An outer port has no elements.
pub fn port_inside<'a>(
    part: &'a NetPart,
    input: bool,
    port: &PortRef,
) -> Option<(&'a Text, &'a PortRef)>
    ensures { MatchOption result (outer_port part.now input port.now ≡ None) (λ p. outer_port part.now input port.now ≡ Some (p.0.now, p.1.now)) }
{
    if port.element.is_some() {
        return None;
    }
    let name = port.name.as_slice();
    let statements = part.statements.as_slice();
    'statements: for statement in statements {
        if let Some(found) = stood_for(input, name, statement) {
            return Some(found);
        }
    }
    None
}
