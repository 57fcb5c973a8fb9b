//! The kind of a component that works by line: its packets come in at `IN` and leave by `OUT`, and it may have options.
//! Whoever hands one in gives it a name. The contracts say which kind it is; that it may stand beside the standard kinds
//! is computed for its name and its options (`own_kind` does so).
#![tactic(auto)]

ghost use Rattle.std.specs.Prelude.{◌≡◌, ◌∷◌, [], IfOk};
ghost use Rattle.flow_line_kind.specs.Kind.{line_kind, line_kind_with, option, packets_port};

use flow_items::{Items, Text};
use flow_plan::{KindSpec, PortClass, PortSpec};
use std::alloc::{AllocError, Global};

/// A port of this name that takes one text of this class before the network runs.
pub fn option(
    alloc: Global,
    name: &[u8],
    class: PortClass,
    needed: bool,
) -> Result<PortSpec, AllocError>
    ensures { IfOk result (λ port. port ≡ option name.now class needed) }
{
    Ok(PortSpec {
        name: Text::from_slice(alloc, name)?,
        class,
        array: false,
        needed,
    })
}

// A port of this name, which carries packets and has to be connected.
fn packets_port(alloc: Global, name: &[u8]) -> Result<PortSpec, AllocError>
    ensures { IfOk result (λ port. port ≡ packets_port name.now) }
{
    Ok(PortSpec {
        name: Text::from_slice(alloc, name)?,
        class: PortClass::Stream,
        array: false,
        needed: true,
    })
}

/// The kind of this name with the ports `IN` and `OUT`.
pub fn line_kind(alloc: Global, name: &[u8]) -> Result<KindSpec, AllocError>
    ensures { IfOk result (λ kind. kind ≡ line_kind name.now) }
{
    line_kind_with(alloc, name, Vec::new(alloc))
}

/// The kind of this name with these options before the ports `IN` and `OUT`.
pub fn line_kind_with(
    alloc: Global,
    name: &[u8],
    options: Vec<PortSpec>,
) -> Result<KindSpec, AllocError>
    ensures { IfOk result (λ kind. kind ≡ line_kind_with name.now options.items) }
{
    let name = Text::from_slice(alloc, name)?;
    let mut inputs = options;
    inputs.push(packets_port(alloc, b"IN")?)?;
    let mut outputs = Vec::new(alloc);
    outputs.push(packets_port(alloc, b"OUT")?)?;
    Ok(KindSpec {
        name,
        inputs: Items::of(inputs),
        outputs: Items::of(outputs),
    })
}
