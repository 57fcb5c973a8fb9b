//! The ports of the standard kinds, and the rows that several kinds have but for their names.

ghost use Rattle.std.specs.Prelude.{◌≡◌, ◌∷◌, [], IfOk, codes};
ghost use Rattle.flow_catalogue.specs.Kinds.{row};
ghost use Rattle.flow_catalogue.specs.Rows.{option_port, optional_option_port, stream_port, array_port, optional_port};

use flow_items::{Items, Text};
use flow_plan::{KindSpec, PortClass, PortSpec};
use std::alloc::{AllocError, Global};

/// A port that takes one text before the network runs.
pub fn option(alloc: Global, name: &[u8], class: PortClass) -> Result<PortSpec, AllocError>
    ensures { IfOk result (λ port. port ≡ option_port name.now class) }
{
    Ok(PortSpec {
        name: Text::from_slice(alloc, name)?,
        class,
        array: false,
        needed: true,
    })
}

/// A port that takes one text before the network runs, or none.
pub fn optional_option(alloc: Global, name: &[u8], class: PortClass) -> Result<PortSpec, AllocError>
    ensures { IfOk result (λ port. port ≡ optional_option_port name.now class) }
{
    Ok(PortSpec {
        name: Text::from_slice(alloc, name)?,
        class,
        array: false,
        needed: false,
    })
}

/// A port for packets that has to be connected.
pub fn stream(alloc: Global, name: &[u8]) -> Result<PortSpec, AllocError>
    ensures { IfOk result (λ port. port ≡ stream_port name.now) }
{
    option(alloc, name, PortClass::Stream)
}

/// A port for packets with elements.
pub fn array(alloc: Global, name: &[u8]) -> Result<PortSpec, AllocError>
    ensures { IfOk result (λ port. port ≡ array_port name.now) }
{
    Ok(PortSpec {
        name: Text::from_slice(alloc, name)?,
        class: PortClass::Stream,
        array: true,
        needed: true,
    })
}

/// An output that may be left open.
pub fn optional(alloc: Global, name: &[u8]) -> Result<PortSpec, AllocError>
    ensures { IfOk result (λ port. port ≡ optional_port name.now) }
{
    optional_option(alloc, name, PortClass::Stream)
}

/// A row of the table.
pub fn kind(
    alloc: Global,
    name: &[u8],
    inputs: Vec<PortSpec>,
    outputs: Vec<PortSpec>,
) -> Result<KindSpec, AllocError>
    ensures { IfOk result (λ kind. kind ≡ row name.now inputs.items outputs.items) }
{
    Ok(KindSpec {
        name: Text::from_slice(alloc, name)?,
        inputs: Items::of(inputs),
        outputs: Items::of(outputs),
    })
}

/// A row with one input for packets and one output.
pub fn passing(alloc: Global, name: &[u8]) -> Result<KindSpec, AllocError>
    ensures { IfOk result (λ kind. kind ≡ row name.now (stream_port (codes "IN") ∷ []) (stream_port (codes "OUT") ∷ [])) }
{
    let input = stream(alloc, b"IN")?;
    let output = stream(alloc, b"OUT")?;
    let inputs = vec![in alloc; input]?;
    kind(alloc, name, inputs, vec![in alloc; output]?)
}

/// A row with one input for packets and no output.
pub fn ending(alloc: Global, name: &[u8]) -> Result<KindSpec, AllocError>
    ensures { IfOk result (λ kind. kind ≡ row name.now (stream_port (codes "IN") ∷ []) []) }
{
    let input = stream(alloc, b"IN")?;
    let inputs = vec![in alloc; input]?;
    kind(alloc, name, inputs, Vec::new(alloc))
}

/// A row with one input for packets and an array of outputs.
pub fn spreading(alloc: Global, name: &[u8]) -> Result<KindSpec, AllocError>
    ensures { IfOk result (λ kind. kind ≡ row name.now (stream_port (codes "IN") ∷ []) (array_port (codes "OUT") ∷ [])) }
{
    let input = stream(alloc, b"IN")?;
    let output = array(alloc, b"OUT")?;
    let inputs = vec![in alloc; input]?;
    kind(alloc, name, inputs, vec![in alloc; output]?)
}

/// A row with a number of packets, one input for packets, an output for so many of them, and one for the rest.
pub fn counting(alloc: Global, name: &[u8]) -> Result<KindSpec, AllocError>
    ensures { IfOk result (λ kind. kind ≡ row name.now (option_port (codes "COUNT") (PortClass.Number 0 4294967295) ∷ stream_port (codes "IN") ∷ []) (stream_port (codes "OUT") ∷ optional_port (codes "REST") ∷ [])) }
{
    let numbers = PortClass::Number {
        least: 0,
        most: u32::MAX as u64,
    };
    let count = option(alloc, b"COUNT", numbers)?;
    let input = stream(alloc, b"IN")?;
    let output = stream(alloc, b"OUT")?;
    let rest = optional(alloc, b"REST")?;
    let inputs = vec![in alloc; count, input]?;
    kind(alloc, name, inputs, vec![in alloc; output, rest]?)
}
