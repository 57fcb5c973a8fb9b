//! What the references of statements mean.
ghost use Rattle.std.specs.Prelude.{◌≡◌, ◌++◌, List, Ok, Err, MatchResult, IfOk};
ghost use Rattle.flow_flat.specs.Subnets.{meant, subnet_at, within};
ghost use Rattle.flow_expand.specs.Outcomes.{IfFault};
ghost use Rattle.std.specs.Option.{option_map};

use crate::indexed::Indexed;
use crate::named::{port_inside, process_named, subnet_called};
use crate::stop::ExpandStop;
use flow_flat::ExpandFault;
use flow_items::Text;
use flow_parse::NetPart;
use flow_plan::PortRef;
use std::alloc::{AllocError, Global};

/// A name behind what the names inside a subnet process begin with.
pub fn joined(alloc: Global, prefix: &[u8], name: &[u8]) -> Result<Vec<u8>, AllocError>
    ensures { IfOk result (λ bytes. bytes.items ≡ prefix.now ++ name.now) }
{
    let mut bytes = Vec::from_slice(alloc, prefix)?;
    bytes.extend_from_slice(name)?;
    Ok(bytes)
}

/// What the names inside a process begin with.
pub fn inside(alloc: Global, prefix: &[u8], name: &[u8]) -> Result<Vec<u8>, AllocError>
    ensures { IfOk result (λ bytes. bytes.items ≡ within prefix.now name.now) }
{
    let mut bytes = joined(alloc, prefix, name)?;
    bytes.extend_from_slice(b".")?;
    Ok(bytes)
}

// The subnet that a process of a part is, if it is one.
fn subnet_of<'a>(text: &Indexed<'a>, part: &NetPart, name: &[u8]) -> Option<&'a NetPart>
    ensures { subnet_at text.now part.now name.now ≡ option_map (λ p. p.now) result }
{
    let Some(place) = process_named(part, name) else {
        return None;
    };
    subnet_called(text, part.processes.as_slice()[place].1.as_slice())
}

fn no_port(
    alloc: Global,
    prefix: &[u8],
    name: &[u8],
    port: &PortRef,
) -> Result<ExpandFault, AllocError>
    ensures { IfOk result (λ fault. fault ≡ ExpandFault.OuterPort (prefix.now ++ name.now) port.now) }
{
    let process = Text::of(joined(alloc, prefix, name)?);
    Ok(ExpandFault::OuterPort(process, port.copy(alloc)?))
}

/// The process, by its flat name, and the port of it that a reference in a part means: of a subnet
/// process the port for which its outer port stands, and so on inside it. It calls itself once for each
/// level of subnets.
pub fn meant<'a>(
    alloc: Global,
    text: &Indexed<'a>,
    levels: u32,
    prefix: &[u8],
    part: &'a NetPart,
    input: bool,
    name: &Text,
    port: &'a PortRef,
) -> Result<(Text, &'a PortRef), ExpandStop>
    ensures { MatchResult result (λ p. meant text.now levels prefix.now part.now input name.now port.now ≡ Ok (p.0, p.1.now)) (λ stop. IfFault stop (λ fault. meant text.now levels prefix.now part.now input name.now port.now ≡ Err fault)) }
{
    if levels > 0 {
        if let Some(inner) = subnet_of(text, part, name.as_slice()) {
            let Some((process, next)) = port_inside(inner, input, port) else {
                let fault = no_port(alloc, prefix, name.as_slice(), port)?;
                return Err(ExpandStop::Fault(fault));
            };
            let begins = inside(alloc, prefix, name.as_slice())?;
            return meant(
                alloc,
                text,
                levels - 1,
                begins.as_slice(),
                inner,
                input,
                process,
                next,
            );
        }
    }
    Ok((Text::of(joined(alloc, prefix, name.as_slice())?), port))
}
