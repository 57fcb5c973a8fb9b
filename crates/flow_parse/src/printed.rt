//! The canonical spelling of a value.
ghost use Rattle.std.specs.Prelude.{◌≡◌, ℕ, List, [], ◌∷◌, ◌++◌, OnOk, IfOk, codes};
ghost use Rattle.std.specs.Fmt.{decimal};
ghost use Rattle.std.specs.List.{flat_map};
ghost use Rattle.flow_parse.specs.Spelling.{doubled, spelling};
ghost use Rattle.flow_parse.specs.Files.{Spells};
ghost use Rattle.flow_parse.specs.Values.{IsNetText};
ghost use Rattle.flow_parse.specs.Canonical.{port_piece, header_line, process_line, statement_line, part_lines, subnet_lines, canonical};
ghost use Rattle.flow_parse.specs.declared.value.Statement.TheVariants.{Connect, Initial, InPort, OutPort};

use crate::value::{NetPart, NetText, Statement};
use flow_items::Text;
use flow_plan::PortRef;
use flow_text::put_decimal;
use std::alloc::{AllocError, Global};

// A byte of a quoted text, twice where it is a quote.
fn put_byte(out: &mut Vec<u8>, byte: u8) -> Result<(), AllocError>
    ensures { OnOk result (out.new.items ≡ out.old.items ++ doubled (byte ∷ [])) }
{
    if byte == b'\'' {
        return out.extend_from_slice(b"''");
    }
    out.push(byte)?;
    Ok(())
}

fn put_doubled(out: &mut Vec<u8>, text: &[u8]) -> Result<(), AllocError>
    ensures { OnOk result (out.new.items ≡ out.old.items ++ doubled text.now) }
{
    'bytes: for byte in text {
        put_byte(out, *byte)?;
    }
    Ok(())
}

fn put_port(out: &mut Vec<u8>, port: &PortRef) -> Result<(), AllocError>
    ensures { OnOk result (out.new.items ≡ out.old.items ++ flat_map spelling (port_piece port.now)) }
{
    out.extend_from_slice(port.name.as_slice())?;
    let Some(element) = port.element else {
        return Ok(());
    };
    out.push(b'[')?;
    put_decimal(out, u64::from(element))?;
    out.push(b']')?;
    Ok(())
}

// A receiver behind an arrow, and the end of the line.
fn put_receiver(out: &mut Vec<u8>, into: &PortRef, to: &Text) -> Result<(), AllocError>
    ensures { OnOk result (out.new.items ≡ out.old.items ++ flat_map spelling (port_piece into.now) ++ 32 ∷ to.now ++ 10 ∷ []) }
{
    put_port(out, into)?;
    out.push(b' ')?;
    out.extend_from_slice(to.as_slice())?;
    out.push(b'\n')?;
    Ok(())
}

// A sender, and the arrow behind it.
fn put_sender(out: &mut Vec<u8>, from: &Text, port: &PortRef) -> Result<(), AllocError>
    ensures { OnOk result (out.new.items ≡ out.old.items ++ from.now ++ 32 ∷ flat_map spelling (port_piece port.now) ++ codes " -> ") }
{
    out.extend_from_slice(from.as_slice())?;
    out.push(b' ')?;
    put_port(out, port)?;
    out.extend_from_slice(b" -> ")
}

// A capacity in parentheses, and a space.
fn put_capacity(out: &mut Vec<u8>, capacity: u32) -> Result<(), AllocError>
    ensures { OnOk result (out.new.items ≡ out.old.items ++ 40 ∷ decimal capacity ++ 41 ∷ 32 ∷ []) }
{
    out.push(b'(')?;
    put_decimal(out, u64::from(capacity))?;
    out.extend_from_slice(b") ")
}

fn put_connection(
    out: &mut Vec<u8>,
    from: &Text,
    port: &PortRef,
    capacity: Option<u32>,
    to: &Text,
    into: &PortRef,
) -> Result<(), AllocError>
    ensures { OnOk result (out.new.items ≡ out.old.items ++ statement_line (Connect from.now port.now capacity to.now into.now)) }
{
    put_sender(out, from, port)?;
    let Some(capacity) = capacity else {
        return put_receiver(out, into, to);
    };
    put_capacity(out, capacity)?;
    put_receiver(out, into, to)?;
    Ok(())
}

fn put_initial(out: &mut Vec<u8>, text: &Text, to: &Text, into: &PortRef) -> Result<(), AllocError>
    ensures { OnOk result (out.new.items ≡ out.old.items ++ statement_line (Initial text.now to.now into.now)) }
{
    out.push(b'\'')?;
    put_doubled(out, text.as_slice())?;
    out.extend_from_slice(b"' -> ")?;
    put_receiver(out, into, to)
}

fn put_in_port(out: &mut Vec<u8>, outer: &Text, to: &Text, into: &PortRef) -> Result<(), AllocError>
    ensures { OnOk result (out.new.items ≡ out.old.items ++ statement_line (InPort outer.now to.now into.now)) }
{
    out.extend_from_slice(b"inport ")?;
    out.extend_from_slice(outer.as_slice())?;
    out.extend_from_slice(b" -> ")?;
    put_receiver(out, into, to)
}

fn put_out_port(
    out: &mut Vec<u8>,
    from: &Text,
    port: &PortRef,
    outer: &Text,
) -> Result<(), AllocError>
    ensures { OnOk result (out.new.items ≡ out.old.items ++ statement_line (OutPort from.now port.now outer.now)) }
{
    out.extend_from_slice(b"outport ")?;
    put_sender(out, from, port)?;
    out.extend_from_slice(outer.as_slice())?;
    out.push(b'\n')?;
    Ok(())
}

fn put_statement(out: &mut Vec<u8>, statement: &Statement) -> Result<(), AllocError>
    ensures { OnOk result (out.new.items ≡ out.old.items ++ statement_line statement.now) }
{
    match statement {
        Statement::Connect {
            from,
            out: port,
            capacity,
            to,
            into,
        } => put_connection(out, from, port, *capacity, to, into),
        Statement::Initial { text, to, into } => put_initial(out, text, to, into),
        Statement::InPort { outer, to, into } => put_in_port(out, outer, to, into),
        Statement::OutPort {
            from,
            out: port,
            outer,
        } => put_out_port(out, from, port, outer),
    }
}

fn put_process(out: &mut Vec<u8>, process: &(Text, Text)) -> Result<(), AllocError>
    ensures { OnOk result (out.new.items ≡ out.old.items ++ process_line process.now) }
{
    out.extend_from_slice(process.0.as_slice())?;
    out.push(b'(')?;
    out.extend_from_slice(process.1.as_slice())?;
    out.extend_from_slice(b")\n")?;
    Ok(())
}

fn put_processes(out: &mut Vec<u8>, processes: &[(Text, Text)]) -> Result<(), AllocError>
    ensures { OnOk result (out.new.items ≡ out.old.items ++ flat_map process_line processes.now) }
{
    'processes: for process in processes {
        put_process(out, process)?;
    }
    Ok(())
}

fn put_statements(out: &mut Vec<u8>, statements: &[Statement]) -> Result<(), AllocError>
    ensures { OnOk result (out.new.items ≡ out.old.items ++ flat_map statement_line statements.now) }
{
    'statements: for statement in statements {
        put_statement(out, statement)?;
    }
    Ok(())
}

fn put_part(out: &mut Vec<u8>, part: &NetPart) -> Result<(), AllocError>
    ensures { OnOk result (out.new.items ≡ out.old.items ++ part_lines part.now) }
{
    put_processes(out, part.processes.as_slice())?;
    put_statements(out, part.statements.as_slice())
}

fn put_subnet(out: &mut Vec<u8>, subnet: &(Text, NetPart)) -> Result<(), AllocError>
    ensures { OnOk result (out.new.items ≡ out.old.items ++ subnet_lines subnet.now) }
{
    out.extend_from_slice(b"subnet ")?;
    out.extend_from_slice(subnet.0.as_slice())?;
    out.push(b'\n')?;
    put_part(out, &subnet.1)?;
    out.extend_from_slice(b"end\n")
}

fn put_subnets(out: &mut Vec<u8>, subnets: &[(Text, NetPart)]) -> Result<(), AllocError>
    ensures { OnOk result (out.new.items ≡ out.old.items ++ flat_map subnet_lines subnets.now) }
{
    'subnets: for subnet in subnets {
        put_subnet(out, subnet)?;
    }
    Ok(())
}

fn put_header(out: &mut Vec<u8>, version: u32) -> Result<(), AllocError>
    ensures { OnOk result (out.new.items ≡ out.old.items ++ header_line version) }
{
    out.extend_from_slice(b"flow ")?;
    put_decimal(out, u64::from(version))?;
    out.push(b'\n')?;
    Ok(())
}

/// The one canonical spelling of a value: the header of its version, then each subnet, then the main part. A part has a line
/// for each process with its kind, and then its statements. The spelling is this project's own.
pub fn print(alloc: Global, text: &NetText) -> Result<Vec<u8>, AllocError>
    ensures canonical { IfOk result (λ bytes. bytes.items ≡ canonical text.now) }
    // The spelling of a valid value spells that value.
    ensures spells { IsNetText text.now → IfOk result (λ bytes. Spells bytes.items text.now) }
{
    let mut out = Vec::new(alloc);
    put_header(&mut out, text.version)?;
    put_subnets(&mut out, text.subnets.as_slice())?;
    put_part(&mut out, &text.main)?;
    Ok(out)
}
