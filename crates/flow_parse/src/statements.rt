//! The statement that a line is, which goes behind those of its part.
ghost use Rattle.std.specs.Prelude.{◌≡◌, ◌∷◌, [], ◌++◌, IfOk, OnOk, option_and_then};
ghost use Rattle.flow_parse.specs.declared.form.Form.{Form};
ghost use Rattle.flow_parse.specs.Files.{port_ref, output_ref, input_ref, statements_of};
ghost use Rattle.flow_parse.specs.Names.{capacity_of};
ghost use Rattle.flow_plan.specs.Network.{unnumbered};

use crate::form::{EndMention, Form, Mention, PortMention};
use crate::name::{capacity, element};
use crate::value::Statement;
use flow_items::Text;
use flow_plan::PortRef;
use std::alloc::{AllocError, Global};

fn refer(port: PortMention) -> PortRef
    ensures { result ≡ port_ref port }
{
    let PortMention {
        name,
        element: word,
    } = port;
    match word {
        Some(word) => {
            let element = element(&word);
            PortRef { name, element }
        }
        None => PortRef {
            name,
            element: None,
        },
    }
}

fn automatic(alloc: Global, name: &[u8]) -> Result<PortRef, AllocError>
    ensures { IfOk result (λ port. port ≡ unnumbered name.now) }
{
    let name = Text::from_slice(alloc, name)?;
    Ok(PortRef {
        name,
        element: None,
    })
}

fn refer_output(alloc: Global, end: EndMention) -> Result<PortRef, AllocError>
    ensures { IfOk result (λ port. port ≡ output_ref end) }
{
    match end {
        EndMention::Port(port) => Ok(refer(port)),
        EndMention::Automatic => automatic(alloc, b"*OUT"),
    }
}

fn refer_input(alloc: Global, end: EndMention) -> Result<PortRef, AllocError>
    ensures { IfOk result (λ port. port ≡ input_ref end) }
{
    match end {
        EndMention::Port(port) => Ok(refer(port)),
        EndMention::Automatic => automatic(alloc, b"*IN"),
    }
}

fn room_of(word: Option<Text>) -> Option<u32>
    ensures { result ≡ option_and_then capacity_of word }
{
    match word {
        Some(word) => capacity(&word),
        None => None,
    }
}

fn connection(
    alloc: Global,
    from: Mention,
    out: EndMention,
    capacity: Option<Text>,
    into: EndMention,
    to: Mention,
) -> Result<Statement, AllocError>
    ensures { IfOk result (λ statement. statements_of (Form.Connection from out capacity into to) ≡ statement ∷ []) }
{
    let out = refer_output(alloc, out)?;
    let capacity = room_of(capacity);
    let into = refer_input(alloc, into)?;
    Ok(Statement::Connect {
        from: from.name,
        out,
        capacity,
        to: to.name,
        into,
    })
}

/// Adds the statement that a form is.
pub fn add_statement(
    alloc: Global,
    statements: &mut Vec<Statement>,
    form: Form,
) -> Result<(), AllocError>
    ensures { OnOk result (statements.new.items ≡ statements.old.items ++ statements_of form) }
{
    match form {
        Form::Connection {
            from,
            out,
            capacity,
            into,
            to,
        } => {
            let connection = connection(alloc, from, out, capacity, into, to)?;
            statements.push(connection)?;
            Ok(())
        }
        Form::Initial { text, into, to } => {
            statements.push(Statement::Initial {
                text,
                to: to.name,
                into: refer(into),
            })?;
            Ok(())
        }
        Form::InPort { outer, into, to } => {
            statements.push(Statement::InPort {
                outer,
                to: to.name,
                into: refer(into),
            })?;
            Ok(())
        }
        Form::OutPort { from, out, outer } => {
            statements.push(Statement::OutPort {
                from: from.name,
                out: refer(out),
                outer,
            })?;
            Ok(())
        }
        _ => Ok(()),
    }
}
