//! The calls that say something of words, or of a file, and do no more.
ghost use Rattle.flow_parse.specs.Values.{IsNetText};
ghost use Rattle.std.specs.Prelude.{IfOk};

use crate::around::Around;
use crate::bytes::RowStop;
use crate::calls::words_of;
use crate::page::first_word;
use flow_cli::Status;
use flow_drawing::{Form, put_quoted};
use flow_expand::{ExpandStop, expand, put_fault, put_net_fault};
use flow_parse::{NetText, ParseStop, parse, print};
use std::alloc::Global;

/// A status and a text.
type StatusAndText = (Status, Vec<u8>);

/// What the call of this kind says.
pub fn said(
    alloc: Global,
    around: &Around,
    kind: &str,
    rest: &str,
) -> Result<StatusAndText, RowStop> {
    match kind {
        "flow-words" => flow_words(alloc, rest),
        "draw-words" => draw_words(alloc, rest),
        "spell" => spell(alloc, around, rest),
        "expand" => expand_alone(alloc, around, rest),
        "quote" => quote(alloc, around, rest),
        _ => Err(RowStop::Unknown),
    }
}

// What `flow` is asked for by these words.
fn flow_words(alloc: Global, line: &str) -> Result<StatusAndText, RowStop> {
    let words = words_of(alloc, line)?;
    match flow_words::command(alloc, &words)? {
        Some(command) => {
            let text = format!(in alloc; "{command:?}\n")?;
            Ok((Status::Finished, text.into_bytes()))
        }
        None => Ok((Status::Words, Vec::new(alloc))),
    }
}

// What `draw` is asked for by these words.
fn draw_words(alloc: Global, line: &str) -> Result<StatusAndText, RowStop> {
    let words = words_of(alloc, line)?;
    match flow_draw::command(alloc, &words)? {
        Some(command) => {
            let text = format!(in alloc; "{command:?}\n")?;
            Ok((Status::Finished, text.into_bytes()))
        }
        None => Ok((Status::Words, Vec::new(alloc))),
    }
}

// The value of the network file of a name, or its fault in words.
fn value_of(alloc: Global, around: &Around, name: &str) -> Result<Result<NetText, Vec<u8>>, RowStop>
    ensures { IfOk result (λ read. IfOk read IsNetText) }
{
    let bytes = around.file(name).ok_or(RowStop::Unknown)?;
    match parse(alloc, bytes) {
        Ok(value) => Ok(Ok(value)),
        Err(ParseStop::Fault(fault)) => {
            let mut told = Vec::new(alloc);
            put_net_fault(&mut told, &fault)?;
            Ok(Err(told))
        }
        Err(ParseStop::NoMemory) => Err(RowStop::NoMemory),
    }
}

// The spelling of a network file, whatever kinds it names, or its fault.
fn spell(alloc: Global, around: &Around, name: &str) -> Result<StatusAndText, RowStop> {
    match value_of(alloc, around, name)? {
        Ok(value) => Ok((Status::Finished, print(alloc, &value)?)),
        Err(told) => Ok((Status::Refused, told)),
    }
}

// The fault of a network file where there are no kinds, and nothing where it has none.
fn expand_alone(alloc: Global, around: &Around, name: &str) -> Result<StatusAndText, RowStop> {
    let value = match value_of(alloc, around, name)? {
        Ok(value) => value,
        Err(told) => return Ok((Status::Refused, told)),
    };
    let mut told = Vec::new(alloc);
    match expand(alloc, &value, Vec::new(alloc)) {
        Ok(_) => Ok((Status::Finished, told)),
        Err(ExpandStop::Fault(fault)) => {
            put_fault(&mut told, &fault)?;
            Ok((Status::Refused, told))
        }
        Err(ExpandStop::NoMemory) => Err(RowStop::NoMemory),
    }
}

// A file's bytes in the quotes of a language of drawings.
fn quote(alloc: Global, around: &Around, rest: &str) -> Result<StatusAndText, RowStop> {
    let (form, name) = first_word(rest);
    let form = match form {
        "mermaid" => Form::Mermaid,
        "dot" => Form::Dot,
        _ => return Err(RowStop::Unknown),
    };
    let bytes = around.file(name).ok_or(RowStop::Unknown)?;
    let mut quoted = Vec::new(alloc);
    put_quoted(&mut quoted, form, bytes)?;
    Ok((Status::Finished, quoted))
}
