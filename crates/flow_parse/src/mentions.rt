//! What a line mentions: processes, which go into the table of its part.
ghost use Rattle.std.specs.Prelude.{◌≡◌, IfOk};
ghost use Rattle.flow_parse.specs.declared.form.Form.{Form};
ghost use Rattle.flow_parse.specs.Files.{mentions_of};
ghost use Rattle.flow_parse.specs.Table.{Adds, table_with, mentioned};

use crate::form::{Form, Mention};
use crate::table::Processes;
use flow_items::Text;
use std::alloc::{AllocError, Global};

fn copy_word(alloc: Global, word: &Option<Text>) -> Result<Option<Text>, AllocError>
    ensures { IfOk result (λ w. w ≡ word.now) }
{
    match word {
        Some(word) => Ok(Some(word.copy(alloc)?)),
        None => Ok(None),
    }
}

fn copy_mention(alloc: Global, mention: &Mention) -> Result<Mention, AllocError>
    ensures { IfOk result (λ m. m ≡ mention.now) }
{
    let name = mention.name.copy(alloc)?;
    let kind = copy_word(alloc, &mention.kind)?;
    Ok(Mention { name, kind })
}

fn add_one(
    alloc: Global,
    known: &mut Processes,
    line: u64,
    of: &Mention,
) -> Result<bool, AllocError>
    ensures { IfOk result (λ fine. Adds (mentioned known.old line of.now) known.new fine) }
{
    let copy = copy_mention(alloc, of)?;
    known.mention(alloc, line, copy)
}

fn add_process(
    alloc: Global,
    known: &mut Processes,
    line: u64,
    name: &Text,
    kind: &Text,
) -> Result<bool, AllocError>
    ensures { IfOk result (λ fine. Adds (table_with known.old line (mentions_of (Form.Process name.now kind.now))) known.new fine) }
{
    let name = name.copy(alloc)?;
    let kind = kind.copy(alloc)?;
    known.mention(
        alloc,
        line,
        Mention {
            name,
            kind: Some(kind),
        },
    )
}

/// Adds what a form mentions to a table. False where a process gets a second kind.
pub fn add_mentions(
    alloc: Global,
    known: &mut Processes,
    line: u64,
    form: &Form,
) -> Result<bool, AllocError>
    ensures { IfOk result (λ fine. Adds (table_with known.old line (mentions_of form.now)) known.new fine) }
{
    match form {
        Form::Process { name, kind } => add_process(alloc, known, line, name, kind),
        Form::Connection {
            from,
            out: _,
            capacity: _,
            into: _,
            to,
        } => {
            if !add_one(alloc, known, line, from)? {
                return Ok(false);
            }
            add_one(alloc, known, line, to)
        }
        Form::Initial {
            text: _,
            into: _,
            to,
        } => add_one(alloc, known, line, to),
        Form::InPort {
            outer: _,
            into: _,
            to,
        } => add_one(alloc, known, line, to),
        Form::OutPort {
            from,
            out: _,
            outer: _,
        } => add_one(alloc, known, line, from),
        Form::Header { version: _ } | Form::Subnet { name: _ } | Form::End => Ok(true),
    }
}
