//! What names and labels a spelled drawing has, in both languages.
ghost use Rattle.std.specs.Prelude.{◌≡◌, ◌++◌, OnOk};
ghost use Rattle.std.specs.List.{flat_map};
ghost use Rattle.flow_drawing.specs.Spelling.{box_id, capacity_text, edge_label, given_id, given_letter, line_break, node_label, note_text, process_id, setting_text};

use crate::drawing::{Edge, Given, Node, Setting};
use crate::quote::{Form, put_quoted};
use flow_text::put_decimal;
use std::alloc::AllocError;

/// Appends the name by which a process is mentioned.
pub fn put_process(out: &mut Vec<u8>, process: u64) -> Result<(), AllocError>
    ensures { OnOk result (out.new.items ≡ out.old.items ++ process_id process) }
{
    out.extend_from_slice(b"p")?;
    put_decimal(out, process)
}

/// Appends two numbers, by which a box or a text is mentioned.
pub fn put_numbers(out: &mut Vec<u8>, process: usize, place: usize) -> Result<(), AllocError>
    ensures { OnOk result (out.new.items ≡ out.old.items ++ box_id process place) }
{
    put_decimal(out, process as u64)?;
    out.extend_from_slice(b"_")?;
    put_decimal(out, place as u64)
}

fn given_letter(option: bool) -> &'static [u8]
    ensures { result.now ≡ given_letter option }
{
    if option { b"o" } else { b"t" }
}

/// Appends the name by which a text is mentioned.
pub fn put_given_id(out: &mut Vec<u8>, given: &Given) -> Result<(), AllocError>
    ensures { OnOk result (out.new.items ≡ out.old.items ++ given_id given.now) }
{
    out.extend_from_slice(given_letter(given.option))?;
    put_numbers(out, given.process, given.place)
}

fn line_break(form: Form) -> &'static [u8]
    ensures { result.now ≡ line_break form }
{
    match form {
        Form::Mermaid => b"<br>",
        Form::Dot => b"\\n",
    }
}

fn put_note(out: &mut Vec<u8>, form: Form, note: &[u8]) -> Result<(), AllocError>
    ensures { OnOk result (out.new.items ≡ out.old.items ++ note_text form note.now) }
{
    if note.is_empty() {
        return Ok(());
    }
    out.extend_from_slice(line_break(form))?;
    put_quoted(out, form, note)
}

fn put_setting(out: &mut Vec<u8>, form: Form, setting: &Setting) -> Result<(), AllocError>
    ensures { OnOk result (out.new.items ≡ out.old.items ++ setting_text form setting.now) }
{
    out.extend_from_slice(line_break(form))?;
    put_quoted(out, form, setting.port.as_slice())?;
    out.extend_from_slice(b" '")?;
    put_quoted(out, form, setting.text.as_slice())?;
    out.extend_from_slice(b"'")
}

fn put_settings(out: &mut Vec<u8>, form: Form, settings: &[Setting]) -> Result<(), AllocError>
    ensures { OnOk result (out.new.items ≡ out.old.items ++ flat_map (setting_text form) settings.now) }
{
    for setting in settings {
        put_setting(out, form, setting)?;
    }
    Ok(())
}

/// Appends the label of a process.
pub fn put_node_label(out: &mut Vec<u8>, form: Form, node: &Node) -> Result<(), AllocError>
    ensures { OnOk result (out.new.items ≡ out.old.items ++ node_label form node.now) }
{
    put_quoted(out, form, node.name.as_slice())?;
    out.extend_from_slice(b": ")?;
    put_quoted(out, form, node.kind.as_slice())?;
    put_settings(out, form, node.options.as_slice())?;
    put_note(out, form, node.remark.note.as_slice())
}

fn put_capacity(out: &mut Vec<u8>, capacity: Option<u32>) -> Result<(), AllocError>
    ensures { OnOk result (out.new.items ≡ out.old.items ++ capacity_text capacity) }
{
    match capacity {
        None => Ok(()),
        Some(capacity) => {
            out.extend_from_slice(b", capacity ")?;
            put_decimal(out, u64::from(capacity))
        }
    }
}

/// Appends the label of a sender.
pub fn put_edge_label(out: &mut Vec<u8>, form: Form, edge: &Edge) -> Result<(), AllocError>
    ensures { OnOk result (out.new.items ≡ out.old.items ++ edge_label form edge.now) }
{
    put_quoted(out, form, edge.output.as_slice())?;
    out.extend_from_slice(b", ")?;
    put_quoted(out, form, edge.input.as_slice())?;
    put_capacity(out, edge.capacity)?;
    put_note(out, form, edge.remark.note.as_slice())
}
