//! The files that a file uses, and their subnets behind it.
ghost use Rattle.std.specs.Prelude.{◌≡◌, ◌++◌, IfOk, OnOk, false, map};
ghost use Rattle.std.specs.List.{flat_map};
ghost use Rattle.std.specs.Str.Lines.{lines as lines_of};
ghost use Rattle.flow_fill.specs.Filling.{ended, text_of};
ghost use Rattle.flow_fill.specs.Joining.{brought_by, row_here, subnet_rows, used_here, used_in, within_after};

use crate::place::Place;
use crate::reading::{begins, read_use_line};
use crate::rows::put_line;
use flow_items::Text;
use flow_text::lines;
use std::alloc::{AllocError, Global};

fn add_file(alloc: Global, files: &mut Vec<Text>, line: &[u8]) -> Result<(), AllocError>
    ensures { OnOk result (files.new.items ≡ files.old.items ++ used_here Place.Main line.now) }
{
    let Some(file) = read_use_line(alloc, line)? else {
        return Ok(());
    };
    files.push(file)?;
    Ok(())
}

fn add_used(
    alloc: Global,
    files: &mut Vec<Text>,
    place: Place,
    line: &[u8],
) -> Result<(), AllocError>
    ensures { OnOk result (files.new.items ≡ files.old.items ++ used_here place line.now) }
{
    match place {
        Place::Main => add_file(alloc, files, line),
        Place::Head => Ok(()),
        Place::Inside => Ok(()),
        Place::Other => Ok(()),
    }
}

fn used_of_lines(alloc: Global, lines: &[Vec<u8>]) -> Result<Vec<Text>, AllocError>
    ensures { IfOk result (λ files. files.items ≡ used_in (map (λ line. line.items) lines.now)) }
{
    let mut files = Vec::new(alloc);
    let mut place = Place::Head;
    'lines: for line in lines {
        let line = line.as_slice();
        add_used(alloc, &mut files, place, line)?;
        place = place.after(line);
    }
    Ok(files)
}

/// The files that a network file uses, as its lines name them, in their order; a file of another version than 3 uses none.
pub fn used_of(alloc: Global, text: &[u8]) -> Result<Vec<Text>, AllocError>
    ensures { IfOk result (λ files. files.items ≡ used_in (lines_of text.now)) }
{
    let lines = lines(alloc, text)?;
    used_of_lines(alloc, lines.as_slice())
}

// Whether the next line stands within a subnet, where this one does or doesn't.
fn is_within_after(within: bool, line: &[u8]) -> bool
    ensures { result ≡ within_after within line.now }
{
    if within {
        !begins(b"end", line)
    } else {
        begins(b"subnet", line)
    }
}

// A line of a subnet, or an empty one in the place of another.
fn put_row(out: &mut Vec<u8>, within: bool, line: &[u8]) -> Result<(), AllocError>
    ensures { OnOk result (out.new.items ≡ out.old.items ++ ended (row_here within line.now)) }
{
    if within || begins(b"subnet", line) {
        return put_line(out, line);
    }
    out.push(b'\n')?;
    Ok(())
}

fn put_subnets(out: &mut Vec<u8>, lines: &[Vec<u8>]) -> Result<(), AllocError>
    ensures { OnOk result (out.new.items ≡ out.old.items ++ text_of (subnet_rows false (map (λ line. line.items) lines.now))) }
{
    let mut within = false;
    'lines: for line in lines {
        let line = line.as_slice();
        put_row(out, within, line)?;
        within = is_within_after(within, line);
    }
    Ok(())
}

fn put_lines(out: &mut Vec<u8>, lines: &[Vec<u8>]) -> Result<(), AllocError>
    ensures { OnOk result (out.new.items ≡ out.old.items ++ text_of (map (λ line. line.items) lines.now)) }
{
    'lines: for line in lines {
        put_line(out, line.as_slice())?;
    }
    Ok(())
}

// The subnets of a file.
fn put_brought(alloc: Global, out: &mut Vec<u8>, file: &[u8]) -> Result<(), AllocError>
    ensures { OnOk result (out.new.items ≡ out.old.items ++ text_of (brought_by file.now)) }
{
    let lines = lines(alloc, file)?;
    put_subnets(out, lines.as_slice())
}

fn put_all_brought(alloc: Global, out: &mut Vec<u8>, files: &[Vec<u8>]) -> Result<(), AllocError>
    ensures { OnOk result (out.new.items ≡ out.old.items ++ text_of (flat_map brought_by (map (λ file. file.items) files.now))) }
{
    'files: for file in files {
        put_brought(alloc, out, file.as_slice())?;
    }
    Ok(())
}

/// A text with the subnets of these files behind its last line, one file after another. What else these files have is left out, but each of their lines keeps its place
/// among them, so that a fault of one can be told by its file and its number there.
pub fn join(alloc: Global, text: &[u8], files: &[Vec<u8>]) -> Result<Vec<u8>, AllocError>
    ensures { IfOk result (λ joined. lines_of joined.items ≡ lines_of text.now ++ flat_map brought_by (map (λ file. file.items) files.now)) }
{
    let mut out = Vec::new(alloc);
    let rows = lines(alloc, text)?;
    put_lines(&mut out, rows.as_slice())?;
    put_all_brought(alloc, &mut out, files)?;
    Ok(out)
}
