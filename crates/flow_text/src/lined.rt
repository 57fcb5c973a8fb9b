//! Cutting a text into lines.
ghost use Rattle.std.specs.Prelude.{◌≡◌, ◌+◌, ◌≤◌, [], length, drop, map, IfSome, IfNone, IfOk};
ghost use Rattle.std.specs.Str.Lines.{lines as lines_of};
ghost use Rattle.flow_text.specs.Lines.{line_length, IsNextLine};

use std::alloc::{AllocError, Global};

// The place of the next line feed, or the end.
fn line_end(bytes: &[u8], from: usize) -> usize
    requires { from ≤ length bytes.now }
    ensures most { result ≤ length bytes.now }
    ensures run { result ≡ from + line_length (drop from bytes.now) }
{
    let mut at = from;
    while at < bytes.len() && bytes[at] != b'\n' {
        at += 1;
    }
    at
}

/// The end of the line that begins at a place, and where the line after it begins. `None`: there is no further line. A line ends at byte
/// 10, which isn't part of it, and neither is one byte 13 directly before that. Bytes after the last byte 10 form a last line where there
/// is at least one. This project's own rule; it is the one of Rust's `str::lines`.
pub fn next_line(bytes: &[u8], from: usize) -> Option<(usize, usize)>
    requires { from ≤ length bytes.now }
    ensures none { IfNone result (lines_of (drop from bytes.now) ≡ []) }
    ensures some { IfSome result (λ place. IsNextLine bytes.now from place.0 place.1) }
{
    if from == bytes.len() {
        return None;
    }
    let end = line_end(bytes, from);
    if end == bytes.len() {
        return Some((end, end));
    }
    if from < end && bytes[end - 1] == b'\r' {
        return Some((end - 1, end + 1));
    }
    Some((end, end + 1))
}

/// The lines of a text, cut as `next_line` says.
pub fn lines(alloc: Global, bytes: &[u8]) -> Result<Vec<Vec<u8>>, AllocError>
    ensures { IfOk result (λ rows. map (λ row. row.items) rows.items ≡ lines_of bytes.now) }
{
    let mut rows = Vec::new(alloc);
    let mut from = 0;
    'rows: while let Some((end, next)) = next_line(bytes, from) {
        rows.push(bytes[from..end].to_vec(alloc)?)?;
        from = next;
    }
    Ok(rows)
}
