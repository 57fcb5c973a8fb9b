//! The input of the networks that are measured.
ghost use Rattle.std.specs.Prelude.{◌≡◌, ◌*◌, IfOk, length};

use std::alloc::{AllocError, Global};

/// A line of the input: 63 bytes and a line feed.
const LINE: &[u8] = b"abcdefghijklmnopqrstuvwxyz0123456789ABCDEFGHIJKLMNOPQRSTUVWXYZ.\n";

/// So many lines.
pub fn input_of(alloc: Global, lines: u32) -> Result<Vec<u8>, AllocError>
    ensures { IfOk result (λ bytes. length bytes.items ≡ 64 * lines) }
{
    let mut bytes = Vec::with_capacity(alloc, 64 * lines as usize)?;
    for _line in 0..lines {
        bytes.extend_from_slice(LINE)?;
    }
    Ok(bytes)
}
