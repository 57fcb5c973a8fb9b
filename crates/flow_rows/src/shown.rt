//! Bytes as they are shown to a reader.
use std::alloc::{AllocError, Global};

/// How many bytes are shown at most.
const MOST: usize = 400;

fn put_byte(text: &mut String, byte: u8) -> Result<(), AllocError> {
    match byte {
        b'\n' => text.push_str("\\n"),
        b'\\' => text.push_str("\\\\"),
        32..=126 => text.push(char::from(byte)),
        _ => write!(text, "\\x{byte:02x}"),
    }
}

/// The first of these bytes, with escapes for those that aren't printed as they are.
pub fn shown(alloc: Global, bytes: &[u8]) -> Result<String, AllocError> {
    let mut text = String::new(alloc);
    for byte in bytes.iter().take(MOST) {
        put_byte(&mut text, *byte)?;
    }
    if bytes.len() > MOST {
        write!(text, ".. ({} bytes)", bytes.len())?;
    }
    Ok(text)
}

/// How many bytes two texts begin with alike.
pub fn alike(one: &[u8], other: &[u8]) -> usize {
    one.iter()
        .zip(other)
        .take_while(|pair| pair.0 == pair.1)
        .count()
}
