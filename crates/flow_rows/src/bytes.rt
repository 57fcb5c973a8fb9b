//! The bytes that lines of text stand for, and numbers.
use std::alloc::{AllocError, AllocFailed, Global};

/// Why a line of a row wasn't followed.
#[derive(Clone, Copy, Debug, PartialEq, Eq)]
pub enum RowStop {
    /// It says nothing that this program knows, or not here.
    Unknown,
    NoMemory,
}

impl From<AllocError> for RowStop {
    fn from(_: AllocError) -> Self {
        RowStop::NoMemory
    }
}

impl<T: Drop> From<AllocFailed<T>> for RowStop {
    fn from(_: AllocFailed<T>) -> Self {
        RowStop::NoMemory
    }
}

/// A decimal number.
pub fn number(text: &str) -> Result<u64, RowStop> {
    text.parse::<u64>().map_err(|_| RowStop::Unknown)
}

/// One that counts bytes of memory.
pub fn size(text: &str) -> Result<usize, RowStop> {
    text.parse::<usize>().map_err(|_| RowStop::Unknown)
}

/// Numbers with blanks between them.
pub fn numbers(alloc: Global, text: &str) -> Result<Vec<u64>, RowStop> {
    let mut all = Vec::new(alloc);
    for word in text.split_whitespace() {
        all.push(number(word)?)?;
    }
    Ok(all)
}

/// Such numbers again, spelled with one blank between two.
pub fn spelled(alloc: Global, numbers: &[u64]) -> Result<String, AllocError> {
    let mut text = String::new(alloc);
    for number in numbers {
        if !text.is_empty() {
            text.push(' ')?;
        }
        text.push_str(&format!(in alloc; "{number}")?)?;
    }
    Ok(text)
}

/// Bytes in hexadecimal.
fn put_hex(out: &mut Vec<u8>, text: &str) -> Result<(), RowStop> {
    for pair in text.split_whitespace() {
        match u8::from_str_radix(pair, 16) {
            Ok(byte) => out.push(byte)?,
            Err(_) => return Err(RowStop::Unknown),
        }
    }
    Ok(())
}

// A line that isn't repeated.
fn put_once(out: &mut Vec<u8>, line: &str) -> Result<(), RowStop> {
    if let Some(text) = line.strip_prefix('|') {
        out.extend_from_slice(text.as_bytes())?;
        out.push(b'\n')?;
    } else if let Some(text) = line.strip_prefix(':') {
        out.extend_from_slice(text.as_bytes())?;
    } else if let Some(text) = line.strip_prefix("x ") {
        put_hex(out, text)?;
    } else {
        return Err(RowStop::Unknown);
    }
    Ok(())
}

// `*N LINE`: this line so many times.
fn put_often(alloc: Global, out: &mut Vec<u8>, text: &str) -> Result<(), RowStop> {
    let (times, line) = text.split_once(' ').ok_or(RowStop::Unknown)?;
    let mut once = Vec::new(alloc);
    put_once(&mut once, line)?;
    for _ in 0..number(times)? {
        out.extend_from_slice(&once)?;
    }
    Ok(())
}

/// The bytes of these lines, one behind the other.
pub fn bytes_of(alloc: Global, lines: &[&str]) -> Result<Vec<u8>, RowStop> {
    let mut bytes = Vec::new(alloc);
    for line in lines {
        match line.strip_prefix('*') {
            Some(text) => put_often(alloc, &mut bytes, text)?,
            None => put_once(&mut bytes, *line)?,
        }
    }
    Ok(bytes)
}

/// Puts these bytes at a place, over those that stand there or behind the last one.
pub fn put_at(bytes: &mut Vec<u8>, place: usize, new: &[u8]) -> Result<(), RowStop> {
    if place > bytes.len() {
        return Err(RowStop::Unknown);
    }
    for (offset, byte) in new.iter().enumerate() {
        match bytes.get_mut(place.saturating_add(offset)) {
            Some(old) => *old = *byte,
            None => bytes.push(*byte)?,
        }
    }
    Ok(())
}
