//! Bytes of a file or of a word, as a terminal can show them: no byte of them drives it.
use crate::pieces::behind;
use std::alloc::AllocError;

/// So many columns are used of a line of the terminal.
const WIDTH: usize = 72;

/// So many columns of a long line are shown before the place at fault.
const BEFORE: usize = 24;

/// A line of a file with its number, from its beginning, or, where the line is long, from shortly before this place.
pub fn put_line(
    page: &mut String,
    number: u64,
    line: &[u8],
    place: usize,
) -> Result<(), AllocError> {
    write!(page, "{number} | ")?;
    put_around(page, line, place)?;
    page.push('\n')
}

// As much of a line as is shown, with this place in it.
fn put_around(page: &mut String, line: &[u8], place: usize) -> Result<(), AllocError> {
    if place < WIDTH {
        return put_within(page, line, WIDTH);
    }
    page.push_str("...")?;
    let rest = behind(line, place.saturating_sub(BEFORE));
    put_within(page, from_letter(rest), WIDTH)
}

/// A word, or a name: all of it, or its beginning where it is long.
pub fn put_word(page: &mut String, word: &[u8]) -> Result<(), AllocError> {
    put_within(page, word, WIDTH)
}

/// A word behind what a sentence says before it.
pub fn put_behind(page: &mut String, before: &str, word: &[u8]) -> Result<(), AllocError> {
    page.push_str(before)?;
    put_word(page, word)
}

/// A word between what a sentence says before it and after it.
pub fn put_between(
    page: &mut String,
    before: &str,
    word: &[u8],
    after: &str,
) -> Result<(), AllocError> {
    put_behind(page, before, word)?;
    page.push_str(after)
}

/// A text, all of it.
pub fn put_all(page: &mut String, text: &[u8]) -> Result<(), AllocError> {
    put_within(page, text, usize::MAX)
}

// What is left of a line without the rest of a letter that began before.
fn from_letter(rest: &[u8]) -> &[u8] {
    match rest.iter().position(|byte| (*byte & 0xc0) != 0x80) {
        Some(start) => behind(rest, start),
        None => rest,
    }
}

// Bytes as text, cut to so many columns.
fn put_within(page: &mut String, bytes: &[u8], width: usize) -> Result<(), AllocError> {
    let mut room = Room {
        left: width,
        quoted: false,
    };
    for chunk in bytes.utf8_chunks() {
        room.put_chunk(page, chunk.valid(), chunk.invalid())?;
        if room.left == 0 {
            return page.push_str("...");
        }
    }
    Ok(())
}

// The columns that are left of a line, and whether what is shown next stands in a quoted text.
#[derive(Drop)]
struct Room {
    left: usize,
    quoted: bool,
}

impl Room {
    // Text, and bytes behind it that are none.
    fn put_chunk(&mut self, page: &mut String, text: &str, bytes: &[u8]) -> Result<(), AllocError> {
        self.put_text(page, text)?;
        self.put_bytes(page, bytes)
    }

    fn put_text(&mut self, page: &mut String, text: &str) -> Result<(), AllocError> {
        for letter in text.chars() {
            if self.left == 0 {
                return Ok(());
            }
            self.put_letter(page, letter)?;
        }
        Ok(())
    }

    // Bytes that are no text, as numbers.
    fn put_bytes(&mut self, page: &mut String, bytes: &[u8]) -> Result<(), AllocError> {
        for byte in bytes {
            if self.left == 0 {
                return Ok(());
            }
            write!(page, "\\x{:02x}", *byte)?;
            self.left = self.left.saturating_sub(4);
        }
        Ok(())
    }

    fn put_letter(&mut self, page: &mut String, letter: char) -> Result<(), AllocError> {
        if letter == '\'' {
            self.quoted = !self.quoted;
        }
        put_seen(page, letter, self.quoted)?;
        self.left = self.left.saturating_sub(columns(letter));
        Ok(())
    }
}

// The columns that are counted for a letter.
fn columns(letter: char) -> usize {
    if is_unseen(letter) { 4 } else { 1 }
}

// A letter, or its number where it would be unseen.
fn put_seen(page: &mut String, letter: char, quoted: bool) -> Result<(), AllocError> {
    if letter == '\t' {
        return put_tab(page, quoted);
    }
    if is_unseen(letter) {
        return put_number(page, letter as u32);
    }
    page.push(letter)
}

// A tab outside of quotes says no more than a space.
fn put_tab(page: &mut String, quoted: bool) -> Result<(), AllocError> {
    page.push_str(if quoted { "\\t" } else { " " })
}

// The number of a letter that would be unseen.
fn put_number(page: &mut String, number: u32) -> Result<(), AllocError> {
    if number < 256 {
        return write!(page, "\\x{number:02x}");
    }
    write!(page, "\\u{{{number:x}}}")
}

// Whether a letter drives a terminal or hides from its reader: controls, and what changes the direction or has no width.
fn is_unseen(letter: char) -> bool {
    letter.is_control()
        || matches!(
            letter,
            '\u{ad}'
                | '\u{61c}'
                | '\u{180e}'
                | '\u{200b}'..='\u{200f}'
                | '\u{2028}'..='\u{202e}'
                | '\u{2060}'..='\u{206f}'
                | '\u{feff}'
                | '\u{fff9}'..='\u{fffb}'
                | '\u{e0000}'..='\u{e0fff}'
        )
}
