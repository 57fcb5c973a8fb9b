//! Bytes of a network file that begin no token, and files that don't begin as one.
use crate::kinds::{Side, automatic};
use crate::pieces::{after_blanks, behind, first, word};
use crate::shown::put_between;
use flow_parse::FIRST_VERSION;
use std::alloc::AllocError;

/// The mark with which some editors begin a file.
const MARK: &[u8] = b"\xef\xbb\xbf";

/// What is wrong with a first line that isn't the header.
pub fn put_header(page: &mut String, line: &[u8]) -> Result<(), AllocError> {
    if let Some(slip) = header_slip(line) {
        page.push_str(slip)?;
    }
    page.push_str("The first line that is no remark has to be: flow 1, flow 2 or flow 3\n")
}

// What a first line was meant for that isn't the header.
fn header_slip(line: &[u8]) -> Option<&'static str> {
    if line.starts_with(MARK) {
        return Some(
            "The file begins with a byte order mark: three bytes, which are to be left out.\n",
        );
    }
    if line.starts_with(b"FLOWJ001") {
        return Some("This is a journal: it stands behind --replay, and then the network file.\n");
    }
    if is_wide(line) {
        return Some("This isn't ASCII or UTF-8: it seems to have two bytes for each letter.\n");
    }
    flow_slip(after_blanks(line))
}

// Whether a line seems to have two bytes for each letter.
fn is_wide(line: &[u8]) -> bool {
    line.starts_with(b"\xff\xfe") || line.starts_with(b"\xfe\xff") || line.contains(&0)
}

// A first line that nearly begins as the header does.
fn flow_slip(rest: &[u8]) -> Option<&'static str> {
    if rest.starts_with(b"flow") {
        return Some("Behind flow stands the version of the language alone, which is 1, 2 or 3.\n");
    }
    if first(rest, 4).eq_ignore_ascii_case(b"flow") {
        return Some("Upper and lower case differ.\n");
    }
    None
}

// Whether this is the name of the automatic port of a side, but for upper and lower case.
fn is_nearly(name: &[u8], side: Side) -> bool {
    name.eq_ignore_ascii_case(behind(automatic(side), 1))
}

// What a `*` was meant for that begins no automatic port in a file of this version.
fn meant_star(rest: &[u8], version: u32) -> Option<&'static str> {
    let (name, _) = word(behind(rest, 1));
    let is_nearly = is_nearly(name, Side::Input) || is_nearly(name, Side::Output);
    match (version, is_nearly) {
        (FIRST_VERSION, true) => Some(
            "The automatic ports *IN and *OUT need a file that begins with flow 2.",
        ),
        (FIRST_VERSION, false) => None,
        (_, true) => Some("Upper and lower case differ: the automatic ports are *IN and *OUT."),
        (_, false) => Some(
            "The automatic ports are *IN and *OUT, with nothing within them; no other word begins with *.",
        ),
    }
}

// What a byte that begins no token was meant for, by those who write it most often. Lines with it go on like this.
fn meant(rest: &[u8], version: u32) -> Option<&'static str> {
    let byte = *rest.first()?;
    match byte {
        b'*' => meant_star(rest, version),
        b',' => Some(meant_comma(behind(rest, 1))),
        b'.' | b'/' | b'\\' | b'~' => Some(meant_point(rest)),
        0x80..=0xff => Some(meant_letter(rest)),
        _ => meant_sign(byte),
    }
}

// What a sign was meant for, wherever it stands.
fn meant_sign(byte: u8) -> Option<&'static str> {
    match byte {
        b'#' => Some("A remark stands in a line of its own."),
        b'"' | b'`' => Some("A text stands between two quotes '."),
        b'-' | b'=' | b'>' | b'<' => Some(ARROW),
        b';' => Some(STATEMENT_END),
        b'\r' => Some(
            "Lines end with byte 10; a byte 13 may stand before it, and nowhere else outside of a quoted text.",
        ),
        b'{' | b'}' => Some("The parentheses are ( and ), the brackets [ and ]."),
        0 => Some("This seems to be no text, or one with two bytes for each letter."),
        _ => None,
    }
}

const ARROW: &str = "The arrow is ->, with nothing within it.";

const STATEMENT_END: &str = "A statement ends with its line, and no sign stands behind it.";

// What a comma was meant for behind which this stands.
fn meant_comma(after: &[u8]) -> &'static str {
    if begins_with_digit(after) {
        "A number is written in digits alone, as 4096."
    } else {
        STATEMENT_END
    }
}

// What a point was meant for, or a sign as it stands in the names of files.
fn meant_point(rest: &[u8]) -> &'static str {
    if rest.starts_with(b".") && begins_in_capitals(behind(rest, 1)) {
        "A process and its port stand side by side: A OUT before the arrow, and FILE A behind it."
    } else {
        "A text, as the name of a file, stands in quotes."
    }
}

fn begins_with_digit(bytes: &[u8]) -> bool {
    match bytes.first() {
        Some(byte) => byte.is_ascii_digit(),
        None => false,
    }
}

// What a byte beyond ASCII was meant for: a letter, or a part of one.
fn meant_letter(rest: &[u8]) -> &'static str {
    match first_letter(rest) {
        Some('\u{2018}' | '\u{2019}' | '\u{201c}' | '\u{201d}' | '\u{201e}') => {
            "A text stands between two quotes ', which is the one of ASCII."
        }
        Some('\u{2192}' | '\u{2013}') => ARROW,
        Some('\u{a0}') => {
            "A blank is a space or a tab: this is another one, which doesn't break a line."
        }
        _ =>
            "A name has ASCII letters, digits and _; other letters stand in quoted texts and remarks.",
    }
}

// The letter with which bytes begin, where they begin as UTF-8.
fn first_letter(bytes: &[u8]) -> Option<char> {
    bytes.utf8_chunks().next()?.valid().chars().next()
}

// The bytes of the first letter, or else the first byte.
fn first_bytes(bytes: &[u8]) -> &[u8] {
    match first_letter(bytes) {
        Some(letter) => first(bytes, letter.len_utf8()),
        None => first(bytes, 1),
    }
}

// Whether the word, or automatic port, with which a text begins has a capital, as a port behind the point of A.OUT or A.*OUT.
fn begins_in_capitals(text: &[u8]) -> bool {
    let port = if text.starts_with(b"*") {
        behind(text, 1)
    } else {
        text
    };
    word(port).0.iter().any(|byte| byte.is_ascii_uppercase())
}

/// What is wrong with a byte that begins no token in a file of this version. What is left of its line begins with it.
pub fn put_bad_byte(
    page: &mut String,
    line: &[u8],
    rest: &[u8],
    version: u32,
) -> Result<(), AllocError> {
    let column = line.len().saturating_sub(rest.len()).saturating_add(1);
    write!(page, "At byte {column} of the line, ")?;
    put_between(
        page,
        "",
        first_bytes(rest),
        " begins no word, number or sign.\n",
    )?;
    match meant(rest, version) {
        Some(meant) => put_sentence(page, meant),
        None => Ok(()),
    }
}

fn put_sentence(page: &mut String, sentence: &str) -> Result<(), AllocError> {
    page.push_str(sentence)?;
    page.push('\n')
}
