//! Lines that are none of the forms: which slip it is, for those that are made most often.
use crate::found::Found;
use crate::kinds::Side;
use crate::pieces::Piece;
use crate::words::{Reserved, begins_outer, reserved_word};
use flow_parse::FIRST_VERSION;
use std::alloc::AllocError;

// The forms of a line: processes and connections, and the others.
const FIRST_FORMS: &str = "A line says one thing, as
  A(ReadLines)              a process and its kind
  A OUT -> (20) IN B        a connection, maybe with a capacity
";

// What a connection may be besides in a file of version 2.
const AUTOMATIC_FORM: &str =
    "  A *OUT -> *IN B           one by which B begins only when A has ended\n";

const OTHER_FORMS: &str = "  'in.txt' -> FILE A        a text or a number, always in quotes
  subnet S, inport IN -> IN B, outport B OUT -> OUT, end
A remark stands in a line of its own, which begins with #.
";

/// The forms of a line in a file of this version.
pub fn put_forms(page: &mut String, version: u32) -> Result<(), AllocError> {
    page.push_str(FIRST_FORMS)?;
    if version != FIRST_VERSION {
        page.push_str(AUTOMATIC_FORM)?;
    }
    page.push_str(OTHER_FORMS)
}

/// Whether a word is a number.
pub fn is_digits(word: &[u8]) -> bool {
    word.iter().all(|byte| byte.is_ascii_digit())
}

fn is_arrow(piece: &Piece<'_>) -> bool {
    matches!(piece, Piece::Arrow)
}

// How often a line opens a parenthesis or bracket, and how often it closes one.
fn opened(pieces: &[Piece<'_>]) -> usize {
    let opens = pieces
        .iter()
        .filter(|piece| matches!(piece, Piece::Open | Piece::OpenBracket));
    opens.count()
}

fn closed(pieces: &[Piece<'_>]) -> usize {
    let closes = pieces.iter().filter(|piece| matches!(piece, Piece::Close | Piece::CloseBracket));
    closes.count()
}

// The pieces behind the first arrow.
fn behind_arrow<'p, 'a>(pieces: &'p [Piece<'a>]) -> Option<&'p [Piece<'a>]> {
    match pieces.iter().position(is_arrow) {
        Some(place) => Some(pieces.split_at(place.saturating_add(1).min(pieces.len())).1),
        None => None,
    }
}

/// The slip that a line has which is none of the forms, or one that may not stand where it does.
pub fn slip(found: &Found<'_>, pieces: &[Piece<'_>]) -> &'static str {
    if let Some(slip) = reserved_slip(found, pieces) {
        return slip;
    }
    if let Some(slip) = automatic_slip(pieces) {
        return slip;
    }
    if let [Piece::Quoted(_), Piece::Word(_), ..] = pieces {
        return "Behind a text stands an arrow; a quote within a text is written twice, as in 'it''s'.\n";
    }
    sign_slip(pieces)
}

// Lines whose signs are at fault, or else what stands between them.
fn sign_slip(pieces: &[Piece<'_>]) -> &'static str {
    if pieces.iter().filter(|piece| is_arrow(piece)).count() > 1 {
        return "A line has one arrow: each connection stands in a line of its own.\n";
    }
    if opened(pieces) != closed(pieces) {
        return "A parenthesis or bracket isn't closed, or wasn't opened.\n";
    }
    match behind_arrow(pieces) {
        None => unjoined_slip(pieces),
        Some(behind) => joined_slip(pieces, behind),
    }
}

// Lines that begin with a word of the language.
fn reserved_slip(found: &Found<'_>, pieces: &[Piece<'_>]) -> Option<&'static str> {
    match pieces {
        [Piece::Word(word), left @ ..] => {
            slip_behind(reserved_word(word)?, found.part.is_some(), left)
        }
        _ => None,
    }
}

// The slip of a line that begins with this word, in a subnet or outside of one.
fn slip_behind(word: Reserved, inside: bool, left: &[Piece<'_>]) -> Option<&'static str> {
    match word {
        Reserved::Flow => Some(
            "The line flow 1, flow 2 or flow 3 stands once, before all others.\n",
        ),
        Reserved::Subnet => Some(subnet_slip(left)),
        Reserved::End => Some(end_slip(inside)),
        Reserved::Inport | Reserved::Outport => outer_slip(inside),
    }
}

fn subnet_slip(left: &[Piece<'_>]) -> &'static str {
    match left {
        [Piece::Word(_)] => {
            "A subnet is begun in the main part: the one above has no end yet.\n"
        }
        _ => "A subnet begins with a line subnet NAME.\n",
    }
}

fn end_slip(inside: bool) -> &'static str {
    if inside {
        "The word end stands alone in its line.\n"
    } else {
        "No subnet is open here: the line end closes the one that was begun above it.\n"
    }
}

fn outer_slip(inside: bool) -> Option<&'static str> {
    if inside {
        return None;
    }
    Some("Outer ports stand in a subnet, before its end.\n")
}

fn is_automatic(piece: &Piece<'_>) -> bool {
    matches!(piece, Piece::Automatic(_))
}

// Lines with an automatic port that don't say of it what a connection does.
fn automatic_slip(pieces: &[Piece<'_>]) -> Option<&'static str> {
    if !pieces.iter().any(is_automatic) {
        return None;
    }
    match pieces {
        [Piece::Quoted(_), ..] => {
            Some("An automatic port takes no text: it stands in a connection, and nowhere else.\n")
        }
        [Piece::Word(word), ..] if begins_outer(word) => {
            Some(
                "An outer port stands for no automatic port: those stand in connections, and nowhere else.\n",
            )
        }
        _ => element_slip(pieces),
    }
}

// An automatic port with an element, or on the wrong side of the arrow.
fn element_slip(pieces: &[Piece<'_>]) -> Option<&'static str> {
    let mut neighbours = pieces.iter().zip(pieces.iter().skip(1));
    if neighbours.any(|(piece, next)| is_automatic(piece) && matches!(next, Piece::OpenBracket)) {
        return Some("An automatic port has no elements.\n");
    }
    let arrow = pieces.iter().position(is_arrow)?;
    let (before, behind) = pieces.split_at(arrow.min(pieces.len()));
    side_slip(before, behind)
}

// An automatic port on the wrong side of the arrow.
fn side_slip(before: &[Piece<'_>], behind: &[Piece<'_>]) -> Option<&'static str> {
    if before.iter().any(is_automatic_input) {
        return Some("*IN is an input: it stands behind the arrow, before its process.\n");
    }
    if behind.iter().any(is_automatic_output) {
        return Some("*OUT is an output: it stands before the arrow, behind its process.\n");
    }
    None
}

fn is_automatic_input(piece: &Piece<'_>) -> bool {
    matches!(piece, Piece::Automatic(Side::Input))
}

fn is_automatic_output(piece: &Piece<'_>) -> bool {
    matches!(piece, Piece::Automatic(Side::Output))
}

// Lines without an arrow.
fn unjoined_slip(pieces: &[Piece<'_>]) -> &'static str {
    match pieces {
        [Piece::Word(_)] => "A process stands with its kind, in parentheses.\n",
        [Piece::Word(_), Piece::Word(_)] => {
            "The kind of a process stands in parentheses behind its name.\n"
        }
        _ => "An arrow -> is missing between what is sent and where it goes.\n",
    }
}

// Lines with an arrow, behind which this stands.
fn joined_slip(pieces: &[Piece<'_>], behind: &[Piece<'_>]) -> &'static str {
    match before_slip(pieces) {
        Some(slip) => slip,
        None => behind_slip(behind),
    }
}

const NO_OUTPUT: &str = "Before the arrow an output stands behind its process.\n";

// What stands before the arrow, where that is at fault.
fn before_slip(pieces: &[Piece<'_>]) -> Option<&'static str> {
    match pieces {
        [Piece::Word(word), left @ ..] => sender_slip(word, left),
        [Piece::Automatic(_), ..] => Some(NO_OUTPUT),
        [Piece::Arrow, ..] => Some("Nothing stands before the arrow.\n"),
        _ => None,
    }
}

// A word before the arrow, where it is at fault or has no output behind it.
fn sender_slip(word: &[u8], left: &[Piece<'_>]) -> Option<&'static str> {
    if begins_outer(word) {
        return None;
    }
    match left {
        [Piece::Arrow, ..] => Some(lone_slip(word)),
        [Piece::Open, Piece::Word(_), Piece::Close, Piece::Arrow, ..] => Some(NO_OUTPUT),
        _ => None,
    }
}

// A word that stands alone before the arrow.
fn lone_slip(word: &[u8]) -> &'static str {
    if is_digits(word) {
        "A number stands in quotes, as any text does.\n"
    } else {
        "Before the arrow stands a text in quotes, or a process and its output.\n"
    }
}

const NO_INPUT: &str = "Behind the arrow an input stands before its process.\n";

const NO_PLACE: &str =
    "Something stands before or behind this statement that belongs into a line of its own, or nowhere.\n";

// What stands behind the arrow, where that is at fault.
fn behind_slip(behind: &[Piece<'_>]) -> &'static str {
    match behind {
        [] => "Behind the arrow stands an input, and then its process.\n",
        [Piece::Word(word), left @ ..] => receiver_slip(word, left),
        [Piece::Automatic(_)] => NO_INPUT,
        [Piece::Quoted(_), ..] => {
            "A text stands before the arrow, and the port that gets it behind.\n"
        }
        _ => NO_PLACE,
    }
}

// A word behind the arrow, where it is at fault or is no input.
fn receiver_slip(word: &[u8], left: &[Piece<'_>]) -> &'static str {
    match left {
        [Piece::Word(_), Piece::Word(_), ..] if is_digits(word) => {
            "A capacity stands in parentheses, directly behind the arrow.\n"
        }
        [] | [Piece::Open, ..] | [Piece::Automatic(_), ..] => NO_INPUT,
        _ => NO_PLACE,
    }
}
