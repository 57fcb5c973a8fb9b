//! A line that is at fault by itself: what is wrong with it, and what would be right.
use crate::bytes::{put_bad_byte, put_header};
use crate::forms::{is_digits, put_forms, slip};
use crate::found::{Found, Wanted, find, find_in, kind_given, kinded};
use crate::kinds::{is_port_name, table_for};
use crate::near::nearest;
use crate::net::{Net, put_found};
use crate::own::OwnKinds;
use crate::pieces::{Piece, bad_rest, pieces};
use crate::said::Mention;
use crate::shown::{put_behind, put_between, put_line};
use flow_limits::{
    CAPACITY_LIMIT, FIRST_CAPACITY_LIMIT, LAST_ELEMENT, NAME_LIMIT, STATEMENT_LIMIT, TEXT_LIMIT,
};
use flow_parse::{FIRST_VERSION, NetFault, RESERVED, Reason, SECOND_VERSION, is_reserved};
use flow_text::decimal;
use std::alloc::{AllocError, Global};

/// A shorter name isn't taken for another one that was spelled wrong.
const SHORT: usize = 3;

/// Explains the fault of a line.
pub fn put_fault(
    alloc: Global,
    page: &mut String,
    bytes: &[u8],
    own: OwnKinds<'_>,
    fault: NetFault,
) -> Result<(), AllocError> {
    let table = table_for(alloc, bytes, own.kinds)?;
    let net = Net {
        alloc,
        bytes,
        kinds: &table,
        own,
    };
    put_line_fault(net, page, fault)
}

fn put_line_fault(net: Net<'_>, page: &mut String, fault: NetFault) -> Result<(), AllocError> {
    match find(net.alloc, net.bytes, &Wanted::Number(fault.line))? {
        Some(found) => put_reason(net, page, &found, fault.reason),
        None => put_header(page, b""),
    }
}

fn put_reason<'a>(
    net: Net<'a>,
    page: &mut String,
    found: &Found<'a>,
    reason: Reason,
) -> Result<(), AllocError> {
    put_at_fault(page, found, reason)?;
    match reason {
        Reason::Header => put_header(page, found.line),
        Reason::Byte => put_byte(page, found),
        Reason::Quote => page.push_str(
            "A quoted text isn't closed in its line; two quotes stand for one in it.\n",
        ),
        Reason::Form => put_form(net, page, found),
        Reason::Name => put_name(net, page, found),
        Reason::Number => put_number(net, page, found),
        Reason::Kind => put_kind(net, page, found),
        Reason::Subnet => put_subnet(net, page, found),
        Reason::Limit => put_limit(page, found),
    }
}

// Shows the line, if it isn't empty, with the place in it that is at fault.
fn put_at_fault(page: &mut String, found: &Found<'_>, reason: Reason) -> Result<(), AllocError> {
    if found.line.is_empty() {
        return Ok(());
    }
    put_line(page, found.number, found.line, place_of(found, reason))
}

// The place in a line that is at fault: that of a byte, or else the beginning.
fn place_of(found: &Found<'_>, reason: Reason) -> usize {
    match reason {
        Reason::Byte => match bad_rest(found.version, found.line) {
            Some(rest) => found.line.len().saturating_sub(rest.len()),
            None => 0,
        },
        _ => 0,
    }
}

fn put_byte(page: &mut String, found: &Found<'_>) -> Result<(), AllocError> {
    let rest = bad_rest(found.version, found.line).unwrap_or(b"");
    put_bad_byte(page, found.line, rest, found.version)
}

fn put_form(net: Net<'_>, page: &mut String, found: &Found<'_>) -> Result<(), AllocError> {
    let pieces = pieces(net.alloc, found.version, found.line)?;
    page.push_str(slip(found, &pieces))?;
    put_forms(page, found.version)
}

fn is_name(word: &[u8]) -> bool {
    let begins = match word.first() {
        Some(first) => first.is_ascii_alphabetic(),
        None => false,
    };
    begins && word.len() <= NAME_LIMIT && !is_reserved(word)
}

// What a word is to be, by the two pieces before it.
#[derive(Clone, Copy, PartialEq, Eq)]
enum Role {
    Name,
    Kind,
    Capacity,
    Element,
}

fn role_of(before: &[Piece<'_>]) -> Role {
    match before {
        [.., Piece::OpenBracket] => Role::Element,
        [.., Piece::Arrow, Piece::Open] => Role::Capacity,
        [.., Piece::Open] => Role::Kind,
        _ => Role::Name,
    }
}

// The greatest capacity in a file of this version.
fn most_capacity(version: u32) -> u32 {
    if version == FIRST_VERSION {
        FIRST_CAPACITY_LIMIT
    } else {
        CAPACITY_LIMIT
    }
}

fn is_fine(word: &[u8], role: Role, version: u32) -> bool {
    match role {
        Role::Name | Role::Kind => is_name(word),
        Role::Capacity => decimal(word, 1, u64::from(most_capacity(version))).is_some(),
        Role::Element => decimal(word, 0, u64::from(LAST_ELEMENT)).is_some(),
    }
}

fn is_number(role: Role) -> bool {
    role == Role::Capacity || role == Role::Element
}

// The first word of a line that isn't what it is to be in a file of this version: a name, or else a number.
fn wrong_word<'a>(pieces: &[Piece<'a>], numbers: bool, version: u32) -> Option<(&'a [u8], Role)> {
    for (place, piece) in pieces.iter().enumerate() {
        if let Piece::Word(word) = piece {
            let role = role_of(pieces.split_at(place.min(pieces.len())).0);
            let begins = place == 0 && is_reserved(word);
            if is_number(role) == numbers && !begins && !is_fine(word, role, version) {
                return Some((*word, role));
            }
        }
    }
    None
}

// The first word of a found line that isn't what it is to be: a name, or else a number.
fn wrong_in<'a>(
    alloc: Global,
    found: &Found<'a>,
    numbers: bool,
) -> Result<Option<(&'a [u8], Role)>, AllocError> {
    let pieces = pieces(alloc, found.version, found.line)?;
    Ok(wrong_word(&pieces, numbers, found.version))
}

fn put_name(net: Net<'_>, page: &mut String, found: &Found<'_>) -> Result<(), AllocError> {
    if let Some((word, role)) = wrong_in(net.alloc, found, false)? {
        put_no_name(page, word, role)?;
    }
    put_name_rule(page)
}

fn put_no_name(page: &mut String, word: &[u8], role: Role) -> Result<(), AllocError> {
    put_between(page, "", word, " is no name. ")?;
    if role == Role::Kind && is_digits(word) {
        return page.push_str("A capacity stands directly behind the arrow. ");
    }
    Ok(())
}

// What a name is.
fn put_name_rule(page: &mut String) -> Result<(), AllocError> {
    write!(
        page,
        "A name begins with a letter, has letters, digits and _, at most {NAME_LIMIT} of them, and is none of the words"
    )?;
    put_reserved(page)?;
    page.push_str(".\n")
}

fn put_reserved(page: &mut String) -> Result<(), AllocError> {
    let mut between = " ";
    for reserved in &RESERVED {
        put_behind(page, between, reserved)?;
        between = ", ";
    }
    Ok(())
}

fn put_number(net: Net<'_>, page: &mut String, found: &Found<'_>) -> Result<(), AllocError> {
    let (word, role) = match wrong_in(net.alloc, found, true)? {
        Some(wrong) => wrong,
        None => (b"".as_slice(), Role::Capacity),
    };
    put_no_number(page, word)?;
    put_number_rule(page, role, most_capacity(found.version))?;
    put_second_version(page, word, role)
}

fn put_no_number(page: &mut String, word: &[u8]) -> Result<(), AllocError> {
    if word.is_empty() {
        return Ok(());
    }
    put_between(page, "", word, " is none: ")
}

// What a number in this role is, where a capacity is this one at most.
fn put_number_rule(page: &mut String, role: Role, most: u32) -> Result<(), AllocError> {
    if role == Role::Element {
        write!(page, "an element is a number from 0 to {LAST_ELEMENT}")?;
    } else {
        write!(page, "a capacity is a number from 1 to {most}")?;
    }
    page.push_str(", in digits without zeros in front.\n")
}

// Tells of a capacity that a file of version 2 may give.
fn put_second_version(page: &mut String, word: &[u8], role: Role) -> Result<(), AllocError> {
    if role == Role::Capacity && is_fine(word, role, SECOND_VERSION) {
        return write!(
            page,
            "In a file that begins with flow 2 it may be up to {CAPACITY_LIMIT}.\n"
        );
    }
    Ok(())
}

// A mention that gives its process another kind than a mention before it, and where that stands.
fn second_kind<'a>(
    net: Net<'a>,
    found: &Found<'a>,
    mention: Option<Mention<'a>>,
) -> Result<Option<(Mention<'a>, u64)>, AllocError> {
    let Some(mention) = mention else {
        return Ok(None);
    };
    let wanted = Wanted::Kind(mention.process);
    match find_in(net.alloc, net.bytes, found.part, &wanted)? {
        Some(first) if differs(found, &first, &mention) => Ok(Some((mention, first.number))),
        _ => Ok(None),
    }
}

// Whether a line mentions a process with another kind than the first line that gives it one.
fn differs(found: &Found<'_>, first: &Found<'_>, mention: &Mention<'_>) -> bool {
    let given = kind_given(&first.said, mention.process);
    mention.kind.is_some() && mention.kind != given && first.number <= found.number
}

// Such a mention on either side of the arrow.
fn any_second_kind<'a>(
    net: Net<'a>,
    found: &Found<'a>,
) -> Result<Option<(Mention<'a>, u64)>, AllocError> {
    match second_kind(net, found, found.said.from)? {
        Some(second) => Ok(Some(second)),
        None => second_kind(net, found, found.said.to),
    }
}

// The process of a mention, where no line of its part gives it a kind.
fn kindless<'a>(
    net: Net<'a>,
    found: &Found<'a>,
    mention: Option<Mention<'a>>,
) -> Result<Option<&'a [u8]>, AllocError> {
    let Some(mention) = mention else {
        return Ok(None);
    };
    let wanted = Wanted::Kind(mention.process);
    match find_in(net.alloc, net.bytes, found.part, &wanted)? {
        Some(_) => Ok(None),
        None => Ok(Some(mention.process)),
    }
}

// Such a process on either side of the arrow.
fn any_kindless<'a>(net: Net<'a>, found: &Found<'a>) -> Result<Option<&'a [u8]>, AllocError> {
    match kindless(net, found, found.said.from)? {
        Some(process) => Ok(Some(process)),
        None => kindless(net, found, found.said.to),
    }
}

fn put_kind<'a>(net: Net<'a>, page: &mut String, found: &Found<'a>) -> Result<(), AllocError> {
    if let Some((mention, number)) = any_second_kind(net, found)? {
        return put_second_kind(page, mention.process, number);
    }
    if let Some(process) = any_kindless(net, found)? {
        put_kindless(net, page, found, process)?;
    }
    page.push_str(
        "One of a process's mentions at least gives its kind, in parentheses behind its name.\n",
    )
}

fn put_second_kind(page: &mut String, process: &[u8], number: u64) -> Result<(), AllocError> {
    put_behind(page, "The process ", process)?;
    write!(
        page,
        " has another kind by line {number}. A process has one kind in its part.\n"
    )
}

fn put_kindless(
    net: Net<'_>,
    page: &mut String,
    found: &Found<'_>,
    process: &[u8],
) -> Result<(), AllocError> {
    put_between(page, "The process ", process, " has no kind. ")?;
    if is_port_name(net.kinds, process) {
        return page.push_str(
            "That is the name of a port: before the arrow a port stands behind its process, behind the arrow before it. ",
        );
    }
    // Between shorter names there is nothing near or far.
    if process.len() < SHORT {
        return Ok(());
    }
    let names = kinded(net.alloc, net.bytes, found.part)?;
    match nearest(net.alloc, process, &names)? {
        Some(near) => put_between(page, "The nearest that has one is ", near, ". "),
        None => Ok(()),
    }
}

fn put_subnet(net: Net<'_>, page: &mut String, found: &Found<'_>) -> Result<(), AllocError> {
    let first = find(net.alloc, net.bytes, &Wanted::Subnet(found.said.name))?;
    match first {
        Some(first) if first.number < found.number => put_same_name(page, &first),
        _ => page.push_str("This subnet has no line end.\n"),
    }
}

fn put_same_name(page: &mut String, first: &Found<'_>) -> Result<(), AllocError> {
    put_found(page, first)?;
    page.push_str("Two subnets have this name.\n")
}

fn put_limit(page: &mut String, found: &Found<'_>) -> Result<(), AllocError> {
    if found.line.len() > TEXT_LIMIT {
        return write!(page, "A quoted text has at most {TEXT_LIMIT} bytes.\n");
    }
    write!(
        page,
        "A file has at most {STATEMENT_LIMIT} connections, texts and outer ports together.\n"
    )
}
