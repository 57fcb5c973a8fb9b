//! What components that map make of texts, worked out by hand.

ghost use Rattle.flow_limits.specs.declared.TheConstants.{TEXT_LIMIT};
ghost use Rattle.std.specs.Prelude.{◌≡◌, ◌≤◌, length};
ghost use Rattle.flow_find.specs.Split.{last_as};

use flow_find::{Find, Rewrite, Split};
use flow_limits::TEXT_LIMIT;
use flow_map::{LetterCase, Letters, Made, Maps, Told};
use flow_packet::Kind;
use flow_pattern::{is_pattern, is_template};
use std::alloc::{AllocError, Global};
use std::process::Abort;
use std::test::Fail;

// What is made of a text: its bytes, or a bracket.
fn bytes_of(alloc: Global, text: &[u8], made: Made) -> Result<Vec<u8>, AllocError> {
    match made {
        Made::Piece {
            kind: Kind::Open,
            ..
        } => Vec::from_slice(alloc, b"("),
        Made::Piece {
            kind: Kind::Close,
            ..
        } => Vec::from_slice(alloc, b")"),
        Made::Piece { start, end, .. } => match text.get(start..end) {
            Some(piece) => Vec::from_slice(alloc, piece),
            None => Ok(Vec::new(alloc)),
        },
        Made::Text(new) => Ok(new),
    }
}

// Writes what comes next of a text, with a sign behind it. Tells the place from which more comes.
fn write(
    alloc: Global,
    text: &[u8],
    told: Told,
    written: &mut Vec<u8>,
) -> Result<Option<usize>, AllocError> {
    let (made, place, end) = match told {
        Told::More(made, place) => (made, Some(place), b'|'),
        Told::Last(made) => (made, None, b'.'),
        Told::Over => {
            written.push(b';')?;
            return Ok(None);
        }
        Told::Itself => {
            written.push(b'=')?;
            return Ok(None);
        }
        Told::TooLong(_) => {
            written.push(b'!')?;
            return Ok(None);
        }
    };
    written.extend_from_slice(&bytes_of(alloc, text, made)?)?;
    written.push(end)?;
    Ok(place)
}

// What a Find makes of a text: a bar behind each packet, and a semicolon at the end.
fn found(alloc: Global, pattern: &[u8], with: &[u8], text: &[u8]) -> Result<Vec<u8>, Fail> {
    if !is_pattern(alloc, pattern)? || !is_template(alloc, pattern, with)? {
        return Err("no pattern, or no template for it".into());
    }
    if text.len() > TEXT_LIMIT {
        return Err("no text of a packet".into());
    }
    let mut find = Find::filling(alloc, pattern, with)?;
    let mut written = Vec::new(alloc);
    let mut place = 0;
    for _ in 0..100 {
        if place > text.len() + 1 {
            return Err("no place of the text".into());
        }
        let told = find.next(text, place)?;
        match write(alloc, text, told, &mut written)? {
            Some(next) => place = next,
            None => return Ok(written),
        }
    }
    Err("it doesn't end".into())
}

// The last place of a text.
fn last_place(bracketed: bool, text: &[u8]) -> usize
    requires { length text.now ≤ TEXT_LIMIT }
    ensures { result ≡ last_as bracketed text.now }
{
    if bracketed {
        text.len() + 3
    } else {
        text.len() + 1
    }
}

// What a Split makes of a text: a bar behind each packet but the last, and a dot behind that.
fn split(alloc: Global, pattern: &[u8], bracketed: bool, text: &[u8]) -> Result<Vec<u8>, Fail> {
    if !is_pattern(alloc, pattern)? || text.len() > TEXT_LIMIT {
        return Err("no pattern, or no text of a packet".into());
    }
    let last = last_place(bracketed, text);
    let mut written = Vec::new(alloc);
    let mut place = 0;
    for _ in 0..100 {
        if place > last {
            return Err("no place of the text".into());
        }
        // It keeps nothing from one place to the next.
        let mut split = Split::new(alloc, pattern, bracketed)?;
        let told = split.next(text, place)?;
        match write(alloc, text, told, &mut written)? {
            Some(next) => place = next,
            None => return Ok(written),
        }
    }
    Err("it doesn't end".into())
}

// What a Rewrite makes of a text.
fn rewritten(alloc: Global, pattern: &[u8], with: &[u8], text: &[u8]) -> Result<Vec<u8>, Fail> {
    if !is_pattern(alloc, pattern)? || !is_template(alloc, pattern, with)? {
        return Err("no pattern, or no template for it".into());
    }
    if text.len() > TEXT_LIMIT {
        return Err("no text of a packet".into());
    }
    let mut rewrite = Rewrite::new(alloc, pattern, with, false)?;
    let mut written = Vec::new(alloc);
    let told = rewrite.next(text, 0)?;
    write(alloc, text, told, &mut written)?;
    Ok(written)
}

// What a Letters makes of a text.
fn lettered(alloc: Global, case: LetterCase, text: &[u8]) -> Result<Vec<u8>, Fail> {
    if text.len() > TEXT_LIMIT {
        return Err("no text of a packet".into());
    }
    let mut letters = Letters::new(alloc, case);
    let mut written = Vec::new(alloc);
    let told = letters.next(text, 0)?;
    write(alloc, text, told, &mut written)?;
    Ok(written)
}

// Whether a text is a template for a pattern.
fn template(alloc: Global, pattern: &[u8], text: &[u8]) -> Result<bool, Fail> {
    if !is_pattern(alloc, pattern)? {
        return Err("no pattern".into());
    }
    Ok(is_template(alloc, pattern, text)?)
}

fn check(rt: &impl Abort, seen: Result<Vec<u8>, Fail>, wanted: &[u8]) -> Result<(), Fail> {
    assert_eq!(rt; seen?.as_slice(), wanted);
    Ok(())
}

fn check_template(rt: &impl Abort, seen: Result<bool, Fail>, wanted: bool) -> Result<(), Fail> {
    assert_eq!(rt; seen?, wanted);
    Ok(())
}

#[test]
fn a_find_has_each_match(rt: HostRuntime) -> Result<(), Fail> {
    let alloc = rt.alloc();
    check(&rt, found(alloc, b"[0-9]+", b"$0", b"a1b22c"), b"1|22|;")?;
    check(&rt, found(alloc, b"[0-9]+", b"$0", b"none"), b";")?;
    check(&rt, found(alloc, b"x*", b"$0", b"axb"), b"|x||;")?;
    check(&rt, found(alloc, b"", b"$0", b""), b"|;")
}

#[test]
fn a_template_is_filled_in(rt: HostRuntime) -> Result<(), Fail> {
    let alloc = rt.alloc();
    let pairs = b"([a-z]+)=([0-9]*)";
    check(
        &rt,
        found(alloc, pairs, b"$2:$1", b"a=1 b= c=33"),
        b"1:a|:b|33:c|;",
    )?;
    check(
        &rt,
        found(alloc, b"(?<k>[a-z]+)=", b"${k}$$", b"ab=cd="),
        b"ab$|cd$|;",
    )?;
    check(
        &rt,
        found(alloc, b"(a)|(b)", b"<$1$2>", b"ab"),
        b"<a>|<b>|;",
    )?;
    check(&rt, found(alloc, b"a", b"b", b"aa"), b"b|b|;")
}

#[test]
fn a_group_that_is_not_there_is_no_template(rt: HostRuntime) -> Result<(), Fail> {
    let alloc = rt.alloc();
    check_template(&rt, template(alloc, b"(a)", b"$0 ${1} $$"), true)?;
    check_template(&rt, template(alloc, b"(a)", b"$2"), false)?;
    check_template(&rt, template(alloc, b"(a)", b"$1a"), false)?;
    check_template(&rt, template(alloc, b"(a)", b"${1}a"), true)?;
    check_template(&rt, template(alloc, b"(?<n>a)", b"$n"), true)?;
    check_template(&rt, template(alloc, b"(?<n>a)", b"$m"), false)?;
    check_template(&rt, template(alloc, b"(a)", b"5 $"), false)?;
    check_template(&rt, template(alloc, b"(a)", b"${1"), false)
}

#[test]
fn a_split_has_what_lies_between(rt: HostRuntime) -> Result<(), Fail> {
    let alloc = rt.alloc();
    check(&rt, split(alloc, b",", false, b"a,,b"), b"a||b.")?;
    check(&rt, split(alloc, b",", false, b",a,"), b"|a|.")?;
    check(&rt, split(alloc, b",", false, b"none"), b"none.")?;
    check(&rt, split(alloc, b" *; *", false, b"a ; b;c"), b"a|b|c.")?;
    check(&rt, split(alloc, b",", false, b""), b".")
}

#[test]
fn pieces_go_in_brackets(rt: HostRuntime) -> Result<(), Fail> {
    let alloc = rt.alloc();
    check(&rt, split(alloc, b",", true, b"a,,b"), b"(|a||b|).")?;
    check(&rt, split(alloc, b",", true, b"none"), b"(|none|).")?;
    check(&rt, split(alloc, b",", true, b""), b"(||).")
}

#[test]
fn a_rewrite_has_the_new_text(rt: HostRuntime) -> Result<(), Fail> {
    let alloc = rt.alloc();
    let pairs = b"([a-z])([0-9])";
    check(&rt, rewritten(alloc, pairs, b"$2$1", b"a1 b2!"), b"1a 2b!.")?;
    check(&rt, rewritten(alloc, pairs, b"", b"a1"), b".")?;
    check(&rt, rewritten(alloc, pairs, b"$2$1", b"none"), b"=")?;
    check(&rt, rewritten(alloc, b"", b"-", b"ab"), b"-a-b-.")
}

#[test]
fn letters_have_one_case(rt: HostRuntime) -> Result<(), Fail> {
    let alloc = rt.alloc();
    let (lower, upper) = (LetterCase::Lower, LetterCase::Upper);
    check(&rt, lettered(alloc, lower, b"Az 09 @[`{"), b"az 09 @[`{.")?;
    check(&rt, lettered(alloc, upper, b"Az 09 @[`{"), b"AZ 09 @[`{.")?;
    check(&rt, lettered(alloc, lower, b"\xc3\x9cB"), b"\xc3\x9cb.")?;
    check(&rt, lettered(alloc, lower, b"none to change"), b"=")
}
