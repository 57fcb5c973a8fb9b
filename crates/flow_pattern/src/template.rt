//! Templates: how one is read, and whether a text is one.

ghost use Rattle.std.specs.Prelude.{◌≡◌, ◌↔◌, ◌+◌, ◌<◌, ◌≤◌, ◌++◌, ◌∷◌, [], List, length, IfErr, IfNone, IfOk, IfSome, IsTrue, OnOk};
ghost use Rattle.regex.specs.Names.{names_of};
ghost use Rattle.flow_pattern.specs.Pattern.{IsPattern, group_names};
ghost use Rattle.flow_pattern.specs.Template.{dollar_part, first_part, Spells, IsTemplate};

use crate::calls::{behind, called, name_at};
use crate::reading::{Slip, names_in};
use std::alloc::{AllocError, Global};

/// A part of a template.
#[derive(Clone, Copy, Debug, PartialEq, Eq)]
pub(crate) enum Part {
    /// A byte that stands for itself.
    Byte(u8),
    /// A group by its number, of which stands what it holds at a match.
    Group(usize),
}

// The part that a dollar begins, by what stands behind it, and how many bytes spell it with the dollar.
fn dollar_part(names: &[Option<String>], rest: &[u8]) -> Option<(Part, usize)>
    ensures part { result ≡ dollar_part (names_of names.now) rest.now }
    ensures within { IfSome result (λ found. (0 < found.1) × (found.1 ≤ length rest.now + 1)) }
{
    if let [b'$', ..] = rest {
        return Some((Part::Byte(b'$'), 2));
    }
    let Some((name, len)) = name_at(rest) else {
        return None;
    };
    match called(names, name) {
        Some(group) => Some((Part::Group(group), len + 1)),
        None => None,
    }
}

// The part with which a text begins, and how many bytes spell it.
fn first_part(names: &[Option<String>], text: &[u8]) -> Option<(Part, usize)>
    requires some { 0 < length text.now }
    ensures part { result ≡ first_part (names_of names.now) text.now }
    ensures within { IfSome result (λ found. (0 < found.1) × (found.1 ≤ length text.now)) }
{
    let byte = text[0];
    if byte == b'$' {
        return dollar_part(names, behind(text, 1));
    }
    Some((Part::Byte(byte), 1))
}

fn push(parts: &mut Vec<Part>, part: Part) -> Result<(), AllocError>
    ensures { OnOk result (parts.new.items ≡ parts.old.items ++ part ∷ []) }
{
    parts.push(part)?;
    Ok(())
}

// The parts that a text spells, or the place of a dollar that neither is one of two nor calls a group.
fn parts_in(
    alloc: Global,
    names: &[Option<String>],
    text: &[u8],
) -> Result<Result<Vec<Part>, usize>, AllocError>
    ensures spelled { IfOk result (λ read. IfOk read (λ parts. Spells (names_of names.now) text.now parts.items)) }
    ensures refused { IfOk result (λ read. IfErr read (λ _. (parts : List Part) → Spells (names_of names.now) text.now parts → ⊥)) }
    ensures place { IfOk result (λ read. IfErr read (λ place. place < length text.now)) }
{
    let mut parts = Vec::new(alloc);
    let mut at: usize = 0;
    while at < text.len() {
        let rest = behind(text, at);
        let Some((part, len)) = first_part(names, rest) else {
            return Ok(Err(at));
        };
        push(&mut parts, part)?;
        at += len;
    }
    Ok(Ok(parts))
}

// The parts that a text spells as a template for a pattern, or the place of a dollar that is none.
pub(crate) fn template_parts(
    alloc: Global,
    pattern: &[u8],
    text: &[u8],
) -> Result<Result<Vec<Part>, usize>, AllocError>
    requires pattern { IsPattern pattern.now }
    ensures spelled { IfOk result (λ read. IfOk read (λ parts. Spells (group_names pattern.now) text.now parts.items)) }
    ensures refused { IfOk result (λ read. IfErr read (λ _. IsTemplate pattern.now text.now → ⊥)) }
    ensures place { IfOk result (λ read. IfErr read (λ place. place < length text.now)) }
    ensures numbered { IfOk result (λ _. 0 < length (group_names pattern.now)) }
{
    let names = names_in(alloc, pattern)?;
    parts_in(alloc, names.as_slice(), text)
}

/// Where a text stops being a template for a pattern; none where it is one. Takes memory.
///
/// In a template `$1`, `${1}`, `$name` and `${name}` call a group of the pattern, by its number or its name, and `$0` the
/// whole match; without braces a name goes as far as letters of ASCII, digits and low lines do. `$$` stands for a dollar,
/// and each other byte for itself. A text in which a dollar is none of these, or calls a group that the pattern hasn't,
/// is no template.
pub fn template_slip_in(
    alloc: Global,
    pattern: &[u8],
    text: &[u8],
) -> Result<Option<Slip>, AllocError>
    requires pattern { IsPattern pattern.now }
    ensures none { IfOk result (λ slip. IfNone slip (IsTemplate pattern.now text.now)) }
    ensures some { IfOk result (λ slip. IfSome slip (λ _. IsTemplate pattern.now text.now → ⊥)) }
    ensures place { IfOk result (λ slip. IfSome slip (λ s. s.place < length text.now)) }
{
    match template_parts(alloc, pattern, text)? {
        Ok(_) => Ok(None),
        Err(place) => Ok(Some(Slip {
            place,
            why: "no group of the pattern (two dollars stand for one)",
        })),
    }
}

/// Whether a text is a template for a pattern, as `template_slip_in` says. Takes memory.
pub fn is_template(alloc: Global, pattern: &[u8], text: &[u8]) -> Result<bool, AllocError>
    requires pattern { IsPattern pattern.now }
    ensures { IfOk result (λ is. IsTrue is ↔ IsTemplate pattern.now text.now) }
{
    Ok(template_slip_in(alloc, pattern, text)?.is_none())
}
