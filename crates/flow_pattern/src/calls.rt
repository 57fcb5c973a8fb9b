//! How a template calls a group of a pattern, behind a dollar.

ghost use Rattle.std.specs.Prelude.{◌≡◌, ◌+◌, ◌<◌, ◌≤◌, ◌==◌, ◌∷◌, false, length, drop, bytes_eq, position, slice_index, take_while, option_map, string_bytes, IfSome, IsTrue};
ghost use Rattle.std.specs.List.{position_from};
ghost use Rattle.regex_hir.specs.Text.{is_some_and};
ghost use Rattle.regex.specs.Names.{names_of};
ghost use Rattle.regex.specs.Templates.{is_name_byte, name_at, number_in};
ghost use Rattle.flow_pattern.specs.Template.{called};

use std::str;

// What stands behind so many bytes.
pub(crate) fn behind(text: &[u8], count: usize) -> &[u8]
    requires { count ≤ length text.now }
    ensures { result.now ≡ drop count text.now }
{
    &text[count..]
}

// Whether a byte can stand in a name without braces.
fn is_of_name(byte: u8) -> bool
    ensures { result ≡ is_name_byte byte }
{
    byte.is_ascii_alphanumeric() || byte == b'_'
}

// How far from the front a name without braces goes.
fn bare_len(text: &[u8]) -> usize
    ensures { result ≡ length (take_while is_name_byte text.now) }
{
    text.iter().take_while(|byte| is_of_name(**byte)).count()
}

// The name at the front, as far as bytes can stand in one, and how many they are.
fn bare_name(rest: &[u8]) -> Option<(&str, usize)>
    requires bare { (slice_index rest.now 0 == 123) ≡ false }
    ensures value { option_map (λ found. (found.0.now, found.1)) result ≡ name_at rest.now }
    ensures within { IfSome result (λ found. (0 < found.1) × (found.1 ≤ length rest.now)) }
{
    let len = bare_len(rest);
    if len == 0 {
        return None;
    }
    match str::from_utf8(&rest[..len]) {
        Ok(name) => Some((name, len)),
        // They are of ASCII.
        Err(_) => unreachable!(),
    }
}

fn closing_brace(text: &[u8]) -> Option<usize>
    ensures place { result ≡ position (λ byte. byte == 125) text.now }
    ensures within { IfSome result (λ place. place < length text.now) }
{
    text.iter().position(|byte| *byte == b'}')
}

// The name up to the first closing brace, and how many bytes spell it with both its braces.
fn name_in_braces(inside: &[u8]) -> Option<(&str, usize)>
    ensures value { option_map (λ found. (found.0.now, found.1)) result ≡ name_at (123 ∷ inside.now) }
    ensures within { IfSome result (λ found. (0 < found.1) × (found.1 ≤ length inside.now + 1)) }
{
    let Some(len) = closing_brace(inside) else {
        return None;
    };
    match str::from_utf8(&inside[..len]) {
        Ok(name) => Some((name, len + 2)),
        Err(_) => None,
    }
}

// The name that stands behind a dollar, in braces or without, and how many bytes spell it there.
pub(crate) fn name_at(rest: &[u8]) -> Option<(&str, usize)>
    ensures value { option_map (λ found. (found.0.now, found.1)) result ≡ name_at rest.now }
    ensures within { IfSome result (λ found. (0 < found.1) × (found.1 ≤ length rest.now)) }
{
    match rest {
        [b'{', inside @ ..] => name_in_braces(inside),
        _ => bare_name(rest),
    }
}

// Whether a group has this name.
fn bears(group: &Option<String>, name: &str) -> bool
    ensures { result ≡ is_some_and (option_map string_bytes group.now) (bytes_eq name.now) }
{
    group.as_ref().is_some_and(|own| name == own.as_str())
}

// The first group that has this name.
fn first_with(names: &[Option<String>], name: &str) -> Option<usize>
    ensures { result ≡ position_from (λ group. is_some_and (option_map string_bytes group) (bytes_eq name.now)) 0 names.now }
{
    names.iter().position(|group| bears(group, name))
}

// The number that a name is, where it is one.
fn number_in(name: &str) -> Option<usize>
    ensures { result ≡ number_in name.now }
{
    name.parse().ok()
}

// The group that this name calls, where there is one.
pub(crate) fn called(names: &[Option<String>], name: &str) -> Option<usize>
    ensures { result ≡ called (names_of names.now) name.now }
{
    match number_in(name) {
        Some(number) => (number < names.len()).then_some(number),
        None => first_with(names, name),
    }
}
