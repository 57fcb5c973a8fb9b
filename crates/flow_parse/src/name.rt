//! Names and numbers.
ghost use Rattle.std.specs.Prelude.{◌≡◌};
ghost use Rattle.flow_parse.specs.Forms.{is_reserved};
ghost use Rattle.flow_parse.specs.Names.{is_name, begins_with_letter, number_in, capacity_of, element_of, capacity_limit, mention_is_named, port_is_named, end_is_named, is_named, port_is_numbered, end_is_numbered, is_numbered, or_none};
ghost use Rattle.std.specs.Prelude.{is_some};

use crate::form::{EndMention, Form, Mention, PortMention};
use crate::value::SECOND_VERSION;
use flow_items::Text;
use flow_limits::{CAPACITY_LIMIT, FIRST_CAPACITY_LIMIT, LAST_ELEMENT, NAME_LIMIT};
use flow_text::decimal;

/// The words that begin a form, and so are no names.
pub const RESERVED: [&[u8]; 5] = [b"flow", b"subnet", b"end", b"inport", b"outport"];

/// Whether a word is reserved.
pub fn is_reserved(word: &[u8]) -> bool
    ensures { result ≡ is_reserved word.now }
{
    RESERVED.iter().any(|reserved| word == *reserved)
}

fn letter_first(word: &[u8]) -> bool
    ensures { result ≡ begins_with_letter word.now }
{
    match word.first() {
        Some(first) => first.is_ascii_alphabetic(),
        None => false,
    }
}

fn is_a_name(word: &Text) -> bool
    ensures { result ≡ is_name word.now }
{
    letter_first(word.as_slice()) && word.len() <= NAME_LIMIT && !is_reserved(word.as_slice())
}

fn mention_named(mention: &Mention) -> bool
    ensures { result ≡ mention_is_named mention.now }
{
    if !is_a_name(&mention.name) {
        return false;
    }
    match &mention.kind {
        Some(kind) => is_a_name(kind),
        None => true,
    }
}

fn end_named(end: &EndMention) -> bool
    ensures { result ≡ end_is_named end.now }
{
    match end {
        EndMention::Port(port) => is_a_name(&port.name),
        EndMention::Automatic => true,
    }
}

/// Whether each word in the place of a name is one.
pub fn named(form: &Form) -> bool
    ensures { result ≡ is_named form.now }
{
    match form {
        Form::Header { version: _ } | Form::End => true,
        Form::Process { name, kind } => is_a_name(name) && is_a_name(kind),
        Form::Connection {
            from,
            out,
            capacity: _,
            into,
            to,
        } => { mention_named(from) && end_named(out) && end_named(into) && mention_named(to) }
        Form::Initial { text: _, into, to } => is_a_name(&into.name) && mention_named(to),
        Form::Subnet { name } => is_a_name(name),
        Form::InPort { outer, into, to } => {
            is_a_name(outer) && is_a_name(&into.name) && mention_named(to)
        }
        Form::OutPort { from, out, outer } => {
            mention_named(from) && is_a_name(&out.name) && is_a_name(outer)
        }
    }
}

/// The number from `least` to `most` that the word spells.
fn number(word: &[u8], least: u32, most: u32) -> Option<u32>
    ensures { result ≡ number_in least most word.now }
{
    match decimal(word, u64::from(least), u64::from(most)) {
        Some(number) => Some(number as u32),
        None => None,
    }
}

pub fn capacity(word: &Text) -> Option<u32>
    ensures { result ≡ capacity_of word.now }
{
    number(word.as_slice(), 1, CAPACITY_LIMIT)
}

pub fn element(word: &Text) -> Option<u32>
    ensures { result ≡ element_of word.now }
{
    number(word.as_slice(), 0, LAST_ELEMENT)
}

fn most_capacity(version: u32) -> u32
    ensures { result ≡ capacity_limit version }
{
    if version >= SECOND_VERSION {
        CAPACITY_LIMIT
    } else {
        FIRST_CAPACITY_LIMIT
    }
}

fn capacity_numbered(version: u32, word: &Option<Text>) -> bool
    ensures { result ≡ or_none (λ word. is_some (number_in 1 (capacity_limit version) word)) word.now }
{
    match word {
        Some(word) => number(word.as_slice(), 1, most_capacity(version)).is_some(),
        None => true,
    }
}

fn port_numbered(port: &PortMention) -> bool
    ensures { result ≡ port_is_numbered port.now }
{
    match &port.element {
        Some(word) => element(word).is_some(),
        None => true,
    }
}

fn end_numbered(end: &EndMention) -> bool
    ensures { result ≡ end_is_numbered end.now }
{
    match end {
        EndMention::Port(port) => port_numbered(port),
        EndMention::Automatic => true,
    }
}

/// Whether each word in the place of a number is one of its range, in a file of this version.
pub fn numbered(version: u32, form: &Form) -> bool
    ensures { result ≡ is_numbered version form.now }
{
    match form {
        Form::Connection {
            from: _,
            out,
            capacity: word,
            into,
            to: _,
        } => end_numbered(out) && capacity_numbered(version, word) && end_numbered(into),
        Form::Initial {
            text: _,
            into,
            to: _,
        } => port_numbered(into),
        Form::InPort {
            outer: _,
            into,
            to: _,
        } => port_numbered(into),
        Form::OutPort {
            from: _,
            out,
            outer: _,
        } => port_numbered(out),
        _ => true,
    }
}
