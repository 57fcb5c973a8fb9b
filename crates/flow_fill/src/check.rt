//! The first fault of texts for the words of a file.
ghost use Rattle.std.specs.Prelude.{◌≡◌, ◌==◌, [], position};
ghost use Rattle.flow_fill.specs.Faults.{fault_in, fault_of, given_fault, is_given, is_known, is_textless, missing};

use crate::fault::FillFault;
use crate::rows::text_of_word;
use crate::word::{FileWord, Given};

fn given_before(given: &[Given], name: &[u8]) -> bool
    ensures { result ≡ is_given given.now name.now }
{
    given.iter().any(|one| one.word.as_slice() == name)
}

fn known(words: &[FileWord], name: &[u8]) -> bool
    ensures { result ≡ is_known words.now name.now }
{
    words.iter().any(|word| word.name.as_slice() == name)
}

fn line_end_in(text: &[u8]) -> Option<usize>
    ensures { result ≡ position (λ b. b == 10) text.now }
{
    text.iter().position(|b| *b == b'\n')
}

// The fault of one text, which is given behind these.
fn one_fault(words: &[FileWord], before: &[Given], place: usize, one: &Given) -> Option<FillFault>
    ensures { result ≡ fault_of words.now before.now place one.now }
{
    if given_before(before, one.word.as_slice()) {
        return Some(FillFault::Twice(place));
    }
    if !known(words, one.word.as_slice()) {
        return Some(FillFault::Unknown(place));
    }
    match line_end_in(one.text.as_slice()) {
        Some(byte) => Some(FillFault::Unspelled(place, byte)),
        None => None,
    }
}

fn first_given(words: &[FileWord], given: &[Given]) -> Option<FillFault>
    ensures { result ≡ given_fault words.now [] 0 given.now }
{
    'given: for (place, one) in given.iter().enumerate() {
        if let Some(fault) = one_fault(words, &given[..place], place, one) {
            return Some(fault);
        }
    }
    None
}

fn textless(given: &[Given], word: &FileWord) -> bool
    ensures { result ≡ is_textless given.now word.now }
{
    text_of_word(given, word.name.as_slice(), &word.beside).is_none()
}

fn first_textless(words: &[FileWord], given: &[Given]) -> Option<usize>
    ensures { result ≡ position (is_textless given.now) words.now }
{
    words.iter().position(|word| textless(given, word))
}

fn first_missing(words: &[FileWord], given: &[Given]) -> Option<FillFault>
    ensures { result ≡ missing given.now words.now }
{
    match first_textless(words, given) {
        Some(place) => Some(FillFault::NoText(place)),
        None => None,
    }
}

/// The first fault.
pub fn first_fault(words: &[FileWord], given: &[Given]) -> Option<FillFault>
    ensures { result ≡ fault_in words.now given.now }
{
    if let Some(fault) = first_given(words, given) {
        return Some(fault);
    }
    first_missing(words, given)
}
