//! The words of a call, and the texts at its end.
ghost use Rattle.std.specs.Prelude.{◌≡◌, ◌≤◌, IfOk, IfSome, length, map, string_bytes};
ghost use Rattle.std.specs.Option.{option_map};
ghost use Rattle.std.specs.List.{prefix_len};
ghost use Rattle.flow_parse.specs.Names.{begins_with_letter, is_name};
ghost use Rattle.flow_words.specs.Words.{asked_by};
ghost use Rattle.flow_given.specs.Calls.{asks_network, call_within, given_by, is_before_text, is_given_word, net_in};

use flow_fill::Given;
use flow_items::Text;
use flow_limits::NAME_LIMIT;
use flow_parse::is_reserved;
use flow_words::{Command, command};
use std::alloc::{AllocError, Global};

/// The network file that a command asks about, if it does.
pub fn net_of<'a>(asked: &Command<'a>) -> Option<&'a str>
    ensures { option_map (λ net. net.now) result ≡ net_in (asked_by asked.now) }
{
    match asked {
        Command::Run(asked) => Some(asked.net),
        Command::Check(net) => Some(*net),
        Command::Judge(net) => Some(*net),
        Command::Replay {
            net,
            journal: _,
            tapes: _,
        } => Some(*net),
        Command::Make {
            number: _,
            workers: _,
        } => None,
        Command::Page(_) => None,
    }
}

fn letter_first(word: &[u8]) -> bool
    ensures { result ≡ begins_with_letter word.now }
{
    match word.first() {
        Some(first) => first.is_ascii_alphabetic(),
        None => false,
    }
}

fn is_a_name(word: &[u8]) -> bool
    ensures { result ≡ is_name word.now }
{
    letter_first(word) && word.len() <= NAME_LIMIT && !is_reserved(word)
}

#[tactic(auto, using(crate::proofs::Ends::name_within))]
fn name_len(word: &[u8]) -> usize
    ensures run { result ≡ prefix_len is_before_text word.now }
    ensures most { result ≤ length word.now }
{
    word.iter().take_while(|b| **b != b'=').count()
}

/// Whether a word has the form NAME=TEXT.
pub fn gives_text(word: &[u8]) -> bool
    ensures { result ≡ is_given_word word.now }
{
    let n = name_len(word);
    n < word.len() && is_a_name(&word[..n])
}

/// What a word NAME=TEXT gives.
fn given_of(alloc: Global, word: &[u8]) -> Result<Given, AllocError>
    ensures { IfOk result (λ given. given ≡ given_by word.now) }
{
    let n = name_len(word);
    let rest = &word[n..];
    let text = if rest.is_empty() { rest } else { &rest[1..] };
    Ok(Given {
        word: Text::from_slice(alloc, &word[..n])?,
        text: Text::from_slice(alloc, text)?,
    })
}

/// What these words give, each of the form NAME=TEXT.
pub fn all_given(alloc: Global, words: &[String]) -> Result<Vec<Given>, AllocError>
    ensures { IfOk result (λ given. given.items ≡ map (λ word. given_by (string_bytes word)) words.now) }
{
    let mut given = Vec::new(alloc);
    'words: for word in words {
        given.push(given_of(alloc, word.as_bytes())?)?;
    }
    Ok(given)
}

// Whether these words ask about a network file, where they ask for something.
fn asks(alloc: Global, words: &[String]) -> Result<Option<bool>, AllocError>
    ensures { IfOk result (λ asks. asks ≡ asks_network (map string_bytes words.now)) }
{
    match command(alloc, words)? {
        Some(asked) => Ok(Some(net_of(&asked).is_some())),
        None => Ok(None),
    }
}

/// How many of the words are a call about a network file, where those behind them give texts for words of the network. A call without such texts is all of
/// them; so what was a call is one as it was, and the words NAME=TEXT at the end of another line are looked at alone.
pub fn split(alloc: Global, words: &[String]) -> Result<Option<usize>, AllocError>
    ensures count { IfOk result (λ count. count ≡ call_within (map string_bytes words.now) (length words.now)) }
    ensures within { IfOk result (λ count. IfSome count (λ n. n ≤ length words.now)) }
{
    let mut n = words.len();
    'texts: while n > 0 {
        match asks(alloc, &words[..n])? {
            Some(true) => return Ok(Some(n)),
            Some(false) => return Ok(None),
            None => {}
        }
        n -= 1;
        if !gives_text(words[n].as_bytes()) {
            return Ok(None);
        }
    }
    Ok(None)
}
