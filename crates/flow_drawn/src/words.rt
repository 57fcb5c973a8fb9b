//! The words of a call, and the texts at its end.
ghost use Rattle.std.specs.Prelude.{◌≡◌, ◌≤◌, IfOk, IfSome, length, map, string_bytes};
ghost use Rattle.flow_drawn.specs.Calls.{asks_drawing, drawn_within};

use flow_draw::command;
use flow_given::gives_text;
use std::alloc::{AllocError, Global};

// Whether these words ask for a drawing.
fn asks(alloc: Global, words: &[String]) -> Result<bool, AllocError>
    ensures { IfOk result (λ asks. asks ≡ asks_drawing (map string_bytes words.now)) }
{
    Ok(command(alloc, words)?.is_some())
}

/// How many of the words ask for a drawing, where those behind them give texts for words of the network. A call without such texts is all of them; so what was
/// a call is one as it was, and the words NAME=TEXT at the end of another line are looked at alone.
pub fn split(alloc: Global, words: &[String]) -> Result<Option<usize>, AllocError>
    ensures count { IfOk result (λ count. count ≡ drawn_within (map string_bytes words.now) (length words.now)) }
    ensures within { IfOk result (λ count. IfSome count (λ n. n ≤ length words.now)) }
{
    let mut n = words.len();
    'texts: while n > 0 {
        if asks(alloc, &words[..n])? {
            return Ok(Some(n));
        }
        n -= 1;
        if !gives_text(words[n].as_bytes()) {
            return Ok(None);
        }
    }
    Ok(None)
}
