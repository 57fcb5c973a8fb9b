//! The words of the language with which a line may begin.

/// A word of the language.
#[derive(Clone, Copy)]
pub enum Reserved {
    Flow,
    Subnet,
    End,
    /// Of a line for an outer input.
    Inport,
    /// Of a line for an outer output.
    Outport,
}

/// The word of the language that a word is, if it is one.
pub fn reserved_word(word: &[u8]) -> Option<Reserved> {
    if word == b"flow".as_slice() {
        return Some(Reserved::Flow);
    }
    if word == b"subnet".as_slice() {
        return Some(Reserved::Subnet);
    }
    if word == b"end".as_slice() {
        return Some(Reserved::End);
    }
    outer_word(word)
}

// The word that begins a line for an outer port, if it is one.
fn outer_word(word: &[u8]) -> Option<Reserved> {
    if word == b"inport".as_slice() {
        return Some(Reserved::Inport);
    }
    if word == b"outport".as_slice() {
        return Some(Reserved::Outport);
    }
    None
}

/// Whether a word begins a line for an outer port.
pub fn begins_outer(word: &[u8]) -> bool {
    outer_word(word).is_some()
}
