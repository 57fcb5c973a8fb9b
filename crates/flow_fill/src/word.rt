//! The words of a file, and the texts that a call gives them.
use flow_items::Text;

/// A text that a call gives a word.
#[derive(Debug, Drop)]
pub struct Given {
    pub word: Text,
    pub text: Text,
}

/// A word where the main part of a file has it. Lines are counted from 1.
#[derive(Debug, Drop)]
pub struct FileWord {
    pub line: u64,
    pub name: Text,
    /// The text that stands beside it, which it has where a call gives it none.
    pub beside: Option<Text>,
}
