//! Tokens.
use flow_items::Text;

/// A token of a line.
#[derive(Drop)]
pub enum Token {
    Word(Text),
    Arrow,
    Open,
    Close,
    OpenBracket,
    CloseBracket,
    /// `*IN`.
    AutomaticInput,
    /// `*OUT`.
    AutomaticOutput,
    /// A quoted text, as what it stands for.
    Quoted(Text),
}
