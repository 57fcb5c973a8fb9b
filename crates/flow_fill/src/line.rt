//! What a line says, where version 3 reads it otherwise than version 2.
use flow_items::Text;

/// The line of a word: its name, the text beside it, and what stands behind the arrow.
#[derive(Drop)]
pub struct WordLine {
    pub name: Text,
    pub beside: Option<Text>,
    pub rest: Text,
}
