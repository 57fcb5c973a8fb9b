//! Lists and bytes that own their memory, which contracts see as plain lists. Structs that stand in contracts have
//! their fields of these types, from packets to plans. Each method's contract stands with it, in `items` and `text`.
#![tactic(auto)]

mod items;
mod text;

pub use items::Items;
pub use text::Text;
