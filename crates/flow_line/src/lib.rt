//! Components of the caller's own that work by line: whoever writes one says what it does with a text, and which texts
//! leave for it, by the trait `LinePart`. `ByLine` makes a part of it (`flow_own::Part`): it does all that the network
//! asks of a component. Its contract is that of `Part`, and the clause `steps` of its `resume`: what leaves is what the
//! line part put, in order.
#![tactic(auto)]

mod by_line;
mod part;
mod queue;
mod texts;

pub use by_line::ByLine;
pub use part::LinePart;
pub use queue::Queue;
pub use texts::{DESK_FAULT, LineStop, TEXT_FAULT, TEXTS_FAULT, TEXTS_LIMIT, Texts};
