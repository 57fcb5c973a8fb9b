//! Drawings of networks at a command line: words in, files read, a drawing printed. The program `draw` makes the call
//! over real files. The contract is that of `draw_top`: what is printed is the spelling of the drawing of the network
//! that the file means, and with a journal of the state to which that leads.
#![tactic(auto)]

mod again;
mod help;
mod remarks;
mod scene;
mod status;
mod top;
mod words;

pub use again::remarks_after;
pub use help::asks_help;
pub use remarks::remarks_of;
pub use scene::{Scene, scene_of};
pub use status::DrawStatus;
pub use top::{draw_top, print_help};
pub use words::{DrawCommand, command};
