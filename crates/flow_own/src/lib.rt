//! Components of the caller's own: boxed objects that are changed through one interface, each with a tape of what it
//! did; and players of such tapes. Whoever writes such a component starts from its trait `Part`, and the top calls of
//! `flow_cli` run it. The contracts are those of `Desk`, at which a part acts, and of `Mixed`, a component that is a
//! standard one, a part or a player.
#![tactic(auto)]

mod acts;
mod desk;
mod fields;
mod mixed;
mod own;
mod part;
mod pass;
mod play;
mod read;
mod reel;
mod sorted;
mod tape;
mod unmixed;
mod unread;

pub use desk::{Desk, DeskStop};
pub use fields::four_of;
pub use mixed::{Mix, Mixed};
pub use own::Own;
pub use part::{Part, PartStop};
pub use pass::pass_entries;
pub use reel::Reel;
pub use sorted::{Sorted, sorted_out};
pub use tape::{End, Entry, Tape};
pub use unmixed::Unmixed;
pub use unread::Unread;
