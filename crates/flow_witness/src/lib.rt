//! That the definitions of the machine say something: the first run is one, and a part that sends a packet twice is no
//! component. It is for a reader who doubts that a definition can be met, or that it refuses anything; no code uses it.
//! Each theorem is the contract of a function without a body.
//!
//! The first run is that of a chain. Its network is written out in `specs/Chain.antt`, and is what a builder makes of a text.
//!
//! Beside these stands a law for programs that pause their network. It joins laws of two crates, neither of which knows the other.
#![tactic(auto)]

mod complete;
mod nightly;
mod paused;
mod telegram;

ghost use Rattle.flow_witness.specs.Ends.{IsStuck, IsFailure, IsMerge};
ghost use Rattle.flow_witness.specs.FirstRun.{IsFirstRun};
ghost use Rattle.flow_witness.specs.Mute.{MuteIsRefused};
ghost use Rattle.flow_witness.specs.Twice.{TwiceIsRefused};

pub use complete::{the_premises_of_completeness_are_met, the_premises_with_parts_are_met};
pub use nightly::the_nightly_network_is_a_batch_update;
pub use paused::a_paused_network_tells_of_its_schedule;
pub use telegram::the_telegram_composes;

/// The chain of a reader of the one line `x`, a process that passes it on and a writer is the plan of what a network file says of it,
/// over the standard kinds; with their components it starts well; five turns of the reader, seven of the second process and five of the
/// writer are its round robin; after it every process has ended, no packet is left, and the writer has `x` and a line feed.
pub fn the_first_run()
    ensures { IsFirstRun }
{}

/// A part that sends each packet that it got a second time breaks the laws of components, whatever it claims to be ready for.
pub fn a_part_that_sends_twice_is_no_component()
    ensures { TwiceIsRefused }
{}

/// A part that comes to no outcome breaks the laws of components, whatever it claims to be ready for.
pub fn a_part_without_outcomes_is_no_component()
    ensures { MuteIsRefused }
{}

/// A ring of two processes that pass on is a deadlock from its start; a component that fails ends its network as failed; and of two readers
/// that send to one writer either may come first: two schedules finish with different bytes.
pub fn the_other_ends()
    ensures deadlock { IsStuck }
    ensures failure { IsFailure }
    ensures merge { IsMerge }
{}
