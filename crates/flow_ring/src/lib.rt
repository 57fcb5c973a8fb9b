//! The floor's words and slots: where they lie, and how a word reads. `flow_floor` alone uses it, so that no two words
//! that two workers write share a line of the cache. The contracts are those of `Layout` and of the packing and
//! unpacking of a word.
#![tactic(auto)]

ghost use Rattle.std.specs.Prelude.{◌≡◌, ◌<◌};
ghost use Rattle.flow_ring.specs.Words.{free_word, level_in, senders_in};
ghost use Rattle.flow_ring.specs.declared.TheConstants.{FIELD};

mod layout;

pub use layout::{Layout, SPACING};

/// The level and the number of open senders have 16 bits of a level word each, so each is below this.
pub const FIELD: u32 = 65_536;

/// A level word: the packets in a connection, and its open senders.
pub fn pack(level: u32, senders: u32) -> u64
    requires level { level < FIELD }
    requires senders { senders < FIELD }
    ensures { result ≡ free_word level senders }
{
    level as u64 + senders as u64 * FIELD as u64
}

/// How many packets are in the connection.
pub fn level(word: u64) -> u32
    ensures word { result ≡ level_in word }
    ensures small { result < FIELD }
{
    (word % FIELD as u64) as u32
}

/// How many senders are open.
pub fn senders(word: u64) -> u32
    ensures word { result ≡ senders_in word }
    ensures small { result < FIELD }
{
    (word / FIELD as u64 % FIELD as u64) as u32
}
