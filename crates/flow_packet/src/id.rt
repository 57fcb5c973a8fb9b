//! The ids of packets.

ghost use Rattle.std.specs.Prelude.{◌≡◌, ◌+◌, ◌*◌, ◌/◌, ◌%◌};

use std::marker::Model;

/// The id of a packet: its maker's number times 2^32, plus the packet's ordinal. In clauses it is this number.
#[derive(Clone, Copy, PartialEq, Eq, Debug)]
pub struct PacketId {
    number: u64,
}

impl Model for PacketId {
    ghost use Rattle.std.specs.Prelude.{ℕ};

    ghost Value = { ℕ };

    ghost view = { λ p. p.number };

    ghost inverse = { λ n. record { number = n } };
}

impl PacketId {
    pub(crate) fn of(maker: u32, ordinal: u32) -> PacketId
        ensures { result ≡ maker * 4294967296 + ordinal }
    {
        PacketId {
            number: u64::from(maker) * 4_294_967_296 + u64::from(ordinal),
        }
    }

    /// The id with this number, whether a packet has it or not.
    pub fn of_number(number: u64) -> PacketId
        ensures { result ≡ number }
    {
        PacketId { number }
    }

    /// The id as one number.
    pub fn number(self) -> u64
        ensures { result ≡ self }
    {
        self.number
    }

    /// The number of the process that made the packet.
    pub fn maker(self) -> u32
        ensures { result ≡ self / 4294967296 }
    {
        (self.number >> 32) as u32
    }

    /// How many packets its maker had made before it.
    pub fn ordinal(self) -> u32
        ensures { result ≡ self % 4294967296 }
    {
        (self.number & 0xffff_ffff) as u32
    }
}
