//! How deep a stream is nested.

ghost use Rattle.std.specs.Prelude.{◌≡◌, ◌+◌, ◌<◌, ◌^◌, ◌↔◌, false};
ghost use Rattle.flow_bracket.specs.Depth.{depth_after};

use flow_packet::Kind;
use std::marker::Model;

/// How many substreams are open in a stream: the Open packets less the Close packets that went by. In
/// clauses it is this number.
#[derive(Clone, Copy, PartialEq, Eq, Debug)]
pub struct Depth {
    value: u64,
}

impl Model for Depth {
    ghost use Rattle.std.specs.Prelude.{ℕ};

    ghost Value = { ℕ };

    ghost view = { λ d. d.value };

    ghost inverse = { λ n. record { value = n } };
}

impl Depth {
    /// Nothing is open yet.
    pub fn new() -> Depth
        ensures { result ≡ 0 }
    {
        Depth { value: 0 }
    }

    /// How many substreams are open.
    pub fn value(&self) -> u64
        ensures { result ≡ self.now }
    {
        self.value
    }

    /// Lets a packet of this kind go by. It is false for a Close packet where no substream is open.
    pub fn send(&mut self, kind: Kind) -> bool
        requires { self.old + 1 < 2 ^ 64 }
        ensures refused { (result ≡ false) ↔ ((kind ≡ Kind.Close) × (self.old ≡ 0)) }
        ensures after { self.new ≡ depth_after self.old kind }
    {
        match kind {
            Kind::Normal => true,
            Kind::Open => {
                self.value += 1;
                true
            }
            Kind::Close if self.value == 0 => false,
            Kind::Close => {
                self.value -= 1;
                true
            }
        }
    }
}
