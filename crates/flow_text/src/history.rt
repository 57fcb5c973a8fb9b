//! Bytes that only clauses see. A history takes no memory, and its functions do nothing at run time.
ghost use Rattle.std.specs.Prelude.{◌≡◌, ◌++◌, List, ℕ, []};
ghost use Rattle.std.specs.Borrow.{ftrue};

use std::marker::Model;

/// The bytes that went through some calls, in order.
#[derive(Drop)]
pub struct History {
    pub ghost bytes: { List ℕ },
}

impl Model for History {
    ghost also_owns = { λ _. ftrue };
}

impl History {
    /// No bytes so far.
    pub fn none() -> History
        ensures { result.bytes ≡ [] }
    {
        History {}
    }

    /// These bytes behind those.
    pub fn and(&self, more: &[u8]) -> History
        ensures { result.bytes ≡ self.now.bytes ++ more.now }
    {
        History {}
    }
}
