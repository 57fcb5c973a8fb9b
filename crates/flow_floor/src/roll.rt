//! Whom a call made ready.
ghost use Rattle.std.specs.Prelude.{◌≡◌, ◌+◌, ◌≤◌, ◌++◌, [], ◌∷◌, IfOk, length, vec_capacity};
ghost use Rattle.flow_limits.specs.declared.TheConstants.{SENDER_LIMIT};

use flow_limits::SENDER_LIMIT;
use std::alloc::{AllocError, Global};

/// The processes that a worker's last call made ready. It has room for as many as send into one connection, and for one that receives.
#[derive(Drop)]
pub(crate) struct Roll {
    pub(crate) names: Vec<u32>,
    pub ghost room: { SENDER_LIMIT + 1 ≤ vec_capacity names },
}

impl Roll {
    /// Nobody.
    pub(crate) fn new(alloc: Global) -> Result<Roll, AllocError>
        ensures { IfOk result (λ r. r.names.items ≡ []) }
    {
        let names = Vec::with_capacity(alloc, SENDER_LIMIT + 1)?;
        Ok(Roll { names })
    }

    /// Strikes all out.
    pub(crate) fn clear(&mut self)
        ensures { self.new.names.items ≡ [] }
    {
        self.names.clear();
    }

    /// One more, the last.
    pub(crate) fn add(&mut self, process: u32)
        requires { length self.old.names.items ≤ SENDER_LIMIT }
        ensures { self.new.names.items ≡ self.old.names.items ++ process ∷ [] }
    {
        self.names.push_reserved(process);
    }
}
