//! A gate before each resume of a component, by which a test can hold a worker up.

ghost use Rattle.std.specs.Prelude.{ℕ};

/// What a worker calls before it resumes the component of a process. It has no effect on the network.
pub trait Gate {
    /// That the gate was passed before the work of this process that comes after so many turns of its own. Nothing but `pass` gives it
    /// for a gate that isn't known, so who has it has called `pass`.
    ghost has_passed: { Self → ℕ → ℕ → Type 0 } = { λ _ _ _. Unit {0} };

    /// Lets the work of this process pass that comes after so many turns of its own. It may wait.
    fn pass(&self, process: u32, turns: u64)
        ensures { has_passed self.now process turns };
}

/// A gate that does nothing.
#[derive(Clone, Copy, Debug, PartialEq, Eq)]
pub struct NoGate;

impl Gate for NoGate {
    fn pass(&self, _process: u32, _turns: u64) {}
}
