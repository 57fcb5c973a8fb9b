//! What a component of the caller's own is.

ghost use Rattle.std.specs.Prelude.{◌≡◌, ◌≤◌, ℕ};
ghost use Rattle.std.specs.declared.result.Result.{Result};
ghost use Rattle.std.specs.declared.option.Option.{Option};
ghost use Rattle.flow_component.specs.declared.Wish.{Wish};
ghost use Rattle.flow_own.specs.declared.part.PartStop.{PartStop};
ghost use Rattle.flow_own.specs.Desks.{GoesOn};
ghost use Rattle.flow_own.specs.Parts.{Answers, Resumed, Seen};

use crate::desk::Desk;
use flow_component::{Answer, Wish};

/// Why a part came to no wish.
#[derive(Clone, Copy, Debug, PartialEq, Eq)]
pub enum PartStop {
    /// It fails, with a number of its own. It isn't asked again.
    Fail(u32),
    /// It is asked again with the same answer.
    NoMemory,
}

/// A component of the caller's own.
///
/// What it does can't be foreseen. It shows how many answers it gave, the last of them, and how many acts it did for that one, so that
/// contracts can say that it was asked.
pub trait Part: Drop {
    ghost seen: { Self → Seen };

    /// What a resume does: of a part that showed this, was told this, answered so, left the desk so and shows this now. Nothing but `resume` gives it
    /// for a part that isn't known, so who has it has called `resume` just once in between.
    ghost resumed: { Resumed } = { λ _ _ _ _ _ _. Unit {0} };

    /// Tells it an answer, after which it works up to its next wish. Its acts are kept at the desk, and done once it has answered.
    fn resume(&mut self, desk: &mut Desk<'_>, answer: Answer) -> Result<Wish, PartStop>
        ensures goes_on { GoesOn desk.old desk.new }
        ensures counts { (seen self.old).answers ≤ (seen self.new).answers }
        ensures answers { Answers (seen self.old) (seen self.new) result desk.old desk.new }
        ensures resumed { resumed (seen self.old) answer result desk.old desk.new (seen self.new) };
}

impl Part for Box<dyn Part + Send> {
    ghost seen = { λ b. (Part-box b).seen b.value };

    fn resume(&mut self, desk: &mut Desk<'_>, answer: Answer) -> Result<Wish, PartStop> {
        (**self).resume(desk, answer)
    }
}
