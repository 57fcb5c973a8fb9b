//! The made network has a plan: its text is never refused.
ghost use Rattle.flow_load.specs.Made.{HasPlan, IsNeverRefused, ReadsItsInput};

/// The text of the made network spells a value, which has a plan over the standard kinds, and comes to nothing else: it isn't refused.
/// In this plan process 0 reads the file `in`, and no other process reads a file.
pub fn the_made_network_has_a_plan()
    ensures plan { HasPlan }
    ensures unrefused { IsNeverRefused }
    ensures reads { ReadsItsInput }
{}
