//! What a line part is.

ghost use Rattle.std.specs.Prelude.{◌≡◌, Some, None, []};
ghost use Rattle.flow_line.specs.Works.{Works};

use crate::texts::{LineStop, Texts};

/// A component of the caller's own that is told texts and puts texts.
///
/// It may keep what it likes between two texts. Nothing is asked of it but that it is safe and comes to an end, as any function here.
pub trait LinePart: Drop {
    /// What it does: of a part that was so, was told this text or, where there is none, the end of the input, stopped so or not, put these texts, and is so
    /// now. Nothing but `line` and `end` give it for a part that isn't known.
    ghost works: { Works Self } = { λ _ _ _ _ _. Unit {0} };

    /// Works on the text of one packet. What it puts leaves in this order, each text as a packet, before the next packet is taken.
    fn line(&mut self, text: &[u8], out: &mut Texts) -> Result<(), LineStop>
        requires { out.old ≡ [] }
        ensures { works self.old (Some text.now) result out.new self.new };

    /// Works on the end of the input, once all that it put has left.
    fn end(&mut self, out: &mut Texts) -> Result<(), LineStop>
        requires { out.old ≡ [] }
        ensures { works self.old None result out.new self.new };
}
