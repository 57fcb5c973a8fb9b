//! A component of one's own: it numbers the lines that pass. The program `own_lines` hands it in. Its contract says which
//! text a line with its number is.
#![tactic(auto)]

ghost use Rattle.std.specs.Prelude.{◌≡◌, ◌++◌, IfOk, codes};
ghost use Rattle.std.specs.Fmt.{decimal};

use flow_line::{LinePart, LineStop, Texts};
use flow_text::put_decimal;
use std::alloc::{AllocError, Global};

/// Sends each text on with its number in front, and a colon.
#[derive(Drop)]
pub struct Lines {
    next: u64,
}

impl Lines {
    /// A part that has numbered nothing yet, and counts from this number on.
    pub fn new(first: u64) -> Lines {
        Lines { next: first }
    }
}

// The number, a colon, a space and the text.
fn numbered(alloc: Global, number: u64, text: &[u8]) -> Result<Vec<u8>, AllocError>
    ensures { IfOk result (λ line. line.items ≡ decimal number ++ codes ": " ++ text.now) }
{
    let mut line = Vec::new(alloc);
    put_decimal(&mut line, number)?;
    line.extend_from_slice(b": ")?;
    line.extend_from_slice(text)?;
    Ok(line)
}

impl LinePart for Lines {
    fn line(&mut self, text: &[u8], out: &mut Texts) -> Result<(), LineStop> {
        let line = numbered(out.alloc(), self.next, text)?;
        out.put(&line)?;
        self.next = self.next.saturating_add(1);
        Ok(())
    }

    fn end(&mut self, _out: &mut Texts) -> Result<(), LineStop> {
        Ok(())
    }
}

#[cfg(test)]
mod tests {
    use super::*;
    use flow_part_rig::tried_line;
    use std::test::Fail;

    #[test]
    fn each_line_has_its_number(rt: HostRuntime) -> Result<(), Fail> {
        let out = tried_line(rt.alloc(), Lines::new(1), "to be\n\nor not\n")?;
        assert_eq!(rt; out.as_str(), "1: to be\n2: \n3: or not\n");
        Ok(())
    }
}
