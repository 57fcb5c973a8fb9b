//! The name with which a tape file begins.

ghost use Rattle.flow_own.specs.Reading.{Tells};
ghost use Rattle.flow_tape.specs.Reading.{letters_at};

use flow_own::Unread;

// These letters, off the front of the bytes.
pub(crate) fn letters_of<'a>(letters: &[u8], bytes: &'a [u8]) -> Result<&'a [u8], Unread>
    ensures { Tells (λ rest. (tt, rest.now)) result (letters_at letters.now bytes.now) }
{
    let mut rest = bytes;
    for letter in letters {
        let Some((first, after)) = rest.split_first() else {
            return Err(Unread::Fault(0));
        };
        if *first != *letter {
            return Err(Unread::Fault(rest.len()));
        }
        rest = after;
    }
    Ok(rest)
}
