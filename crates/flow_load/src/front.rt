//! The first bytes of a source are read, and none behind them.
ghost use Rattle.std.specs.Prelude.{◌≡◌};
ghost use Rattle.flow_load.specs.Front.{ReadsFront};

use flow_text::{Fault, Source};

/// Fills a buffer with the next bytes of a source, in as many reads as that takes, and gives their number: all of the buffer, or fewer bytes where the source
/// ends. Nothing behind them is read, and no memory is taken. (As Rust's `read_exact`, for which an early end is an error.)
pub fn read_front<S: Source>(source: &mut S, front: &mut [u8]) -> Result<usize, Fault>
    ensures { ReadsFront (S.outside source.old) (S.outside source.new) result front.new }
{
    let mut count: usize = 0;
    while count < front.len() {
        match source.read(&mut front[count..]) {
            Ok(0) => return Ok(count),
            Ok(n) => count += n,
            Err(Fault) => return Err(Fault),
        }
    }
    Ok(count)
}
