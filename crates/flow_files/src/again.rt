//! Calls of the system, made again where a signal interrupted them.
ghost use Rattle.std.specs.Prelude.{◌≡◌, ◌≤◌, length, IfOk};
ghost use Rattle.std.specs.Io.{ReadsAtMost};

use crate::system::Output;
use std::io;
use std::io::{ErrorKind, Read};

/// How often an interrupted call is made again before it counts as a fault: longer than anyone sends signals.
const RETRIES: u32 = u32::MAX;

/// One read, made again where it was interrupted.
pub fn read_again<R: Read>(file: &mut R, buf: &mut [u8]) -> io::Result<usize>
    ensures { ReadsAtMost result buf.new }
{
    for _ in 0..RETRIES {
        match file.read(buf) {
            Err(error) if error.kind() == ErrorKind::Interrupted => {}
            answer => return answer,
        }
    }
    file.read(buf)
}

/// One write, made again where it was interrupted. One that takes nothing is an error.
pub fn write_again(file: &mut Output, bytes: &[u8]) -> io::Result<usize>
    ensures { IfOk result (λ n. (1 ≤ n) × (n ≤ length bytes.now)) }
{
    for _ in 0..RETRIES {
        match file.write(bytes) {
            Err(error) if error.kind() == ErrorKind::Interrupted => {}
            answer => return taken(answer),
        }
    }
    taken(file.write(bytes))
}

/// One write, made again where it was interrupted.
pub fn print_again<R: Print>(rt: &R, bytes: &[u8]) -> io::Result<usize>
    ensures { IfOk result (λ n. (1 ≤ n) × (n ≤ length bytes.now)) }
{
    for _ in 0..RETRIES {
        match rt.write_some(bytes) {
            Err(error) if error.kind() == ErrorKind::Interrupted => {}
            answer => return taken(answer),
        }
    }
    taken(rt.write_some(bytes))
}

// How many bytes a write took. One that took none is an error.
fn taken(answer: io::Result<usize>) -> io::Result<usize>
    ensures { IfOk result (λ n. (1 ≤ n) × (answer ≡ Ok n)) }
{
    match answer {
        Ok(0) => Err(io::Error::from(ErrorKind::WriteZero)),
        answer => answer,
    }
}
