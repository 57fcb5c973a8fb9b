//! Several files are written, one after another.
ghost use Rattle.std.specs.Prelude.{◌≡◌, map};
ghost use Rattle.flow_load.specs.Many.{WritesFiles, output_of};

use crate::step::write_file;
use crate::stop::{Stop, write_stop};
use flow_text::Shelf;
use std::alloc::Global;

/// A name with the bytes that it is to hold.
#[derive(Clone, Copy, Debug)]
pub struct Output<'a> {
    pub name: &'a str,
    pub bytes: &'a [u8],
}

/// Writes each file, up to the first one that stops.
pub fn write_files<F: Shelf>(
    alloc: Global,
    shelf: &mut F,
    outputs: &[Output<'_>],
) -> Result<(), Stop>
    ensures { WritesFiles (F.outside shelf.old) (F.outside shelf.new) result (map output_of outputs.now) }
{
    for output in outputs {
        match write_file(shelf, output.name, output.bytes) {
            Ok(()) => {}
            Err(why) => return Err(write_stop(alloc, why, output.name)),
        }
    }
    Ok(())
}
