//! One file is read whole from a shelf, or written whole to it.
ghost use Rattle.std.specs.Prelude.{◌<◌, ◌+◌, ◌^◌};
ghost use Rattle.flow_load.specs.Step.{ReadsFile, WritesFile};

use flow_text::{Fault, ReadStop, Shelf, ShelfStop, WriteStop, read_all, write_all};
use std::alloc::Global;

/// What the name holds, where that isn't longer than this limit.
pub fn read_file<F: Shelf>(
    alloc: Global,
    shelf: &mut F,
    name: &str,
    limit: u64,
) -> Result<Vec<u8>, ReadStop>
    requires { limit + 1 < 2 ^ 64 }
    ensures { ReadsFile (F.outside shelf.old) (F.outside shelf.new) limit result name.now }
{
    match shelf.open(name) {
        Err(ShelfStop::Fault) => Err(ReadStop::Fault),
        Err(ShelfStop::NoMemory) => Err(ReadStop::NoMemory),
        Ok(()) => read_all(alloc, shelf, limit),
    }
}

/// Makes the name hold these bytes, for good.
pub fn write_file<F: Shelf>(shelf: &mut F, name: &str, bytes: &[u8]) -> Result<(), ShelfStop>
    ensures { WritesFile (F.outside shelf.old) (F.outside shelf.new) result (name.now, bytes.now) }
{
    match shelf.create(name) {
        Err(stop) => Err(stop),
        Ok(()) => match write_all(shelf, bytes) {
            Ok(()) => match shelf.finish() {
                Ok(()) => Ok(()),
                Err(Fault) => Err(ShelfStop::Fault),
            },
            Err(WriteStop::Fault(_)) => Err(ShelfStop::Fault),
        },
    }
}
