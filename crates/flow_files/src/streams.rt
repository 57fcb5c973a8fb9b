//! The files to which the standard streams go.
use crate::seen::Identity;
use std::fs::{File, Files};
use std::io;

/// A standard stream to which something is printed.
#[derive(Clone, Copy)]
pub enum Stream {
    Output,
    Error,
}

impl Stream {
    /// The name that leads to what the stream has open, where `/proc` is mounted. The library asks no descriptor that
    /// isn't a `File`'s.
    fn name(self) -> &'static str {
        match self {
            Stream::Output => "/dev/stdout",
            Stream::Error => "/dev/stderr",
        }
    }

    /// Whether what is printed to the stream goes to this file. Of a stream that is closed, or whose name leads to
    /// nothing, it isn't known.
    pub fn goes_to<R: Files<File = File>>(self, rt: &R, file: &File) -> io::Result<bool> {
        let here = file.metadata()?;
        match rt.metadata(self.name()) {
            Ok(there) => Ok(Identity::of(&there) == Identity::of(&here)),
            Err(_) => Ok(false),
        }
    }
}
