//! How files of the system are opened.
use crate::system::OutputError;
use std::fs::{File, Files, OpenOptions};
use std::io;
use std::io::ErrorKind;

/// A duplicate of an open file, whose descriptor is above those of the standard streams. Where one of those was
/// closed, the system gives its descriptor to the next file that is opened, and what is meant for the stream would
/// land there.
pub fn above_streams(file: File) -> io::Result<File> {
    file.try_clone()
}

/// A file that is to be read.
pub fn open_input<R: Files<File = File>>(rt: &R, name: &str) -> io::Result<File> {
    above_streams(File::open(rt, name)?)
}

/// What the name holds, to be written from its beginning.
pub fn at_beginning<R: Files<File = File>>(rt: &R, name: &str) -> io::Result<File> {
    above_streams(OpenOptions::new().write(true).open(rt, name)?)
}

/// What the name holds, to be written behind its end: who has it open too loses nothing.
pub fn at_end<R: Files<File = File>>(rt: &R, name: &str) -> io::Result<File> {
    above_streams(OpenOptions::new().append(true).open(rt, name)?)
}

/// An error of the system, which may be a want of memory.
pub fn or_no_memory(error: io::Error) -> OutputError {
    if error.kind() == ErrorKind::OutOfMemory {
        OutputError::NoMemory
    } else {
        OutputError::Io(error)
    }
}
