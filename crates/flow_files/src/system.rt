//! Files of the system: how one is begun and written so that no fault loses what it held.
ghost use Rattle.std.specs.Prelude.{◌≤◌, length};
ghost use Rattle.std.specs.Io.{WritesAtMost};

use crate::folder::{PRIVATE, Temporary};
use crate::known::Known;
use crate::opened::{above_streams, at_beginning, at_end};
use crate::place::{Place, Spot, place_of};
use crate::replacing::{Replacing, take_place};
use crate::seen::Identity;
use crate::streams::Stream;
use std::alloc::{AllocError, Global};
use std::fs::{File, Files, Metadata};
use std::io;
use std::io::{ErrorKind, Write};

/// The mode of a file that replaces none, less what the umask takes.
const SHARED: u32 = 0o666;

/// A file that is being written.
#[derive(Drop)]
pub struct Output {
    file: File,
    replacing: Option<Replacing>,
}

/// Why a file isn't begun.
#[derive(Clone, Copy)]
pub enum OutputError {
    Io(io::Error),
    NoMemory,
}

impl From<AllocError> for OutputError {
    fn from(_: AllocError) -> Self {
        OutputError::NoMemory
    }
}

impl From<io::Error> for OutputError {
    fn from(error: io::Error) -> Self {
        OutputError::Io(error)
    }
}

/// Begins a file. A regular or absent one is written under a temporary name until it is whole. A device, a pipe
/// and the like is written in place, and so is what a descriptor's name leads to. What may not be written over, with
/// these files known, is a fault.
pub fn begin<R: Files<File = File> + Eprint>(
    alloc: Global,
    rt: &R,
    known: &Known,
    name: &str,
) -> Result<Output, OutputError> {
    known.admit_kept(rt)?;
    match place_of(alloc, rt, name)? {
        Place::System => begin_of_system(rt, known, name),
        Place::Name(mut spot) => match spot.old.take() {
            Some(old) => {
                known.admit(rt, name, &old)?;
                begin_over(alloc, rt, spot, old)
            }
            None => beside(alloc, rt, spot, SHARED),
        },
    }
}

/// Tries whether a file could be begun, and leaves all as it is: what was begun is given up. What would be written in
/// place, as a device, a pipe and what a descriptor's name leads to, isn't opened, and is no fault here. Of what may be
/// written over nothing is told.
pub fn try_begin<R: Files<File = File> + Eprint>(
    alloc: Global,
    rt: &R,
    known: &Known,
    name: &str,
) -> Result<(), OutputError> {
    known.admit_kept(rt)?;
    if is_special(rt, name) {
        return Ok(());
    }
    match place_of(alloc, rt, name)? {
        Place::System => Ok(()),
        Place::Name(spot) => try_spot(alloc, rt, known, name, spot),
    }
}

/// Whether the name leads to a device, a pipe or the like. The look opens nothing: a pipe would wait for its reader.
fn is_special<R: Files<File = File>>(rt: &R, name: &str) -> bool {
    match rt.metadata(name) {
        Ok(found) => !found.is_file() && !found.is_dir(),
        Err(_) => false,
    }
}

/// Tries whether a file of this name could be begun in its place.
fn try_spot<R: Files<File = File>>(
    alloc: Global,
    rt: &R,
    known: &Known,
    name: &str,
    mut spot: Spot,
) -> Result<(), OutputError> {
    let output = match spot.old.take() {
        Some(old) => {
            let _untold = known.judge(name, &old)?;
            begin_over(alloc, rt, spot, old)?
        }
        None => beside(alloc, rt, spot, SHARED)?,
    };
    output.abandon(rt);
    Ok(())
}

/// Begins what the system tells of under this name.
fn begin_of_system<R: Files<File = File> + Eprint>(
    rt: &R,
    known: &Known,
    name: &str,
) -> Result<Output, OutputError> {
    let old = at_beginning(rt, name)?;
    known.admit(rt, name, &old)?;
    if !old.metadata()?.is_file() {
        return Ok(in_place(old));
    }
    refuse_report(rt, &old)?;
    Ok(in_place(at_end(rt, name)?))
}

/// Begins a file whose place holds this one so far.
fn begin_over<R: Files<File = File>>(
    alloc: Global,
    rt: &R,
    mut spot: Spot,
    old: File,
) -> Result<Output, OutputError> {
    if !old.metadata()?.is_file() {
        return Ok(in_place(old));
    }
    refuse_report(rt, &old)?;
    if Stream::Error.goes_to(rt, &old)? {
        let file = at_end(rt, spot.path.as_str())?;
        admit_same(&file, &old)?;
        return Ok(in_place(file));
    }
    spot.old = Some(old);
    beside(alloc, rt, spot, PRIVATE)
}

/// What is printed at the end may not land in a file that is an output.
fn refuse_report<R: Files<File = File>>(rt: &R, old: &File) -> io::Result<()> {
    if Stream::Output.goes_to(rt, old)? {
        let reason = "the standard output goes to this file";
        return Err(io::Error::new(ErrorKind::InvalidInput, reason));
    }
    Ok(())
}

/// Whether two files that are open are one.
fn admit_same(file: &File, old: &File) -> io::Result<()> {
    if Identity::of(&file.metadata()?) == Identity::of(&old.metadata()?) {
        Ok(())
    } else {
        Err(exchanged())
    }
}

/// The fault of a name that was given to another file while its own was written.
pub fn exchanged() -> io::Error {
    let reason = "its name was given to another file meanwhile";
    io::Error::new(ErrorKind::AlreadyExists, reason)
}

fn in_place(file: File) -> Output {
    Output {
        file,
        replacing: None,
    }
}

/// Begins a file of this mode under a temporary name in the folder of its place.
fn beside<R: Files<File = File>>(
    alloc: Global,
    rt: &R,
    spot: Spot,
    mode: u32,
) -> Result<Output, OutputError> {
    let Temporary { path, file } = spot.folder.create_temporary(alloc, rt, mode)?;
    let replacing = Replacing {
        temporary: path,
        spot,
    };
    moved(rt, file, replacing)
}

/// The file that was created, above the standard streams. Where that fails, it is removed.
fn moved<R: Files<File = File>>(
    rt: &R,
    first: File,
    replacing: Replacing,
) -> Result<Output, OutputError> {
    match above_streams(first) {
        Ok(file) => Ok(Output {
            file,
            replacing: Some(replacing),
        }),
        Err(error) => {
            let _ = rt.remove_file(replacing.temporary.as_str());
            Err(OutputError::Io(error))
        }
    }
}

impl Output {
    /// What the system tells of the file that will hold what is written.
    pub fn metadata(&self) -> io::Result<Metadata> {
        match &self.replacing {
            Some(replacing) => replacing.metadata(&self.file),
            None => self.file.metadata(),
        }
    }

    /// One write.
    pub fn write(&mut self, bytes: &[u8]) -> io::Result<usize>
        ensures bound { WritesAtMost result bytes.now }
    {
        self.file.write(bytes)
    }

    /// Closes the file. One with a temporary name is flushed to the disk and takes its own name, with the access of
    /// what it replaces; or what has that name takes its content. At a fault it is removed instead.
    pub fn finish<R: Files<File = File>>(self, rt: &R) -> io::Result<()> {
        let Output { file, replacing } = self;
        match replacing {
            Some(replacing) => take_place(rt, file, replacing),
            None => Ok(()),
        }
    }

    /// Closes the file, and removes it where it has a temporary name.
    pub fn abandon<R: Files<File = File>>(self, rt: &R) {
        let Output { file, replacing } = self;
        drop(file);
        if let Some(replacing) = replacing {
            let _ = rt.remove_file(replacing.temporary.as_str());
        }
    }
}
