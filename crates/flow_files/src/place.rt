//! Where the name of an output leads to.
use crate::folder::Folder;
use crate::opened::{at_beginning, or_no_memory};
use crate::seen::{Identity, Seen};
use crate::system::OutputError;
use std::alloc::{AllocError, Global};
use std::fs::{File, Files};
use std::io;
use std::io::ErrorKind;
use std::path::PathBuf;

/// A chain of more symbolic links than this isn't followed, as in the system's own calls.
const LINKS: u32 = 40;

/// Where a chain of symbolic links leads to.
#[derive(Drop)]
pub enum Place {
    /// To a name that is none of a link.
    Name(Spot),
    /// To an open descriptor, to something else that the system tells of a process, or to a name among the devices.
    System,
}

/// A name in a folder, which is none of a link.
#[derive(Drop)]
pub struct Spot {
    pub folder: Folder,
    pub path: String,
    /// What has the name, open for writing.
    pub old: Option<File>,
}

/// What a look at a name in a folder finds.
#[derive(Drop)]
enum Look {
    Link(PathBuf),
    Old(File),
    Nothing,
    /// The name was given to another file between two calls.
    Exchanged,
}

/// Where the name leads to: of a name that is no link, to itself. Each folder on the way is held while its name is
/// looked up, and what has the last name is opened where it was looked at.
pub fn place_of<R: Files<File = File>>(
    alloc: Global,
    rt: &R,
    name: &str,
) -> Result<Place, OutputError> {
    let mut path = PathBuf::from_str(alloc, name)?;
    let mut before: Option<Folder> = None;
    // The last look finds that the chain ends.
    for _ in 0..=LINKS {
        let folder = folder_of(alloc, rt, path.as_str())?;
        if folder.is_of_system(alloc, rt)? {
            return Ok(Place::System);
        }
        let entry = folder.path_of(alloc, last_of(path.as_str()))?;
        match look_at(alloc, rt, &folder, entry.as_str())? {
            Look::Link(next) => {
                path = followed(alloc, entry.as_str(), &next)?;
                // A link that says where it leads from its folder is followed from there.
                before = Some(folder);
            }
            Look::Exchanged => {}
            Look::Old(old) => return Ok(found(folder, entry, Some(old))),
            Look::Nothing => return Ok(found(folder, entry, None)),
        }
    }
    drop(before);
    Err(OutputError::Io(io::Error::from(ErrorKind::FilesystemLoop)))
}

fn found(folder: Folder, path: String, old: Option<File>) -> Place {
    Place::Name(Spot { folder, path, old })
}

/// Looks at a name in a folder, and opens what has it, where that is no link.
fn look_at<R: Files<File = File>>(
    alloc: Global,
    rt: &R,
    folder: &Folder,
    entry: &str,
) -> Result<Look, OutputError> {
    let found = match rt.symlink_metadata(entry) {
        Ok(found) => found,
        Err(error) if error.kind() == ErrorKind::NotFound => return Ok(Look::Nothing),
        Err(error) => return Err(or_no_memory(error)),
    };
    if folder.holds_planted(alloc, rt, Seen::of(&found))? {
        let reason = "another user put this into a folder that all may write to";
        return Err(OutputError::Io(io::Error::new(ErrorKind::PermissionDenied, reason)));
    }
    if found.is_symlink() {
        return match rt.read_link(alloc, entry) {
            Ok(next) => Ok(Look::Link(next)),
            Err(error) => Err(or_no_memory(error)),
        };
    }
    open_same(rt, entry, Identity::of(&found))
}

/// Opens what has the name, where that is this file still. The library can't open without following, so what was
/// opened is looked at.
fn open_same<R: Files<File = File>>(
    rt: &R,
    entry: &str,
    wanted: Identity,
) -> Result<Look, OutputError> {
    match at_beginning(rt, entry) {
        Ok(old) if Identity::of(&old.metadata()?) == wanted => Ok(Look::Old(old)),
        Ok(_) => Ok(Look::Exchanged),
        Err(error) if error.kind() == ErrorKind::NotFound => Ok(Look::Exchanged),
        // A file that may not be written isn't replaced either.
        Err(error) => Err(or_no_memory(error)),
    }
}

/// Where a link leads to, which stands under this path and has this text.
fn followed(alloc: Global, entry: &str, text: &PathBuf) -> Result<PathBuf, AllocError> {
    let mut path = PathBuf::from_str(alloc, entry)?;
    path.pop();
    path.push(text.as_str())?;
    Ok(path)
}

/// The folder in which a name stands.
fn folder_of<R: Files<File = File>>(
    alloc: Global,
    rt: &R,
    name: &str,
) -> Result<Folder, OutputError> {
    match name.rsplit_once('/') {
        None => Folder::open(alloc, rt, "./"),
        Some((folder, _)) => {
            let folder = format!(in alloc; "{folder}/")?;
            Folder::open(alloc, rt, folder.as_str())
        }
    }
}

/// What stands behind the last slash of a name.
fn last_of(name: &str) -> &str {
    match name.rsplit_once('/') {
        None => name,
        Some((_, last)) => last,
    }
}
