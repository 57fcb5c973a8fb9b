//! A folder that stays the same one, whatever its name is given to meanwhile.
use crate::opened::{above_streams, or_no_memory};
use crate::seen::{Identity, Seen, is_planted};
use crate::system::OutputError;
use std::alloc::{AllocError, Global};
use std::fs::{File, Files, OpenOptions};
use std::io;
use std::io::ErrorKind;
use std::os::fd::AsRawFd;
use std::os::unix::fs::OpenOptionsExt;
use std::path::PathBuf;

/// Below this name the system tells of the files that the process has open. What stands behind such a name and a slash
/// is looked for in the very folder that is open, as the calls do that are relative to one; the library has none.
const OPEN_FILES: &str = "/proc/self/fd";

/// The folder below which the system tells of processes. Nothing in it can be replaced.
const PROCESSES: &str = "/proc/";

/// The folder of the devices. What stands in it itself isn't replaced, and nothing is created there: a shared
/// memory's folder below it is one as any other.
const DEVICES: &str = "/dev";

/// So many temporary names are tried, which earlier calls that were killed may have left.
const TEMPORARY_NAMES: u32 = 65_536;

/// The mode of a file that only its owner may open.
pub const PRIVATE: u32 = 0o600;

/// A folder in which an output stands.
#[derive(Drop)]
pub struct Folder {
    /// Open, where it may be read.
    file: Option<File>,
    /// What names in it stand behind, with a slash at its end.
    path: String,
    /// Whether that leads to the open folder itself, so that no exchange of a name leads elsewhere.
    is_held: bool,
}

/// A file that was created under a temporary name.
#[derive(Drop)]
pub struct Temporary {
    pub path: String,
    pub file: File,
}

impl Folder {
    /// The folder of this name, which ends with a slash: so nothing else is opened.
    pub fn open<R: Files<File = File>>(
        alloc: Global,
        rt: &R,
        name: &str,
    ) -> Result<Folder, OutputError> {
        match File::open(rt, name) {
            Ok(file) => Folder::hold(alloc, rt, name, above_streams(file)?),
            Err(error) if error.kind() == ErrorKind::PermissionDenied => Ok(Folder {
                file: None,
                path: String::from_str(alloc, name)?,
                is_held: false,
            }),
            Err(error) => Err(or_no_memory(error)),
        }
    }

    /// An open folder. Where the system doesn't tell of open files, names in it are found by its own name.
    fn hold<R: Files<File = File>>(
        alloc: Global,
        rt: &R,
        name: &str,
        file: File,
    ) -> Result<Folder, OutputError> {
        let number = file.as_raw_fd();
        let path = format!(in alloc; "{OPEN_FILES}/{number}/")?;
        let here = Identity::of(&file.metadata()?);
        let is_held = match rt.metadata(path.as_str()) {
            Ok(found) => Identity::of(&found) == here,
            Err(_) => false,
        };
        let path = if is_held {
            path
        } else {
            String::from_str(alloc, name)?
        };
        Ok(Folder {
            file: Some(file),
            path,
            is_held,
        })
    }

    /// Whether names in it lead to it, whatever is exchanged.
    pub fn is_held(&self) -> bool {
        self.is_held
    }

    /// The path of a name in it.
    pub fn path_of(&self, alloc: Global, name: &str) -> Result<String, AllocError> {
        let path = self.path.as_str();
        format!(in alloc; "{path}{name}")
    }

    /// Whether it lies below the folder of the processes, or is that of the devices.
    pub fn is_of_system<R: Files<File = File>>(
        &self,
        alloc: Global,
        rt: &R,
    ) -> Result<bool, OutputError> {
        match self.real_path(alloc, rt) {
            Ok(folder) => Ok(lies_in_system(folder.as_str())),
            Err(error) if error.kind() == ErrorKind::OutOfMemory => Err(OutputError::NoMemory),
            // What can't be found is no folder of the system's.
            Err(_) => Ok(false),
        }
    }

    /// Its name without a link in it. Of a held folder the system tells it.
    fn real_path<R: Files<File = File>>(&self, alloc: Global, rt: &R) -> io::Result<PathBuf> {
        match self.path.as_str().strip_suffix('/') {
            Some(link) if self.is_held => rt.read_link(alloc, link),
            _ => rt.canonicalize(alloc, self.path.as_str()),
        }
    }

    /// Whether what stands in it may be what another user planted there for whoever writes to that name.
    pub fn holds_planted<R: Files<File = File>>(
        &self,
        alloc: Global,
        rt: &R,
        found: Seen,
    ) -> Result<bool, OutputError> {
        let folder = Seen::of(&rt.metadata(self.path.as_str())?);
        // Who runs the program is asked only where the answer counts.
        if !is_planted(folder, found, folder.owner) {
            return Ok(false);
        }
        Ok(is_planted(folder, found, self.runner(alloc, rt)?))
    }

    /// Who runs the program, as the folder's file system has it: the owner of a file that it makes.
    fn runner<R: Files<File = File>>(&self, alloc: Global, rt: &R) -> Result<u32, OutputError> {
        let made = self.create_temporary(alloc, rt, PRIVATE)?;
        let owner = Seen::of(&made.file.metadata()?).owner;
        rt.remove_file(made.path.as_str())?;
        Ok(owner)
    }

    /// Creates a file of this mode under the first temporary name that is left in the folder.
    pub fn create_temporary<R: Files<File = File>>(
        &self,
        alloc: Global,
        rt: &R,
        mode: u32,
    ) -> Result<Temporary, OutputError> {
        for number in 0..TEMPORARY_NAMES {
            let folder = self.path.as_str();
            let path = format!(in alloc; "{folder}.flow-{number}.tmp")?;
            match create_new(rt, path.as_str(), mode) {
                Ok(file) => return Ok(Temporary { path, file }),
                Err(error) if error.kind() == ErrorKind::AlreadyExists => {}
                Err(error) => return Err(or_no_memory(error)),
            }
        }
        Err(OutputError::Io(io::Error::new(
            ErrorKind::AlreadyExists,
            "no temporary name is left in the folder",
        )))
    }

    /// Has its names kept, where it may be read and its file system can promise that.
    pub fn sync(&self) -> io::Result<()> {
        match &self.file {
            None => Ok(()),
            Some(file) => match file.sync_all() {
                Err(error) if error.kind() == ErrorKind::InvalidInput => Ok(()),
                synced => synced,
            },
        }
    }
}

fn lies_in_system(folder: &str) -> bool {
    folder.starts_with(PROCESSES) || folder == DEVICES
}

/// Creates a file of this mode, and follows no link for it.
fn create_new<R: Files<File = File>>(rt: &R, path: &str, mode: u32) -> io::Result<File> {
    OpenOptions::new()
        .read(true)
        .write(true)
        .create_new(true)
        .mode(mode)
        .open(rt, path)
}
