//! What the system tells of a file, and what is judged by that alone.
ghost use Rattle.std.specs.Prelude.{◌↔◌, IsTrue};
ghost use Rattle.flow_files.specs.Access.{IsPlanted, IsTold};

use std::fs::Metadata;
use std::os::unix::fs::MetadataExt;

/// A file, as the system tells it from all others that are there.
#[derive(Clone, Copy, PartialEq, Eq)]
pub struct Identity {
    device: u64,
    number: u64,
}

impl Identity {
    pub fn of(found: &Metadata) -> Identity {
        Identity {
            device: found.dev(),
            number: found.ino(),
        }
    }
}

/// Whose a file or a folder is, and its mode.
#[derive(Clone, Copy)]
pub struct Seen {
    pub owner: u32,
    pub group: u32,
    pub mode: u32,
}

impl Seen {
    pub fn of(found: &Metadata) -> Seen {
        Seen {
            owner: found.uid(),
            group: found.gid(),
            mode: found.mode(),
        }
    }
}

/// The bit of a folder in which only a file's owner, and the folder's, may take it away.
const STICKY: u32 = 0o1000;

/// The bit by which everybody may write.
const WRITABLE: u32 = 0o002;

/// Whether a file, a pipe or a link in a folder may have been put there by another user for this one to run into: in a
/// sticky folder to which everybody may write, what belongs neither to who runs the program nor to the folder's owner.
pub fn is_planted(folder: Seen, found: Seen, runner: u32) -> bool
    ensures { IsTrue result ↔ IsPlanted folder found runner }
{
    folder.mode & STICKY != 0
        && folder.mode & WRITABLE != 0
        && found.owner != folder.owner
        && found.owner != runner
}

/// The bit by which the members of the file's group may read.
const GROUP_READS: u32 = 0o040;

/// The bit by which everybody may read.
const ALL_READ: u32 = 0o004;

/// Whether a mode tells who may read the file, also where another file with this mode gets another owner and group.
/// Where a file has an access list, the group's bits of its mode are but a bound on what the list gives; where everybody
/// may read it anyway, that is of no matter. And whom a mode refuses as a member of the group is one of all in a file of
/// another group.
pub fn is_told(mode: u32) -> bool
    ensures { IsTrue result ↔ IsTold mode }
{
    (mode & GROUP_READS != 0) == (mode & ALL_READ != 0)
}
