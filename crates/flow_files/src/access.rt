//! The access of a file that replaces another one.
ghost use Rattle.std.specs.Prelude.{◌≡◌};
ghost use Rattle.flow_files.specs.Access.{kept_mode};

use crate::seen::Seen;
use std::fs::{File, Permissions};
use std::io;
use std::os::unix::fs::{PermissionsExt, fchown};

/// Gives an open file this owner, group and mode, as far as this process may. No name is asked for.
pub fn keep_access(file: &File, old: Seen) -> io::Result<()> {
    // Only root sets the owner, and a member of the group may still set that. Whether they were set the file itself
    // tells: a system refuses it in several ways, as where it can't tell the owner here, or its file has none.
    let _ = fchown(file, None, Some(old.group));
    let _ = fchown(file, Some(old.owner), None);
    let given = Seen::of(&file.metadata()?);
    let is_same = given.owner == old.owner && given.group == old.group;
    file.set_permissions(Permissions::from_mode(kept_mode(old.mode, is_same)))
}

/// The mode of a file that takes the place of one with this mode. Where its owner or its group is another one, nobody
/// runs it as them, and who is in that group may do no more than all others.
fn kept_mode(mode: u32, is_same: bool) -> u32
    ensures { result ≡ kept_mode mode is_same }
{
    if is_same {
        mode & 0o7777
    } else {
        mode & (0o1707 + (mode & 0o007) * 8)
    }
}
