//! How a whole file takes the place of another one.
use crate::access::keep_access;
use crate::place::Spot;
use crate::seen::{Identity, Seen, is_told};
use crate::system::exchanged;
use std::fs::{File, Files, Metadata};
use std::io;
use std::io::{ErrorKind, Seek, SeekFrom};

/// A file has a temporary name until it is whole, beside the place that it is for.
#[derive(Drop)]
pub struct Replacing {
    pub temporary: String,
    pub spot: Spot,
}

impl Replacing {
    /// What the system tells of the file that will have the name: this one, but where that of the place stays.
    pub fn metadata(&self, file: &File) -> io::Result<Metadata> {
        match &self.spot.old {
            Some(old) => {
                let found = old.metadata()?;
                if is_filled(&self.spot, Seen::of(&found)) {
                    Ok(found)
                } else {
                    file.metadata()
                }
            }
            None => file.metadata(),
        }
    }
}

/// Has a whole file take its place for good. At a fault it is removed.
pub fn take_place<R: Files<File = File>>(
    rt: &R,
    file: File,
    replacing: Replacing,
) -> io::Result<()> {
    match give_place(rt, &file, &replacing) {
        Ok(()) => replacing.spot.folder.sync(),
        Err(error) => {
            let _ = rt.remove_file(replacing.temporary.as_str());
            Err(error)
        }
    }
}

/// Gives a whole file the name of its place, or its content to what has that name.
fn give_place<R: Files<File = File>>(rt: &R, file: &File, replacing: &Replacing) -> io::Result<()> {
    let Replacing { temporary, spot } = replacing;
    let Some(old) = &spot.old else {
        file.sync_all()?;
        return rt.rename(temporary.as_str(), spot.path.as_str());
    };
    let seen = Seen::of(&old.metadata()?);
    if is_filled(spot, seen) {
        file.sync_all()?;
        admit_name(rt, spot.path.as_str(), old)?;
        fill(rt, file, old, replacing)
    } else {
        keep_access(file, seen)?;
        file.sync_all()?;
        admit_name(rt, spot.path.as_str(), old)?;
        replace(rt, file, old, replacing)
    }
}

/// Whether a file stays, and takes the content of the one that is for its place. It is replaced only where its folder
/// is held, so that no other one can be replaced by a file with its access, and where its mode tells who may read it.
fn is_filled(spot: &Spot, old: Seen) -> bool {
    !spot.folder.is_held() || !is_told(old.mode)
}

/// Whether the name is this file's still.
fn admit_name<R: Files<File = File>>(rt: &R, path: &str, old: &File) -> io::Result<()> {
    let found = rt.symlink_metadata(path)?;
    if Identity::of(&found) == Identity::of(&old.metadata()?) {
        Ok(())
    } else {
        Err(exchanged())
    }
}

/// Gives a whole file the name of another one, or its content where the name can't be given away.
fn replace<R: Files<File = File>>(
    rt: &R,
    file: &File,
    old: &File,
    replacing: &Replacing,
) -> io::Result<()> {
    let Replacing { temporary, spot } = replacing;
    match rt.rename(temporary.as_str(), spot.path.as_str()) {
        Err(error) if error.kind() == ErrorKind::ResourceBusy => fill(rt, file, old, replacing),
        renamed => renamed,
    }
}

/// Gives a whole file's content to another one, and removes it.
fn fill<R: Files<File = File>>(
    rt: &R,
    file: &File,
    old: &File,
    replacing: &Replacing,
) -> io::Result<()> {
    pour(file, old)?;
    rt.remove_file(replacing.temporary.as_str())
}

/// Makes the second file hold what the first one holds. Where there is no room for that it holds what it held.
fn pour(mut whole: &File, mut old: &File) -> io::Result<()> {
    grow(whole, old)?;
    whole.seek(SeekFrom::Start(0))?;
    old.seek(SeekFrom::Start(0))?;
    let length = io::copy(&mut whole, &mut old)?;
    old.set_len(length)?;
    old.sync_all()
}

/// Appends to the second file what the first one has beyond its length, or leaves it as it is.
fn grow(mut whole: &File, mut old: &File) -> io::Result<()> {
    let length = old.metadata()?.len();
    if whole.metadata()?.len() <= length {
        return Ok(());
    }
    whole.seek(SeekFrom::Start(length))?;
    old.seek(SeekFrom::Start(length))?;
    if let Err(error) = append(whole, old) {
        old.set_len(length)?;
        return Err(error);
    }
    Ok(())
}

/// Copies the rest of a file, and has it kept.
fn append(mut whole: &File, mut old: &File) -> io::Result<()> {
    io::copy(&mut whole, &mut old)?;
    old.sync_all()
}
