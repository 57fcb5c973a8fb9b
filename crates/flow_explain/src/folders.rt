//! The folders of the files that a run is to write, looked at before it begins: what can't be written is told at once, and
//! not only when the network has run.
use crate::found::Found;
use crate::named::{Use, put_process_of};
use crate::shown::put_between;
use crate::texts::{Texts, given_by};
use flow_words::{Command, RunCommand, command};
use std::alloc::{AllocError, Global};
use std::fs::Files;

const NO_FOLDER: &str =
    "Its folder isn't there: this file can't be written when the network has run.\n";

/// Tells which files of the run that these words ask for have no folder to stand in. The network file has these bytes, or comes to them when it is filled.
pub fn put_folders<R: Files>(
    alloc: Global,
    rt: &R,
    page: &mut String,
    words: &[String],
    net: &[u8],
) -> Result<(), AllocError> {
    let Some(Command::Run(asked)) = command(alloc, words)? else {
        return Ok(());
    };
    put_lines(alloc, rt, page, net)?;
    put_kept(rt, page, &asked)
}

// Whether the file of this name has a folder, as far as that can be told: the bytes before its last slash are one.
fn has_folder<R: Files>(rt: &R, name: &str) -> bool {
    match name.rsplit_once('/') {
        Some((folder, _)) if !folder.is_empty() => match rt.metadata(folder) {
            Ok(found) => found.is_dir(),
            Err(_) => false,
        },
        _ => true,
    }
}

// Tells of the files that the options of a run name.
fn put_kept<R: Files>(rt: &R, page: &mut String, asked: &RunCommand<'_>) -> Result<(), AllocError> {
    put_option(rt, page, "--journal", asked.journal)?;
    put_option(rt, page, "--tapes", asked.tapes)?;
    put_option(rt, page, "--report", asked.report.file)
}

fn put_option<R: Files>(
    rt: &R,
    page: &mut String,
    option: &str,
    name: Option<&str>,
) -> Result<(), AllocError> {
    match name {
        Some(name) if !has_folder(rt, name) => {
            put_between(page, option, b"", " names a file. ")?;
            page.push_str(NO_FOLDER)
        }
        _ => Ok(()),
    }
}

// Tells of the files that the lines of a network file name for its writers.
fn put_lines<R: Files>(
    alloc: Global,
    rt: &R,
    page: &mut String,
    net: &[u8],
) -> Result<(), AllocError> {
    let texts = Texts::of(alloc, net, Use::Written.kind())?;
    for found in &texts.lines {
        if texts.is_for(alloc, found)? {
            put_line(alloc, rt, page, found)?;
        }
    }
    Ok(())
}

fn put_line<R: Files>(
    alloc: Global,
    rt: &R,
    page: &mut String,
    found: &Found<'_>,
) -> Result<(), AllocError> {
    let Some(text) = given_by(alloc, found)? else {
        return Ok(());
    };
    match str::from_utf8(&text) {
        Ok(name) if !has_folder(rt, name) => {
            put_process_of(page, found)?;
            page.push_str(NO_FOLDER)
        }
        _ => Ok(()),
    }
}
