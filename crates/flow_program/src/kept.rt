//! Which files a run is to keep, as its words name them.
use flow_files::FileShelf;
use flow_words::{Command, command};
use std::alloc::{AllocError, Global};
use std::fs::{File, Files};

/// Tells the shelf to which files the run that these words ask for keeps its journal, its tapes and its report.
pub fn expect_kept<R: Files<File = File> + Drop>(
    alloc: Global,
    shelf: &mut FileShelf<R>,
    words: &[String],
) -> Result<(), AllocError> {
    let Some(Command::Run(asked)) = command(alloc, words)? else {
        return Ok(());
    };
    if let Some(name) = asked.journal {
        shelf.expect_journal(String::from_str(alloc, name)?);
    }
    if let Some(name) = asked.tapes {
        shelf.expect_tapes(String::from_str(alloc, name)?);
    }
    if let Some(name) = asked.report.file {
        shelf.expect_report(String::from_str(alloc, name)?);
    }
    Ok(())
}
