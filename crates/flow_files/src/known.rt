//! Which files of a call are one file: told by device and number, whatever their names are.
use crate::seen::Identity;
use crate::system::Output;
use std::alloc::{AllocError, Global};
use std::fs::{File, Files, Metadata};
use std::io;
use std::io::ErrorKind;

/// Of a device, a pipe and the like none: it isn't replaced.
fn regular(found: io::Result<Metadata>) -> Option<Identity> {
    match found {
        Ok(found) if found.is_file() => Some(Identity::of(&found)),
        _ => None,
    }
}

/// What a file was in the call so far.
#[derive(Clone, Copy)]
enum Part {
    Network,
    Input,
    Output,
}

/// A file that is kept of a run. It is written behind all outputs, so it is known by its name before it is open.
#[derive(Clone, Copy)]
pub enum Kept {
    Journal,
    Tapes,
    Report,
}

/// The files of a call so far.
#[derive(Drop)]
pub struct Known {
    /// The name of the journal's file.
    journal: Option<String>,
    /// The name of the tape file.
    tapes: Option<String>,
    /// The name of the report's file.
    report: Option<String>,
    /// Those that were opened to be read, that of the network first.
    read: Vec<Option<Identity>>,
    written: Vec<Option<Identity>>,
}

impl Known {
    pub fn new(alloc: Global) -> Known {
        Known {
            journal: None,
            tapes: None,
            report: None,
            read: Vec::new(alloc),
            written: Vec::new(alloc),
        }
    }

    pub fn expect(&mut self, kept: Kept, name: String) {
        match kept {
            Kept::Journal => self.journal = Some(name),
            Kept::Tapes => self.tapes = Some(name),
            Kept::Report => self.report = Some(name),
        }
    }

    pub fn add_read(&mut self, file: &File) -> Result<(), AllocError> {
        self.read.push(regular(file.metadata()))?;
        Ok(())
    }

    pub fn add_written(&mut self, output: &Output) -> Result<(), AllocError> {
        self.written.push(regular(output.metadata()))?;
        Ok(())
    }

    /// Before anything is written: what is kept of the run and would be written over the network or over an input is a
    /// fault. Its file isn't open yet, so it is asked by its name, and once more when it is open.
    pub fn admit_kept<R: Files + Eprint>(&self, rt: &R) -> io::Result<()> {
        if !self.written.is_empty() {
            return Ok(());
        }
        self.admit_named(rt, Kept::Journal, &self.journal)?;
        self.admit_named(rt, Kept::Tapes, &self.tapes)?;
        self.admit_named(rt, Kept::Report, &self.report)
    }

    /// The fault comes at the first file that is to be written, and the report names that one: so the standard error
    /// names this one.
    fn admit_named<R: Files + Eprint>(
        &self,
        rt: &R,
        kept: Kept,
        name: &Option<String>,
    ) -> io::Result<()> {
        let Some(name) = name else {
            return Ok(());
        };
        let admitted = self.admit_as(kept, regular(rt.metadata(name.as_str())));
        if admitted.is_err() {
            let _ = eprintln!(rt; "{name:?} may not be written over, so nothing is written");
        }
        admitted
    }

    fn admit_as(&self, kept: Kept, file: Option<Identity>) -> io::Result<()> {
        match (self.part_of(file), kept) {
            (Some(Part::Network), Kept::Journal) => {
                Err(refused("the journal's file is the network file"))
            }
            (Some(Part::Network), Kept::Tapes) => {
                Err(refused("the tape file is the network file"))
            }
            (Some(Part::Network), Kept::Report) => {
                Err(refused("the report's file is the network file"))
            }
            (Some(Part::Input), Kept::Journal) => Err(refused("the journal's file is an input")),
            (Some(Part::Input), Kept::Tapes) => Err(refused("the tape file is an input")),
            (Some(Part::Input), Kept::Report) => Err(refused("the report's file is an input")),
            _ => Ok(()),
        }
    }

    /// Whether an open file may be written over. The network file may not. Of what is another file of this call the
    /// standard error tells.
    pub fn admit<R: Eprint>(&self, rt: &R, name: &str, file: &File) -> io::Result<()> {
        if let Some(told) = self.judge(name, file)? {
            let _ = eprintln!(rt; "{name:?} {told}");
        }
        Ok(())
    }

    /// The same of an open file, and nothing is told: what there is to tell is the answer.
    pub fn judge(&self, name: &str, file: &File) -> io::Result<Option<&'static str>> {
        let file = regular(file.metadata());
        if let Some(kept) = self.kept_as(name) {
            self.admit_as(kept, file)?;
        }
        match self.part_of(file) {
            None => Ok(None),
            Some(Part::Network) => Err(refused("this file is the network file")),
            Some(Part::Input) => Ok(Some("is an input too, and is written over")),
            Some(Part::Output) => Ok(Some("is written twice, and keeps what comes last")),
        }
    }

    /// What the file of this name keeps of the run.
    fn kept_as(&self, name: &str) -> Option<Kept> {
        if is_named(&self.journal, name) {
            return Some(Kept::Journal);
        }
        if is_named(&self.tapes, name) {
            return Some(Kept::Tapes);
        }
        if is_named(&self.report, name) {
            return Some(Kept::Report);
        }
        None
    }

    /// A number may be given anew once its file is gone, so those that were written are looked through first: they are
    /// there now.
    fn part_of(&self, file: Option<Identity>) -> Option<Part> {
        let _known = file?;
        if self.written.contains(&file) {
            return Some(Part::Output);
        }
        match self.read.iter().position(|read| *read == file) {
            Some(0) => Some(Part::Network),
            Some(_) => Some(Part::Input),
            None => None,
        }
    }
}

fn is_named(kept: &Option<String>, name: &str) -> bool {
    match kept {
        Some(kept) => kept.as_str() == name,
        None => false,
    }
}

fn refused(reason: &'static str) -> io::Error {
    io::Error::new(ErrorKind::InvalidInput, reason)
}
