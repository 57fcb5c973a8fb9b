//! What a row gives to its calls.
use crate::bytes::{RowStop, bytes_of, number, numbers, put_at, size};
use crate::page::{Step, first_word};
use flow_text::{MemShelf, MemSink};
use std::alloc::Global;

/// How many bytes a file that is written, and all that is printed, may have where nothing else is said.
const ROOM: usize = 33_554_432;

/// How many bytes are written at once where nothing else is said.
const PIECE: usize = 65_536;

/// Over what a call goes.
#[derive(Drop)]
pub struct Around {
    alloc: Global,
    files: Vec<(String, Vec<u8>)>,
    /// How many bytes a write to a file takes, and one of what is printed.
    piece: usize,
    print_piece: usize,
    /// How many bytes a file that is written may have, and all that is printed.
    room: usize,
    /// Which calls for a read fail, which for a write to a file, which writes of what is printed, and which to the error output.
    read_fails: Vec<u64>,
    write_fails: Vec<u64>,
    print_fails: Vec<u64>,
    tell_fails: Vec<u64>,
    /// How many parts of the kind Number are handed in, if that kind is.
    pub parts: Option<u64>,
}

impl Around {
    /// No files and no kinds of the caller's own, and nothing fails.
    pub fn new(alloc: Global) -> Around {
        Around {
            alloc,
            files: Vec::new(alloc),
            piece: PIECE,
            print_piece: PIECE,
            room: ROOM,
            read_fails: Vec::new(alloc),
            write_fails: Vec::new(alloc),
            print_fails: Vec::new(alloc),
            tell_fails: Vec::new(alloc),
            parts: None,
        }
    }

    /// Does what a line gives.
    pub fn give(&mut self, step: &Step) -> Result<(), RowStop> {
        let rest = step.rest;
        match step.word {
            "file" => {
                let bytes = bytes_of(self.alloc, &step.lines)?;
                self.put_file(rest, bytes)
            }
            "without" => self.remove_file(rest),
            "cut" => self.cut_file(rest),
            "set" => self.set_bytes(rest, &step.lines),
            "piece" => Ok(self.piece = size(rest)?),
            "print-piece" => Ok(self.print_piece = size(rest)?),
            "room" => Ok(self.room = size(rest)?),
            "read-fails" => Ok(self.read_fails = numbers(self.alloc, rest)?),
            "write-fails" => Ok(self.write_fails = numbers(self.alloc, rest)?),
            "print-fails" => Ok(self.print_fails = numbers(self.alloc, rest)?),
            "tell-fails" => Ok(self.tell_fails = numbers(self.alloc, rest)?),
            "parts" => Ok(self.parts = Some(number(rest)?)),
            _ => Err(RowStop::Unknown),
        }
    }

    /// The bytes of the file of a name.
    pub fn file(&self, name: &str) -> Option<&[u8]> {
        let (_, bytes) = self.files.iter().find(|file| file.0.as_str() == name)?;
        Some(bytes)
    }

    fn file_to_change(&mut self, name: &str) -> Result<&mut Vec<u8>, RowStop> {
        match self.files.iter_mut().find(|file| file.0.as_str() == name) {
            Some(file) => Ok(&mut file.1),
            None => Err(RowStop::Unknown),
        }
    }

    /// Gives the file of a name these bytes.
    pub fn put_file(&mut self, name: &str, bytes: Vec<u8>) -> Result<(), RowStop> {
        match self.files.iter_mut().find(|file| file.0.as_str() == name) {
            Some(file) => file.1 = bytes,
            None => self
                .files
                .push((String::from_str(self.alloc, name)?, bytes))?,
        }
        Ok(())
    }

    fn remove_file(&mut self, name: &str) -> Result<(), RowStop> {
        match self.files.iter().position(|file| file.0.as_str() == name) {
            Some(place) => {
                self.files.remove(place);
                Ok(())
            }
            None => Err(RowStop::Unknown),
        }
    }

    // `NAME N`: leaves the first N bytes.
    fn cut_file(&mut self, rest: &str) -> Result<(), RowStop> {
        let (name, length) = first_word(rest);
        let length = size(length)?;
        self.file_to_change(name)?.truncate(length);
        Ok(())
    }

    // `NAME PLACE`: puts the bytes of these lines there.
    fn set_bytes(&mut self, rest: &str, lines: &[&str]) -> Result<(), RowStop> {
        let (name, place) = first_word(rest);
        let place = size(place)?;
        let new = bytes_of(self.alloc, lines)?;
        put_at(self.file_to_change(name)?, place, &new)
    }

    fn copy_of_files(&self) -> Result<Vec<(String, Vec<u8>)>, RowStop> {
        let mut files = Vec::new(self.alloc);
        for (name, bytes) in &self.files {
            files.push((name.clone()?, bytes.clone()?))?;
        }
        Ok(files)
    }

    /// The shelf over which the next call goes.
    pub fn shelf(&self) -> Result<MemShelf, RowStop> {
        if self.piece == 0 {
            return Err(RowStop::Unknown);
        }
        let files = self.copy_of_files()?;
        let read_fails = self.read_fails.clone()?;
        let write_fails = self.write_fails.clone()?;
        Ok(MemShelf::new(
            self.alloc,
            files,
            self.piece,
            self.room,
            read_fails,
            write_fails,
        ))
    }

    /// What takes what the next call prints.
    pub fn sink(&self) -> Result<MemSink, RowStop> {
        self.sink_failing(self.print_fails.clone()?)
    }

    /// What takes what the next call says at the error output.
    pub fn err_sink(&self) -> Result<MemSink, RowStop> {
        self.sink_failing(self.tell_fails.clone()?)
    }

    // A sink whose writes of these numbers fail.
    fn sink_failing(&self, fails: Vec<u64>) -> Result<MemSink, RowStop> {
        if self.print_piece == 0 {
            return Err(RowStop::Unknown);
        }
        Ok(MemSink::new(self.alloc, self.print_piece, self.room, fails)?)
    }
}
