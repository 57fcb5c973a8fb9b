//! The course of a row.
use crate::around::Around;
use crate::bytes::{RowStop, bytes_of};
use crate::calls::call;
use crate::came::Came;
use crate::page::Step;
use crate::wants::{how_of, numbers_of, put_difference};
use std::alloc::{AllocError, Global};
use std::mem;
use std::sync::Wait;
use std::thread::Threads;

/// Where a row stands.
#[derive(Drop)]
pub struct Course {
    alloc: Global,
    around: Around,
    /// What came of the last call, and what the one before it printed.
    came: Option<Came>,
    before: Vec<u8>,
    /// Whether the row said with which status the last call has to end.
    judged: bool,
    /// What differs, line by line.
    told: String,
}

impl Course {
    /// A row's beginning.
    pub fn new(alloc: Global) -> Course {
        Course {
            alloc,
            around: Around::new(alloc),
            came: None,
            before: Vec::new(alloc),
            judged: false,
            told: String::new(alloc),
        }
    }

    /// Does what a line says, and notes where what is wanted isn't what came.
    pub fn follow<R: Threads + Wait + Sync>(
        &mut self,
        rt: &R,
        step: &Step,
    ) -> Result<(), AllocError> {
        let followed = match step.word {
            "call" => self.call(rt, step.rest),
            "keep" => self.keep(step.rest),
            "status" | "turns" | "seen" | "tapes" | "entries" => self.want_numbers(step),
            "prints" | "tells" | "left" => self.want_bytes(step),
            _ => self.around.give(step),
        };
        match followed {
            Ok(()) => Ok(()),
            Err(RowStop::Unknown) => {
                let Step { word, rest, .. } = step;
                write!(self.told, "  not understood: {word} {rest}\n")
            }
            Err(RowStop::NoMemory) => Err(AllocError),
        }
    }

    /// What differs in the whole row.
    pub fn told(mut self) -> Result<String, AllocError> {
        self.expect_judged()?;
        Ok(self.told)
    }

    // Each call has to be told its status, and a row makes one call at least.
    fn expect_judged(&mut self) -> Result<(), AllocError> {
        if !self.judged {
            self.told
                .push_str("  a call without a status, or no call\n")?;
        }
        Ok(())
    }

    fn call<R: Threads + Wait + Sync>(&mut self, rt: &R, line: &str) -> Result<(), RowStop> {
        if self.came.is_some() {
            self.expect_judged()?;
        }
        let came = call(rt, self.alloc, &self.around, line)?;
        if let Some(last) = mem::replace(&mut self.came, Some(came)) {
            self.before = last.printed;
        }
        self.judged = false;
        Ok(())
    }

    // Gives the next calls a file as the last one left it.
    fn keep(&mut self, name: &str) -> Result<(), RowStop> {
        let came = self.came.as_ref().ok_or(RowStop::Unknown)?;
        let bytes = came.shelf.file(name).ok_or(RowStop::Unknown)?;
        let bytes = bytes.to_vec(self.alloc)?;
        self.around.put_file(name, bytes)
    }

    fn want_numbers(&mut self, step: &Step) -> Result<(), RowStop> {
        let came = self.came.as_ref().ok_or(RowStop::Unknown)?;
        let Step { word, rest, .. } = step;
        let numbers = numbers_of(self.alloc, came, word)?;
        if *word == "status" {
            self.judged = true;
        }
        if numbers.as_str() != *rest {
            write!(self.told, "  {word}: wanted {rest}, came {numbers}\n")?;
        }
        Ok(())
    }

    fn want_bytes(&mut self, step: &Step) -> Result<(), RowStop> {
        let came = self.came.as_ref().ok_or(RowStop::Unknown)?;
        if how_of(step) == "again" {
            return put_difference(&mut self.told, self.alloc, step, came, &self.before);
        }
        let wanted = bytes_of(self.alloc, &step.lines)?;
        put_difference(&mut self.told, self.alloc, step, came, &wanted)
    }
}
