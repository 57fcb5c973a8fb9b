//! What a call does. A network file is read and filled first, and the drawing is made on a shelf on which it is its filled text.
ghost use Rattle.std.specs.Prelude.{◌≤◌, length};
ghost use Rattle.flow_offer.specs.Kinds.{AreOwnKinds};

use crate::explain::{Net, explain, explain_used, explain_words};
use crate::words::split;
use flow_called::{Joined, NetStop, Origin, UsedStop, text_of};
use flow_draw::{DrawStatus, asks_help, command, draw_top, print_help};
use flow_files::{FileShelf, StdSink};
use flow_fill::is_third;
use flow_given::FilledShelf;
use flow_limits::FILE_LIMIT;
use flow_load::{Status, Stop, read_file, read_stop};
use flow_plan::KindSpec;
use std::alloc::{AllocError, Global};
use std::fs::{File, Files};
use std::io;

/// A call of the program: what it stands on, where it prints, and the kinds of the caller's own.
#[derive(Drop)]
pub struct Call<'a, R: Files<File = File> + Eprint + Drop, P: Print + Drop> {
    pub alloc: Global,
    pub rt: &'a R,
    pub out: StdSink<P>,
    pub own: &'a [KindSpec],
    pub ghost are_own: { AreOwnKinds own.now },
}

impl<'a, R: Files<File = File> + Eprint + Drop, P: Print + Drop> Call<'a, R, P> {
    /// Does what the words ask for.
    pub fn make(&mut self, words: &[String]) -> Status {
        match asks_help(self.alloc, words) {
            Ok(true) => {
                let printed = print_help(&mut self.out);
                self.end(words, &printed, None, Net::Plain)
            }
            Ok(false) => self.draw(words),
            Err(AllocError) => self.stop(words, Stop::NoMemory, None, Net::Plain),
        }
    }

    // Draws what the words ask for.
    fn draw(&mut self, words: &[String]) -> Status {
        match split(self.alloc, words) {
            Ok(Some(count)) => self.draw_file(words, count),
            Ok(None) => self.draw_words(words),
            Err(AllocError) => self.stop(words, Stop::NoMemory, None, Net::Plain),
        }
    }

    // Makes a call that is about no network file.
    fn draw_words(&mut self, words: &[String]) -> Status {
        let mut shelf = FileShelf::new(self.alloc, self.rt);
        let drawn = draw_top(self.alloc, words, &mut shelf, &mut self.out, self.own);
        self.end(words, &drawn, shelf.reason(), Net::Plain)
    }

    // Draws the network file that the first of these words name, so many of them. One of version 3 is filled with what the others give. For one of version 1 or 2
    // there are no texts: all words are the call's then.
    fn draw_file(&mut self, words: &[String], count: usize) -> Status
        requires { count ≤ length words.now }
    {
        let asking = &words[..count];
        let Ok(Some(name)) = net_name(self.alloc, asking) else {
            return self.stop(asking, Stop::NoMemory, None, Net::Plain);
        };
        let mut shelf = FileShelf::new(self.alloc, self.rt);
        let net = match read_file(self.alloc, &mut shelf, name.as_str(), FILE_LIMIT) {
            Ok(net) => net,
            Err(stop) => {
                let stop = read_stop(self.alloc, stop, name.as_str());
                return self.stop(asking, stop, shelf.reason(), Net::Plain);
            }
        };
        if is_third(&net) {
            return self.draw_third(asking, &words[count..], shelf, name, &net);
        }
        let shelf = FilledShelf::new(self.alloc, shelf, name, net);
        self.draw_shelf(words, shelf, None)
    }

    // Draws a network file of version 3 with these texts.
    fn draw_third(
        &mut self,
        words: &[String],
        texts: &[String],
        mut shelf: FileShelf<&'a R>,
        name: String,
        net: &[u8],
    ) -> Status {
        match text_of(self.alloc, &mut shelf, name.as_str(), net, texts) {
            Ok(Joined { text, origins }) => {
                let shelf = FilledShelf::new(self.alloc, shelf, name, text);
                self.draw_shelf(words, shelf, Some(&origins))
            }
            Err(NetStop::Words(refusal)) => {
                explain_words(self.alloc, self.rt, &refusal);
                Status::Words
            }
            Err(NetStop::Used(UsedStop::Stop(stop))) => {
                self.stop(words, stop, shelf.reason(), Net::Unfilled)
            }
            Err(NetStop::Used(UsedStop::Refused { line, told })) => {
                explain_used(self.alloc, self.rt, &line, told.as_ref(), self.own);
                Status::Refused
            }
        }
    }

    // Makes the call on this shelf. Of a network file of version 3 the text has lines of these files that it uses.
    fn draw_shelf(
        &mut self,
        words: &[String],
        mut shelf: FilledShelf<FileShelf<&'a R>>,
        origins: Option<&[Origin]>,
    ) -> Status {
        let drawn = draw_top(self.alloc, words, &mut shelf, &mut self.out, self.own);
        let shelf = &shelf;
        let net = match origins {
            Some(origins) => Net::Filled {
                text: shelf.text(),
                origins,
            },
            None => Net::Plain,
        };
        self.end(words, &drawn, shelf.below().reason(), net)
    }

    // Ends a call of which nothing is printed.
    fn stop(
        &self,
        words: &[String],
        stop: Stop,
        reason: Option<io::Error>,
        net: Net<'_, '_>,
    ) -> Status {
        self.end(words, &DrawStatus::Stopped(stop), reason, net)
    }

    // Ends a call, and explains how it does: with what the system answered where something couldn't be printed, or else to this reader.
    fn end(
        &self,
        words: &[String],
        drawn: &DrawStatus,
        reading: Option<io::Error>,
        net: Net<'_, '_>,
    ) -> Status {
        let reason = self.out.reason().or(reading);
        explain(self.alloc, self.rt, words, drawn, reason, net, self.own);
        drawn.status()
    }
}

// The network file that these words ask to have drawn.
fn net_name(alloc: Global, words: &[String]) -> Result<Option<String>, AllocError> {
    match command(alloc, words)? {
        Some(asked) => Ok(Some(String::from_str(alloc, asked.net)?)),
        None => Ok(None),
    }
}
