//! A shelf on which the network file is filled.
ghost use Rattle.std.specs.Prelude.{◌≡◌, ◌≤◌, ◌<◌, ◌+◌, [], ◌++◌, true, false, IfOk, Ok, drop, length, string_bytes, take};
ghost use Rattle.std.specs.Str.{bytes_eq};
ghost use Rattle.std.specs.Io.{ReadsAtMost};
ghost use Rattle.flow_text.specs.Edge.{Outside, Reads, Writes};
ghost use Rattle.flow_text.specs.Shelf.{Creates, Finishes, Opens};
ghost use Rattle.flow_given.specs.Filled.{GivesOnce, gives_text, outside_of, over};

use flow_text::{Edge, Fault, Log, Shelf, ShelfStop, Sink, Source, meets_end};
use std::alloc::Global;
use std::marker::Model;

/// A shelf over another one, on which the network file holds its filled text for whoever opens it first. Then it is a file as any other, which is opened
/// below: so an input may have the same name.
#[derive(Drop)]
pub struct FilledShelf<F: Shelf + Drop> {
    below: F,
    name: String,
    text: Vec<u8>,
    given: bool,
    reading: bool,
    at: usize,
    opened: Log,
}

impl<F: Shelf + Drop> Model for FilledShelf<F> {
    ghost use Rattle.std.specs.Prelude.{◌≤◌, length, string_bytes};
    ghost use Rattle.flow_given.specs.Filled.{Filled, over};

    ghost Value = { Filled };

    ghost view = { λ s. over (F.outside s.below) (string_bytes s.name) s.text.items s.given s.reading s.at s.opened };

    ghost invariant = { λ s. s.at ≤ length s.text.items };
}

impl<F: Shelf + Drop> FilledShelf<F> {
    /// The shelf below, but that this name holds this text for whoever opens it first.
    pub fn new(alloc: Global, below: F, name: String, text: Vec<u8>) -> Self
        ensures { result ≡ over (F.outside below) (string_bytes name) text.items false false 0 [] }
    {
        FilledShelf {
            below,
            name,
            text,
            given: false,
            reading: false,
            at: 0,
            opened: Log::new(alloc),
        }
    }

    /// The text that the network file holds here.
    pub fn text(&self) -> &[u8]
        ensures { result.now ≡ self.now.text }
    {
        self.text.as_slice()
    }

    /// The shelf below.
    pub fn below(&self) -> &F {
        &self.below
    }
}

impl<F: Shelf + Drop> Edge for FilledShelf<F> {
    ghost use Rattle.flow_given.specs.Filled.{outside_of};

    ghost outside = { outside_of };
}

// Fills the front of a buffer with the bytes of a text from a place on, as many as there are and fit.
fn give(text: &[u8], at: usize, buf: &mut [u8]) -> usize
    requires { at ≤ length text.now }
    ensures within { at + result ≤ length text.now }
    ensures room { result ≤ length buf.new }
    ensures bytes { drop at text.now ≡ take result buf.new ++ drop (at + result) text.now }
    ensures most { result ≡ 0 → 0 < length buf.new → drop (at + result) text.now ≡ [] }
{
    let n = (text.len() - at).min(buf.len());
    buf[..n].copy_from_slice(&text[at..at + n]);
    n
}

impl<F: Shelf + Drop> FilledShelf<F> {
    // Whether an open of this name gives the text.
    fn gives(&self, name: &str) -> bool
        ensures { result ≡ gives_text self.now name.now }
    {
        name == self.name.as_str() && !self.given
    }

    // The next bytes of the text.
    fn read_text(&mut self, buf: &mut [u8]) -> usize
        requires { self.old.reading ≡ true }
        ensures bound { ReadsAtMost {E = Fault} (Ok result) buf.new }
        ensures reads { Reads {E = Fault} (outside_of self.old) (outside_of self.new) (Ok result) buf.new }
    {
        let n = give(&self.text, self.at, buf);
        self.at += n;
        let ended = meets_end(n, buf);
        self.opened.advance(&buf[..n], ended);
        n
    }
}

impl<F: Shelf + Drop> Source for FilledShelf<F> {
    fn read(&mut self, buf: &mut [u8]) -> Result<usize, Fault> {
        if self.reading {
            return Ok(self.read_text(buf));
        }
        let n = self.below.read(buf)?;
        let ended = meets_end(n, buf);
        self.opened.advance(&buf[..n], ended);
        Ok(n)
    }
}

impl<F: Shelf + Drop> Sink for FilledShelf<F> {
    fn write(&mut self, bytes: &[u8]) -> Result<usize, Fault> {
        self.below.write(bytes)
    }
}

impl<F: Shelf + Drop> Shelf for FilledShelf<F> {
    fn open(&mut self, name: &str) -> Result<(), ShelfStop>
        ensures opens { Opens (outside_of self.old) (outside_of self.new) result name.now }
        // The first open of the name gives the text, and any other opens the file below.
        ensures once { IfOk result (λ _. GivesOnce self.old self.new name.now) }
    {
        self.opened.begin(name)?;
        if self.gives(name) {
            self.given = true;
            self.reading = true;
            self.at = 0;
            return Ok(());
        }
        match self.below.open(name) {
            Ok(()) => {
                self.reading = false;
                Ok(())
            }
            Err(stop) => {
                self.opened.take_back();
                Err(stop)
            }
        }
    }

    fn create(&mut self, name: &str) -> Result<(), ShelfStop> {
        self.below.create(name)
    }

    fn finish(&mut self) -> Result<(), Fault> {
        self.below.finish()
    }
}
