//! The component that sends the lines of a file that is given to it piece by piece.

ghost use Rattle.std.specs.Prelude.{◌≡◌, ◌<◌, ◌≤◌, ◌+◌, ◌++◌, [], length, drop, not, false, OnOk, OnErr};
ghost use Rattle.flow_text.specs.Lines.{line_length};
ghost use Rattle.flow_component.specs.Resumes.{Resumes};
ghost use Rattle.flow_pieces.specs.ReadPieces.{is_sure, reads_piece, given, ended};

use crate::{KEPT_LIMIT, PIECE};
use flow_component::{Answer, Component, Fail, Port, Shape, Stop, Wish};
use flow_limits::TEXT_LIMIT;
use flow_packet::{Hands, HandsStop, Kind};
use flow_text::{History, next_line};
use std::alloc::{AllocError, Global};
use std::marker::Model;

// So many bytes of one line are let go at most, or a few more, which keeps their count within 64 bits.
const CUT_LIMIT: u64 = 9_223_372_036_854_775_808;

/// Makes a Normal packet of each line of its file, and sends it. The file is given to it piece by piece: where it hasn't
/// its next line whole and more may come, it wants a piece, and tells so as want of memory. Then it and the hands are as
/// they were, and the same resume may be made again.
///
/// In clauses it is the bytes that it was given. It has no more than KEPT_LIMIT of them: a line that is too long for a
/// packet, and so comes to a failure, isn't kept, but its bytes are counted and let go.
#[derive(Drop)]
pub struct ReadPieces {
    bytes: Vec<u8>,
    // So many bytes are those of lines that were made, and behind them there is no line feed before this place.
    taken: usize,
    looked: usize,
    // The front of the next line, which it let go, and how long that is.
    cut: History,
    cut_count: u64,
    ended: bool,
    gone: History,
}

impl Model for ReadPieces {
    ghost use Rattle.std.specs.Prelude.{◌++◌, drop, false};
    ghost use Rattle.flow_pieces.specs.ReadPieces.{Pieces};
    ghost use Rattle.flow_pieces.specs.Kept.{IsLooked, IsCut};

    ghost Value = { Pieces };

    ghost view = { λ r. record { gone = r.gone.bytes; left = r.cut.bytes ++ drop r.taken r.bytes.items; ended = r.ended; guessed = false } };

    ghost invariant = { λ r. IsLooked r.bytes.items r.taken r.looked × IsCut r.cut.bytes r.cut_count r.taken r.looked };
}

// The place of the next line feed, or the end.
fn line_end(bytes: &[u8], from: usize) -> usize
    requires { from ≤ length bytes.now }
    ensures most { result ≤ length bytes.now }
    ensures run { result ≡ from + line_length (drop from bytes.now) }
{
    let mut at = from;
    while at < bytes.len() && bytes[at] != b'\n' {
        at += 1;
    }
    at
}

// Lets go of the first bytes.
fn drop_front(bytes: &mut Vec<u8>, front: usize)
    requires { front ≤ length bytes.old.items }
    ensures { bytes.new.items ≡ drop front bytes.old.items }
{
    let count = bytes.len();
    bytes.copy_within(front..count, 0);
    bytes.truncate(count - front);
}

impl ReadPieces {
    /// The component before its first piece. Takes no memory.
    pub fn new(alloc: Global) -> ReadPieces
        ensures { result ≡ record { gone = []; left = []; ended = false; guessed = false } }
    {
        ReadPieces {
            bytes: Vec::new(alloc),
            taken: 0,
            looked: 0,
            cut: History::none(),
            cut_count: 0,
            ended: false,
            gone: History::none(),
        }
    }

    /// It hasn't its next line whole, and more may come.
    pub fn wants(&self) -> bool
        ensures { result ≡ not (is_sure self.now) }
    {
        !self.ended && line_end(&self.bytes, self.looked) == self.bytes.len()
    }

    /// How many bytes it has in memory.
    pub fn kept(&self) -> usize
        ensures { result ≤ KEPT_LIMIT }
    {
        self.bytes.len()
    }

    /// Gives it a piece more, which is behind all others. Without memory, or where 2^63 bytes of one line were let go,
    /// it is as it was.
    pub fn give(&mut self, piece: &[u8]) -> Result<(), AllocError>
        requires wants { is_sure self.old ≡ false }
        requires few { length piece.now ≤ PIECE }
        ensures ok { OnOk result (self.new ≡ given self.old piece.now) }
        ensures err { OnErr result (self.new ≡ self.old) }
    {
        let count = self.bytes.len();
        let mut front = self.taken;
        if count - front > TEXT_LIMIT + 1 {
            if self.cut_count > CUT_LIMIT {
                return Err(AllocError);
            }
            // The last byte stays: whether it is part of the line's text is known by the byte behind it.
            self.cut = self.cut.and(&self.bytes[front..count - 1]);
            self.cut_count += (count - 1 - front) as u64;
            front = count - 1;
        }
        drop_front(&mut self.bytes, front);
        self.taken = 0;
        self.looked = self.bytes.len();
        self.bytes.extend_from_slice(piece)
    }

    /// No piece will come any more.
    pub fn end_file(&mut self)
        ensures { self.new ≡ ended self.old }
    {
        self.ended = true;
    }

    // Gives the memory of a file without further lines back, before the run is over.
    fn give_back(&mut self)
        requires { self.old.left ≡ [] }
        ensures { self.new ≡ self.old }
    {
        self.bytes = Vec::new(*self.bytes.allocator());
        self.taken = 0;
        self.looked = 0;
        self.cut = History::none();
        self.cut_count = 0;
    }

    fn read(&mut self, hands: &mut Hands) -> Result<Wish, Stop>
        requires empty { hands.old.packets ≡ [] }
        requires room { hands.old.made < 4294967295 }
        ensures { Resumes (λ pieces held _ outcome. outcome ≡ reads_piece held pieces (is_sure pieces)) self.old hands.old Answer.Sent result self.new hands.new }
    {
        let stop = line_end(&self.bytes, self.looked);
        self.looked = stop;
        let count = self.bytes.len();
        if stop == count && !self.ended {
            return Err(Stop::NoMemory);
        }
        let Some((end, _)) = next_line(&self.bytes, self.taken) else {
            self.give_back();
            return Ok(Wish::Deactivate);
        };
        if self.cut_count > 0 {
            let length = self.cut_count + (end - self.taken) as u64;
            return Err(Stop::Fail(Fail::TextLimit(length)));
        }
        let next = if stop < count { stop + 1 } else { stop };
        match hands.make(Kind::Normal, &self.bytes[self.taken..end]) {
            Ok(line) => {
                self.gone = self.gone.and(&self.bytes[self.taken..next]);
                self.taken = next;
                self.looked = next;
                Ok(Wish::Send(Port(0), line))
            }
            Err(HandsStop::TextLimit(length)) => Err(Stop::Fail(Fail::TextLimit(length))),
            Err(HandsStop::HandsLimit) => unreachable!(),
            Err(HandsStop::NoMemory) => Err(Stop::NoMemory),
        }
    }
}

impl Component for ReadPieces {
    ghost use Rattle.flow_pieces.specs.ReadPieces.{read_pieces_rules};
    ghost use Rattle.flow_pieces.specs.ReadPiecesLaws.{read_pieces_lawful};

    ghost rules = { read_pieces_rules };

    ghost lawful = { read_pieces_lawful };

    fn shape(&self) -> Shape {
        Shape {
            inputs: 0,
            outputs: 1,
        }
    }

    #[inline(never)]
    fn resume(&mut self, hands: &mut Hands, answer: Answer) -> Result<Wish, Stop> {
        match answer {
            Answer::Start => self.read(hands),
            Answer::Sent => self.read(hands),
            Answer::Got(_) => unreachable!(),
            Answer::End => unreachable!(),
            Answer::Level(_) => unreachable!(),
        }
    }

    fn end(&mut self) {}
}
