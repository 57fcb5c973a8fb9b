//! The component that sends the lines of a file.

ghost use Rattle.std.specs.Prelude.{◌≡◌, ◌<◌, []};
ghost use Rattle.std.specs.Str.Lines.{lines};
ghost use Rattle.flow_component.specs.Resumes.{Resumes};

use flow_component::{Answer, Component, Fail, Port, Shape, Stop, Wish};
use flow_packet::{Hands, HandsStop, Kind};
use flow_text::next_line;
use std::marker::Model;

/// Makes a Normal packet of each line of its file, and sends it. In clauses it is the lines that are left.
///
/// Where a line ends is told by `flow_text::next_line`.
#[derive(Drop)]
pub struct ReadLines {
    file: Vec<u8>,
    taken: usize,
}

impl Model for ReadLines {
    ghost use Rattle.std.specs.Prelude.{List, ℕ, ◌≤◌, drop, length};
    ghost use Rattle.std.specs.Str.Lines.{lines};

    ghost Value = { List (List ℕ) };

    ghost view = { λ r. lines (drop r.taken r.file.items) };

    ghost invariant = { λ r. r.taken ≤ length r.file.items };
}

impl ReadLines {
    ghost use Rattle.flow_parts.specs.ReadLines.{reads};

    /// The component on the lines of this file. Takes no memory.
    pub fn new(file: Vec<u8>) -> ReadLines
        ensures { result ≡ lines file.items }
    {
        ReadLines { file, taken: 0 }
    }

    // Gives the memory of a file without further lines back, before the run is over.
    fn give_back(&mut self)
        requires { self.old ≡ [] }
        ensures { self.new ≡ self.old }
    {
        self.file = Vec::new(*self.file.allocator());
        self.taken = 0;
    }

    fn read(&mut self, hands: &mut Hands) -> Result<Wish, Stop>
        requires empty { hands.old.packets ≡ [] }
        requires room { hands.old.made < 4294967295 }
        ensures { Resumes (λ left held _ outcome. outcome ≡ reads held left) self.old hands.old Answer.Sent result self.new hands.new }
    {
        let Some((end, next)) = next_line(&self.file, self.taken) else {
            self.give_back();
            return Ok(Wish::Deactivate);
        };
        match hands.make(Kind::Normal, &self.file[self.taken..end]) {
            Ok(line) => {
                self.taken = next;
                Ok(Wish::Send(Port(0), line))
            }
            Err(HandsStop::TextLimit(length)) => Err(Stop::Fail(Fail::TextLimit(length))),
            Err(HandsStop::HandsLimit) => unreachable!(),
            Err(HandsStop::NoMemory) => Err(Stop::NoMemory),
        }
    }
}

impl Component for ReadLines {
    ghost use Rattle.flow_parts.specs.ReadLines.{read_lines_rules};
    ghost use Rattle.flow_parts.specs.ReadLinesLaws.{read_lines_lawful};

    ghost rules = { read_lines_rules };

    ghost lawful = { read_lines_lawful };

    fn shape(&self) -> Shape {
        Shape {
            inputs: 0,
            outputs: 1,
        }
    }

    #[inline(never)]
    fn resume(&mut self, hands: &mut Hands, answer: Answer) -> Result<Wish, Stop> {
        match answer {
            Answer::Start => self.read(hands),
            Answer::Sent => self.read(hands),
            Answer::Got(_) => unreachable!(),
            Answer::End => unreachable!(),
            Answer::Level(_) => unreachable!(),
        }
    }

    fn end(&mut self) {}
}
