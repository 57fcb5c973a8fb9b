//! The component that sends the words of each packet.

ghost use Rattle.std.specs.Prelude.{◌≡◌, ◌+◌, ◌<◌, ◌≤◌, length, drop, IfNone, IfSome};
ghost use Rattle.flow_packet.specs.Hands.{text_at};
ghost use Rattle.flow_packet.specs.Held.{held_of};
ghost use Rattle.flow_component.specs.Resumes.{Resumes};
ghost use Rattle.flow_component.specs.Alone.{HoldsOnly};
ghost use Rattle.flow_parts.specs.Words.{sends_next};
ghost use Rattle.flow_parts.specs.Text.{is_blank, run_length, blank_length, word_start, word_end};

use flow_component::{Answer, Component, Port, Shape, Stop, Wish};
use flow_packet::{Hands, Kind, PacketId};

/// Replaces each Normal packet by its words, and passes brackets on. A word is a longest run of bytes
/// other than spaces and tabs.
#[derive(Clone, Copy, Debug, PartialEq, Eq)]
pub enum Words {
    Waiting,
    /// The words of this packet that end in the bytes taken were sent.
    Splitting { packet: PacketId, taken: usize },
}

fn is_blank(byte: u8) -> bool
    ensures { result ≡ is_blank byte }
{
    byte == b' ' || byte == b'\t'
}

// Behind the blanks.
fn skip_blanks(text: &[u8], from: usize) -> usize
    requires { from ≤ length text.now }
    ensures most { result ≤ length text.now }
    ensures run { result ≡ from + blank_length (drop from text.now) }
{
    let mut at = from;
    while at < text.len() && is_blank(text[at]) {
        at += 1;
    }
    at
}

// Behind the word.
fn skip_word(text: &[u8], from: usize) -> usize
    requires { from ≤ length text.now }
    ensures most { result ≤ length text.now }
    ensures run { result ≡ from + run_length (drop from text.now) }
{
    let mut at = from;
    while at < text.len() && !is_blank(text[at]) {
        at += 1;
    }
    at
}

// The next word: where it begins and ends.
fn next_word(text: &[u8], from: usize) -> Option<(usize, usize)>
    requires { from ≤ length text.now }
    ensures none { IfNone result (length text.now ≤ word_start text.now from) }
    ensures some { IfSome result (λ place. word_start text.now from < length text.now) }
    ensures start { IfSome result (λ place. place.0 ≡ word_start text.now from) }
    ensures end { IfSome result (λ place. place.1 ≡ word_end text.now from) }
    ensures order { IfSome result (λ place. place.0 ≤ place.1) }
    ensures within { IfSome result (λ place. place.1 ≤ length text.now) }
{
    let start = skip_blanks(text, from);
    if start == text.len() {
        return None;
    }
    let end = skip_word(text, start);
    Some((start, end))
}

impl Words {
    ghost use Rattle.flow_parts.specs.Words.{goes_on, IsReadyOn};

    /// The component before its first packet.
    pub fn new() -> Words
        ensures { result ≡ Words.Waiting }
    {
        Words::Waiting
    }

    // Sends the next word of the packet, or drops the packet.
    fn send_next(&mut self, hands: &mut Hands, packet: PacketId, taken: usize) -> Result<Wish, Stop>
        requires alone { HoldsOnly (held_of hands.old) packet }
        requires taken { taken ≤ length (text_at hands.old.packets packet) }
        requires room { hands.old.made < 4294967295 }
        ensures { Resumes (λ _ held _ outcome. outcome ≡ sends_next held packet taken) self.old hands.old Answer.Sent result self.new hands.new }
    {
        let Some((start, end)) = next_word(hands.text(packet), taken) else {
            hands.drop_packet(packet);
            *self = Words::Waiting;
            return Ok(Wish::Receive(Port(0)));
        };
        let Ok(word) = hands.make_piece(Kind::Normal, packet, start, end) else {
            return Err(Stop::NoMemory);
        };
        *self = Words::Splitting { packet, taken: end };
        Ok(Wish::Send(Port(0), word))
    }

    // A packet was sent.
    fn go_on(&mut self, hands: &mut Hands) -> Result<Wish, Stop>
        requires ready { IsReadyOn (held_of hands.old) self.old }
        requires room { hands.old.made < 4294967295 }
        ensures { Resumes (λ component held _ outcome. outcome ≡ goes_on held component) self.old hands.old Answer.Sent result self.new hands.new }
    {
        let place = *self;
        match place {
            Words::Waiting => Ok(Wish::Receive(Port(0))),
            Words::Splitting { packet, taken } => self.send_next(hands, packet, taken),
        }
    }
}

impl Component for Words {
    ghost use Rattle.flow_parts.specs.Words.{words_rules};
    ghost use Rattle.flow_parts.specs.WordsLaws.{words_lawful};

    ghost rules = { words_rules };

    ghost lawful = { words_lawful };

    fn shape(&self) -> Shape {
        Shape {
            inputs: 1,
            outputs: 1,
        }
    }

    #[inline(never)]
    fn resume(&mut self, hands: &mut Hands, answer: Answer) -> Result<Wish, Stop> {
        match answer {
            Answer::Start => Ok(Wish::Receive(Port(0))),
            Answer::Got(packet) => match hands.kind(packet) {
                Kind::Normal => self.send_next(hands, packet, 0),
                Kind::Open => Ok(Wish::Send(Port(0), packet)),
                Kind::Close => Ok(Wish::Send(Port(0), packet)),
            },
            Answer::End => Ok(Wish::Deactivate),
            Answer::Sent => self.go_on(hands),
            Answer::Level(_) => unreachable!(),
        }
    }

    fn end(&mut self) {}
}
