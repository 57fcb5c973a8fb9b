//! A line part with the texts that wait to be sent.

ghost use Rattle.std.specs.Prelude.{◌≡◌, ◌+◌, ◌≤◌, ◌++◌, ◌∷◌, [], None, Some, Ok, IfErr, IfOk};
ghost use Rattle.std.specs.Option.{option_map};
ghost use Rattle.flow_packet.specs.Tree.{text_of};
ghost use Rattle.flow_packet.specs.Hands.{packet_at};
ghost use Rattle.flow_own.specs.Desks.{GoesOn, KeepsMake, count_acts, makes};
ghost use Rattle.flow_line.specs.Steps.{Hears, HearsAndSends, IsRefusal, Stays, Steps, Stops, Takes, TakesNone};
ghost use Rattle.flow_line.specs.Queue.{Sends, dropping};

use crate::part::LinePart;
use crate::texts::{DESK_FAULT, LineStop, TEXT_FAULT, Texts, stopped};
use flow_component::{Answer, Port, Wish};
use flow_own::{Desk, DeskStop, PartStop};
use flow_packet::{Kind, PacketId};

/// A line part, the texts that it put and that wait to be sent, whether it has heard what came last, which isn't answered yet, and whether it was told the end.
#[derive(Drop)]
pub struct Queue<L: LinePart> {
    pub(crate) part: L,
    pub(crate) waiting: Texts,
    pub(crate) heard: bool,
    pub(crate) ended: bool,
}

// What a part answers where the desk doesn't take an act.
fn refused(stop: DeskStop) -> PartStop
    ensures { IsRefusal result }
{
    match stop {
        DeskStop::NoMemory => PartStop::NoMemory,
        DeskStop::TextLimit(_) => PartStop::Fail(TEXT_FAULT),
        _ => PartStop::Fail(DESK_FAULT),
    }
}

impl<L: LinePart> Queue<L> {
    // Has the line part work on a text, unless it has done so.
    fn hear_line(&mut self, text: &[u8]) -> Result<(), LineStop>
        ensures { Hears L.works (Some text.now) result self.old self.new }
    {
        if self.heard {
            return Ok(());
        }
        self.waiting.clear();
        match self.part.line(text, &mut self.waiting) {
            Ok(()) => {
                self.heard = true;
                Ok(())
            }
            Err(stop) => {
                self.waiting.clear();
                Err(stop)
            }
        }
    }

    // Has the line part work on the end, unless it has done so.
    fn hear_end(&mut self) -> Result<(), LineStop>
        ensures { Hears L.works None result self.old self.new }
    {
        if self.heard {
            return Ok(());
        }
        self.waiting.clear();
        match self.part.end(&mut self.waiting) {
            Ok(()) => {
                self.heard = true;
                self.ended = true;
                Ok(())
            }
            Err(stop) => {
                self.waiting.clear();
                Err(stop)
            }
        }
    }

    // Wishes to send the first text that waits, as a packet that is made of it. The second number says how many acts the desk took.
    fn send(&mut self, desk: &mut Desk<'_>) -> (Result<Wish, PartStop>, u64)
        ensures held { desk.new.held ≡ desk.old.held }
        ensures dropped { desk.new.dropped ≡ desk.old.dropped }
        ensures kept { KeepsMake desk.old.made desk.new.made }
        ensures acts { makes desk.new.made ≡ makes desk.old.made + result.1 }
        ensures one { result.1 ≤ 1 }
        ensures sends { IfOk result.0 (λ wish. Sends self.old self.new wish desk.old desk.new) }
        ensures stays { IfErr result.0 (λ stop. Stays self.old self.new stop) }
    {
        let Some(text) = self.waiting.first() else {
            self.heard = false;
            let wish = if self.ended {
                Wish::Deactivate
            } else {
                Wish::Receive(Port(0))
            };
            return (Ok(wish), 0);
        };
        match desk.make(Kind::Normal, text) {
            Ok(made) => {
                self.waiting.pass();
                self.heard = false;
                (Ok(Wish::Send(Port(0), made)), 1)
            }
            Err(stop) => (Err(refused(stop)), 0),
        }
    }

    // Has the line part hear the text of a packet that is in the hands, drops that, and sends the first text.
    fn take_line(&mut self, desk: &mut Desk<'_>, id: PacketId) -> (Result<Wish, PartStop>, u64)
        ensures goes_on { GoesOn desk.old desk.new }
        ensures acts { count_acts desk.new.made desk.new.dropped ≡ count_acts desk.old.made desk.old.dropped + result.1 }
        ensures takes { IfOk result.0 (λ wish. HearsAndSends L.works (option_map text_of (packet_at desk.old.held.packets id)) self.old self.new wish (dropping desk.old id) desk.new) }
        ensures stops { IfErr result.0 (λ stop. Stops L.works (option_map text_of (packet_at desk.old.held.packets id)) self.old self.new stop) }
    {
        let Some(text) = desk.text(id) else {
            return (Err(PartStop::Fail(DESK_FAULT)), 0);
        };
        if let Err(stop) = self.hear_line(text) {
            return (Err(stopped(stop)), 0);
        }
        if let Err(stop) = desk.drop_packet(id) {
            return (Err(refused(stop)), 0);
        }
        let (said, acts) = self.send(desk);
        (said, acts + 1)
    }

    // Passes a bracket on.
    fn pass(&self, id: PacketId) -> (Result<Wish, PartStop>, u64)
        ensures said { result.0 ≡ Ok (Wish.Send (record { 0 = 0 }) id) }
        ensures acts { result.1 ≡ 0 }
    {
        (Ok(Wish::Send(Port(0), id)), 0)
    }

    // What comes of a packet that is in the hands.
    fn take(&mut self, desk: &mut Desk<'_>, id: PacketId) -> (Result<Wish, PartStop>, u64)
        ensures goes_on { GoesOn desk.old desk.new }
        ensures acts { count_acts desk.new.made desk.new.dropped ≡ count_acts desk.old.made desk.old.dropped + result.1 }
        ensures takes { IfOk result.0 (λ wish. Takes L.works (packet_at desk.old.held.packets id) id self.old self.new wish desk.old desk.new) }
        ensures stops { IfErr result.0 (λ stop. TakesNone L.works (packet_at desk.old.held.packets id) self.old self.new stop) }
    {
        match desk.kind(id) {
            Some(Kind::Normal) => return self.take_line(desk, id),
            Some(Kind::Open) => return self.pass(id),
            Some(Kind::Close) => return self.pass(id),
            None => return (Err(PartStop::Fail(DESK_FAULT)), 0),
        }
    }

    // Has the line part hear the end, and sends the first text.
    fn finish(&mut self, desk: &mut Desk<'_>) -> (Result<Wish, PartStop>, u64)
        ensures goes_on { GoesOn desk.old desk.new }
        ensures acts { count_acts desk.new.made desk.new.dropped ≡ count_acts desk.old.made desk.old.dropped + result.1 }
        ensures finishes { IfOk result.0 (λ wish. HearsAndSends L.works None self.old self.new wish desk.old desk.new) }
        ensures stops { IfErr result.0 (λ stop. Stops L.works None self.old self.new stop) }
    {
        if let Err(stop) = self.hear_end() {
            return (Err(stopped(stop)), 0);
        }
        self.send(desk)
    }

    /// Works up to the next wish. The second number says how many acts the desk took.
    pub(crate) fn step(
        &mut self,
        desk: &mut Desk<'_>,
        answer: Answer,
    ) -> (Result<Wish, PartStop>, u64)
        ensures goes_on { GoesOn desk.old desk.new }
        ensures acts { count_acts desk.new.made desk.new.dropped ≡ count_acts desk.old.made desk.old.dropped + result.1 }
        ensures steps { Steps L.works answer result.0 self.old self.new desk.old desk.new }
    {
        match answer {
            Answer::Start => {
                self.ended = false;
                return self.send(desk);
            }
            Answer::Got(id) => return self.take(desk, id),
            Answer::End => return self.finish(desk),
            Answer::Sent => return self.send(desk),
            Answer::Level(_) => return self.send(desk),
        }
    }
}
