//! A component that folds, made of what a kind says of a stretch.

ghost use Rattle.flow_limits.specs.declared.TheConstants.{TEXT_LIMIT, HANDS_LIMIT};
ghost use Rattle.std.specs.Prelude.{◌≡◌, ◌+◌, ◌<◌, ◌≤◌, ◌^◌, length, IfOk, Ok, slice_get};
ghost use Rattle.flow_packet.specs.Hands.{text_at};
ghost use Rattle.flow_packet.specs.Held.{held_of};
ghost use Rattle.flow_component.specs.Alone.{HoldsOnly};
ghost use Rattle.flow_component.specs.Resumes.{Resumes};
ghost use Rattle.flow_fold.specs.Folding.{Folding, IsFolding, IsBefore, IsReadyOn, beginning, behind, is_told, makes, ends, tells_from, closes_off, text_taken, goes_on};
ghost use Rattle.flow_fold.specs.Made.{Texts, IsFolded};
ghost use Rattle.flow_fold.specs.Telling.{TakesIn, IsText};

use flow_component::{Answer, Component, Fail, Port, Shape, Stop, Wish};
use flow_limits::TEXT_LIMIT;
use flow_packet::{Hands, Kind, PacketId};
use std::alloc::AllocError;
use std::marker::Model;

const IN: Port = Port(0);

const OUT: Port = Port(0);

/// What a kind keeps of a stretch, and what it tells of it. Its meaning is the ghost member `folding`.
pub trait Fold: Drop {
    /// What is kept of the texts of a stretch.
    type State: Drop;

    /// The state at a stretch's start, what a text makes of it, and what is told of it.
    ghost folding: { Folding Self Self.State };

    /// What is told of the texts of a stretch, in all.
    ghost folded: { Self → Texts → Texts };

    /// The state before the first text of a stretch. Takes no memory.
    fn start(&self) -> Self::State
        ensures { result ≡ folding.start self.now };

    /// Adds a text to the state. After an `Err` the state is as before.
    fn take(&self, state: &mut Self::State, text: &[u8]) -> Result<(), Stop>
        requires short { length text.now ≤ TEXT_LIMIT }
        ensures { TakesIn (folding.takes self.now state.old text.now) result state.old state.new };

    /// The text at this place of what is told of the state, if there is one. One that is longer than a packet's text may
    /// be is a failure, with the text limit.
    fn tell(&self, state: &Self::State, place: usize) -> Result<Option<Vec<u8>>, AllocError>
        ensures few { length (folding.tells self.now state.now) < 2 ^ 64 }
        ensures told { IfOk result (λ text. IsText text (slice_get (folding.tells self.now state.now) place)) };

    /// The folding is one.
    ghost laws: { IsFolding folding };

    /// This is told of the texts of a stretch by it.
    ghost tells_folded: { IsFolded folding folded };
}

/// What came of the stretch in hand.
#[derive(Clone, Copy, Debug, PartialEq, Eq)]
pub enum Stretch {
    /// No text; it didn't begin behind an Open packet.
    Bare,
    /// No text; it began behind an Open packet.
    Opened,
    /// A text.
    Filled,
}

/// Whether a component that folds takes packets or tells.
#[derive(Clone, Copy, Debug, PartialEq, Eq)]
pub enum FolderPlace {
    Taking,
    /// It tells of the stretch in hand, from the text at the place `told` on, before it passes on the bracket, or,
    /// where there is none, before its end.
    Telling {
        before: Option<PacketId>,
        told: usize,
    },
}

/// A component that folds, as its kind says: it takes the Normal packets of a stretch, which are dropped, tells of them in
/// Normal packets before the bracket or the end behind the stretch, and passes brackets on, with what hangs on them. Of an
/// empty stretch it tells nothing, but for one between an Open packet and the Close packet right behind it. (Morrison's
/// control breaks; the exact rule is this project's own.)
#[derive(Drop)]
pub struct Folder<F: Fold> {
    kind: F,
    state: F::State,
    stretch: Stretch,
    place: FolderPlace,
}

impl<F: Fold> Model for Folder<F> {
    ghost use Rattle.flow_fold.specs.Folding.{Folded};

    ghost Value = { Folded F F.State };

    ghost view = { λ f. record { kind = f.kind; state = f.state; stretch = f.stretch; place = f.place } };
}

// The stretch behind a bracket, before its first text.
fn behind(kind: Kind) -> Stretch
    ensures { result ≡ behind kind }
{
    match kind {
        Kind::Normal | Kind::Close => Stretch::Bare,
        Kind::Open => Stretch::Opened,
    }
}

// Whether there is anything to be told at the end of a stretch.
fn is_told(stretch: Stretch, closed: bool) -> bool
    ensures { result ≡ is_told stretch closed }
{
    match stretch {
        Stretch::Bare => false,
        Stretch::Opened => closed,
        Stretch::Filled => true,
    }
}

impl<F: Fold> Folder<F> {
    /// The component before its first packet.
    pub fn new(kind: F) -> Folder<F>
        ensures { result ≡ beginning F.folding kind Stretch.Bare }
    {
        let state = kind.start();
        Folder {
            kind,
            state,
            stretch: Stretch::Bare,
            place: FolderPlace::Taking,
        }
    }

    // Begins a stretch.
    fn begin(&mut self, stretch: Stretch)
        ensures { self.new ≡ beginning F.folding self.old.kind stretch }
    {
        self.state = self.kind.start();
        self.stretch = stretch;
        self.place = FolderPlace::Taking;
    }

    // A text comes, and its packet is dropped.
    fn take_text(&mut self, hands: &mut Hands, packet: PacketId) -> Result<Wish, Stop>
        requires alone { HoldsOnly (held_of hands.old) packet }
        ensures { Resumes (λ component held _ outcome. outcome ≡ text_taken component held packet (F.folding.takes component.kind component.state (text_at held.packets packet))) self.old hands.old Answer.Sent result self.new hands.new }
    {
        self.kind.take(&mut self.state, hands.text(packet))?;
        self.stretch = Stretch::Filled;
        hands.drop_packet(packet);
        Ok(Wish::Receive(IN))
    }

    // The stretch is over.
    fn finish(&mut self, hands: &Hands, before: Option<PacketId>) -> Wish
        requires before { IsBefore (held_of hands.now) before }
        ensures { Resumes (λ component held _ outcome. outcome ≡ ends F.folding component held before) self.old hands.now Answer.Sent (Ok result) self.new hands.now }
    {
        match before {
            None => {
                self.begin(Stretch::Bare);
                Wish::Deactivate
            }
            Some(bracket) => {
                self.begin(behind(hands.kind(bracket)));
                Wish::Send(OUT, bracket)
            }
        }
    }

    // Makes a packet of what is told, which is sent.
    fn make(&mut self, hands: &mut Hands, text: Vec<u8>, place: FolderPlace) -> Result<Wish, Stop>
        requires few { length hands.old.packets < HANDS_LIMIT }
        requires room { hands.old.made < 4294967295 }
        ensures { Resumes (λ component held _ outcome. outcome ≡ makes component held text.items place) self.old hands.old Answer.Sent result self.new hands.new }
    {
        if text.len() > TEXT_LIMIT {
            return Err(Stop::Fail(Fail::TextLimit(text.len() as u64)));
        }
        if hands.reserve(1).is_err() {
            return Err(Stop::NoMemory);
        }
        self.place = place;
        Ok(Wish::Send(OUT, hands.make_normal(text)))
    }

    // It tells, from this place on.
    fn tell(
        &mut self,
        hands: &mut Hands,
        before: Option<PacketId>,
        told: usize,
    ) -> Result<Wish, Stop>
        requires before { IsBefore (held_of hands.old) before }
        requires room { hands.old.made < 4294967295 }
        ensures { Resumes (λ component held _ outcome. outcome ≡ tells_from F.folding component held before told) self.old hands.old Answer.Sent result self.new hands.new }
    {
        match self.kind.tell(&self.state, told) {
            Ok(None) => Ok(self.finish(hands, before)),
            Ok(Some(text)) => {
                let place = FolderPlace::Telling {
                    before,
                    told: told + 1,
                };
                self.make(hands, text, place)
            }
            Err(_) => Err(Stop::NoMemory),
        }
    }

    // A bracket comes, or the end.
    fn close_off(
        &mut self,
        hands: &mut Hands,
        before: Option<PacketId>,
        closed: bool,
    ) -> Result<Wish, Stop>
        requires before { IsBefore (held_of hands.old) before }
        requires room { hands.old.made < 4294967295 }
        ensures { Resumes (λ component held _ outcome. outcome ≡ closes_off F.folding component held before closed) self.old hands.old Answer.Sent result self.new hands.new }
    {
        if is_told(self.stretch, closed) {
            self.tell(hands, before, 0)
        } else {
            Ok(self.finish(hands, before))
        }
    }

    // A packet was sent.
    fn go_on(&mut self, hands: &mut Hands) -> Result<Wish, Stop>
        requires ready { IsReadyOn (held_of hands.old) self.old.place }
        requires room { hands.old.made < 4294967295 }
        ensures { Resumes (λ component held _ outcome. outcome ≡ goes_on F.folding component held component.place) self.old hands.old Answer.Sent result self.new hands.new }
    {
        let place = self.place;
        match place {
            FolderPlace::Taking => Ok(Wish::Receive(IN)),
            FolderPlace::Telling { before, told } => self.tell(hands, before, told),
        }
    }
}

impl<F: Fold> Component for Folder<F> {
    ghost use Rattle.flow_fold.specs.Folding.{folder_rules};
    ghost use Rattle.flow_fold.specs.FoldingLaws.{folder_lawful};

    ghost rules = { folder_rules F.folding };

    ghost lawful = { folder_lawful F.folding F.laws };

    fn shape(&self) -> Shape {
        Shape {
            inputs: 1,
            outputs: 1,
        }
    }

    #[inline(never)]
    fn resume(&mut self, hands: &mut Hands, answer: Answer) -> Result<Wish, Stop> {
        match answer {
            Answer::Start => Ok(Wish::Receive(IN)),
            Answer::Got(packet) => match hands.kind(packet) {
                Kind::Normal => self.take_text(hands, packet),
                Kind::Open => self.close_off(hands, Some(packet), false),
                Kind::Close => self.close_off(hands, Some(packet), true),
            },
            Answer::End => self.close_off(hands, None, false),
            Answer::Sent => self.go_on(hands),
            Answer::Level(_) => unreachable!(),
        }
    }

    fn end(&mut self) {}
}
