//! The texts that a line part puts, and why it stops.

ghost use Rattle.std.specs.Prelude.{◌≡◌, ◌==◌, ◌≢◌, ◌++◌, ◌∷◌, [], ◌<◌, ◌≤◌, ◌↔◌, length, drop, is_some, OnOk, OnErr, Err};
ghost use Rattle.std.specs.Option.{option_copied};
ghost use Rattle.flow_line.specs.Queue.{first_of};
ghost use Rattle.flow_line.specs.Steps.{stopped};
ghost use Rattle.flow_line.specs.declared.texts.LineStop.TheVariants.{NoMemory};

use flow_items::Text;
use flow_limits::TEXT_LIMIT;
use flow_own::PartStop;
use std::alloc::{AllocError, AllocFailed, Global};
use std::collections::VecDeque;
use std::marker::Model;

/// The most texts that wait at once.
pub const TEXTS_LIMIT: usize = 1_048_576;

/// The number with which a process fails whose line part puts a text of more than TEXT_LIMIT bytes.
pub const TEXT_FAULT: u32 = 4_294_967_295;

/// The number with which a process fails whose line part puts more than TEXTS_LIMIT texts at once.
pub const TEXTS_FAULT: u32 = 4_294_967_294;

/// The number with which a process fails that is told of a packet which it doesn't hold. No network does so.
pub const DESK_FAULT: u32 = 4_294_967_293;

/// Why a line part stops.
#[derive(Clone, Copy, Debug, PartialEq, Eq)]
pub enum LineStop {
    /// Its process fails, with a number of its own: one below DESK_FAULT, which tells it from the library's.
    Fail(u32),
    /// What it put for this text is forgotten, and it is to be as it was before: it may be told the same text again.
    NoMemory,
}

impl From<AllocError> for LineStop {
    ghost from_gives = { λ _ e. e ≡ NoMemory };

    fn from(_: AllocError) -> LineStop {
        LineStop::NoMemory
    }
}

impl<T: Drop> From<AllocFailed<T>> for LineStop {
    ghost from_gives = { λ _ e. e ≡ NoMemory };

    fn from(_: AllocFailed<T>) -> LineStop {
        LineStop::NoMemory
    }
}

/// Texts in order. Contracts see the list.
#[derive(Debug, Drop)]
pub struct Texts {
    alloc: Global,
    texts: VecDeque<Text>,
}

impl Model for Texts {
    ghost use Rattle.std.specs.Prelude.{List, ℕ};

    ghost Value = { List (List ℕ) };

    ghost view = { λ t. t.texts.items };
}

impl Texts {
    /// No texts. Takes no memory.
    pub fn new(alloc: Global) -> Texts
        ensures { result ≡ [] }
    {
        Texts {
            alloc,
            texts: VecDeque::new(alloc),
        }
    }

    /// What memory is taken from, for whoever makes a text.
    pub fn alloc(&self) -> Global {
        self.alloc
    }

    /// How many texts there are.
    pub fn len(&self) -> usize
        ensures { result ≡ length self.now }
    {
        self.texts.len()
    }

    /// There are none.
    pub fn is_empty(&self) -> bool
        ensures { result ≡ (length self.now == 0) }
    {
        self.texts.is_empty()
    }

    /// Puts a text behind the others. A text that is too long, or one too many, is a failure, with the number TEXT_FAULT or TEXTS_FAULT.
    pub fn put(&mut self, text: &[u8]) -> Result<(), LineStop>
        ensures ok { OnOk result (self.new ≡ self.old ++ text.now ∷ []) }
        ensures err { OnErr result (self.new ≡ self.old) }
        ensures long { (result ≡ Err (LineStop.Fail TEXT_FAULT)) ↔ (TEXT_LIMIT < length text.now) }
        ensures many { (result ≡ Err (LineStop.Fail TEXTS_FAULT)) ↔ ((length text.now ≤ TEXT_LIMIT) × (TEXTS_LIMIT ≤ length self.old)) }
    {
        if text.len() > TEXT_LIMIT {
            return Err(LineStop::Fail(TEXT_FAULT));
        }
        if self.texts.len() >= TEXTS_LIMIT {
            return Err(LineStop::Fail(TEXTS_FAULT));
        }
        let text = Text::from_slice(self.alloc, text)?;
        self.texts.push_back(text)?;
        Ok(())
    }

    /// The first text, if there is one.
    pub fn first(&self) -> Option<&[u8]>
        ensures { option_copied result ≡ first_of self.now }
    {
        let text = self.texts.front()?;
        Some(text.as_slice())
    }

    /// Takes the first text out, if there is one.
    pub fn pass(&mut self)
        ensures { self.new ≡ drop 1 self.old }
    {
        let _ = self.texts.pop_front();
    }

    /// Takes all texts out.
    pub fn clear(&mut self)
        ensures { self.new ≡ [] }
    {
        self.texts.clear();
    }
}

/// What a part answers whose line part stopped.
pub(crate) fn stopped(stop: LineStop) -> PartStop
    ensures { result ≡ stopped stop }
{
    match stop {
        LineStop::Fail(number) => PartStop::Fail(number),
        LineStop::NoMemory => PartStop::NoMemory,
    }
}
