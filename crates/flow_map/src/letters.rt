//! What gives letters one case.

ghost use Rattle.std.specs.Prelude.{◌≡◌, IfOk};
ghost use Rattle.flow_map.specs.Letters.{lettered};

use crate::mapper::{Made, Maps, Told};
use flow_packet::Kind;
use std::alloc::{AllocError, Global};
use std::marker::Model;

/// The case that letters are given.
#[derive(Clone, Copy, Debug, PartialEq, Eq)]
pub enum LetterCase {
    Lower,
    Upper,
}

/// Gives the letters of ASCII in each Normal packet one case. A packet whose letters have it is passed on itself.
#[derive(Drop)]
pub struct Letters {
    alloc: Global,
    case: LetterCase,
}

impl Model for Letters {
    ghost use Rattle.flow_map.specs.declared.letters.LetterCase.{LetterCase};

    ghost Value = { LetterCase };

    ghost view = { λ l. l.case };
}

impl Letters {
    /// What gives letters this case.
    pub fn new(alloc: Global, case: LetterCase) -> Letters
        ensures { result ≡ case }
    {
        Letters { alloc, case }
    }

    fn lettered(&self, text: &[u8]) -> Result<Vec<u8>, AllocError>
        ensures { IfOk result (λ new. new.items ≡ lettered self.now text.now) }
    {
        match self.case {
            LetterCase::Lower => text.to_ascii_lowercase(self.alloc),
            LetterCase::Upper => text.to_ascii_uppercase(self.alloc),
        }
    }
}

impl Maps for Letters {
    ghost use Rattle.flow_map.specs.Letters.{letters_mapping, new_letters};
    ghost use Rattle.flow_map.specs.Plain.{once_becoming};
    ghost use Rattle.flow_map.specs.PlainLaws.{once_laws, once_becomes};

    ghost mapping = { letters_mapping };

    ghost becoming = { once_becoming new_letters };

    fn second(&self) -> Option<bool> {
        None
    }

    fn next(&mut self, text: &[u8], _place: usize) -> Result<Told, AllocError> {
        let new = self.lettered(text)?;
        if new.as_slice() == text {
            return Ok(Told::Itself);
        }
        Ok(Told::Last(Made::Text(new)))
    }

    fn pass(&mut self, _kind: Kind, _text: &[u8]) {}

    ghost laws = { once_laws new_letters };

    ghost becomes = { once_becomes new_letters };
}
