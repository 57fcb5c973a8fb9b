//! The subnets of a file that have ended.
ghost use Rattle.std.specs.Prelude.{◌≡◌, [], ◌∷◌, ◌++◌, OnOk};
ghost use Rattle.std.specs.Str.{bytes_eq};
ghost use Rattle.std.specs.List.{list_any};

use crate::names::Names;
use crate::value::NetPart;
use flow_items::Text;
use std::alloc::{AllocError, Global};
use std::marker::Model;

/// Subnets in their order, and their names.
#[derive(Drop)]
pub struct Subnets {
    rows: Vec<(Text, NetPart)>,
    names: Names,
}

impl Model for Subnets {
    ghost use Rattle.std.specs.Prelude.{◌≡◌, ℕ, List, is_some};
    ghost use Rattle.std.specs.Str.{bytes_eq};
    ghost use Rattle.std.specs.List.{list_any};
    ghost use Rattle.flow_parse.specs.declared.value.NetPart.{NetPart};
    ghost use Rattle.flow_parse.specs.Places.{place_in};

    ghost Value = { List (List ℕ × NetPart) };

    ghost view = { λ s. s.rows.items };

    // The names are those of the rows.
    ghost invariant = { λ s. (name : List ℕ) → is_some (place_in s.names.places name) ≡ list_any (λ row. bytes_eq row.0 name) s.rows.items };
}

impl Subnets {
    pub fn new(alloc: Global) -> Subnets
        ensures { result ≡ [] }
    {
        Subnets {
            rows: Vec::new(alloc),
            names: Names::new(alloc),
        }
    }

    /// Whether a subnet has this name.
    pub fn has(&self, name: &[u8]) -> bool
        ensures { result ≡ list_any (λ row. bytes_eq row.0 name.now) self.now }
    {
        self.names.place(name).is_some()
    }

    pub fn push(&mut self, alloc: Global, name: Text, part: NetPart) -> Result<(), AllocError>
        ensures { OnOk result (self.new ≡ self.old ++ (name, part) ∷ []) }
    {
        self.rows.reserve(1)?;
        self.names.put(alloc, name.as_slice(), self.rows.len())?;
        self.rows.push_reserved((name, part));
        Ok(())
    }

    /// The subnets as a `Vec`, which stay where they are.
    pub fn into_rows(self) -> Vec<(Text, NetPart)>
        ensures { result.items ≡ self }
    {
        let Subnets { rows, names: _ } = self;
        rows
    }
}
