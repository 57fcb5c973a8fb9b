//! The table of a part's processes.
ghost use Rattle.std.specs.Prelude.{◌≡◌, [], ◌∷◌, ◌++◌, IfOk, OnOk, OnErr, MatchOption, None, ◌<◌, length, map};
ghost use Rattle.std.specs.List.{position};
ghost use Rattle.std.specs.Str.{bytes_eq};
ghost use Rattle.flow_parse.specs.Table.{Adds, mentioned, kind_given};
ghost use Rattle.flow_parse.specs.Files.{kindless_line};

use crate::form::Mention;
use crate::names::Names;
use crate::same::is;
use flow_items::Text;
use std::alloc::{AllocError, Global};
use std::marker::Model;

/// A process of a part as far as it is known.
#[derive(Drop)]
pub struct MentionedProcess {
    pub line: u64,
    pub name: Text,
    pub kind: Option<Text>,
}

/// A part's processes in the order of their first mention, and the place of each under its name.
#[derive(Drop)]
pub struct Processes {
    rows: Vec<MentionedProcess>,
    names: Names,
}

impl Model for Processes {
    ghost use Rattle.std.specs.Prelude.{◌≡◌, ℕ, List};
    ghost use Rattle.std.specs.Str.{bytes_eq};
    ghost use Rattle.std.specs.List.{position};
    ghost use Rattle.flow_parse.specs.declared.table.MentionedProcess.{MentionedProcess};
    ghost use Rattle.flow_parse.specs.Places.{place_in};

    ghost Value = { List MentionedProcess };

    ghost view = { λ p. p.rows.items };

    // The place of a name is the one that going over the rows gives.
    ghost invariant = { λ p. (name : List ℕ) → place_in p.names.places name ≡ position (λ row. bytes_eq row.name name) p.rows.items };
}

impl Processes {
    pub fn new(alloc: Global) -> Processes
        ensures { result ≡ [] }
    {
        Processes {
            rows: Vec::new(alloc),
            names: Names::new(alloc),
        }
    }

    pub fn as_slice(&self) -> &[MentionedProcess]
        ensures { result.now ≡ self.now }
    {
        self.rows.as_slice()
    }

    /// The processes as a `Vec`, which stay where they are.
    pub fn into_rows(self) -> Vec<MentionedProcess>
        ensures { result.items ≡ self }
    {
        let Processes { rows, names: _ } = self;
        rows
    }

    fn push(&mut self, alloc: Global, process: MentionedProcess) -> Result<(), AllocError>
        requires { position (λ p. bytes_eq p.name process.name) self.old ≡ None }
        ensures { OnOk result (self.new ≡ self.old ++ process ∷ []) }
    {
        self.rows.reserve(1)?;
        self.names
            .put(alloc, process.name.as_slice(), self.rows.len())?;
        self.rows.push_reserved(process);
        Ok(())
    }

    fn place(&self, name: &[u8]) -> Option<usize>
        ensures { result ≡ position (λ p. bytes_eq p.name name.now) self.now }
    {
        self.names.place(name)
    }

    fn give_kind(&mut self, place: usize, kind: Text) -> bool
        requires { place < length self.old }
        ensures { Adds (kind_given self.old place kind) self.new result }
    {
        give_kind(&mut self.rows, place, kind)
    }

    /// Adds a mention. False where it gives a process a second kind.
    pub fn mention(
        &mut self,
        alloc: Global,
        line: u64,
        mention: Mention,
    ) -> Result<bool, AllocError>
        ensures { IfOk result (λ fine. Adds (mentioned self.old line mention) self.new fine) }
    {
        let Mention { name, kind } = mention;
        let Some(place) = self.place(name.as_slice()) else {
            self.push(alloc, MentionedProcess { line, name, kind })?;
            return Ok(true);
        };
        let Some(kind) = kind else {
            return Ok(true);
        };
        Ok(self.give_kind(place, kind))
    }
}

/// Gives the process at a place a kind, unless it has another: then the answer is false.
fn give_kind(known: &mut Vec<MentionedProcess>, place: usize, kind: Text) -> bool
    requires { place < length known.old.items }
    ensures given { Adds (kind_given known.old.items place kind) known.new.items result }
    ensures names { map (λ p. p.name) known.new.items ≡ map (λ p. p.name) known.old.items }
{
    let process = &mut known[place];
    if let Some(before) = &process.kind {
        return is(before, kind.as_slice());
    }
    process.kind = Some(kind);
    true
}

/// The line that first mentions a process without a kind.
pub fn kindless(known: &[MentionedProcess]) -> Option<u64>
    ensures { result ≡ kindless_line known.now }
{
    'processes: for process in known {
        if process.kind.is_none() {
            return Some(process.line);
        }
    }
    None
}
