//! What may stand in a command line.
ghost use Rattle.std.specs.Prelude.{◌≡◌, false};
ghost use Rattle.clap.specs.Words.{rule_of};
ghost use Rattle.flow_words.specs.Arguments.{letter_of, name_of, rule_by, rule_for, shape_of};

use clap::{Arg, ArgAction};
use std::alloc::Global;

/// What may stand in a line, each at most once: the network file's name, flags, and options with a value.
#[derive(Clone, Copy, Debug, PartialEq, Eq)]
pub enum Argument {
    NetFile,
    Check,
    Determinate,
    Kinds,
    Journal,
    Replay,
    Make,
    Tapes,
    Workers,
    Report,
    Quiet,
    Brief,
    Progress,
    Help,
    Version,
}

/// How an argument stands in a line: a name by itself, a flag without a value, or an option with one.
#[derive(Clone, Copy, Debug, PartialEq, Eq)]
pub enum Shape {
    Name,
    Flag,
    Valued,
}

/// All arguments, in the order of the usage.
pub const ARGUMENTS: [Argument; 15] = [
    Argument::NetFile,
    Argument::Check,
    Argument::Determinate,
    Argument::Kinds,
    Argument::Journal,
    Argument::Replay,
    Argument::Make,
    Argument::Tapes,
    Argument::Workers,
    Argument::Report,
    Argument::Quiet,
    Argument::Brief,
    Argument::Progress,
    Argument::Help,
    Argument::Version,
];

impl Argument {
    /// The name, which stands behind `--` where it is a flag or an option.
    pub fn name<'a>(self) -> &'a str
        ensures { result.now ≡ name_of self }
    {
        match self {
            Argument::NetFile => "NETFILE",
            Argument::Check => "check",
            Argument::Determinate => "determinate",
            Argument::Kinds => "kinds",
            Argument::Journal => "journal",
            Argument::Replay => "replay",
            Argument::Make => "make",
            Argument::Tapes => "tapes",
            Argument::Workers => "workers",
            Argument::Report => "report",
            Argument::Quiet => "quiet",
            Argument::Brief => "brief",
            Argument::Progress => "progress",
            Argument::Help => "help",
            Argument::Version => "version",
        }
    }

    /// The shape.
    pub fn shape(self) -> Shape
        ensures { result ≡ shape_of self }
    {
        match self {
            Argument::NetFile => Shape::Name,
            Argument::Check
            | Argument::Determinate
            | Argument::Kinds
            | Argument::Quiet
            | Argument::Brief
            | Argument::Progress
            | Argument::Help
            | Argument::Version => Shape::Flag,
            Argument::Journal
            | Argument::Replay
            | Argument::Make
            | Argument::Tapes
            | Argument::Workers
            | Argument::Report => Shape::Valued,
        }
    }

    /// The letter that stands for it behind a single `-`, where it has one.
    pub fn letter(self) -> Option<char>
        ensures { result ≡ letter_of self }
    {
        match self {
            Argument::Help => Some('h'),
            _ => None,
        }
    }

    /// The argument, for clap.
    pub fn for_clap<'a>(self, alloc: Global) -> Arg<'a>
        ensures rule { rule_of result ≡ rule_for self }
        ensures local { result.global ≡ false }
    {
        let arg = by_shape(alloc, self.shape(), self.name());
        match self.letter() {
            Some(letter) => arg.short(letter),
            None => arg,
        }
    }
}

// An argument of this shape and name, without a letter.
fn by_shape<'a>(alloc: Global, shape: Shape, name: &'a str) -> Arg<'a>
    ensures rule { rule_of result ≡ rule_by shape name.entry.now }
    ensures local { result.global ≡ false }
{
    match shape {
        Shape::Name => Arg::new(alloc, name),
        Shape::Flag => flag(alloc, name),
        Shape::Valued => option(alloc, name),
    }
}

// A flag, which takes no value.
fn flag<'a>(alloc: Global, name: &'a str) -> Arg<'a>
    ensures rule { rule_of result ≡ rule_by Shape.Flag name.entry.now }
    ensures local { result.global ≡ false }
{
    Arg::new(alloc, name).long(name).action(ArgAction::SetTrue)
}

// An option, which takes one value.
fn option<'a>(alloc: Global, name: &'a str) -> Arg<'a>
    ensures rule { rule_of result ≡ rule_by Shape.Valued name.entry.now }
    ensures local { result.global ≡ false }
{
    Arg::new(alloc, name).long(name)
}
