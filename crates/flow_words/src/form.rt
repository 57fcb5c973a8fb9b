//! The forms of a command line.
ghost use Rattle.std.specs.Prelude.{◌≡◌};
ghost use Rattle.flow_words.specs.Forms.{admits, place_of};

use crate::argument::Argument;

/// What a line asks for, without its values.
#[derive(Clone, Copy, Debug, PartialEq, Eq)]
pub enum Form {
    Run,
    Check,
    Judge,
    Kinds,
    Replay,
    Make,
    Help,
    Version,
}

/// Whether an argument has to stand in a line of a form, may stand there, or doesn't.
#[derive(Clone, Copy, Debug, PartialEq, Eq)]
pub enum Place {
    Needed,
    Free,
    Barred,
}

/// All forms. No line fits two of them.
pub const FORMS: [Form; 8] = [
    Form::Run,
    Form::Check,
    Form::Judge,
    Form::Kinds,
    Form::Replay,
    Form::Make,
    Form::Help,
    Form::Version,
];

impl Form {
    /// The place of an argument in lines of this form.
    pub fn place_of(self, argument: Argument) -> Place
        ensures { result ≡ place_of self argument }
    {
        match (self, argument) {
            (Form::Run, Argument::NetFile) => Place::Needed,
            (Form::Run, Argument::Journal) => Place::Free,
            (Form::Run, Argument::Tapes) => Place::Free,
            (Form::Run, Argument::Workers) => Place::Free,
            (Form::Run, Argument::Report) => Place::Free,
            (Form::Run, Argument::Quiet) => Place::Free,
            (Form::Run, Argument::Brief) => Place::Free,
            (Form::Run, Argument::Progress) => Place::Free,
            (Form::Check, Argument::NetFile) => Place::Needed,
            (Form::Check, Argument::Check) => Place::Needed,
            (Form::Judge, Argument::NetFile) => Place::Needed,
            (Form::Judge, Argument::Determinate) => Place::Needed,
            (Form::Kinds, Argument::Kinds) => Place::Needed,
            (Form::Replay, Argument::NetFile) => Place::Needed,
            (Form::Replay, Argument::Replay) => Place::Needed,
            (Form::Replay, Argument::Tapes) => Place::Free,
            (Form::Make, Argument::Make) => Place::Needed,
            (Form::Make, Argument::Workers) => Place::Free,
            (Form::Help, Argument::Help) => Place::Needed,
            (Form::Help, _) => Place::Free,
            (Form::Version, Argument::Version) => Place::Needed,
            (Form::Version, Argument::Help) => Place::Barred,
            (Form::Version, _) => Place::Free,
            _ => Place::Barred,
        }
    }
}

impl Place {
    /// Whether an argument of this place may be given, or not given.
    pub fn admits(self, given: bool) -> bool
        ensures { result ≡ admits self given }
    {
        match self {
            Place::Needed => given,
            Place::Free => true,
            Place::Barred => !given,
        }
    }
}
