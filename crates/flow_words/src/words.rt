//! How the words after the program's name are read.
ghost use Rattle.std.specs.Prelude.{◌≡◌, ◌≤◌, IfOk, IfSome, List, find, map, string_bytes};
ghost use Rattle.std.specs.Option.{option_and_then, option_map};
ghost use Rattle.clap.specs.Words.{app_of, found_of, rows_of};
ghost use Rattle.flow_words.specs.Forms.{fits, forms};
ghost use Rattle.flow_words.specs.Lines.{AreOnce, Given, IsLine, values_of};
ghost use Rattle.flow_words.specs.Numbers.{AreSpelled, spelled_number, spelled_workers};
ghost use Rattle.flow_words.specs.Words.{IsWithinBounds, Run, asked_as, asked_by, command_of, form_of, given_workers, is_given, line_app, make_by, progress_of, report_by, report_file_in, report_in, row_named, tells_progress, value_by, value_in};

use crate::argument::{ARGUMENTS, Argument, Shape};
use crate::asked::{Command, Page, ReportCommand, RunCommand};
use crate::form::{FORMS, Form};
use clap::ArgMatches;
use clap::error::ErrorKind;
use clap::parser::ValueSource;
use flow_limits::{NUMBER_LIMIT, WORKER_LIMIT};
use flow_text::decimal;
use std::alloc::{AllocError, Global};

/// What the words after the program's name ask for, or `None` where they are no command line. Which
/// names, flags and options make which form is this project's own rule; a line may give them in any order. How the words are told apart
/// and which are refused is clap's: the word after `--` is a name, and the text behind an option's `=`
/// its value, whatever they begin with. The flags for help and for the version are this project's own, and not those that clap could add.
pub fn command<'a>(alloc: Global, words: &'a [String]) -> Result<Option<Command<'a>>, AllocError>
    ensures words { IfOk result (λ command.
        option_map asked_by command ≡ command_of (map string_bytes words.entry.now)) }
    ensures lines { (given : List Given) → IsLine given (map string_bytes words.entry.now) → AreOnce given
        → IfOk result (λ command. option_map asked_by command ≡ form_of (values_of given)) }
    ensures numbers { IfOk result (λ _. AreSpelled) }
    ensures bounds { IfOk result (λ found. IfSome found (λ command. IsWithinBounds (asked_by command))) }
{
    match line(alloc)?.try_get_matches_from(words) {
        Ok(matches) => Ok(asked_by_matches(&matches)),
        Err(error) => match error.kind() {
            ErrorKind::OutOfMemory => Err(AllocError),
            _ => Ok(None),
        },
    }
}

/// Whether the words are to tell how far their run is. `command` doesn't look at it, so that the same is asked for without. Words in which clap finds a fault
/// tell nothing.
pub fn tells_progress(alloc: Global, words: &[String]) -> Result<bool, AllocError>
    ensures words { IfOk result (λ tells. tells ≡ progress_of (map string_bytes words.entry.now)) }
    ensures lines { (given : List Given) → IsLine given (map string_bytes words.entry.now) → AreOnce given
        → IfOk result (λ tells. tells ≡ tells_progress (values_of given)) }
{
    match line(alloc)?.try_get_matches_from(words) {
        Ok(matches) => Ok(value_of(&matches, Argument::Progress).is_some()),
        Err(error) => match error.kind() {
            ErrorKind::OutOfMemory => Err(AllocError),
            _ => Ok(false),
        },
    }
}

// The arguments of a command line, for clap. With no version given, clap adds no version flag.
fn line<'a>(alloc: Global) -> Result<clap::Command<'a>, AllocError>
    ensures { IfOk result (λ line. app_of line ≡ line_app) }
{
    let mut line = clap::Command::new(alloc, "flow")
        .no_binary_name(true)
        .disable_help_flag(true);
    for argument in ARGUMENTS {
        line = line.arg(argument.for_clap(alloc))?;
    }
    Ok(line)
}

// What clap's matches ask for.
fn asked_by_matches<'a>(matches: &ArgMatches<'a>) -> Option<Command<'a>>
    ensures asks { option_map asked_by result ≡ form_of (value_in (rows_of (found_of matches.now))) }
    ensures bounds { IfSome result (λ command. IsWithinBounds (asked_by command)) }
{
    asked_as(form_given(matches)?, matches)
}

// What clap's matches ask for as a line of this form.
fn asked_as<'a>(form: Form, matches: &ArgMatches<'a>) -> Option<Command<'a>>
    ensures asks { option_map asked_by result ≡ asked_as form (value_in (rows_of (found_of matches.now))) }
    ensures bounds { IfSome result (λ command. IsWithinBounds (asked_by command)) }
{
    let net = value_of(matches, Argument::NetFile);
    let workers = value_of(matches, Argument::Workers);
    match form {
        Form::Run => {
            let journal = value_of(matches, Argument::Journal);
            let tapes = value_of(matches, Argument::Tapes);
            run_of(net?, journal, tapes, workers, report_given(matches))
        }
        Form::Check => Some(Command::Check(net?)),
        Form::Judge => Some(Command::Judge(net?)),
        Form::Kinds => Some(Command::Page(Page::Kinds)),
        Form::Replay => {
            let journal = value_of(matches, Argument::Replay)?;
            let tapes = value_of(matches, Argument::Tapes);
            Some(Command::Replay {
                net: net?,
                journal,
                tapes,
            })
        }
        Form::Make => make_of(value_of(matches, Argument::Make)?, workers),
        Form::Help => Some(Command::Page(Page::Help)),
        Form::Version => Some(Command::Page(Page::Version)),
    }
}

// How clap's matches say that the report is to be told.
fn report_given<'a>(matches: &ArgMatches<'a>) -> ReportCommand<'a>
    ensures { report_by result ≡ report_in (value_in (rows_of (found_of matches.now))) }
{
    ReportCommand {
        file: report_file(value_of(matches, Argument::Report)),
        quiet: value_of(matches, Argument::Quiet).is_some(),
        brief: value_of(matches, Argument::Brief).is_some(),
    }
}

// The file for a report. The name `-` is none: the report stays where it is printed.
fn report_file<'a>(name: Option<&'a str>) -> Option<&'a str>
    ensures { option_map (λ s. s.now) result ≡ report_file_in (option_map (λ s. s.now) name.entry) }
{
    match name {
        None => None,
        Some(name) => { if name == "-" { None } else { Some(name) } }
    }
}

// The form of the line that gave these matches.
fn form_given(matches: &ArgMatches<'_>) -> Option<Form>
    ensures { result ≡ find (λ form. fits form (value_in (rows_of (found_of matches.now)))) forms }
{
    for form in FORMS {
        if fits(form, matches) {
            return Some(form);
        }
    }
    None
}

// Whether the line gave all that the form needs, and nothing that it bars.
fn fits(form: Form, matches: &ArgMatches<'_>) -> bool
    ensures { result ≡ fits form (value_in (rows_of (found_of matches.now))) }
{
    for argument in ARGUMENTS {
        let given = value_of(matches, argument).is_some();
        if !form.place_of(argument).admits(given) {
            return false;
        }
    }
    true
}

// The value of an argument, where the line gave it.
fn value_of<'a>(matches: &ArgMatches<'a>, argument: Argument) -> Option<&'a str>
    ensures { option_map (λ s. s.now) result ≡ value_in (rows_of (found_of matches.now)) argument }
{
    match argument.shape() {
        Shape::Name => matches.get_str(argument.name()),
        Shape::Flag => flag_value(matches, argument.name()),
        Shape::Valued => matches.get_str(argument.name()),
    }
}

// A run of this network file, with so many workers as are given, whose report is told so.
fn run_of<'a>(
    net: &'a str,
    journal: Option<&'a str>,
    tapes: Option<&'a str>,
    workers: Option<&'a str>,
    report: ReportCommand<'a>,
) -> Option<Command<'a>>
    ensures asks { option_map asked_by result ≡ option_map (λ count. Run net.entry.now (option_map (λ s. s.now) journal.entry) (option_map (λ s. s.now) tapes.entry) count (report_by report.entry)) (given_workers (option_map (λ s. s.now) workers.entry)) }
    ensures bounds { IfSome result (λ command. IsWithinBounds (asked_by command)) }
{
    let workers = workers_of(workers)?;
    Some(Command::Run(RunCommand {
        net,
        journal,
        tapes,
        workers,
        report,
    }))
}

// A make from the number that a word spells, with so many workers as are given.
fn make_of<'a>(word: &str, workers: Option<&str>) -> Option<Command<'a>>
    ensures asks { option_map asked_by result ≡ option_and_then (make_by word.now) (given_workers (option_map (λ s. s.now) workers.entry)) }
    ensures bounds { IfSome result (λ command. IsWithinBounds (asked_by command)) }
{
    let workers = workers_of(workers)?;
    let number = number_of(word)?;
    Some(Command::Make { number, workers })
}

// The number of a make that a word spells.
fn number_of(word: &str) -> Option<u32>
    ensures number { result ≡ spelled_number word.now }
    ensures bounds { IfSome result (λ number. (1 ≤ number) × (number ≤ NUMBER_LIMIT)) }
{
    match decimal(word.as_bytes(), 1, u64::from(NUMBER_LIMIT)) {
        Some(number) => Some(number as u32),
        None => None,
    }
}

// The number of workers that is given. Where none is given there are none, and one thread runs the network.
fn workers_of(word: Option<&str>) -> Option<u32>
    ensures number { result ≡ given_workers (option_map (λ s. s.now) word.entry) }
    ensures bounds { IfSome result (λ workers. workers ≤ WORKER_LIMIT) }
{
    match word {
        None => Some(0),
        Some(word) => spelled_workers(word),
    }
}

// The number of workers that a word spells.
fn spelled_workers(word: &str) -> Option<u32>
    ensures number { result ≡ spelled_workers word.now }
    ensures bounds { IfSome result (λ workers. workers ≤ WORKER_LIMIT) }
{
    match decimal(word.as_bytes(), 0, u64::from(WORKER_LIMIT)) {
        Some(workers) => Some(workers as u32),
        None => None,
    }
}

// The value of the flag of this name, where the words gave it.
fn flag_value<'a>(matches: &ArgMatches<'_>, name: &str) -> Option<&'a str>
    ensures { option_map (λ s. s.now) result ≡ value_by Shape.Flag (row_named name.now (rows_of (found_of matches.now))) }
{
    if is_given(matches, name) {
        Some("")
    } else {
        None
    }
}

// Whether the words gave the flag of this name, which clap otherwise sets by default.
fn is_given(matches: &ArgMatches<'_>, name: &str) -> bool
    ensures { result ≡ is_given (row_named name.now (rows_of (found_of matches.now))) }
{
    match matches.value_source(name) {
        Some(ValueSource::CommandLine) => true,
        Some(ValueSource::DefaultValue) => false,
        None => false,
    }
}
