//! How the words after the program's name are read, by the toolkit's `clap`.
ghost use Rattle.std.specs.Prelude.{◌≡◌, IfOk, codes, false, map, string_bytes};
ghost use Rattle.std.specs.Option.{option_map};
ghost use Rattle.clap.specs.Words.{app_of, found_of, rows_of, rule_of};
ghost use Rattle.flow_words.specs.Arguments.{rule_by};
ghost use Rattle.flow_words.specs.Words.{is_given, row_named, value_by};
ghost use Rattle.flow_words.specs.declared.argument.Shape.TheVariants.{Flag, Name, Valued};
ghost use Rattle.flow_draw.specs.Words.{asked_by, asked_in, asked_of, form_by, line_app};

use clap::error::ErrorKind;
use clap::parser::ValueSource;
use clap::{Arg, ArgAction, ArgMatches};
use flow_drawing::Form;
use std::alloc::{AllocError, Global};

/// A drawing that is asked for. Files are named as they were given.
#[derive(Clone, Copy, Debug, PartialEq, Eq)]
pub struct DrawCommand<'a> {
    /// The language of the drawing.
    pub form: Form,
    /// Whether each subnet is to be drawn as one box.
    pub fold: bool,
    /// The file of the network.
    pub net: &'a str,
    /// The file of a journal, where the state is to be drawn to which it leads.
    pub journal: Option<&'a str>,
}

/// What the words after the program's name ask for, or `None` where they are no command line. A line names the network
/// file, and may have a flag for DOT and one for folded subnets, and name a journal's file, in any order.
pub fn command<'a>(
    alloc: Global,
    words: &'a [String],
) -> Result<Option<DrawCommand<'a>>, AllocError>
    ensures { IfOk result (λ command.
        option_map asked_by command ≡ asked_of (map string_bytes words.entry.now)) }
{
    match line(alloc)?.try_get_matches_from(words) {
        Ok(matches) => Ok(asked_by_matches(&matches)),
        Err(error) => match error.kind() {
            ErrorKind::OutOfMemory => Err(AllocError),
            _ => Ok(None),
        },
    }
}

/// The arguments of a command line, for clap. With no version given, clap adds no version flag.
pub fn line<'a>(alloc: Global) -> Result<clap::Command<'a>, AllocError>
    ensures { IfOk result (λ line. app_of line ≡ line_app) }
{
    let line = clap::Command::new(alloc, "draw")
        .no_binary_name(true)
        .disable_help_flag(true);
    let line = line.arg(net_file(alloc))?;
    let line = line.arg(dot(alloc))?;
    let line = line.arg(journal(alloc))?;
    let line = line.arg(fold(alloc))?;
    Ok(line)
}

// The name of the network file.
fn net_file<'a>(alloc: Global) -> Arg<'a>
    ensures rule { rule_of result ≡ rule_by Name (codes "NETFILE") }
    ensures local { result.global ≡ false }
{
    Arg::new(alloc, "NETFILE")
}

// The flag for DOT.
fn dot<'a>(alloc: Global) -> Arg<'a>
    ensures rule { rule_of result ≡ rule_by Flag (codes "dot") }
    ensures local { result.global ≡ false }
{
    Arg::new(alloc, "dot")
        .long("dot")
        .action(ArgAction::SetTrue)
}

// The flag for folded subnets.
fn fold<'a>(alloc: Global) -> Arg<'a>
    ensures rule { rule_of result ≡ rule_by Flag (codes "fold") }
    ensures local { result.global ≡ false }
{
    Arg::new(alloc, "fold")
        .long("fold")
        .action(ArgAction::SetTrue)
}

// The option with the name of a journal's file.
fn journal<'a>(alloc: Global) -> Arg<'a>
    ensures rule { rule_of result ≡ rule_by Valued (codes "journal") }
    ensures local { result.global ≡ false }
{
    Arg::new(alloc, "journal").long("journal")
}

// What clap's matches ask for.
fn asked_by_matches<'a>(matches: &ArgMatches<'a>) -> Option<DrawCommand<'a>>
    ensures { option_map asked_by result ≡ asked_in (rows_of (found_of matches.now)) }
{
    match net_of(matches) {
        None => None,
        Some(net) => Some(DrawCommand {
            form: form_by(has_flag(matches, "dot")),
            fold: has_flag(matches, "fold"),
            net,
            journal: journal_of(matches),
        }),
    }
}

// The name of the network file, where the words gave it.
fn net_of<'a>(matches: &ArgMatches<'a>) -> Option<&'a str>
    ensures { option_map (λ s. s.now) result ≡ value_by Name (row_named (codes "NETFILE") (rows_of (found_of matches.now))) }
{
    matches.get_str("NETFILE")
}

// The name of the journal's file, where the words gave it.
fn journal_of<'a>(matches: &ArgMatches<'a>) -> Option<&'a str>
    ensures { option_map (λ s. s.now) result ≡ value_by Valued (row_named (codes "journal") (rows_of (found_of matches.now))) }
{
    matches.get_str("journal")
}

fn form_by(dot: bool) -> Form
    ensures { result ≡ form_by dot }
{
    if dot { Form::Dot } else { Form::Mermaid }
}

/// Whether the words gave this flag, which clap otherwise sets by default.
pub fn has_flag(matches: &ArgMatches<'_>, flag: &str) -> bool
    ensures { result ≡ is_given (row_named flag.now (rows_of (found_of matches.now))) }
{
    match matches.value_source(flag) {
        Some(ValueSource::CommandLine) => true,
        Some(ValueSource::DefaultValue) => false,
        None => false,
    }
}
