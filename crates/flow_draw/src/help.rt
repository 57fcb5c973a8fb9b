//! The help: which words ask for it, and its page.
ghost use Rattle.std.specs.Prelude.{◌≡◌, IfOk, false, map, string_bytes};
ghost use Rattle.clap.specs.Words.{app_of, rule_of};
ghost use Rattle.flow_words.specs.Pages.{text_of};
ghost use Rattle.flow_draw.specs.Help.{asks_help, help_app, help_flag, help_lines};

use crate::words::{has_flag, line};
use clap::error::ErrorKind;
use clap::{Arg, ArgAction};
use std::alloc::{AllocError, Global};

const HELP: &[u8] = b"draw NETFILE [WORD=TEXT ..]  draws the network of the file for Mermaid
draw --dot NETFILE           draws it for Graphviz
draw --fold NETFILE          draws each subnet as one box
draw --journal FILE NETFILE  draws the state to which the journal in FILE leads
draw --help, -h              prints this page
draw -- NETFILE              is draw NETFILE for a name that begins with -

--dot, --fold and --journal FILE may stand in one line. Texts for the words of a
network of version 3 stand behind it; flow --texts NETFILE lists the words.

Status: 0 drawn, 2 words refused, 3 network refused, 6 read fault,
7 write fault, 8 no memory, 9 too long, 10 journal refused, 12 tapes refused.
Read on in docs/DRAWING.md, docs/NETWORKS.md and docs/FORMATS.md.
";

/// What the program can be asked for, on one screen.
pub fn help_page() -> &'static [u8]
    ensures { result.now ≡ text_of help_lines }
{
    HELP
}

/// Whether the words after the program's name ask for the help, whatever else they ask for.
pub fn asks_help(alloc: Global, words: &[String]) -> Result<bool, AllocError>
    ensures { IfOk result (λ asks. asks ≡ asks_help (map string_bytes words.now)) }
{
    match help_line(alloc)?.try_get_matches_from(words) {
        Ok(matches) => Ok(has_flag(&matches, "help")),
        Err(error) => match error.kind() {
            ErrorKind::OutOfMemory => Err(AllocError),
            _ => Ok(false),
        },
    }
}

// The arguments of a command line that may ask for the help, for clap.
fn help_line<'a>(alloc: Global) -> Result<clap::Command<'a>, AllocError>
    ensures { IfOk result (λ line. app_of line ≡ help_app) }
{
    let line = line(alloc)?;
    let line = line.arg(help_flag(alloc))?;
    Ok(line)
}

// The flag for the help, which has a letter too.
fn help_flag<'a>(alloc: Global) -> Arg<'a>
    ensures rule { rule_of result ≡ help_flag }
    ensures local { result.global ≡ false }
{
    Arg::new(alloc, "help")
        .short('h')
        .long("help")
        .action(ArgAction::SetTrue)
}
