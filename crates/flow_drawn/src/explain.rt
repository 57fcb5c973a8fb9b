//! What a program says on the standard error where it prints no drawing: why, and what a person needs to find a fault.
//! No contract speaks of it, and it never changes how the program ends.
ghost use Rattle.flow_offer.specs.Kinds.{AreOwnKinds};

use flow_called::{Joined, Origin, Refusal, placed};
use flow_draw::{DrawStatus, command};
use flow_explain::{put_all, put_large, put_refusal, put_refusal_of, put_too_large};
use flow_limits::FILE_LIMIT;
use flow_load::Status;
use flow_plan::KindSpec;
use std::alloc::{AllocError, Global};
use std::fs::{File, Files};
use std::io;

const HELP: &str =
    "draw NETFILE                 draws the network of the file, as a graph for Mermaid
draw --dot NETFILE           draws it for Graphviz
draw --fold NETFILE          draws each subnet as one box; so with --dot
draw --journal FILE NETFILE  draws the state to which the journal in FILE leads; so with --dot and --fold
draw -- NETFILE              draws a file whose name begins with -
";

const OTHER_RUN: &str =
    "A state is drawn with the network file, the input files and the journal of one run.\n";

const OWN_STATE: &str =
    "The network has components of one's own. A state of it takes the tapes of its run, which no drawing reads; without --journal it is drawn.\n";

/// The network file of a call, as it is known.
#[derive(Clone, Copy)]
pub enum Net<'t, 'o> {
    /// It is what its file holds, or it wasn't read.
    Plain,
    /// It is of version 3, and what it comes to isn't known.
    Unfilled,
    /// It is of version 3 and comes to this text, with lines of these files that it uses.
    Filled {
        text: &'t [u8],
        origins: &'o [Origin],
    },
}

/// Says how a call ended, where it printed no drawing. What can't be said, for want of memory or of a standard error, is
/// left out.
pub fn explain<R: Files<File = File> + Eprint + Drop>(
    alloc: Global,
    rt: &R,
    words: &[String],
    drawn: &DrawStatus,
    reason: Option<io::Error>,
    net: Net<'_, '_>,
    own: &[KindSpec],
)
    requires { AreOwnKinds own.now }
{
    print(rt, page(alloc, rt, words, drawn, net, own));
    if let Some(reason) = reason {
        if is_fault(drawn.status()) {
            let _ = rt.eprintln(reason);
        }
    }
}

/// Says why texts for the words of a network are refused.
pub fn explain_words<R: Eprint>(alloc: Global, rt: &R, refusal: &Refusal) {
    print(rt, words_page(alloc, refusal));
}

/// Says why a file is refused that the network file uses: by this line, and by the fault of this text where there is one.
pub fn explain_used<R: Eprint>(
    alloc: Global,
    rt: &R,
    line: &[u8],
    told: Option<&Joined>,
    own: &[KindSpec],
)
    requires { AreOwnKinds own.now }
{
    print(rt, used_page(alloc, line, told, own));
}

// Prints a page, where there is one.
fn print<R: Eprint>(rt: &R, page: Result<String, AllocError>) {
    if let Ok(page) = page {
        if !page.is_empty() {
            let _ = rt.eprint(page);
        }
    }
}

fn is_fault(status: Status) -> bool {
    status == Status::ReadFault || status == Status::WriteFault
}

// A line, which has its end.
fn put_line(page: &mut String, line: &[u8]) -> Result<(), AllocError> {
    let Some((_, line)) = line.split_last() else {
        return Ok(());
    };
    put_all(page, line)?;
    page.push('\n')
}

// The line for texts that are refused, and what there is to say besides.
fn words_page(alloc: Global, refusal: &Refusal) -> Result<String, AllocError> {
    let mut page = String::new(alloc);
    put_line(&mut page, &refusal.line)?;
    page.push_str(refusal.page.as_str())?;
    Ok(page)
}

// The line for a file that is refused, and what there is to say of it.
fn used_page(
    alloc: Global,
    line: &[u8],
    told: Option<&Joined>,
    own: &[KindSpec],
) -> Result<String, AllocError>
    requires { AreOwnKinds own.now }
{
    let mut page = String::new(alloc);
    put_line(&mut page, line)?;
    if let Some(joined) = told {
        put_filled(alloc, &mut page, &joined.text, &joined.origins, own)?;
    }
    Ok(page)
}

// Why a text is refused that has lines of these files.
fn put_filled(
    alloc: Global,
    page: &mut String,
    text: &[u8],
    origins: &[Origin],
    own: &[KindSpec],
) -> Result<(), AllocError>
    requires { AreOwnKinds own.now }
{
    let mut said = String::new(alloc);
    put_refusal_of(alloc, &mut said, text, own, &[])?;
    let said = placed(alloc, said, origins)?;
    page.push_str(said.as_str())
}

// Which pattern of a text is too large that has lines of these files.
fn put_filled_large(
    alloc: Global,
    page: &mut String,
    text: &[u8],
    origins: &[Origin],
) -> Result<(), AllocError> {
    let mut said = String::new(alloc);
    put_large(alloc, &mut said, text)?;
    let said = placed(alloc, said, origins)?;
    page.push_str(said.as_str())
}

// The line for how a call ended, and what there is to say besides.
fn page<R: Files<File = File> + Eprint + Drop>(
    alloc: Global,
    rt: &R,
    words: &[String],
    drawn: &DrawStatus,
    net: Net<'_, '_>,
    own: &[KindSpec],
) -> Result<String, AllocError>
    requires { AreOwnKinds own.now }
{
    let mut page = String::new(alloc);
    let line = drawn.text(alloc)?;
    put_line(&mut page, &line)?;
    match drawn.status() {
        Status::Words => page.push_str(HELP)?,
        Status::Refused => put_refused(alloc, rt, &mut page, words, net, own)?,
        Status::NoMemory => put_no_memory(alloc, rt, &mut page, words, net)?,
        Status::JournalRefused => page.push_str(OTHER_RUN)?,
        Status::TapesRefused => page.push_str(OWN_STATE)?,
        Status::TooLong => put_limit(&mut page, net)?,
        _ => {}
    }
    Ok(page)
}

// Why the network file is refused that these words name.
fn put_refused<R: Files<File = File> + Eprint + Drop>(
    alloc: Global,
    rt: &R,
    page: &mut String,
    words: &[String],
    net: Net<'_, '_>,
    own: &[KindSpec],
) -> Result<(), AllocError>
    requires { AreOwnKinds own.now }
{
    if let Net::Filled { text, origins } = net {
        return put_filled(alloc, page, text, origins, own);
    }
    match command(alloc, words) {
        Ok(Some(asked)) => put_refusal(alloc, rt, page, asked.net, own, &[]),
        _ => Ok(()),
    }
}

// Which pattern of the network file that these words name is too large, if one is.
fn put_no_memory<R: Files<File = File> + Eprint + Drop>(
    alloc: Global,
    rt: &R,
    page: &mut String,
    words: &[String],
    net: Net<'_, '_>,
) -> Result<(), AllocError> {
    if let Net::Filled { text, origins } = net {
        return put_filled_large(alloc, page, text, origins);
    }
    match command(alloc, words) {
        Ok(Some(asked)) => put_too_large(alloc, rt, page, asked.net),
        _ => Ok(()),
    }
}

// How long files may be.
fn put_limit(page: &mut String, net: Net<'_, '_>) -> Result<(), AllocError> {
    if let Net::Plain = net {
        return write!(
            page,
            "A network file and an input file have at most {FILE_LIMIT} bytes.\n"
        );
    }
    write!(
        page,
        "A network file with the files that it uses has at most {FILE_LIMIT} bytes, as an input file has.\n"
    )
}
