//! Calls about a network file: the file is read and filled first, and the call is made on a shelf on which it is its filled text.
ghost use Rattle.std.specs.Prelude.{◌≤◌, length};

use crate::call::{call, handed_in};
use crate::early::try_outputs;
use crate::explain::{Fault, explain, explain_failed, file_of, foresee};
use crate::kept::expect_kept;
use crate::own::{Known, Supply};
use crate::texts::texts_page;
use flow_called::{Joined, Origin, Refusal, UsedStop, refusal_of, with_used};
use flow_cli::{Status, print_text};
use flow_files::{FileShelf, StdSink};
use flow_fill::{FillStop, fill, is_third};
use flow_given::{FilledShelf, all_given, net_of};
use flow_limits::FILE_LIMIT;
use flow_load::{Stop, read_file, read_stop};
use flow_own::Part;
use flow_text::Sink;
use flow_words::command;
use std::alloc::{AllocError, Global};
use std::fs::{File, Files};
use std::io;
use std::io::IsTerminal;
use std::sync::Wait;
use std::thread::Threads;
use std::time::Clock;

// What is said besides of a network file that is too long when it is filled.
const OVERFILLED: &str = "With the texts for its words this one has more.\n";

/// The network file whose words are asked for. Behind a word `--` stands the name of a file, and no option.
pub fn texts_of(words: &[String]) -> Option<&str> {
    if words.len() != 2 {
        return None;
    }
    let (first, second) = (words[0].as_str(), words[1].as_str());
    if first == "--texts" && is_name(second) {
        return Some(second);
    }
    if second == "--texts" && is_name(first) {
        return Some(first);
    }
    None
}

// Whether a word is a name where no word `--` stands before it.
fn is_name(word: &str) -> bool {
    word == "-" || !word.starts_with('-')
}

// Prints why a call stopped before it began.
fn stopped<O: Sink, E: Sink>(alloc: Global, out: &mut O, err: &mut E, stop: &Stop) -> Status {
    match stop.text(alloc) {
        Ok(text) => print_text(out, err, &text, b"", stop.status()),
        Err(AllocError) => unremembered(out, err),
    }
}

// Prints that memory was wanting, which takes none.
fn unremembered<O: Sink, E: Sink>(out: &mut O, err: &mut E) -> Status {
    print_text(out, err, b"no memory\n", b"", Status::NoMemory)
}

/// Prints the words of a network file, each with the text beside it and with what its text may be.
pub fn texts_call<R: Files<File = File> + Eprint + Drop, O: Sink, E: Sink>(
    alloc: Global,
    rt: &R,
    out: &mut O,
    err: &mut E,
    net: &str,
    known: &Known,
) -> Status {
    let mut shelf = FileShelf::new(alloc, rt);
    match read_file(alloc, &mut shelf, net, FILE_LIMIT) {
        Ok(bytes) => match texts_page(alloc, &mut shelf, net, &bytes, known) {
            Ok(page) => print_text(out, err, &page, b"", Status::Finished),
            Err(AllocError) => unremembered(out, err),
        },
        Err(stop) => {
            let stop = read_stop(alloc, stop, net);
            stopped(alloc, out, err, &stop)
        }
    }
}

// The network file that these words ask about.
fn net_name(alloc: Global, words: &[String]) -> Result<Option<String>, AllocError> {
    let Some(asked) = command(alloc, words)? else {
        return Ok(None);
    };
    match net_of(&asked) {
        Some(net) => Ok(Some(String::from_str(alloc, net)?)),
        None => Ok(None),
    }
}

/// Makes the call that the first of these words ask for, so many of them, about a network file. One of version 3 is filled with what the others give. For one of
/// version 1 or 2 there are no texts: all words are the call's then.
pub fn filled_call<
    R: Files<File = File> + Eprint + Clock + Threads + Wait + Sync + Drop,
    P: Print + Drop,
    Q: Print + IsTerminal + Drop,
    T: Part + Send,
    S: Supply<T>,
>(
    alloc: Global,
    rt: &R,
    out: &mut StdSink<P>,
    err: &mut StdSink<Q>,
    words: &[String],
    count: usize,
    supply: &mut S,
) -> Status
    requires { count ≤ length words.now }
{
    let own = &words[..count];
    let Ok(Some(name)) = net_name(alloc, own) else {
        return Status::NoMemory;
    };
    let mut shelf = FileShelf::new(alloc, rt);
    if expect_kept(alloc, &mut shelf, own).is_err() {
        return Status::NoMemory;
    }
    let net = match read_file(alloc, &mut shelf, name.as_str(), FILE_LIMIT) {
        Ok(net) => net,
        Err(stop) => {
            let stop = read_stop(alloc, stop, name.as_str());
            return unmade(
                alloc,
                rt,
                out,
                err,
                own,
                &shelf,
                &stop,
                None,
                supply.known(),
            );
        }
    };
    if is_third(&net) {
        let texts = &words[count..];
        return net_call(alloc, rt, out, err, own, texts, shelf, name, net, supply);
    }
    let shelf = FilledShelf::new(alloc, shelf, name, net);
    shelf_call(alloc, rt, out, err, words, shelf, None, supply)
}

// Says why a call wasn't made, and explains it. Where the network file is filled, this is its text, with where the lines begin of the files that it uses.
fn unmade<
    R: Files<File = File> + Eprint + Threads + Wait + Sync + Drop,
    P: Print + Drop,
    Q: Print + Drop,
>(
    alloc: Global,
    rt: &R,
    out: &mut StdSink<P>,
    err: &mut StdSink<Q>,
    words: &[String],
    shelf: &FileShelf<&R>,
    stop: &Stop,
    joined: Option<&Joined>,
    known: &Known,
) -> Status {
    let status = stopped(alloc, out, err, stop);
    let printing = out.reason().or(err.reason());
    let fault = Fault {
        reason: printing.or(shelf.reason()),
        file: file_of(printing.is_some(), shelf.last()),
    };
    let (filled, origins) = match joined {
        Some(joined) => (
            Some(joined.text.as_slice()),
            Some(joined.origins.as_slice()),
        ),
        None => (None, None),
    };
    explain(alloc, rt, words, status, fault, filled, origins, known);
    status
}

// Says that the network file of this name is too long when it is filled.
fn overfilled<
    R: Files<File = File> + Eprint + Threads + Wait + Sync + Drop,
    P: Print + Drop,
    Q: Print + Drop,
>(
    alloc: Global,
    rt: &R,
    out: &mut StdSink<P>,
    err: &mut StdSink<Q>,
    words: &[String],
    shelf: &FileShelf<&R>,
    name: String,
    known: &Known,
) -> Status {
    let stop = Stop::TooLong(name);
    let status = unmade(alloc, rt, out, err, words, shelf, &stop, None, known);
    let _ = rt.eprint(OVERFILLED);
    status
}

// Fills the network file with what these texts give, and makes the call on it.
fn net_call<
    R: Files<File = File> + Eprint + Clock + Threads + Wait + Sync + Drop,
    P: Print + Drop,
    Q: Print + IsTerminal + Drop,
    T: Part + Send,
    S: Supply<T>,
>(
    alloc: Global,
    rt: &R,
    out: &mut StdSink<P>,
    err: &mut StdSink<Q>,
    words: &[String],
    texts: &[String],
    shelf: FileShelf<&R>,
    name: String,
    net: Vec<u8>,
    supply: &mut S,
) -> Status {
    let Ok(given) = all_given(alloc, texts) else {
        return unremembered(out, err);
    };
    match fill(alloc, &net, &given) {
        Ok(text) => joined_call(alloc, rt, out, err, words, shelf, name, &net, text, supply),
        Err(FillStop::Fault(fault)) => match refusal_of(alloc, &net, &given, fault) {
            Ok(refusal) => refused(rt, out, err, &refusal),
            Err(AllocError) => unremembered(out, err),
        },
        Err(FillStop::TooLong) => {
            let known = supply.known();
            overfilled(alloc, rt, out, err, words, &shelf, name, known)
        }
        Err(FillStop::NoMemory) => unremembered(out, err),
    }
}

// Tries the files that a call on this text is to write. Where one can't be written, that is said at once, and the call ends so.
fn refused_early<
    R: Files<File = File> + Eprint + Threads + Wait + Sync + Drop,
    P: Print + Drop,
    Q: Print + Drop,
>(
    alloc: Global,
    rt: &R,
    out: &mut StdSink<P>,
    err: &mut StdSink<Q>,
    words: &[String],
    shelf: &mut FileShelf<&R>,
    joined: &Joined,
    known: &Known,
) -> Option<Status> {
    match try_outputs(alloc, shelf, words, &joined.text, known) {
        Ok(()) => None,
        Err(stop) => Some(unmade(
            alloc,
            rt,
            out,
            err,
            words,
            shelf,
            &stop,
            Some(joined),
            known,
        )),
    }
}

// Puts the subnets of the files that the network file uses behind its text, tries the files that the call is to write, and makes it on that text.
fn joined_call<
    R: Files<File = File> + Eprint + Clock + Threads + Wait + Sync + Drop,
    P: Print + Drop,
    Q: Print + IsTerminal + Drop,
    T: Part + Send,
    S: Supply<T>,
>(
    alloc: Global,
    rt: &R,
    out: &mut StdSink<P>,
    err: &mut StdSink<Q>,
    words: &[String],
    mut shelf: FileShelf<&R>,
    name: String,
    net: &[u8],
    text: Vec<u8>,
    supply: &mut S,
) -> Status {
    match with_used(alloc, &mut shelf, name.as_str(), net, text) {
        Ok(joined) => {
            let known = supply.known();
            if let Some(status) = refused_early(
                alloc, rt, out, err, words, &mut shelf, &joined, known,
            ) {
                return status;
            }
            let Joined { text, origins } = joined;
            let shelf = FilledShelf::new(alloc, shelf, name, text);
            shelf_call(alloc, rt, out, err, words, shelf, Some(&origins), supply)
        }
        Err(UsedStop::Stop(stop)) => {
            let known = supply.known();
            unmade(alloc, rt, out, err, words, &shelf, &stop, None, known)
        }
        Err(UsedStop::Refused { line, told }) => {
            let status = print_text(out, err, &line, b"", Status::Refused);
            if let Some(told) = told {
                explain_used(alloc, rt, words, status, &told, supply.known());
            }
            status
        }
    }
}

// Explains a fault of a file that the network file uses.
fn explain_used<R: Files<File = File> + Eprint + Drop>(
    alloc: Global,
    rt: &R,
    words: &[String],
    status: Status,
    told: &Joined,
    known: &Known,
) {
    let fault = Fault {
        reason: None,
        file: None,
    };
    let text = told.text.as_slice();
    let origins = told.origins.as_slice();
    explain(
        alloc,
        rt,
        words,
        status,
        fault,
        Some(text),
        Some(origins),
        known,
    );
}

// Says why texts are refused, and then, if the standard error takes it, what helps to find the fault.
fn refused<R: Eprint, O: Sink, E: Sink>(
    rt: &R,
    out: &mut O,
    err: &mut E,
    refusal: &Refusal,
) -> Status {
    let status = print_text(out, err, &refusal.line, b"", Status::Words);
    if status == Status::Words {
        let _ = rt.eprint(refusal.page.as_str());
    }
    status
}

// Makes the call on this shelf, and explains how it ended. Of a network file of version 3 the text has lines of these files that it uses.
fn shelf_call<
    R: Files<File = File> + Eprint + Clock + Threads + Wait + Sync + Drop,
    P: Print + Drop,
    Q: Print + IsTerminal + Drop,
    T: Part + Send,
    S: Supply<T>,
>(
    alloc: Global,
    rt: &R,
    out: &mut StdSink<P>,
    err: &mut StdSink<Q>,
    words: &[String],
    mut shelf: FilledShelf<FileShelf<&R>>,
    origins: Option<&[Origin]>,
    supply: &mut S,
) -> Status {
    look_ahead(alloc, rt, words, &shelf, origins);
    let Ok(own) = handed_in(alloc, words, shelf.text(), supply) else {
        return unremembered(out, err);
    };
    out.keep(alloc);
    let is_terminal = err.is_terminal();
    let Ok(outcome) = call(rt, alloc, words, &mut shelf, out, err, is_terminal, own) else {
        return Status::NoMemory;
    };
    let printing = out.reason().or(err.reason());
    let (status, known) = (outcome.status, supply.known());
    if status == Status::Failed {
        let printed = out.kept();
        look_back(alloc, rt, words, &shelf, printed, known);
    }
    tell(alloc, rt, words, &shelf, origins, printing, status, known);
    status
}

// Tells what is seen of a call on this shelf before it is made.
fn look_ahead<R: Files<File = File> + Eprint + Drop>(
    alloc: Global,
    rt: &R,
    words: &[String],
    shelf: &FilledShelf<FileShelf<&R>>,
    origins: Option<&[Origin]>,
) {
    let net = shelf.text();
    foresee(alloc, rt, words, net, origins);
}

// Tells at which lines of files processes failed in a call on this shelf that printed this.
fn look_back<R: Files<File = File> + Eprint + Drop>(
    alloc: Global,
    rt: &R,
    words: &[String],
    shelf: &FilledShelf<FileShelf<&R>>,
    printed: &[u8],
    known: &Known,
) {
    let net = shelf.text();
    explain_failed(alloc, rt, words, net, printed, known);
}

// Explains how a call on this shelf ended, with what the system answered where something couldn't be printed.
fn tell<R: Files<File = File> + Eprint + Drop>(
    alloc: Global,
    rt: &R,
    words: &[String],
    shelf: &FilledShelf<FileShelf<&R>>,
    origins: Option<&[Origin]>,
    printing: Option<io::Error>,
    status: Status,
    known: &Known,
) {
    let fault = Fault {
        reason: printing.or(shelf.below().reason()),
        file: file_of(printing.is_some(), shelf.below().last()),
    };
    let filled = if origins.is_some() {
        Some(shelf.text())
    } else {
        None
    };
    explain(alloc, rt, words, status, fault, filled, origins, known);
}
