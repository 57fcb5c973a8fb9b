//! The calls that a row can make.
ghost use Rattle.std.specs.Prelude.{IfOk};
ghost use Rattle.flow_offer.specs.Kinds.{AreOwnKinds};
ghost use Rattle.flow_load.specs.Offers.{offers_of, specs_of};

use crate::around::Around;
use crate::bytes::{RowStop, number};
use crate::came::Came;
use crate::page::first_word;
use crate::said::said;
use flow_cli::{Outcome, OwnKind, Status, busy_top, needs_workers, plain_top};
use flow_component::NoGate;
use flow_draw::draw_top;
use flow_limits::NUMBER_LIMIT;
use flow_make::make;
use flow_number::{Number, number_is_an_own_kind, number_kind};
use flow_plan::KindSpec;
use flow_text::{MemShelf, MemSink};
use std::alloc::{AllocError, Global};
use std::sync::Wait;
use std::thread::Threads;

/// The call that a line names by its first word, with what stands behind it.
pub fn call<R: Threads + Wait + Sync>(
    rt: &R,
    alloc: Global,
    around: &Around,
    line: &str,
) -> Result<Came, RowStop> {
    let (kind, rest) = first_word(line);
    match kind {
        "flow" => call_flow(rt, alloc, around, rest),
        "draw" => call_draw(alloc, around, rest),
        "make" => make_files(alloc, rest),
        _ => {
            let (status, text) = said(alloc, around, kind, rest)?;
            Ok(Came::printed(alloc, status, text, around.shelf()?))
        }
    }
}

/// The words of a line, cut at its blanks.
pub fn words_of(alloc: Global, line: &str) -> Result<Vec<String>, AllocError> {
    let mut words = Vec::new(alloc);
    for word in line.split_whitespace() {
        words.push(String::from_str(alloc, word)?)?;
    }
    Ok(words)
}

// So many parts of the kind Number.
fn numbers(alloc: Global, count: u64) -> Result<Vec<Number>, AllocError> {
    let mut parts = Vec::new(alloc);
    for _ in 0..count {
        parts.push(Number::new(alloc))?;
    }
    Ok(parts)
}

/// The kind Number with so many parts, or no kind at all.
fn own_kinds(alloc: Global, count: Option<u64>) -> Result<Vec<OwnKind<Number>>, AllocError>
    ensures { IfOk result (λ own. AreOwnKinds (specs_of (offers_of own.items))) }
{
    let Some(count) = count else {
        return Ok(Vec::new(alloc));
    };
    let parts = numbers(alloc, count)?;
    let spec = number_kind(alloc)?;
    let mut own = Vec::new(alloc);
    own.push(OwnKind { spec, parts })?;
    number_is_an_own_kind();
    Ok(own)
}

// What the program `flow` does with these words, by workers where they ask for them.
fn call_flow<R: Threads + Wait + Sync>(
    rt: &R,
    alloc: Global,
    around: &Around,
    line: &str,
) -> Result<Came, RowStop> {
    let words = words_of(alloc, line)?;
    let mut shelf = around.shelf()?;
    let mut out = around.sink()?;
    let mut err = around.err_sink()?;
    let outcome = run_flow(
        rt,
        alloc,
        around.parts,
        &words,
        &mut shelf,
        &mut out,
        &mut err,
    )?;
    Ok(Came::of(alloc, &outcome, shelf, &out, &err)?)
}

// The call itself.
fn run_flow<R: Threads + Wait + Sync>(
    rt: &R,
    alloc: Global,
    parts: Option<u64>,
    words: &[String],
    shelf: &mut MemShelf,
    out: &mut MemSink,
    err: &mut MemSink,
) -> Result<Outcome, AllocError> {
    let by_workers = needs_workers(alloc, words)?;
    let own = own_kinds(alloc, parts)?;
    if by_workers {
        return Ok(busy_top(rt, alloc, words, shelf, out, err, &NoGate, own));
    }
    Ok(plain_top(alloc, words, shelf, out, err, own))
}

/// The kind Number, or no kind at all, as a drawing takes it.
fn drawn_kinds(alloc: Global, count: Option<u64>) -> Result<Vec<KindSpec>, AllocError>
    ensures { IfOk result (λ own. AreOwnKinds own.items) }
{
    let mut own = Vec::new(alloc);
    if count.is_some() {
        own.push(number_kind(alloc)?)?;
        number_is_an_own_kind();
    }
    Ok(own)
}

// What the program `draw` does with these words.
fn call_draw(alloc: Global, around: &Around, line: &str) -> Result<Came, RowStop> {
    let words = words_of(alloc, line)?;
    let mut shelf = around.shelf()?;
    let mut out = around.sink()?;
    let own = drawn_kinds(alloc, around.parts)?;
    let drawn = draw_top(alloc, &words, &mut shelf, &mut out, &own);
    let printed = out.bytes().to_vec(alloc)?;
    let mut came = Came::printed(alloc, drawn.status(), printed, shelf);
    came.told = drawn.text(alloc)?;
    Ok(came)
}

// The files `net` and `in` of these texts.
fn two_files(
    alloc: Global,
    network: &[u8],
    input: &[u8],
) -> Result<Vec<(String, Vec<u8>)>, AllocError> {
    let mut files = Vec::new(alloc);
    files.push((String::from_str(alloc, "net")?, network.to_vec(alloc)?))?;
    files.push((String::from_str(alloc, "in")?, input.to_vec(alloc)?))?;
    Ok(files)
}

// Makes the network file `net` and its input `in` from a number.
fn make_files(alloc: Global, text: &str) -> Result<Came, RowStop> {
    let number = number(text)?;
    if number < 1 || number > u64::from(NUMBER_LIMIT) {
        return Err(RowStop::Unknown);
    }
    let made = make(alloc, number as u32)?;
    let files = two_files(alloc, made.network.as_slice(), made.input.as_slice())?;
    let shelf = MemShelf::new(alloc, files, 1, 0, Vec::new(alloc), Vec::new(alloc));
    Ok(Came::printed(alloc, Status::Finished, Vec::new(alloc), shelf))
}
