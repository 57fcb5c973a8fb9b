//! The top call that the words ask for.
ghost use Rattle.std.specs.Prelude.{IfOk};
ghost use Rattle.flow_offer.specs.Kinds.{AreOwnKinds};
ghost use Rattle.flow_load.specs.Offers.{offers_of, specs_of};

use crate::meter::{Meter, Telling};
use crate::own::Supply;
use flow_cli::{Outcome, OwnKind, busy_top_past, needs_workers, plain_top_past};
use flow_own::Part;
use flow_text::{Shelf, Sink};
use flow_words::{Command, command, tells_progress};
use std::alloc::{AllocError, Global};
use std::sync::Wait;
use std::thread::Threads;
use std::time::Clock;

/// What is handed in for a call on a network of these bytes. Only a run takes parts.
pub fn handed_in<T: Part, S: Supply<T>>(
    alloc: Global,
    words: &[String],
    net: &[u8],
    supply: &mut S,
) -> Result<Vec<OwnKind<T>>, AllocError>
    ensures { IfOk result (λ own. AreOwnKinds (specs_of (offers_of own.items))) }
{
    match command(alloc, words)? {
        Some(Command::Run(_)) => supply.hand_in(alloc, net),
        _ => supply.hand_in(alloc, b""),
    }
}

/// Makes the top call that the words ask for, with what is handed in, and tells how far its run is where they ask for that, or where the standard error is a
/// terminal. An error says that there was no memory to begin with; then nothing was read or written.
pub fn call<R: Eprint + Clock + Threads + Wait + Sync, F: Shelf, O: Sink, E: Sink, T: Part + Send>(
    rt: &R,
    alloc: Global,
    words: &[String],
    shelf: &mut F,
    out: &mut O,
    err: &mut E,
    is_terminal: bool,
    own: Vec<OwnKind<T>>,
) -> Result<Outcome, AllocError>
    requires { AreOwnKinds (specs_of (offers_of own.items)) }
{
    let telling = Telling::by(tells_progress(alloc, words)?, is_terminal);
    let meter = Meter::new(alloc, rt, telling)?;
    let outcome = if needs_workers(alloc, words)? {
        busy_top_past(rt, alloc, words, shelf, out, err, &meter, own)
    } else {
        plain_top_past(alloc, words, shelf, out, err, &meter, own)
    };
    meter.sum_up(outcome.journal.turns.len() as u64);
    Ok(outcome)
}
