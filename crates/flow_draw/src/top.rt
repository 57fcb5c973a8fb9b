//! The top call.
ghost use Rattle.std.specs.Prelude.{◌≡◌, IfOk};
ghost use Rattle.flow_words.specs.Pages.{text_of};
ghost use Rattle.flow_offer.specs.Kinds.{AreOwnKinds, table_with};
ghost use Rattle.flow_drawing.specs.Folding.{drawing_as};
ghost use Rattle.flow_draw.specs.Complete.{IsComplete};
ghost use Rattle.flow_draw.specs.Draws.{Ends, Makes, Prints, call_of, picture_of};
ghost use Rattle.flow_draw.specs.Help.{help_lines};

use crate::help::help_page;
use crate::scene::{Scene, scene_of};
use crate::status::DrawStatus;
use crate::words::command;
use flow_catalogue::{Std, standard_components_come_to_one_outcome};
use flow_drawing::{Drawing, Form};
use flow_journal::{a_file_has_one_journal_or_one_fault, a_journal_that_stops_is_no_schedule};
use flow_load::Stop;
use flow_offer::table;
use flow_plan::KindSpec;
use flow_played::{Played, players_come_to_one_outcome};
use flow_text::{Shelf, Sink, WriteStop, write_all};
use std::alloc::{AllocError, Global};

/// Draws what the words ask for: the network of a file, and with a journal the state to which that leads. The drawing is printed, and nothing else; where there
/// is none the status says why. Beside the standard kinds the network may have these of the caller's own.
pub fn draw_top<F: Shelf, O: Sink>(
    alloc: Global,
    words: &[String],
    shelf: &mut F,
    out: &mut O,
    own: &[KindSpec],
) -> DrawStatus
    requires { AreOwnKinds own.now }
    ensures ends { Ends (call_of words.now own.now (F.outside shelf.old) (F.outside shelf.new) (O.outside out.old) (O.outside out.new)) result }
    ensures complete { IsComplete (call_of words.now own.now (F.outside shelf.old) (F.outside shelf.new) (O.outside out.old) (O.outside out.new)) result }
{
    standard_components_come_to_one_outcome();
    players_come_to_one_outcome::<Std>();
    a_journal_that_stops_is_no_schedule::<Played<Std>>();
    a_file_has_one_journal_or_one_fault();
    match picture(alloc, words, shelf, own) {
        Ok(text) => print(out, &text),
        Err(stop) => DrawStatus::Stopped(stop),
    }
}

/// Prints the help, and nothing else.
pub fn print_help<O: Sink>(out: &mut O) -> DrawStatus
    ensures { Prints (O.outside out.old) (O.outside out.new) (text_of help_lines) result }
{
    print(out, help_page())
}

// Prints a text.
fn print<O: Sink>(out: &mut O, text: &[u8]) -> DrawStatus
    ensures { Prints (O.outside out.old) (O.outside out.new) text.now result }
{
    match write_all(out, text) {
        Ok(()) => DrawStatus::Drawn,
        Err(WriteStop::Fault(_)) => DrawStatus::Unwritten,
    }
}

// The text of the drawing that the words ask for.
fn picture<F: Shelf>(
    alloc: Global,
    words: &[String],
    shelf: &mut F,
    own: &[KindSpec],
) -> Result<Vec<u8>, Stop>
    requires { AreOwnKinds own.now }
    ensures { Makes own.now (F.outside shelf.old) (F.outside shelf.new) words.now result }
{
    let asked = match command(alloc, words) {
        Ok(Some(asked)) => asked,
        Ok(None) => return Err(Stop::Words),
        Err(_) => return Err(Stop::NoMemory),
    };
    let scene = match scene_of(alloc, shelf, own, asked.net, asked.journal) {
        Ok(scene) => scene,
        Err(stop) => return Err(stop),
    };
    match spelled(alloc, own, asked.form, asked.fold, &scene) {
        Ok(text) => Ok(text),
        Err(AllocError) => Err(Stop::NoMemory),
    }
}

// The drawing of a scene, whole or folded.
fn drawing_of(
    alloc: Global,
    own: &[KindSpec],
    fold: bool,
    scene: &Scene,
) -> Result<Drawing, AllocError>
    ensures { IfOk result (λ drawing. drawing ≡ drawing_as fold (table_with own.now) scene.now.remarks scene.now.plan) }
{
    let kinds = table(alloc, own)?;
    if fold {
        return Drawing::folded(alloc, &kinds, &scene.plan, &scene.remarks);
    }
    Drawing::of(alloc, &kinds, &scene.plan, &scene.remarks)
}

// The text of what a drawing shows.
fn spelled(
    alloc: Global,
    own: &[KindSpec],
    form: Form,
    fold: bool,
    scene: &Scene,
) -> Result<Vec<u8>, AllocError>
    ensures { IfOk result (λ text. text.items ≡ picture_of form fold own.now scene.now.plan scene.now.remarks) }
{
    let drawing = drawing_of(alloc, own, fold, scene)?;
    drawing.print(alloc, form)
}
