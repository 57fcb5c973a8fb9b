//! What components that fold make of their streams: each law is the contract of a function that does nothing.
ghost use Rattle.flow_component.specs.Laws.{AtMostOneOutcome};
ghost use Rattle.flow_fold.specs.Folding.{folder_rules};
ghost use Rattle.flow_fold.specs.Made.{FolderHears, FolderMeaning};
ghost use Rattle.flow_fold.specs.Glue.{GlueMeaning};
ghost use Rattle.flow_fold.specs.Count.{CountMeaning};

use crate::{Count, Fold};

/// What a component that folds and has come to its end has sent is what is made of its stream: each bracket, behind what
/// is told of the stretch before it, and what is told of the last stretch.
pub fn folder_keeps_its_meaning<F: Fold>()
    ensures { FolderMeaning F.folding F.folded }
{}

/// When it has come to its end, once it was started, it has heard the end of its input.
pub fn folder_hears_the_end<F: Fold>()
    ensures { FolderHears F.folding }
{}

/// Told the same in the same state with the same hands, it comes to at most one outcome.
pub fn folder_comes_to_one_outcome<F: Fold>()
    ensures { AtMostOneOutcome (folder_rules F.folding) }
{}

/// A Glue has sent its stream with each stretch, one that has a text or is a whole substream, as one packet: its texts,
/// and between each two of them the one that it was made with.
pub fn glue_keeps_its_meaning()
    ensures { GlueMeaning }
{}

/// A Count has sent its stream with each stretch, one that has a text or is a whole substream, as one packet: how many
/// texts it has.
pub fn count_keeps_its_meaning()
    ensures { CountMeaning Count }
{}
