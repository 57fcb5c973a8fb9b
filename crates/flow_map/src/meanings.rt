//! What components that map make of their streams: each law is the contract of a function that does nothing.
ghost use Rattle.flow_component.specs.Laws.{AtMostOneOutcome};
ghost use Rattle.flow_map.specs.Mapping.{mapper_rules};
ghost use Rattle.flow_map.specs.Becoming.{MapperHears, MapperMeaning};
ghost use Rattle.flow_map.specs.Letters.{LettersMeaning};
ghost use Rattle.flow_map.specs.Seams.{PartsMakeTheWhole};

use crate::Maps;

/// What a component that maps and has come to its end has sent is what each packet that it got becomes.
pub fn mapper_keeps_its_meaning<M: Maps>()
    ensures { MapperMeaning M.mapping M.becoming }
{}

/// When it has come to its end, once it was started, it has heard the end of its input.
pub fn mapper_hears_the_end<M: Maps>()
    ensures { MapperHears M.mapping }
{}

/// Told the same in the same state with the same hands, it comes to at most one outcome.
pub fn mapper_comes_to_one_outcome<M: Maps>()
    ensures { AtMostOneOutcome (mapper_rules M.mapping) }
{}

/// What a Letters has sent is what it got, each Normal packet with its letters in one case.
pub fn letters_keeps_its_meaning()
    ensures { LettersMeaning }
{}

/// A line of components that map, each with one output and the same for each packet, looks across no seam: whether a
/// stream goes through it whole, or in parts of which each has a run of its own, comes to the same.
pub fn parts_make_the_whole()
    ensures { PartsMakeTheWhole }
{}
