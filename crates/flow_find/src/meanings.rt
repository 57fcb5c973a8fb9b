//! What the components make of their streams: each law is the contract of a function that does nothing.
ghost use Rattle.flow_find.specs.Find.{FindMeaning, WholeMatches};
ghost use Rattle.flow_find.specs.Rewrite.{RewriteMeaning};
ghost use Rattle.flow_find.specs.Split.{SplitMeaning};

/// What a Find has sent is what it got, each Normal packet replaced by what its template makes of the matches in it.
pub fn find_keeps_its_meaning()
    ensures { FindMeaning }
{}

/// What the template that `Find::new` has makes of a match is the text of the match.
pub fn a_whole_match_is_its_text()
    ensures { WholeMatches }
{}

/// What a Split has sent is what it got, each Normal packet replaced by the texts between the matches in it, in brackets
/// where that is asked.
pub fn split_keeps_its_meaning()
    ensures { SplitMeaning }
{}

/// What a Rewrite has sent is what it got, each Normal packet in which its pattern matches replaced by one with the new
/// text; and the others at its second output, where that is connected.
pub fn rewrite_keeps_its_meaning()
    ensures { RewriteMeaning }
{}
