//! What the components make of their streams: each law is the contract of a function that does nothing.
ghost use Rattle.flow_match.specs.Meanings.{MatchMeaning, ReplaceMeaning};

/// What a Match that has come to its end has sent: to its first output the packets that it accepts, and to its second one, if that is
/// connected, the others.
pub fn match_keeps_its_meaning()
    ensures { MatchMeaning }
{}

/// What a Replace has sent is what it got, with the matches in each Normal packet replaced.
pub fn replace_keeps_its_meaning()
    ensures { ReplaceMeaning }
{}
