//! What the components make of their streams: each law is the contract of a function that does nothing.
ghost use Rattle.flow_parts.specs.Meanings.{BracketsMeaning, CountMeaning, FillMeaning, OneFilling, ReadLinesMeaning, TallyMeaning, WordsMeaning, WriteLinesMeaning};
ghost use Rattle.flow_parts.specs.declared.brackets.Brackets.{Brackets};

/// What a ReadLines that has run to its end has sent is a Normal packet for each of its lines.
pub fn read_lines_keeps_its_meaning()
    ensures { ReadLinesMeaning }
{}

/// What a WriteLines has written is what it got, each packet as a line.
pub fn write_lines_keeps_its_meaning()
    ensures { WriteLinesMeaning }
{}

/// What a Words has sent is what it got, with each Normal packet replaced by its words.
pub fn words_keeps_its_meaning()
    ensures { WordsMeaning }
{}

/// What a Fill has sent is a filling of what it got, and there is no other.
pub fn fill_keeps_its_meaning()
    ensures filling { FillMeaning }
    ensures one { OneFilling }
{}

/// What a Count that has come to its end has sent: to its first output, where that is connected, what it got, and to its second one the
/// number of its Normal packets, if anything came.
pub fn count_keeps_its_meaning()
    ensures { CountMeaning }
{}

/// What a Brackets has sent is what it got, with each Normal packet that names a bracket replaced by that.
pub fn brackets_keeps_its_meaning()
    ensures { BracketsMeaning Brackets }
{}

/// What a Tally has sent is what it got, with each row of Normal packets with one text replaced by a packet that tells how many they were.
pub fn tally_keeps_its_meaning()
    ensures { TallyMeaning }
{}
