//! What follows from the definitions: each law is the contract of a function that does nothing.
ghost use Rattle.flow_decimal.specs.Laws.{SpellingReadsBack, SumsCommute, LengtheningKeeps};

/// Whoever reads the spelling of a number has that number, with the same digits behind the point.
pub fn spelling_reads_back()
    ensures { SpellingReadsBack }
{}

/// A number with more zeros behind its point is equal to what it was.
pub fn lengthening_keeps()
    ensures { LengtheningKeeps }
{}

/// The order of two numbers doesn't matter to their sum.
pub fn sums_commute()
    ensures { SumsCommute }
{}
