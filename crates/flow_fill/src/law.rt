//! What a filled file is.
ghost use Rattle.flow_fill.specs.Laws.{AFilledFileHasNoWords, AWordsLineBecomesItsText, AnOuterInputBecomesAText, LinesKeepTheirPlaces, OtherLinesStay};

/// A word's line, read by the grammar of network files, becomes the text of its word at the same port.
pub fn a_words_line_becomes_its_text()
    ensures { AWordsLineBecomesItsText }
{}

/// An `inport` line as subnets have it says in the main part a text.
pub fn an_outer_input_becomes_a_text()
    ensures { AnOuterInputBecomesAText }
{}

/// Each other line stays as it is.
pub fn other_lines_stay()
    ensures { OtherLinesStay }
{}

/// A fault of a filled line is one of the file's line of the same number.
pub fn lines_keep_their_places()
    ensures { LinesKeepTheirPlaces }
{}

/// No word of a file of version 3 is left, and its version stays.
pub fn a_filled_file_has_no_words()
    ensures { AFilledFileHasNoWords }
{}
