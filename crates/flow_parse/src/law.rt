//! That each file has one outcome.
ghost use Rattle.flow_parse.specs.Outcomes.{FileComesToSome, FileComesToOne};

/// A file, whatever its bytes are, spells one value or has one fault, and not both.
pub fn a_file_has_one_outcome()
    ensures some { FileComesToSome }
    ensures one { FileComesToOne }
{}
