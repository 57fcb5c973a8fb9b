//! What tape files are to tapes: a law, as the contract of a function that does nothing.

ghost use Rattle.std.specs.Prelude.{ℕ, ◌<◌, get_or};
ghost use Rattle.flow_tape.specs.Faults.{AreCutUp, HasOneList, HasTapesOrFault, HasOneFault, BeginsNoFile};

/// Tapes have one file, by its definition; a file is that of one list of tapes. What has a fault is the file of no tapes, has that one fault,
/// and, if the fault isn't its end, begins no file either.
pub fn a_file_has_one_list_of_tapes_or_one_fault()
    ensures fields { AreCutUp }
    ensures tapes { HasOneList }
    ensures apart { HasTapesOrFault }
    ensures fault { HasOneFault }
    ensures begins { BeginsNoFile }
{}

// Bytes are numbers below 256.
pub(crate) fn bytes_are_small(bytes: &[u8])
    ensures { (i : ℕ) → get_or bytes.now i 0 < 256 }
{
    let _ = bytes;
}
