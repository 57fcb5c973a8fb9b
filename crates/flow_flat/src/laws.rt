//! What joins the calls of a builder to the plan of a text.
ghost use Rattle.flow_flat.specs.Laws.{ToldIsSaid, SaidIsTold, ComesToSome, ComesToOne, TextComesToSome, TextComesToOne, StandInOrder, IsOwnFlat, FileNetworkIsSome, FileNetworkIsOne};

/// A builder that is told a flat text, its processes and then its statements, gives the plan of that
/// text or its first fault, and nothing else.
pub fn a_builder_gives_the_plan_of_its_text()
    ensures told { ToldIsSaid }
    ensures said { SaidIsTold }
{}

/// A flat text has one plan or one fault, and not both.
pub fn a_flat_text_has_one_outcome()
    ensures some { ComesToSome }
    ensures one { ComesToOne }
{}

/// A text, subnets included, has one plan or one fault, and not both.
pub fn a_text_has_one_outcome()
    ensures some { TextComesToSome }
    ensures one { TextComesToOne }
{}

/// A file, whatever its bytes are, has the fault of a line, the fault of its network or a plan: one of
/// these, and not two.
pub fn a_file_has_one_network()
    ensures some { FileNetworkIsSome }
    ensures one { FileNetworkIsOne }
{}

/// The flat text of a text without subnets is its main part, and the statements of any text stand in the
/// order of its processes.
pub fn a_flat_text_is_in_order()
    ensures order { StandInOrder }
    ensures own { IsOwnFlat }
{}
