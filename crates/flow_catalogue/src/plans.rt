//! What a plan over the table of the standard kinds is.
ghost use Rattle.flow_catalogue.specs.Plans.{OverIsStandard, OverIsStandardOrMore, FirstFits};

/// A valid plan over the standard kinds has standard processes alone, with the options, the numbers of
/// elements and the connections that `file_of` and `make` ask for.
pub fn a_plan_over_the_table_is_standard()
    ensures { OverIsStandard }
{}

/// Where more kinds stand behind the standard ones in the table, each process is a standard one, or of one
/// of those, with as many inputs and outputs as its kind's ports say.
pub fn a_plan_over_more_kinds_is_standard_beside_them()
    ensures { OverIsStandardOrMore }
{}

/// The component of a process of a standard kind, in its first state, fits the process.
pub fn a_first_component_fits()
    ensures { FirstFits }
{}
