//! The order of the ready line: laws of its rule.
ghost use Rattle.flow_runner.specs.Orders.{ClosesInOrder, EachIsInOrder, OneKnowsAll, PlacesAreOnes, PopsArePushes, SeveralAreNotTold};

/// Each push is that of one pass, and so is each pop; what is popped as the k-th was pushed as the k-th, whoever did either; each pass knows where its own
/// stand; and the only pass knows all. `Line::push`, `pop` and `close` speak of the places.
pub fn each_place_of_a_line_is_one_passes()
    ensures places { PlacesAreOnes }
    ensures order { PopsArePushes }
    ensures each { EachIsInOrder }
    ensures alone { OneKnowsAll }
{}

/// What `Line::close` says of all passes of a line it says of any two: what the one popped as the k-th the other pushed as the k-th, if either did; and no
/// push is both's, and no pop.
pub fn a_closed_line_was_first_in_first_out()
    ensures { ClosesInOrder }
{}

/// Why a call that fails says nothing of a line with several passes: whatever one of them has pushed and popped, the others may have popped all that was there,
/// and may have filled the line.
pub fn several_passes_are_never_told()
    ensures { SeveralAreNotTold }
{}
