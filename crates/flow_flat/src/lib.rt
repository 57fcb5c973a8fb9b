//! What network a text is, said of the text itself. `flow_expand` makes that network's plan, and the top call's
//! contract names it by the definitions here. There is no code but laws, in `laws`: a text has one plan or one fault.
#![tactic(auto)]

mod fault;
mod laws;

pub use fault::ExpandFault;
pub use laws::{
    a_builder_gives_the_plan_of_its_text, a_file_has_one_network, a_flat_text_has_one_outcome,
    a_flat_text_is_in_order, a_text_has_one_outcome,
};
