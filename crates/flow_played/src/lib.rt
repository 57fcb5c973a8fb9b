//! A run of a network with components of the caller's own is also a run of the network in which each of them is
//! replaced by the player of its tape. The promises of the top calls in `flow_cli` speak of that network, and a replay
//! runs it, with `Played` for its components. The laws are the contracts of the functions in `laws`, and of those in
//! `plain`, by which a network without components of the caller's own runs as it does by itself.
#![tactic(auto)]

mod laws;
mod no_part;
mod plain;
mod played;

pub use laws::{
    a_run_is_one_of_its_players, a_run_of_parts_is_one_of_players, parts_stay_parts,
    players_are_told_of, players_come_to_one_outcome, players_end_as_the_parts_did,
    players_start_well,
};
pub use plain::{
    a_network_without_own_components_runs_as_it_is,
    a_network_without_own_components_tells_as_it_is, components_without_own_ones_are_others,
};
pub use played::Played;
