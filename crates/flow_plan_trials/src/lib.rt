//! Trials of the builder of plans, `flow_net`: what it refuses, beside a neighbour that it accepts, and a whole plan.
//! Nothing uses it: its tests show worked rows that no clause says. Each test is proved like any function: it is safe,
//! and it ends.
#![tactic(auto)]

#[cfg(test)]
mod automatic;
#[cfg(test)]
mod calls;
#[cfg(test)]
mod checks;
#[cfg(test)]
mod connections;
#[cfg(test)]
mod kinds;
#[cfg(test)]
mod optional;
#[cfg(test)]
mod plans;
#[cfg(test)]
mod processes;
#[cfg(test)]
mod texts;
