//! Trials of whole networks, one turn after another, on a net and on a floor. Nothing uses it: its tests show worked
//! rows that no clause says, with values known from elsewhere. Each test is proved like any function: it is safe, and
//! it ends.
#![tactic(auto)]

#[cfg(test)]
mod by_hand;
#[cfg(test)]
mod circle;
#[cfg(test)]
mod determined;
#[cfg(test)]
mod floor;
#[cfg(test)]
mod levels;
#[cfg(test)]
mod loads;
#[cfg(test)]
mod passes;
#[cfg(test)]
mod replays;
#[cfg(test)]
mod telegram;
