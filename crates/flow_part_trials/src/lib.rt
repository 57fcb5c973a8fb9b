//! Trials of what a run is made of: lists, packets in the hands, brackets, components, those that work by line, and journals,
//! each in the file that is named after it. Nothing uses it: its tests show worked values, and that calls succeed with ample memory. Each test
//! is proved like any function: it is safe, and it ends.
#![tactic(auto)]

#[cfg(test)]
mod brackets;
#[cfg(test)]
mod hands;
#[cfg(test)]
mod journals;
#[cfg(test)]
mod lines;
#[cfg(test)]
mod lists;
#[cfg(test)]
mod maps;
#[cfg(test)]
mod passers;
#[cfg(test)]
mod picks;
#[cfg(test)]
mod pieces;
#[cfg(test)]
mod readers;
#[cfg(test)]
mod standard;
