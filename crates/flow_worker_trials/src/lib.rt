//! Trials of workers, where no row can tell it (`flow_rows`): worked networks of whose runs more than one thing may come,
//! a run that is paused, the line of ready processes, and a gate that no single thread gets through. Nothing uses it: its
//! tests show what no contract can say, that workers run at one time. Each test is proved like any function, but for its
//! end, since it waits for threads.
#![tactic(auto)]

#[cfg(test)]
mod gates;
#[cfg(test)]
mod line;
#[cfg(test)]
mod paused;
#[cfg(test)]
mod rows;
