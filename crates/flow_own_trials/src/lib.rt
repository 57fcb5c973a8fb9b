//! Trials of components of the caller's own: which process has which part, also where parts are made for a network, that
//! a part is dropped when its process ends, what a part can't do, their kinds in a network, the options of these,
//! players, and tape files byte by byte. Nothing uses it. Each test is proved like any function: it is safe, and it ends.
//! Runs of the kind Number, and replays by their tapes, are told by rows (`flow_rows`).
#![tactic(auto)]

#[cfg(test)]
mod drops;
#[cfg(test)]
mod kinds;
#[cfg(test)]
mod made;
#[cfg(test)]
mod marked;
#[cfg(test)]
mod offers;
#[cfg(test)]
mod options;
#[cfg(test)]
mod order;
#[cfg(test)]
mod played;
#[cfg(test)]
mod stray;
#[cfg(test)]
mod tapes;
