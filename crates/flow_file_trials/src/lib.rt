//! Trials of what is read and written, where no row can tell it (`flow_rows`): real files, lines and numbers, faults in
//! words, patterns at their limits, the names that are none, and a drawing, each in the file that is named after it. Nothing uses it: its tests
//! show worked values, exact texts, and that calls succeed with ample memory. Each test is proved like any function: it
//! is safe, and it ends.
#![tactic(auto)]

#[cfg(test)]
mod drawings;
#[cfg(test)]
mod expanded;
#[cfg(test)]
mod files;
#[cfg(test)]
mod parsed;
#[cfg(test)]
mod patterns;
#[cfg(test)]
mod texts;
