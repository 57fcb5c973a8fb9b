//! Trials of calls below the top calls: that a journal's file is judged by its header before the rest of it
//! is read; and of the limits, which no contract can compare with what the documents tell. Nothing uses it: its tests
//! show worked values, and that calls succeed with ample memory. Each test is proved like any function: it is safe, and
//! it ends. What the top calls themselves do is told by rows (`flow_rows`).
#![tactic(auto)]

#[cfg(test)]
mod journal_files;
#[cfg(test)]
mod limits;
