//! The floor's calls, one by one: two workers over a reader and a writer, in one thread.
mod calls;
mod opened;
mod steps;
