//! Runs of the program in memory, for its tests: words, an input and a disk, and what the run prints and leaves.
//!
//! Code for tests alone; nothing of the program stands on it.
#![tactic(auto)]

mod case;
mod outcome;

pub use case::Case;
pub use outcome::{Outcome, Store, answer, new_store, run_over};
