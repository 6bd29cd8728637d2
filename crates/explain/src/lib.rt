//! Why is an activity dead or finished: what is said for it, and what do the words `explain` and `verify` print?
//!
//! A certificate is a list of lines, each of which follows from those before it, from the template and from
//! the accepted completions. [`explain`] makes one from what the engine shows, and gives none that the crate
//! `certificates`, which knows nothing of the engine, doesn't accept. Begin with `making`, and go on to `words`.
#![tactic(auto)]

mod checking;
mod graphs;
mod making;
mod words;

pub use making::{ExplainFault, explain};
pub use words::{explain_word, verify_lines};
