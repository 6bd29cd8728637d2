//! What do the words `check` and `fate` answer to a text?
//!
//! Knows the order of reading and judging, and what is printed; never a store, an engine or who asks. Begin with
//! [`fated`] and [`checked`], and with `specs/FateAnswers.antt`, which says what `fate` prints. What an
//! input keeps of the bytes of its source is said in `specs/Gathered.antt`, and what the lines behind its
//! text say in `specs/Completions.antt`.
#![tactic(auto)]

mod check;
mod completions;
mod counted;
mod fate;
mod input;
mod paths;

pub use check::{Answer, checked};
pub use fate::fated;
pub use input::{Input, MOST_BYTES, Numbered, all_lines};
