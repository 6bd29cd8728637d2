//! Which words does the program know, and what does each print?
//!
//! Knows the words of the command line and the order of reading, judging and printing; never graphs,
//! tokens or gates. Begin with [`run`], and with `specs/Correct.antt`, which says what a run does.
#![tactic(auto)]

mod following;
mod load;
mod looking;
mod numbers;
mod pure;
mod refusing;
mod script;
mod status;
mod stored;
mod word;

pub use status::Status;
pub use stored::run;
