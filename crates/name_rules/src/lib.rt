//! Which names after END are other ones, and what is declared twice (rules 4 and 5)?
//!
//! Knows the graphs of a text; never structures, members or libraries. Begin with [`end_name`].
#![tactic(auto)]

mod names;

pub use names::{duplicate, end_name};
