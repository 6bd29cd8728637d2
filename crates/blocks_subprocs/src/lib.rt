//! Which attempt is next, and what does an attempt or a scope read and give?
//!
//! Knows the containers of one scope and how its activities have ended; never messages or people.
//! Begin with [`next_attempt`] and [`base_input`].
#![tactic(auto)]

mod attempts;
mod inputs;

pub use attempts::{Next, graph_of, next_attempt};
pub use inputs::{base_input, first_input, next_input, output_of};
