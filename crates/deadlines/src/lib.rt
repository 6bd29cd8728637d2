//! Which open items are late, by how many minutes, and who is to be notified of each?
//!
//! Knows the open items of a state, its clock and its people; never how an item became open, nor any
//! byte of a store. Begin with [`overdue`].
#![tactic(auto)]

mod late;
mod laws;
mod text;

pub use late::{Late, overdue};
pub use laws::goes_by_the_state;
pub use text::overdue_text;
