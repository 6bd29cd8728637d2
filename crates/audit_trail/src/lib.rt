//! How is it written what happened to a root: [`audit`] appends the line of a transaction, [`write_message`]
//! the text of a message.
//!
//! Never knows what a transaction does, nor which ones are asked for. Begin with `specs/Lines.antt`, which
//! says each line.
#![tactic(auto)]

mod lines;

pub use lines::{audit, write_message};
