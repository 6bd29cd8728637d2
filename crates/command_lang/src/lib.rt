//! Which command, or which completion, does a line say?
//!
//! Knows the words of commands and the tokens of lines, not whether a command is allowed. Begin with
//! [`Reader::command`] and `specs/Reading.antt`; `specs/Grammar.antt` has the commands one by one.
#![tactic(auto)]

mod grammar;
mod reading;

pub use reading::{CommandFault, Reader, read_command, read_completion};
