//! What does one message, or one completion, change in one instance?
//!
//! Knows the scopes of a root with what counts of their messages; never other instances, people's rights
//! or records. A change touches one scope, and what follows in others is sent to them. Begin with
//! [`Instance`]; `scopes` has a scope, `changes` what an event does to it, `runs` the laws of whole runs.
#![tactic(auto)]

mod changes;
mod holding;
mod instance;
mod runs;
mod scopes;
mod shown;

pub use changes::Effects;
pub use holding::holds_are_set;
pub use instance::{HoldChange, Instance, Item};
pub use runs::{completions_give, quiet_runs_are_whole, runs_are_right, runs_show, turns_give};
pub use scopes::place_of;
