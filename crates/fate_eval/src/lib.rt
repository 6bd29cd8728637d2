//! What follows from the accepted completions alone?
//!
//! A pass over each scope in the order of its graph, and down into blocks and subprocesses. Knows nothing
//! of messages, turns, holds or people: it is the yardstick of the engine that does. Begin with [`fates`].
#![tactic(auto)]

mod accepted;
mod passes;
mod results;
mod scopes;

pub use passes::fates;
pub use results::{FateFault, Fates};
