//! Is a command allowed now, and what is the state after it?
//!
//! Knows the library, the roots, the queues and the worklists, and the live transactions; never bytes on
//! a disk. [`Core::judge`] reads and never writes, and what it gives [`Core::apply`] can't refuse. Begin with
//! `state`, and go on to `judging`, `applying` and `answering`.
#![tactic(auto)]

mod adopting;
mod answering;
mod applying;
mod item_changes;
mod item_commands;
mod items;
mod judging;
mod listings;
mod open_items;
mod paths;
mod refusals;
mod root_changes;
mod shelving;
mod state;
mod views;
mod words;

pub use adopting::AdoptFault;
pub use answering::write_applied;
pub use applying::{Applied, Note};
pub use judging::Verdict;
pub use open_items::OpenItem;
pub use refusals::{Refusal, write_refusal};
pub use state::Core;
pub use views::RootFacts;
