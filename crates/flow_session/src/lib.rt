//! One line in, one reply out, in the right order with the journal.
//!
//! Knows lines, commands and replies, and that each transaction is kept before it is answered; never
//! graphs, tokens or gates. Begin with [`Session`].
#![tactic(auto)]

mod draining;
mod journal;
mod laws;
mod live_payloads;
mod opening;
mod serving;
mod store;

pub use journal::{Journal, NoJournal};
pub use laws::{
    answered_is_kept, inputs_are_replies, scripts_are_replies, scripts_are_runs,
    scripts_have_one_list, scripts_keep_right, scripts_make_what_is_asked,
};
pub use opening::{open, reopen};
pub use serving::{Input, Session, Stop};
pub use store::Stored;
