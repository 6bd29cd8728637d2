//! Do the worklists of a state hold exactly its open manual items, whatever transactions come?
//!
//! Each function here is a law: it takes nothing, does nothing, and its `ensures` is a statement
//! about the definitions, which is proved. `flow_core` proves what each transaction does to the
//! shelves, `item_laws` which items are open after it; the laws here put the two together.
//!
//! Begin with `specs/Shelved.antt` and `specs/Exact.antt`; then `specs/Laws.antt`.
#![tactic(auto)]

mod asked;
mod exact;
mod shelved;

pub use asked::{admitted_ask_open, verdicts_ask_open};
pub use exact::{replies_are_exact, worklists_are_exact};
pub use shelved::{blank_shelved, histories_stay_shelved, ranks_differ, stays_shelved};
