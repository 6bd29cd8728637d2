//! Is what is overdue a matter of the machine's state alone?
//!
//! A law without code. Knows the states of the engine and of the machine, and the items that are late; never a store.
//! Begin with `specs/Overdue.antt`.
#![tactic(auto)]

mod laws;

pub use laws::overdue_is_one;
