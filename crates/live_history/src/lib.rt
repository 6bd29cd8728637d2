//! The history of the roots: the live transactions in order, and those about one root.
//!
//! Knows which root a transaction names, and which transactions a DELETE takes away; never what a transaction does.
//! Begin with [`History`] and `specs/Transactions.antt`.
#![tactic(auto)]

mod copies;
mod history;
mod kept_rows;
mod transactions;
mod walk;

pub use history::History;
pub use transactions::{deleted_root, is_about, root_of, started_root, transaction_root};
pub use walk::Walk;
