//! In which one order do nodes stand by the longest walk that leads to each?
//!
//! A graph has many orders in which each edge goes forward; the one here follows from the graph
//! alone. What the nodes stand for is never known here.
//!
//! Begin with `specs/Levels.antt`, which says what the level of a node and a level order are; then
//! `level_order`, and the law `one_level_order`.
#![tactic(auto)]

mod laws;
mod levels;
mod orders;
mod rows;

pub use laws::one_level_order;
pub use orders::level_order;
