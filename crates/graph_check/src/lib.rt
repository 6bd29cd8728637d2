//! In which order can the nodes of a directed graph stand, and which of them reach which?
//!
//! Nodes are the numbers below `nodes`, and an edge is a pair of them, from its first to its
//! second. What they stand for, activities, structures or anything else, is never known here.
//!
//! Begin with `specs/Walks.antt`, which says what a walk, a closed walk and an order are; then
//! `order` and `reaching`; then `specs/Components.antt` and `components`. Each call takes time
//! linear in nodes and edges.
#![tactic(auto)]

mod faults;
mod orders;
mod reach;
mod search;
mod sources;
mod strong;

pub use faults::GraphFault;
pub use orders::order;
pub use reach::{reaches, reaching};
pub use strong::{components, cyclic_edges};
