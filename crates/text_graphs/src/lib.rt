//! Which graphs does a text have, and what do the names in them stand for?
//!
//! Knows trees of texts; never rules or libraries. Begin with [`text_scopes`]: each process, and each block
//! inside, is a [`Scope`], whose names are numbered and whose connectors are edges of a graph.
#![tactic(auto)]

mod edges;
mod least;
mod scopes;
mod text_graphs;

pub use edges::{Edges, is_marked};
pub use least::{Repeats, lesser};
pub use scopes::{Scope, block_elements, narrow, small};
pub use text_graphs::{processes, text_scopes};
