//! Which tree does a list of tokens have?
//!
//! Knows the grammar of process texts, not what its words mean: whether a name is known or a number is
//! in range is no question here. Begin with `items`, the items of a text; `activities`, `lines` and
//! `conditions` are their parts, and [`Cursor`] reads the tokens one by one.
//! The grammar stands in `specs/` under the same names, one case for each alternative, with the tree of each.
#![tactic(auto)]

mod activities;
mod conditions;
mod cursor;
mod items;
mod laws;
mod lines;

pub use cursor::{Cursor, SyntaxFault};
pub use items::parse;
pub use laws::trees_are_one;
