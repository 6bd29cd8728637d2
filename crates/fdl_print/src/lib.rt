//! How is a tree written, in one way for each?
//!
//! Knows the order of the words of each construct, and no rule. Begin with [`canonical`], and with
//! `specs/Canonical.antt`, which says its text: `specs/Pieces.antt` has the lines, the other files the tokens.
//! That the text reads back as the tree that it was written from is the law [`reads_back`], in `specs/Laws.antt`.
#![tactic(auto)]

mod conditions;
mod elements;
mod items;
mod laws;
mod printer;

pub use items::canonical;
pub use laws::reads_back;
