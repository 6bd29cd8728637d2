//! The keywords, and how each is spelled.
//!
//! The crate knows one fixed set of words and how to look a word up in it. It doesn't know why a word is read or
//! printed. Begin with `specs/Spelling.antt`, which spells them, and go on to `keyword`.
#![tactic(auto)]

mod keyword;

pub use keyword::Keyword;
