//! Which tokens does a text have?
//!
//! The crate knows the bytes of blanks, comments and tokens. It never knows which tokens may follow
//! one another, nor whether a text comes from a file or a command line. Begin with `specs/Tokens.antt`
//! (what a token is) and `lexer` (the whole text); `scan` reads one token.
#![tactic(auto)]

mod bytes;
mod gap;
mod kinds;
mod laws;
mod lexer;
mod quoted;
mod scan;

pub use kinds::{LexFault, Mark, Token, Tokens, What};
pub use laws::one_outcome;
pub use lexer::{lex, lex_allowed};
pub use quoted::text_value;
