//! Cases of the crates of the language: tokens, canonical texts, imports.
//!
//! A library without code of its own.
#![tactic(auto)]

#[cfg(test)]
mod classes;
#[cfg(test)]
mod imports;
#[cfg(test)]
mod printing;
#[cfg(test)]
mod tokens;
