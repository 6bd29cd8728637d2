//! A map from numbers to values, made for numbers that rise: a new number mostly goes behind the others, and is mostly
//! found where it would stand if none had ever been taken away.
//!
//! Never knows what the numbers and the values are. Begin with `specs/Entries.antt`, and read on in `map`.
#![tactic(auto)]

mod iter;
mod map;
mod place;

pub use iter::Iter;
pub use map::NumberMap;
