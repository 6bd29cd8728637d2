//! Cases of the crates of the store: records, journals, moves, files.
//!
//! A library without code of its own.
#![tactic(auto)]

#[cfg(test)]
mod files;
#[cfg(test)]
mod moves;
#[cfg(test)]
mod records;
#[cfg(test)]
mod stores;
