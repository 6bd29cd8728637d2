//! Cases of the crates of the base: bytes, words, numbers, names, orders of nodes.
//!
//! A library without code of its own.
#![tactic(auto)]

#[cfg(test)]
mod crashes;
#[cfg(test)]
mod graphs;
#[cfg(test)]
mod keywords;
#[cfg(test)]
mod levels;
#[cfg(test)]
mod lines;
#[cfg(test)]
mod numbers;
#[cfg(test)]
mod paths;
#[cfg(test)]
mod spelling;
