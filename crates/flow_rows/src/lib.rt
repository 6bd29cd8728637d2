//! Worked cases of the whole program in memory, as tests.
//!
//! A library without code of its own. Each table has the words, the input, what is printed and the status.
#![tactic(auto)]

#[cfg(test)]
mod checks;
#[cfg(test)]
mod fates;
#[cfg(test)]
mod people;
#[cfg(test)]
mod refusals;
#[cfg(test)]
mod scripts;
