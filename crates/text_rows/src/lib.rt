//! Texts that `check` accepts or refuses, as tests: each rule, each token, each limit.
//!
//! A library without code of its own.
#![tactic(auto)]

#[cfg(test)]
mod limits;
#[cfg(test)]
mod rules;
#[cfg(test)]
mod syntax;
