//! Cases of the crates of the engine, one part at a time.
//!
//! A library without code of its own.
#![tactic(auto)]

#[cfg(test)]
mod audits;
#[cfg(test)]
mod completions;
#[cfg(test)]
mod histories;
#[cfg(test)]
mod queues;
#[cfg(test)]
mod replies;
#[cfg(test)]
mod states;
#[cfg(test)]
mod worklists;
