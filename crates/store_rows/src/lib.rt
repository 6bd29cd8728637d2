//! Stores to the byte, faults of source, sink and disk, and certificates, as tests over a disk in memory.
//!
//! A library without code of its own.
#![tactic(auto)]

#[cfg(test)]
mod audits;
#[cfg(test)]
mod faults;
#[cfg(test)]
mod stores;
