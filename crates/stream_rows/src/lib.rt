//! Streams to the byte, and what a second store keeps of them, as tests over a disk in memory.
//!
//! A library without code of its own.
#![tactic(auto)]

#[cfg(test)]
mod batches;
#[cfg(test)]
mod streams;
