//! Do the live transactions, which a checkpoint keeps, lead to the very state that it was taken of?
//!
//! Laws without code. Knows the states of the machine and their live transactions, and what the bytes of a store stand
//! for; never files. Begin with `specs/Compact.antt` (a state that its live transactions make again), then
//! `specs/Checkpoints.antt`.
#![tactic(auto)]

mod laws;
