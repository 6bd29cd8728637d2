//! Is each transaction that a store admits as its next record one that a command makes?
//!
//! Laws without code. Knows the engine's state by the machine's view of it, and what a text that is accepted means;
//! never files or crashes. Begin with `specs/ApartLeaves.antt` (leaves that have names apart), then
//! `specs/Admission.antt`.
#![tactic(auto)]

mod laws;
