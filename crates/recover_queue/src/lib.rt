//! Which message comes next: up to 16 queues of messages, each first in, first out.
//!
//! Never knows what a message does, nor which queue it belongs to. Begin with `specs/Queues.antt`, and
//! read on in `queues`.
#![tactic(auto)]

mod queue;
mod queues;

pub use queues::Queues;
