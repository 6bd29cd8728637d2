//! How does the live part of a store move to the other slot, so that no crash can lose or double a
//! record?
//!
//! The other slot's gate is closed, then its header and the kept records are written behind it, then
//! the gate is opened: from then on that slot counts, since its generation is the greater one. Until
//! then the slot before it counts, and nothing of it is touched. The crate never knows what a record
//! means, nor which ones are kept.
//!
//! Begin reading with `compact` in `compacting.rt`, then with `specs/Compacting.antt`, which says
//! what a crash may leave. `writing.rt` writes the body behind the closed gate.
#![tactic(auto)]

mod compacting;
mod payloads;
mod stops;
mod writing;

pub use compacting::compact;
pub use payloads::Payloads;
pub use stops::MoveStop;
