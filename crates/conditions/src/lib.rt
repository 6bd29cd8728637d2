//! What is the value of a condition, and does it suit the leaves that it reads?
//!
//! Knows conditions, as they are written and as they are resolved, and containers; never connectors,
//! activities or texts as a whole. Begin with `truth`, the value of a resolved condition, and go on to
//! `resolving`, which makes one from a written one, and `faults`, which says why none can be made.
#![tactic(auto)]

mod faults;
mod resolving;
mod truth;

pub use faults::{Size, first_mismatch, first_number_fault, first_unknown, size_of};
pub use resolving::{TypeFault, resolve};
pub use truth::{holds, value};
