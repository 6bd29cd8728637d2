//! How is a transaction kept as bytes: [`encode`] writes its record, [`decode`] reads it back.
//!
//! Never knows what a transaction does, nor where its record lies. Begin with `specs/Records.antt`,
//! which says the bytes of each kind, and `specs/Ranges.antt`, which says which transactions have a record.
#![tactic(auto)]

mod faults;
mod fields;
mod fitting;
mod reading;
mod writing;

pub use faults::RecordFault;
pub use fitting::fits;
pub use reading::{decode, is_turn};
pub use writing::{encode, encode_into};
