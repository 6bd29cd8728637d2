//! Which records does a store hold, and how is one added so that no crash can lose or double any?
//!
//! A log stands on one of the two slots of a disk. A slot has a header and records behind it; each
//! record and the slot itself have a gate, one byte, that is written alone and last. So a crash at
//! any moment leaves the records from before a call, with the new one or without. The crate never
//! knows what the payload of a record means.
//!
//! Begin reading with `specs/Stored.antt`, which says what the bytes of a slot stand for, then with
//! `specs/Stores.antt`, which says it of both slots, and with `Log` in `log.rt`. The steps of
//! `steps.rt` are for the log and for whoever writes the other slot; what holds between two of them
//! stands in `specs/Steps.antt`.
#![tactic(auto)]

mod batch;
mod choosing;
mod chosen;
mod header;
mod judged;
mod judging;
mod log;
mod opening;
mod outline;
mod reading;
mod slot_records;
mod steps;
mod stops;

pub use batch::Batch;
pub use header::{Header, header_bytes};
pub use log::Log;
pub use opening::Opened;
pub use slot_records::{Record, RecordsLeft, SlotRecords};
pub use steps::{MAX_PAYLOAD, open_body, other_slot, shut};
pub use stops::{LogStop, StoreFault};
