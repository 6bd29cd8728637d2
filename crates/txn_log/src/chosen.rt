//! The slot that counts.
use crate::judged::Body;
use flow_disk::Slot;

/// The slot that counts, and what stands in it.
#[derive(Drop)]
pub struct Chosen {
    pub slot: Slot,
    pub body: Body,
}
