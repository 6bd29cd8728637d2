//! What is told of a slot without its records.
use crate::header::Header;

/// A good slot: its header, the number of its records and the place of the closed gate that ends
/// them.
#[derive(Clone, Copy, Debug, PartialEq, Eq)]
pub struct Frame {
    pub header: Header,
    pub records: u64,
    pub end: u64,
}

/// The judgement of one slot, without its records.
#[derive(Clone, Copy, Debug, PartialEq, Eq)]
pub enum Outline {
    Unmade,
    Foreign,
    Damaged(u64),
    Good(Frame),
}
