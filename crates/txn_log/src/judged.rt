//! What is found in a slot that is good.
ghost use Rattle.std.specs.Prelude.{◌+◌, ◌*◌, ◌≤◌, length};

use crate::header::Header;
use crate::slot_records::SlotRecords;

/// A good slot: its header, its records and the place of the closed gate that ends them.
#[derive(Drop)]
pub struct Body {
    pub header: Header,
    pub records: SlotRecords,
    pub end: u64,
    pub ghost bounded: { end ≤ 42 + 2097157 * length records },
}
