//! Which bytes stand in the two slots of a disk, which may stand there after a crash, and did the
//! disk fail?
//!
//! `Disk` is what a log writes to. A disk in memory meets it, which tells everything, fails at the
//! calls that a test lists, and gives what a crash may leave. The crate never knows what the bytes
//! mean.
//!
//! Begin reading with the trait in `disk.rt`, then with `specs/Images.antt` and
//! `specs/Moments.antt`, which say what a crash may leave; `specs/Replay.antt` says it of the disk
//! in memory. `proofs/Runs.antt` is for callers: it joins what single calls leave to what a run of
//! them leaves.
#![tactic(auto)]

mod change;
mod counts;
mod disk;
mod kept;
mod memory;

pub use disk::{Disk, Failed, Slot};
pub use memory::MemDisk;
