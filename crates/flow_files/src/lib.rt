//! How do two real files serve as the two slots of a disk?
//!
//! `FileDisk` makes the calls of `Disk` on two files by their paths. What the files hold, and what
//! a crash leaves of them, is not told: known are the cause of each fault, what the disk may do,
//! and which file needs no sync. The crate never knows what the bytes mean.
//!
//! Begin reading with `specs/Known.antt`, then with `FileDisk` in `files.rt`; `opening.rt` says
//! which files are opened, and `slot_file.rt` how they are written.
#![tactic(auto)]

mod access;
mod calls;
mod files;
mod opening;
mod room;
mod slot_file;

pub use access::Access;
pub use files::FileDisk;
