//! Which bytes come in and go out, and did the outside fail.
//!
//! `Lines` reads the lines of any `Source`, and `put_all` writes to any `Sink`. Both are met by
//! standard input and output, which tell nothing of their bytes, and by two in memory, which tell
//! everything and fail at the calls that a test lists. The crate never knows what a line means.
//!
//! Begin reading with the two traits in `outside.rt`, then with `specs/Inputs.antt`, which says
//! what the lines of a script are.
#![tactic(auto)]

mod lines;
mod memory;
mod outside;
mod standard;

pub use lines::{IoStop, Line, Lines, MAX_LINE};
pub use memory::{MemSink, MemSource};
pub use outside::{Failed, Sink, Source, put_all};
pub use standard::{StdSink, StdSource};
