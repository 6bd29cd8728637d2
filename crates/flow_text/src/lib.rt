//! How is a number, a name or a text spelled: each function appends the spelling to a reply.
//!
//! The crate never knows why it is printed. Begin reading with `specs/Spelling.antt`, which says
//! what the quoted forms are; of a number it is the library's `decimal`.
#![tactic(auto)]

mod number;
mod quoted;

pub use number::{decimal, signed};
pub use quoted::{quoted_name, quoted_text};
