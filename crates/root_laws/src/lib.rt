//! Does a root go on being right, whatever becomes of it?
//!
//! Each function here is a law: it takes nothing, does nothing, and its `ensures` is a statement
//! about the definitions, which is proved. Nothing here knows how the roots or the queues of a
//! system are kept: the laws say of one root which run of its events it has had, by what became of
//! it and by which messages were put.
//!
//! Begin with `specs/RightRoots.antt`; then `specs/Becoming.antt` and `specs/Laws.antt`.
#![tactic(auto)]

mod right;
mod said;

pub use right::{
    completes_named, completes_right, holds_right, imports_right, mode_right, starts_right,
    stops_right, turns_named, turns_right,
};
pub use said::{open_items_are_awaited, quiet_roots_are_whole, right_roots_are_sound};
