//! How are fates, leaves, values and the parts of replies written?
//!
//! Knows the spelling of what replies show, never when it is shown. Each call appends
//! exactly the text that `specs/Replies.antt` (fates, rows) and `specs/Leaves.antt` (containers) say; without
//! memory a part of it may have been appended. Begin with these.
#![tactic(auto)]

mod containers;
mod fates;

pub use containers::write_container;
pub use fates::{write_fate, write_mode, write_phase, write_quoted_path, write_row};
