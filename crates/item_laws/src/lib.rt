//! Which items of a root are open after an event?
//!
//! Each function here is a law: it takes nothing, does nothing, and its `ensures` is a statement
//! about the definitions, which is proved. Nothing here knows how open items are listed: the laws
//! say of one root which item is open at each path, before and after.
//!
//! Begin with `specs/OpenItems.antt`; then `specs/Laws.antt` and `specs/Performers.antt`.
#![tactic(auto)]

mod events;
mod none_open;
mod performers;

pub use events::{completions_move_items, holds_move_no_item, messages_move_items};
pub use none_open::{done_roots_have_no_item, fresh_scopes_have_no_item};
pub use performers::{
    completions_keep_performers, holds_keep_performers, messages_keep_performers,
    open_items_keep_performers, sources_are_settled,
};
