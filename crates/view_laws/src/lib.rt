//! Which laws hold of the run of a root: of its messages, its queues and what its view shows?
//!
//! Each function here is a law: it takes nothing, does nothing, and its `ensures` is a statement
//! about the definitions, which is proved. Nothing here knows how a run is kept, served or shown,
//! nor which queue a message stands in: the laws hold for any rule.
//!
//! Begin with `specs/Messages.antt` and `specs/Runs.antt`, which say what is due after a run; then
//! `specs/Laws.antt`.
#![tactic(auto)]

mod causes;
mod messages;
mod next_events;
mod quiescence;
mod soundness;
mod stability;

pub use causes::complete_run_has_fact;
pub use messages::{exactly_once, turns_are_bounded};
pub use next_events::{
    begins_may_come, completions_may_come, ends_may_come, scopes_go_by_messages, signals_may_come,
    views_go_by_messages,
};
pub use quiescence::{order_free, quiet_root, quiet_scopes};
pub use soundness::{
    root_is_sound, scopes_are_sound, shown_fates_are_right, started_are_listed,
    started_scopes_are_reached,
};
pub use stability::{due_stays, view_fates_stay, view_stays};
