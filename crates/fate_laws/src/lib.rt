//! Which laws hold of the fates, whatever the process and its completions?
//!
//! Each function here is a law: it takes nothing, does nothing, and its `ensures` is a statement
//! about the definitions of `flow_model`, which is proved. Nothing here knows how fates are
//! computed, kept or shown, nor of messages and queues.
//!
//! Begin with `specs/Stability.antt`; `specs/WellFormed.antt` says which graphs the later laws are
//! about.
#![tactic(auto)]

mod bounds;
mod causes;
mod completions;
mod equations;
mod readiness;
mod stability;
mod wiring;

pub use bounds::{bound_is_free, root_bound_is_free};
pub use causes::{complete_has_fact, complete_has_given, root_has_fact};
pub use completions::{first_counts, outputs_tell_all};
pub use equations::{
    connector_values, fates_solve, fates_solve_below, fed_where_known, joins, only_fates_solve,
    step_keeps_ends, step_keeps_only_ends,
};
pub use readiness::{ready_counts, ready_is_new};
pub use stability::{
    completion_keeps_ends, completion_keeps_fates, completion_keeps_output, completions_add,
    ends_stay, fates_stay, outputs_stay,
};
pub use wiring::order_is_flow;
