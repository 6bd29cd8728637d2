//! Does a root mean the same when templates are put behind those of its library?
//!
//! Each function here is a law: it takes nothing, does nothing, and its `ensures` is a statement
//! about the definitions, which is proved. Nothing here knows how templates are imported or kept:
//! the laws hold of any two libraries of which the larger has the templates of the smaller at the
//! same places.
//!
//! Begin with `specs/Larger.antt`; then `specs/Laws.antt`.
#![tactic(auto)]

mod roots;
mod scopes;

pub use roots::{
    library_keeps_driven, library_keeps_messages, library_keeps_roots, library_keeps_runs,
    longer_agrees,
};
pub use scopes::{
    library_keeps_due, library_keeps_ends, library_keeps_form, library_keeps_items,
    library_keeps_rows, library_keeps_view,
};
