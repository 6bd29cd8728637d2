//! Do all roots of a state go on being right, whatever transactions come?
//!
//! Each function here is a law: it takes nothing, does nothing, and its `ensures` is a statement
//! about the definitions, which is proved. The laws go from what a transaction does to a state, which
//! `flow_core` proves of its calls, to the run of events that each live root has had.
//!
//! Begin with `specs/RightStates.antt`; then `specs/Laws.antt`.
#![tactic(auto)]

mod states;

pub use states::{
    begins_right, done_outputs_are_right, histories_are_right, messages_are_once,
    quiet_states_are_whole, right_states_are_sound, served_together, stays_right,
    turns_are_bounded,
};
