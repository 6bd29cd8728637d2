//! What does a right state say of the scopes inside its roots, at every depth?
//!
//! Each function here is a law: it takes nothing, does nothing, and its `ensures` is a statement
//! about the definitions, which is proved. `core_laws` says the same of the scopes of the roots
//! themselves; here a path leads on into blocks and subprocesses, attempt by attempt.
//!
//! Begin with `specs/Scopes.antt`; then `specs/Laws.antt`.
#![tactic(auto)]

mod scopes;

pub use scopes::{
    quiet_roots_are_order_free, quiet_roots_say_all, quiet_scopes_are_there,
    quiet_scopes_are_whole, quiet_states_have_quiet_roots, scopes_are_sound,
};
