//! Has what is so by the completions a justified certificate?
//!
//! Each function here is a law: it takes nothing, does nothing, and its `ensures` is a statement about the
//! definitions of `certificates`, `explain`, `machine` and `flow_model`, which is proved. Begin with
//! `specs/Certified.antt`.
#![tactic(auto)]

mod laws;

pub use laws::{
    cert_lines_are_one, certified_are_right, histories_are_read, settled_are_certified,
    verifications_are_one,
};
