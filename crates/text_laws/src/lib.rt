//! Is a text judged in one way, and does it mean one thing?
//!
//! Each function here is a law: it takes nothing, does nothing, and its `ensures` is a statement
//! about the definitions, which is proved. The compiler promises a verdict and a meaning of each
//! text; here no text has two.
//!
//! Begin with `specs/OneJudgement.antt`; then `specs/OneMeaning.antt`.
#![tactic(auto)]

mod judgements;
mod meanings;

pub use judgements::{refusals_are_one, refused_are_not_faultless, texts_have_one_tree};
pub use meanings::{conditions_are_one, graphs_are_one, people_are_one, templates_are_one};
