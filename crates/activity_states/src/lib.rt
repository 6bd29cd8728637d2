//! One program activity: its completions, its fate, and who holds its next attempt.
//!
//! Never knows other activities, conditions or people's roles. Begin with `specs/States.antt`, which says
//! what a state is and what each call makes of it.
#![tactic(auto)]

mod states;

pub use states::ProgramState;
