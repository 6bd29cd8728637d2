//! Is whatever a crash leaves of a run of the program opened again, to a state to which commands led?
//!
//! Laws without code, over the clause of the top call (`RunIsCorrect` of `flow_words`). Knows what a run does to a
//! store, and which images are a state's own; never how. Begin with `specs/Lives.antt`, then `specs/Runs.antt` and
//! `specs/Follows.antt`.
#![tactic(auto)]

mod laws;
