//! What is a state of the engine, what does each transaction make of it, and what is replied?
//!
//! Definitions without code. Knows nothing of how a state is kept in memory or stored. Begin with `specs/States.antt`
//! (the state) and `specs/Steps.antt` (the step); `specs/Moves.antt` says what an event does to the scopes of one root,
//! `specs/Scripts.antt` what the replies to a script are.
#![tactic(auto)]

mod laws;
