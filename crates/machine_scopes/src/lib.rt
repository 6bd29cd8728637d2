//! Does the navigator change the scopes of a root exactly as the machine does?
//!
//! Laws without code. Knows one root at a time; never other roots, queues or commands. Begin with `specs/Seen.antt`
//! (the scopes of a root as the machine sees them) and `specs/Turns.antt` (the laws).
#![tactic(auto)]

mod laws;
