//! Is each record of a history that commands made admitted when its store is opened again?
//!
//! Laws without code. Knows the engine's state by the machine's view of it, and the records of a slot; never files or
//! crashes. Begin with `specs/Making.antt` (a history that commands make), then `specs/Reopening.antt`.
#![tactic(auto)]

mod laws;
