//! Does each state of a history that commands made stand in range, so that the next transaction can be read back?
//!
//! Laws without code, over the machine and over what a session makes. Begin with `specs/Bounds.antt` (graphs and
//! templates in bounds), then `specs/Standing.antt` (what each step keeps) and `specs/Laws.antt`; of sessions with
//! `specs/Sessions.antt`.
#![tactic(auto)]

mod laws;
