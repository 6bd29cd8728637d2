//! Does each text that breaks no rule mean something?
//!
//! Laws without code. Knows the text's rules and what a text means; never instances or disks. Begin with
//! `specs/Meanings.antt`.
#![tactic(auto)]

mod laws;
