//! Which rule does a process text break first, and what does it compile to where it breaks none?
//!
//! Knows texts, their trees and the library of earlier imports; never instances or disks. Begin with
//! [`compile`]. A rule is judged only where no rule below it is broken, so the crates of rules are asked in
//! this order: `name_rules`, `leaf_rules`, `connector_rules`, `process_rules`.
#![tactic(auto)]

mod building;
mod compiling;
mod faults;
mod judging;
mod layout;
mod wires;

pub use compiling::{Compiled, compile, line_of, syntax_tree};
pub use faults::{ImportFault, RuleFault};
pub use layout::{aimed_together, laid_together, performed_together, well_together};
pub use process_rules::Catalog;
