//! Are the processes and people there that activities name, and are the graphs small enough (rules 17 to 24)?
//!
//! Knows the graphs of a text and the library of earlier imports; never instances. Begin with [`Known`].
#![tactic(auto)]

mod alike;
mod callees;
mod catalog;
mod counts;
mod doers;
mod numbers;
mod people;
mod said;
mod sizes;

pub use callees::{mismatched_containers, unknown_processes};
pub use catalog::{Catalog, ContainerClasses};
pub use counts::count_limit;
pub use doers::{is_manual, unknown_people, wrong_performers};
pub use numbers::graph_numbers;
pub use people::{Callee, Known};
pub use sizes::{Shape, deep_processes, large_processes, shapes};
