//! Do the connectors and data lines of each graph fit together (rules 9 to 12, 15 and 16)?
//!
//! Knows the graphs of a text; never structures or libraries. Begin with [`unknown_activity`].
#![tactic(auto)]

mod connectors;
mod otherwises;
mod walks;

pub use connectors::{cycle, double_connector, empty_graph, unknown_activity, unreachable_data};
pub use otherwises::otherwise;
pub use walks::Walks;
