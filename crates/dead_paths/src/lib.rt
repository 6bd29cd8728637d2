//! What do the connectors of one scope tell: the value of each, the join of an activity, its signals?
//!
//! Knows how the activities of a scope have ended, nothing of scopes inside it, people or queues. Begin
//! with [`join`] and [`connector_value`].
#![tactic(auto)]

mod joins;
mod signals;
mod wiring;

pub use joins::{Tally, join};
pub use signals::{connector_value, signals_of};
pub use wiring::row;
