//! Does a certificate hold: does each line follow from those before it, the templates and the accepted
//! completions?
//!
//! Knows nothing of messages, queues, views or people. Begin with `lines` (what a line says) and
//! `specs/Told.antt` (when a line is justified), and go on to [`accept`].
#![tactic(auto)]

mod accepting;
mod graphs;
mod grounds;
mod lines;
mod naming;
mod reading;
mod repeats;
mod scopes;
mod starting;

pub use accepting::{AcceptFault, accept};
pub use graphs::{Placed, activity_at, path_below};
pub use grounds::Grounds;
pub use lines::{CertLine, line_bytes, write_line};
pub use naming::{activity_text, named_activity};
pub use reading::read_line;
