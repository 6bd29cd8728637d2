//! Which processes and people have been imported, and in which version?
//!
//! Knows the library and how a text is added to it; never instances. Begin with [`TemplateStore`]
//! and `specs/Store.antt`.
#![tactic(auto)]

mod store;

pub use store::TemplateStore;
