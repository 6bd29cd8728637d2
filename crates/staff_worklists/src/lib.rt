//! Who may do what: who is eligible for an item, and what stands on a person's worklist?
//!
//! Knows people with their roles, holds and phases; never how an item became ready. Begin with
//! [`eligible`] and `specs/Rights.antt`, and go on to [`Worklists`] with `specs/Shelves.antt` and
//! `specs/Listing.antt`.
#![tactic(auto)]

mod laws;
mod rights;
mod worklists;

pub use laws::seen_where_allowed;
pub use rights::{
    StaffFault, claim_test, done_test, eligible, release_test, take_test, transfer_test,
};
pub use worklists::{Rank, Worklists};
