//! How does one store take over the transactions of another: which bytes are shipped, and which are followed?
//!
//! Knows streams of frames, a frame being one record; never what a transaction does. A stream is the magic, the
//! queues and the limit of its store and the number from which it was shipped, then a frame for each
//! transaction above that number, and a byte 0. All numbers are big-endian. Begin with [`ship`], then [`follow`].
#![tactic(auto)]

mod blocks;
mod following;
mod frames;
mod reading;
mod shipping;
mod stops;
mod text;

pub use following::{Followed, follow};
pub use shipping::ship;
pub use stops::{FollowStop, ShipStop};
pub use text::{follow_refusal, followed_text, ship_refusal};
