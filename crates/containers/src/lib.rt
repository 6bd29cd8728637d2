//! What does a container hold, and where is a leaf of it?
//!
//! Knows leaves, values and maps; never conditions, graphs or instances. Begin with `fill`, which makes
//! containers, and go on to `find`, which finds a leaf by its written name.
#![tactic(auto)]

mod fill;
mod find;
mod settings;

pub use fill::{apply_maps, fresh, set_value, with_return_code};
pub use find::find_leaf;
pub use settings::{number_value, settings_of, with_settings};
