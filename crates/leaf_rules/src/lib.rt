//! Which leaves do the structures of a text have, and do its conditions and maps fit them (rules 6 to 8, 13 and 14)?
//!
//! Knows structures and the graphs of a text; never libraries or people. Begin with [`Structures`].
#![tactic(auto)]

mod classes;
mod container_leaves;
mod forms;
mod leaf_classes;
mod members;
mod rows;
mod structures;
mod text_classes;
mod uses;

pub use forms::StructureLeaves;
pub use leaf_classes::{LeafClass, LeafClasses, MemberForm, MemberKind};
pub use members::LeafTable;
pub use structures::Structures;
pub use uses::{mixed_kinds, unknown_leaves};
