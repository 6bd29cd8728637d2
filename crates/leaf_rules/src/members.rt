//! The table of the leaves of a text, each structure's made once, and the classes that are found for it.
ghost use Rattle.std.specs.Prelude.{◌++◌};
ghost use Rattle.leaf_rules.specs.Classes.{leaves_at, AreClassed, AreMadeBehind};

use crate::forms::StructureLeaves;
use crate::leaf_classes::{LeafClass, LeafClasses};
use crate::structures::Structures;
use flow_model::List;
use indexmap::IndexMap;

/// The leaves of the structures of a text, with `_RC` and without, all in one table.
#[derive(Drop)]
pub struct LeafTable<'a> {
    pub(crate) structures: Structures<'a>,
    pub(crate) leaves: Vec<StructureLeaves>,
    /// The classes of earlier texts.
    pub(crate) known: &'a LeafClasses,
    /// Those that this text adds.
    pub(crate) added: List<LeafClass>,
    /// The class of each structure, where it is found.
    pub(crate) classes: Vec<Option<u32>>,
    ghost made: { AreMadeBehind known.now.classes added },
    ghost classed: { AreClassed (leaves_at leaves.items) (known.now.classes ++ added) classes.items },
}

/// The classes of earlier texts, and those that a text adds behind them.
#[derive(Drop)]
pub(crate) struct TextClasses<'a> {
    pub(crate) known: &'a LeafClasses,
    pub(crate) added: List<LeafClass>,
    /// The class of such members, by what they tell, of those that are added.
    pub(crate) numbers: IndexMap<Vec<u8>, u32>,
    ghost made: { AreMadeBehind known.now.classes added },
}
