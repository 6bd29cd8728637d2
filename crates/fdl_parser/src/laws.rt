//! A text has one tree.
ghost use Rattle.fdl_parser.specs.Laws.{TreesAreOne};

/// The tokens that the lexer gives of a text have at most one tree: two that the grammar relates to them are equal.
///
/// A law of the definitions, for whoever reads them; it does nothing.
pub fn trees_are_one()
    ensures { TreesAreOne }
{}
