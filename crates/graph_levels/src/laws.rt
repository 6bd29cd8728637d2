ghost use Rattle.graph_levels.specs.Levels.{OneLevelOrder};

/// A graph has one level order.
pub fn one_level_order()
    ensures { OneLevelOrder }
{}
