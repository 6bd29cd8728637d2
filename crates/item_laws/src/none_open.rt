ghost use Rattle.item_laws.specs.Laws.{FreshScopesHaveNoItem, DoneRootsHaveNoItem};

/// A scope that hasn't begun has no open item.
pub fn fresh_scopes_have_no_item()
    ensures { FreshScopesHaveNoItem }
{}

/// A root that is done has no open item.
pub fn done_roots_have_no_item()
    ensures { DoneRootsHaveNoItem }
{}
