ghost use Rattle.worklist_laws.specs.Laws.{RepliesAreExact, WorklistsAreExact};

/// Of shelves that hold exactly the open manual items, the worklist of a person is exact.
pub fn worklists_are_exact()
    ensures { WorklistsAreExact }
{}

/// And so is what WORKLIST replies, in each state that is right and listed.
pub fn replies_are_exact()
    ensures { RepliesAreExact }
{}
