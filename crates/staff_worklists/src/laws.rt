//! What the worklists and the rights say of each other.
ghost use Rattle.staff_worklists.specs.Shelves.{IsSeenWhereAllowed};

/// A person sees an item on the worklist exactly where the person holds it, or nobody does and the person
/// is eligible.
pub fn seen_where_allowed()
    ensures { IsSeenWhereAllowed }
{}
