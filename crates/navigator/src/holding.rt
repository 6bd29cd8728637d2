//! The law of a change of a hold.
ghost use Rattle.navigator.specs.Holding.{HoldsAreSet};

/// A change of the hold of an item is seen in the items of its activity, and in no other item.
pub fn holds_are_set()
    ensures { HoldsAreSet }
{}
