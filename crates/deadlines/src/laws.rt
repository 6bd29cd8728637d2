//! What the late items go by.
ghost use Rattle.deadlines.specs.Lateness.{GoesByTheState};

/// What is overdue goes by the clock, the live roots and the library of a state alone. So it is the same
/// in a state that has them from all transactions, and in one that has them from what a checkpoint kept.
pub fn goes_by_the_state()
    ensures { GoesByTheState }
{}
