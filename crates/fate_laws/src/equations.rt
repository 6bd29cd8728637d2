ghost use Rattle.fate_laws.specs.Equations.{ConnectorValues, Joins, FatesSolve, FatesSolveBelow, OnlyFatesSolve};
ghost use Rattle.fate_laws.specs.Equations.{FatesSolveBelow, FedWhereKnown, StepKeepsEnds, StepKeepsOnlyEnds};

/// What a connector is worth: unknown while its source is not settled, false where the source is
/// dead, else its condition on the final output of the source. OTHERWISE is true exactly where the
/// source is finished and no connector of it that has a condition is true.
pub fn connector_values()
    ensures { ConnectorValues }
{}

/// What a join asks: it is unknown while a value is unknown, and then true by its rule.
pub fn joins()
    ensures { Joins }
{}

/// The fates by the completions alone satisfy the plain equations, in every scope of a graph that
/// is well: an activity waits while its join is unknown, is dead where the join is false, and else
/// goes on with its attempts until the exit condition is true on the last output.
pub fn fates_solve()
    ensures { FatesSolve }
{}

/// So they do in every scope that has started below a scope, at every depth.
pub fn fates_solve_below()
    ensures { FatesSolveBelow }
{}

/// No other fates and ends satisfy the plain equations.
pub fn only_fates_solve()
    ensures { OnlyFatesSolve }
{}

/// Wherever the join of an activity is known, all activities that feed it by data lines are
/// settled, so that its input is final.
pub fn fed_where_known()
    ensures { FedWhereKnown }
{}

/// How the activities of a scope have ended is what one more step makes of it, whatever is known
/// of messages.
pub fn step_keeps_ends()
    ensures { StepKeepsEnds }
{}

/// A step keeps no other ends.
pub fn step_keeps_only_ends()
    ensures { StepKeepsOnlyEnds }
{}
