ghost use Rattle.fate_laws.specs.AttemptBounds.{BoundIsFree, RootBoundIsFree};

/// The bound on the number of attempts changes nothing in a scope, once it is at least the number
/// of completions.
pub fn bound_is_free()
    ensures { BoundIsFree }
{}

/// Nor does it change the output of a root.
pub fn root_bound_is_free()
    ensures { RootBoundIsFree }
{}
