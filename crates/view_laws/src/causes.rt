ghost use Rattle.view_laws.specs.Laws.{CompleteRunHasFact};

/// A root that is complete in the view has a completion.
pub fn complete_run_has_fact()
    ensures { CompleteRunHasFact }
{}
