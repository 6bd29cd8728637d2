ghost use Rattle.fate_laws.specs.Causes.{CompleteHasGiven, CompleteHasFact, RootHasFact};

/// A complete scope of a graph that is well has an accepted output of an item below it, whatever
/// is known of messages.
pub fn complete_has_given()
    ensures { CompleteHasGiven }
{}

/// A scope that is complete by the completions has a completion of its own: of an item below it.
pub fn complete_has_fact()
    ensures { CompleteHasFact }
{}

/// A complete root has a completion.
pub fn root_has_fact()
    ensures { RootHasFact }
{}
