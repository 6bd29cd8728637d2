ghost use Rattle.scope_laws.specs.Laws.{ScopesAreSound, QuietRootsSayAll, QuietScopesAreWhole, QuietScopesAreThere};
ghost use Rattle.scope_laws.specs.Laws.{QuietStatesHaveQuietRoots, QuietRootsAreOrderFree};

/// What a right state says in any scope of its live roots is so by their completions alone.
pub fn scopes_are_sound()
    ensures { ScopesAreSound }
{}

/// With no message of a root queued, its state says all that its completions tell, whatever is queued of other roots.
pub fn quiet_roots_say_all()
    ensures { QuietRootsSayAll }
{}

/// So it says all that they tell of each scope inside it.
pub fn quiet_scopes_are_whole()
    ensures { QuietScopesAreWhole }
{}

/// And it has each scope that they alone start.
pub fn quiet_scopes_are_there()
    ensures { QuietScopesAreThere }
{}

/// Where all queues are empty, no message of any root is queued.
pub fn quiet_states_have_quiet_roots()
    ensures { QuietStatesHaveQuietRoots }
{}

/// Two roots of one case have ended alike, where no message of them is queued, whatever the order of events was.
pub fn quiet_roots_are_order_free()
    ensures { QuietRootsAreOrderFree }
{}
