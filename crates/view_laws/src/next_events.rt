ghost use Rattle.view_laws.specs.NextEvents.{BeginsMayCome, SignalsMayCome, EndsMayCome, CompletionsMayCome};
ghost use Rattle.view_laws.specs.NextEvents.{ViewsGoByMessages, ScopesGoByMessages};

/// The BEGIN that a legal run takes next may come in the scope that it concerns, and only that
/// becomes known.
pub fn begins_may_come()
    ensures { BeginsMayCome }
{}

/// So it is of the SIGNAL that it takes next.
pub fn signals_may_come()
    ensures { SignalsMayCome }
{}

/// So it is of the END that it takes next, in the scope around the attempt that ends.
pub fn ends_may_come()
    ensures { EndsMayCome }
{}

/// So it is of the completion that it accepts next.
pub fn completions_may_come()
    ensures { CompletionsMayCome }
{}

/// What counts of a connector in a view is what was sent, whatever its value is.
pub fn views_go_by_messages()
    ensures { ViewsGoByMessages }
{}

/// So it is in the scopes below.
pub fn scopes_go_by_messages()
    ensures { ScopesGoByMessages }
{}
