//! Laws of the scope of a root along a run of its events.
//!
//! Each function here is a law: it takes nothing, does nothing, and its `ensures` is a statement
//! about what the calls of this crate do, which is proved.
ghost use Rattle.navigator.specs.Driven.{RunsShow, TurnsGive, CompletionsGive, RunsAreRight, QuietRunsAreWhole};

/// After any legal run of events the state of a root's scope shows the view of that run.
pub fn runs_show()
    ensures { RunsShow }
{}

/// The messages that a turn gives are those that it puts.
pub fn turns_give()
    ensures { TurnsGive }
{}

/// The messages that a completion gives are those that it puts.
pub fn completions_give()
    ensures { CompletionsGive }
{}

/// Whatever the state of a root's scope says of how an activity has ended, is so by the completions
/// alone.
pub fn runs_are_right()
    ensures { RunsAreRight }
{}

/// With no message queued, the state of a root's scope says all that the completions alone tell.
pub fn quiet_runs_are_whole()
    ensures { QuietRunsAreWhole }
{}
