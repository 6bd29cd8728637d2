ghost use Rattle.view_laws.specs.Laws.{Soundness, SoundnessBelow, ShownFatesRight, StartedReached, StartedListed};

/// What is settled in the view of a root's scope is so by the completions alone.
pub fn root_is_sound()
    ensures { Soundness }
{}

/// The view is sound in every scope that has started.
pub fn scopes_are_sound()
    ensures { SoundnessBelow }
{}

/// The fates that the view shows of what is settled, and of programs that no longer wait, are right
/// in every scope that has started.
pub fn shown_fates_are_right()
    ensures { ShownFatesRight }
{}

/// The attempts that have started by the view are among those by the completions alone, on the same
/// inputs.
pub fn started_scopes_are_reached()
    ensures { StartedReached }
{}

/// An attempt of a block or subprocess has started, as the laws have it, exactly if it is among those
/// that start: the newest too, which has given nothing yet.
pub fn started_are_listed()
    ensures { StartedListed }
{}
