ghost use Rattle.view_laws.specs.Laws.{ExactlyOnce};
ghost use Rattle.view_laws.specs.TurnBound.{TurnsAreBounded};

/// Each message of a root is put at most once, and is then queued or taken.
pub fn exactly_once()
    ensures { ExactlyOnce }
{}

/// The messages that a run takes are at most the expanded size of its process, times one more than
/// its completions.
pub fn turns_are_bounded()
    ensures { TurnsAreBounded }
{}
