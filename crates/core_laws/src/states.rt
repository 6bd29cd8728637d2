ghost use Rattle.core_laws.specs.Laws.{
  BeginsRight,
  StaysRight,
  HistoriesAreRight,
  ServedTogether,
  RightStatesAreSound,
  QuietStatesAreWhole,
  DoneOutputsAreRight,
  MessagesAreOnce,
  TurnsAreBounded,
};

/// A blank state is right.
pub fn begins_right()
    ensures { BeginsRight }
{}

/// A state stays right with each transaction that may be.
pub fn stays_right()
    ensures { StaysRight }
{}

/// So it does along a history of transactions, each of which may be.
pub fn histories_are_right()
    ensures { HistoriesAreRight }
{}

/// Each process of a sound library is served.
pub fn served_together()
    ensures { ServedTogether }
{}

/// What a right state says of its live roots is so by their completions alone.
pub fn right_states_are_sound()
    ensures { RightStatesAreSound }
{}

/// With no message queued it says all that the completions tell.
pub fn quiet_states_are_whole()
    ensures { QuietStatesAreWhole }
{}

/// The output that is shown of a root that is done is that of the recursion by its completions alone.
pub fn done_outputs_are_right()
    ensures { DoneOutputsAreRight }
{}

/// Each message of a live root was put at most once, and was taken once or stands once in its queue.
pub fn messages_are_once()
    ensures { MessagesAreOnce }
{}

/// The messages that a live root has taken are bounded by its process and its accepted completions.
pub fn turns_are_bounded()
    ensures { TurnsAreBounded }
{}
