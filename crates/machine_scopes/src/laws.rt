//! The laws: what the navigator says of an event is what the machine does, and what may come is met.
ghost use Rattle.machine_scopes.specs.Events.{EventsAreMoves};
ghost use Rattle.machine_scopes.specs.Met.{MessagesAreMet, CompletionsAreMet, HoldsAreMet};
ghost use Rattle.machine_scopes.specs.Turns.{TurnsAreMoves, CompletionsAreMoves, HoldsAreMoves};

/// Law: an event changes the scopes of a root, gives messages and makes items ready as the machine says, where the
/// scope of the event has what the event needs.
pub fn events_are_moves()
    ensures { EventsAreMoves }
{}

/// Law: so does a turn, where the scope of its message has what the message needs.
pub fn turns_are_moves()
    ensures { TurnsAreMoves }
{}

/// Law: so does a completion, where the scope of its item has what the completion needs.
pub fn completions_are_moves()
    ensures { CompletionsAreMoves }
{}

/// Law: a change of a hold changes the scopes of a root as the machine says, where the scope of the item is there.
pub fn holds_are_moves()
    ensures { HoldsAreMoves }
{}

/// Law: where the state of a root shows its view, a message that may come finds its scope as it needs it.
pub fn messages_are_met()
    ensures { MessagesAreMet }
{}

/// Law: where the state of a root shows its view, a completion that may come finds its scope as it needs it.
pub fn completions_are_met()
    ensures { CompletionsAreMet }
{}

/// Law: an item that is there has its scope.
pub fn holds_are_met()
    ensures { HoldsAreMet }
{}
