ghost use Rattle.view_laws.specs.Laws.{Quiescence, QuiescenceBelow, OrderFree};

/// Where no message is queued, the view of a root's scope is what the completions alone tell.
pub fn quiet_root()
    ensures { Quiescence }
{}

/// So it is in every scope that has started.
pub fn quiet_scopes()
    ensures { QuiescenceBelow }
{}

/// Quiet runs with the same completions show the same, whatever the order of their events.
pub fn order_free()
    ensures { OrderFree }
{}
