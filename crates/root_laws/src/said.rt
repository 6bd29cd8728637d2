ghost use Rattle.root_laws.specs.Laws.{RightRootsAreSound, QuietRootsAreWhole, OpenItemsAreAwaited};

/// What the state of a right root says is so by the completions alone.
pub fn right_roots_are_sound()
    ensures { RightRootsAreSound }
{}

/// With no message queued it says all that the completions tell.
pub fn quiet_roots_are_whole()
    ensures { QuietRootsAreWhole }
{}

/// An open item of a right root is awaited.
pub fn open_items_are_awaited()
    ensures { OpenItemsAreAwaited }
{}
