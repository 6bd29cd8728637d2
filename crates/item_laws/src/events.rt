ghost use Rattle.item_laws.specs.Laws.{MessagesMoveItems, CompletionsMoveItems, HoldsMoveNoItem};

/// The items that a message makes ready open, and every other one stays as it was.
pub fn messages_move_items()
    ensures { MessagesMoveItems }
{}

/// An item that is completed closes, the item that this makes ready opens, and every other one
/// stays as it was.
pub fn completions_move_items()
    ensures { CompletionsMoveItems }
{}

/// An open item whose hold is changed stays open, held so, and every other one stays as it was.
pub fn holds_move_no_item()
    ensures { HoldsMoveNoItem }
{}
