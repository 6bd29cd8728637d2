ghost use Rattle.item_laws.specs.Performers.{
  SourcesAreSettled,
  MessagesKeepPerformers,
  CompletionsKeepPerformers,
  HoldsKeepPerformers,
  OpenItemsKeepPerformers,
};

/// Whatever comes before an open item is settled.
pub fn sources_are_settled()
    ensures { SourcesAreSettled }
{}

/// Who performed what is settled stays the same when a message is taken.
pub fn messages_keep_performers()
    ensures { MessagesKeepPerformers }
{}

/// Who performed what is settled stays the same when an item is completed.
pub fn completions_keep_performers()
    ensures { CompletionsKeepPerformers }
{}

/// Who performed what is settled stays the same when a hold is changed.
pub fn holds_keep_performers()
    ensures { HoldsKeepPerformers }
{}

/// Who performed what comes before an open item stays the same.
pub fn open_items_keep_performers()
    ensures { OpenItemsKeepPerformers }
{}
