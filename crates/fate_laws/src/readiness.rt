ghost use Rattle.fate_laws.specs.Readiness.{ReadyIsNew, ReadyCounts};

/// A completion that is ready is of an item that has no output yet.
pub fn ready_is_new()
    ensures { ReadyIsNew }
{}

/// Where all completions were ready, each by those before it, none is passed over.
pub fn ready_counts()
    ensures { ReadyCounts }
{}
