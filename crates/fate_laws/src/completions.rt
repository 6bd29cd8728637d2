ghost use Rattle.fate_laws.specs.Completions.{FirstCounts, OutputsTellAll};

/// A later completion of an item that was accepted changes nothing: the first counts.
pub fn first_counts()
    ensures { FirstCounts }
{}

/// Completions that give the same output for every item give the same fates and outputs.
pub fn outputs_tell_all()
    ensures { OutputsTellAll }
{}
