//! What is known of single templates, told of a library of them.
ghost use Rattle.template_check.specs.Built.{LaidTogether, WellTogether, AimedTogether, PerformedTogether};

/// Templates that are sound, each but for the processes that it runs, are laid with those: what `fates` asks of
/// a library.
pub fn laid_together()
    ensures { LaidTogether }
{}

/// They are well formed with those: what the laws ask of the graphs that they speak of.
pub fn well_together()
    ensures { WellTogether }
{}

/// Their connectors lead to their activities: what the laws of runs ask besides.
pub fn aimed_together()
    ensures { AimedTogether }
{}

/// Whoever PERFORMER OF asks for comes before the one that asks: what the laws of worklists ask.
pub fn performed_together()
    ensures { PerformedTogether }
{}
