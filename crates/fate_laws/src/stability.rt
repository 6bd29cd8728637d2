ghost use Rattle.fate_laws.specs.Stability.{EndsStay, FatesStay, OutputsStay, CompletionsAdd, CompletionKeepsEnds};
ghost use Rattle.fate_laws.specs.Stability.{CompletionKeepsFates, CompletionKeepsOutput};

/// How a settled activity has ended stays as it is for whoever knows more, in every scope.
pub fn ends_stay()
    ensures { EndsStay }
{}

/// The fate of a settled activity stays as it is for whoever knows more, in every scope.
pub fn fates_stay()
    ensures { FatesStay }
{}

/// A complete scope keeps its output.
pub fn outputs_stay()
    ensures { OutputsStay }
{}

/// Later completions only add to what is known.
pub fn completions_add()
    ensures { CompletionsAdd }
{}

/// One more completion leaves each settled activity as it is.
pub fn completion_keeps_ends()
    ensures { CompletionKeepsEnds }
{}

/// One more completion leaves the fate of each settled activity as it is.
pub fn completion_keeps_fates()
    ensures { CompletionKeepsFates }
{}

/// One more completion leaves the output of a complete root as it is.
pub fn completion_keeps_output()
    ensures { CompletionKeepsOutput }
{}
