ghost use Rattle.text_laws.specs.OneJudgement.{TextsHaveOneTree, RefusalsAreOne, RefusedAreNotFaultless};

/// A text has one tree at most.
pub fn texts_have_one_tree()
    ensures { TextsHaveOneTree }
{}

/// A text that is refused breaks one rule first, at one place.
pub fn refusals_are_one()
    ensures { RefusalsAreOne }
{}

/// No text is both refused and accepted.
pub fn refused_are_not_faultless()
    ensures { RefusedAreNotFaultless }
{}
