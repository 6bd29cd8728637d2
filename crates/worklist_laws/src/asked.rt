ghost use Rattle.worklist_laws.specs.Laws.{VerdictsAskOpen, AdmittedAskOpen};

/// A command that gives a transaction has asked that its item is open.
pub fn verdicts_ask_open()
    ensures { VerdictsAskOpen }
{}

/// And so has a record that is admitted.
pub fn admitted_ask_open()
    ensures { AdmittedAskOpen }
{}
