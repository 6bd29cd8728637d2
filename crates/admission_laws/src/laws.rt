//! The laws: what a store admits is what a command makes.
ghost use Rattle.admission_laws.specs.Admission.{AdmittedAreCommanded, AdmittedAreExact, AdmittedAreMade};
ghost use Rattle.admission_laws.specs.Admission.{BlanksHaveLeavesApart, StepsKeepLeavesApart, HistoriesKeepLeavesApart};
ghost use Rattle.admission_laws.specs.Admission.{StatesAnewHaveLeavesApart};

/// Law: a transaction that is admitted under a number behind the last is the one to which the machine judges some
/// command.
pub fn admitted_are_commanded()
    ensures { AdmittedAreCommanded }
{}

/// Law: as the next record exactly those are admitted, as far as they are in range.
pub fn admitted_are_exact()
    ensures { AdmittedAreExact }
{}

/// Law: so a history of commands goes on with it.
pub fn admitted_are_made()
    ensures { AdmittedAreMade }
{}

/// Law: a blank state has no leaves, so their names are apart.
pub fn blanks_have_leaves_apart()
    ensures { BlanksHaveLeavesApart }
{}

/// Law: a step keeps the names of leaves apart.
pub fn steps_keep_leaves_apart()
    ensures { StepsKeepLeavesApart }
{}

/// Law: so does a history that commands make.
pub fn histories_keep_leaves_apart()
    ensures { HistoriesKeepLeavesApart }
{}

/// Law: so are they in a state whose live transactions are made again.
pub fn states_anew_have_leaves_apart()
    ensures { StatesAnewHaveLeavesApart }
{}
