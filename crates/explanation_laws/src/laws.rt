ghost use Rattle.explanation_laws.specs.Certified.{CertifiedAreRight, SettledAreCertified};
ghost use Rattle.explanation_laws.specs.Histories.{HistoriesAreRead};
ghost use Rattle.explanation_laws.specs.Verdicts.{CertLinesAreOne, VerificationsAreOne};

/// Each activity that is dead or finished by the completions has a justified certificate, in every scope that
/// starts, at every depth.
pub fn settled_are_certified()
    ensures { SettledAreCertified }
{}

/// A line has a justified certificate exactly where what it says is so by the completions.
pub fn certified_are_right()
    ensures { CertifiedAreRight }
{}

/// Each scope of a root over the library to which commands lead has activities with names as they are read.
pub fn histories_are_read()
    ensures { HistoriesAreRead }
{}

/// A text is that of one line of a certificate at most.
pub fn cert_lines_are_one()
    ensures { CertLinesAreOne }
{}

/// The same lines over the same state have one verdict.
pub fn verifications_are_one()
    ensures { VerificationsAreOne }
{}
