//! A canonical text reads back.
ghost use Rattle.fdl_print.specs.Laws.{ReadsBack, ReadsOnlyBack, OneText};

/// The canonical text of a tree that some text has reads as that tree again, places aside: it has tokens and a
/// tree, each reading of it is that tree, and trees that differ at most in places have one canonical text.
///
/// A law of the definitions, for whoever reads them; it does nothing.
pub fn reads_back()
    ensures some { ReadsBack }
    ensures only { ReadsOnlyBack }
    ensures text { OneText }
{}
