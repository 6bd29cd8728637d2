ghost use Rattle.view_laws.specs.Laws.{ViewStays, ViewFatesStay, DueStays};

/// What is settled in the view of a root stays as it is, whatever event comes.
pub fn view_stays()
    ensures { ViewStays }
{}

/// The fate that the view shows of a settled activity stays as it is.
pub fn view_fates_stay()
    ensures { ViewFatesStay }
{}

/// What is due of a root stays due.
pub fn due_stays()
    ensures { DueStays }
{}
