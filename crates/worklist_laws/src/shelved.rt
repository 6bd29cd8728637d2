ghost use Rattle.worklist_laws.specs.Laws.{
  RanksDiffer,
  BlankIsShelved,
  StaysShelved,
  HistoriesStayShelved,
};

/// Two items of a root that are there at the same rank are one.
pub fn ranks_differ()
    ensures { RanksDiffer }
{}

/// The worklists of a blank state hold exactly its open manual items.
pub fn blank_shelved()
    ensures { BlankIsShelved }
{}

/// So they go on doing with each transaction.
pub fn stays_shelved()
    ensures { StaysShelved }
{}

/// And so they do along a history of transactions.
pub fn histories_stay_shelved()
    ensures { HistoriesStayShelved }
{}
