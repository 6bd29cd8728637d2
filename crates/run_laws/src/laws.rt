//! The laws: whatever a crash leaves of a run of the program is opened again, to a state to which commands led.
ghost use Rattle.run_laws.specs.Follows.{AdoptedAreMade, FollowsKeepOwn, FollowsReopen, CorrectFollowsKeepOwn};
ghost use Rattle.run_laws.specs.Lives.{LeftStoresAreOwn, LeftStoresReopen};
ghost use Rattle.run_laws.specs.Making.{MadeStoresAreOwn, CorrectNewsAreOwn};
ghost use Rattle.run_laws.specs.Runs.{RunsKeepOwn, RunsReopen, CorrectRunsKeepOwn};

use flow_disk::Disk;

/// Law: whatever a crash leaves of a run over an own store is the own image of the state after a front part of what
/// commands made.
pub fn runs_keep_own<D: Disk>()
    ensures { RunsKeepOwn D.Disk }
{}

/// Law: so it is opened again, unless a fault or want of memory comes, to no state but such a one.
pub fn runs_reopen<D: Disk>()
    ensures { RunsReopen D.Disk }
{}

/// Law: so it is of the top call, where the words say `run`.
pub fn correct_runs_keep_own<D: Disk>()
    ensures { CorrectRunsKeepOwn D.Disk }
{}

/// Law: commands make the transactions that a state of the engine adopts, one after the other.
pub fn adopted_are_made()
    ensures { AdoptedAreMade }
{}

/// Law: whatever a crash leaves of a run that follows a stream into an own store is the own image of the state after a
/// front part of what commands made.
pub fn follows_keep_own<D: Disk>()
    ensures { FollowsKeepOwn D.Disk }
{}

/// Law: so it is opened again, unless a fault or want of memory comes, to no state but such a one.
pub fn follows_reopen<D: Disk>()
    ensures { FollowsReopen D.Disk }
{}

/// Law: so it is of the top call, where the words say `follow`.
pub fn correct_follows_keep_own<D: Disk>()
    ensures { CorrectFollowsKeepOwn D.Disk }
{}

/// Law: a store that is made is a blank state's own, and a crash before leaves what was there, no store, or that one.
pub fn made_stores_are_own<D: Disk>()
    ensures { MadeStoresAreOwn D.Disk }
{}

/// Law: so it is of the top call, where the words say `new`.
pub fn correct_news_are_own<D: Disk>()
    ensures { CorrectNewsAreOwn D.Disk }
{}

/// Law: a store that the program made is a state's own, whatever runs and crashes left of it: of one to which commands
/// led from the blank state.
pub fn left_stores_are_own<D: Disk>()
    ensures { LeftStoresAreOwn D.Disk }
{}

/// Law: so it is opened again, unless a fault or want of memory comes, to no state but that.
pub fn left_stores_reopen<D: Disk>()
    ensures { LeftStoresReopen D.Disk }
{}
