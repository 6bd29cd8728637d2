//! The laws: what a command made is admitted when its store is opened again.
ghost use Rattle.reopening_laws.specs.Ranges.{CommandsAreInRange};
ghost use Rattle.reopening_laws.specs.Reopening.{CommandsAreAdmitted, HistoriesReopen, HistoriesAreResumed};
ghost use Rattle.reopening_laws.specs.Reopening.{StoresReopen};
ghost use Rattle.reopening_laws.specs.Sessions.{ScriptsMakeByCommands};

use flow_session::Journal;

/// Law: the record of the transaction to which the machine judges a command is admitted as the next one.
pub fn commands_are_admitted()
    ensures { CommandsAreAdmitted }
{}

/// Law: where the state and the words of the command are in range, that transaction is.
pub fn commands_are_in_range()
    ensures { CommandsAreInRange }
{}

/// Law: of a slot from which nothing was taken out no record of a history that commands made is unfit.
pub fn histories_reopen()
    ensures { HistoriesReopen }
{}

/// Law: where such a slot leads to a state, the machine sees it as the one that the commands made.
pub fn histories_are_resumed()
    ensures { HistoriesAreResumed }
{}

/// Law: a store with the records of such a history is opened again, unless a fault or want of memory comes.
pub fn stores_reopen()
    ensures { StoresReopen }
{}

/// Law: commands make the transactions of a script, and a crash at any moment leaves a front part of those.
pub fn scripts_make_by_commands<J: Journal>()
    ensures { ScriptsMakeByCommands J.tells J.holds J.moment J.left_since J.place J.moved }
{}
