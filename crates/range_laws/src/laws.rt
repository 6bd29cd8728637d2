//! The laws: the states of a history that commands make stand in range, and so do its transactions.
ghost use Rattle.range_laws.specs.Laws.{BlanksAreInBounds, StepsStayInBounds, BoundedStatesStandInRange};
ghost use Rattle.range_laws.specs.Laws.{HistoriesStayInBounds, HistoriesStandInRange, HistoriesMakeInRange};
ghost use Rattle.range_laws.specs.Lines.{ReadCommandsAreWorded};
ghost use Rattle.range_laws.specs.Sessions.{AskedAreWorded, AskedAreInRange, ScriptsMakeInRange};
ghost use Rattle.range_laws.specs.Stores.{OwnStoresOpenInBounds, WordedCheckpointsReopen};
ghost use Rattle.range_laws.specs.Words.{WordsMakeFitting, WordedStoresReopen};

use flow_session::Journal;

/// Law: a blank state with few queues and a small limit is within its bounds.
pub fn blanks_are_in_bounds()
    ensures { BlanksAreInBounds }
{}

/// Law: the transaction to which a command is judged keeps a state within its bounds.
pub fn steps_stay_in_bounds()
    ensures { StepsStayInBounds }
{}

/// Law: so does a history that commands make, from a state within its bounds on.
pub fn histories_stay_in_bounds()
    ensures { HistoriesStayInBounds }
{}

/// Law: a state within its bounds stands in range.
pub fn bounded_states_stand_in_range()
    ensures { BoundedStatesStandInRange }
{}

/// Law: so does each state to which a history leads that commands make.
pub fn histories_stand_in_range()
    ensures { HistoriesStandInRange }
{}

/// Law: the transaction that a command with words in range makes there is in range.
pub fn histories_make_in_range()
    ensures { HistoriesMakeInRange }
{}

/// Law: the transactions that commands with words in range make, from a state within its bounds on, are in range.
pub fn words_make_fitting()
    ensures { WordsMakeFitting }
{}

/// Law: a store with the records of such a history is opened again, unless a fault or want of memory comes.
pub fn worded_stores_reopen()
    ensures { WordedStoresReopen }
{}

/// Law: a command that a line says has its words in range, where the root that it is on is counted from 1.
pub fn read_commands_are_worded()
    ensures { ReadCommandsAreWorded }
{}

/// Law: commands with words in range make the transactions for which an input of a session asks, and which lead from
/// its state to another one.
pub fn asked_are_worded()
    ensures { AskedAreWorded }
{}

/// Law: those for which it asks are in range, whether its call succeeds or not.
pub fn asked_are_in_range()
    ensures { AskedAreInRange }
{}

/// Law: commands with words in range make those of a script, each of which is in range; and a crash at any moment
/// leaves a front part of them.
pub fn scripts_make_in_range<J: Journal>()
    ensures { ScriptsMakeInRange J.tells J.holds J.moment J.left_since J.place J.moved }
{}

/// Law: what a crash leaves of an own store is opened to no state but one within its bounds.
pub fn own_stores_open_in_bounds()
    ensures { OwnStoresOpenInBounds }
{}

/// Law: a store with the records of a checkpoint, and of what commands with words in range made since, is opened again,
/// unless a fault or want of memory comes.
pub fn worded_checkpoints_reopen()
    ensures { WordedCheckpointsReopen }
{}
