//! The laws: what a checkpoint keeps leads to the very state that it was taken of.
ghost use Rattle.compaction_laws.specs.Checkpoints.{BlanksAreMadeAnew, RemadeAreCompact, StepsStayCompact};
ghost use Rattle.compaction_laws.specs.Checkpoints.{VerdictsAreReady, VerdictsMakeAnew, HistoriesMakeAnew};
ghost use Rattle.compaction_laws.specs.Checkpoints.{LiveMakeTheState, LiveMakeOneState, CompactStatesAreOne};
ghost use Rattle.compaction_laws.specs.Checkpoints.{HistoriesStayCompact, AnswersStay};
ghost use Rattle.compaction_laws.specs.Crashes.{ImagesStandForOne, ReopenedStatesAreOne, CrashesResume, CallsResume};
ghost use Rattle.compaction_laws.specs.Crashes.{ScriptsResume, SessionsAreCompact};
ghost use Rattle.compaction_laws.specs.OwnStores.{HistoriesAreFit, CrashesAreFit, ScriptsReopen, FitImagesReopen};
ghost use Rattle.compaction_laws.specs.OwnStores.{OwnStoresReopen, OwnStoresStay, OwnStoresGoOn, OwnScriptsStay};
ghost use Rattle.compaction_laws.specs.OwnStores.{NewStoresAreOwn};
ghost use Rattle.compaction_laws.specs.Resuming.{OpenedAreCompact, OpenedAreOne, KeptAreAdmitted};
ghost use Rattle.compaction_laws.specs.Resuming.{LiveStayInRange, CheckpointsAreResumed, CheckpointsReopen};
ghost use Rattle.compaction_laws.specs.Resuming.{CheckpointedStoresReopen};

use flow_session::Journal;

/// Law: the live transactions of a blank state, which has none, are made again, whatever its counts are.
pub fn blanks_are_made_anew()
    ensures { BlanksAreMadeAnew }
{}

/// Law: a state whose live transactions are made again is compact.
pub fn remade_are_compact()
    ensures { RemadeAreCompact }
{}

/// Law: a step keeps a state compact that is ready for its transaction.
pub fn steps_stay_compact()
    ensures { StepsStayCompact }
{}

/// Law: where a command is judged to a transaction, the state is ready for it.
pub fn verdicts_are_ready()
    ensures { VerdictsAreReady }
{}

/// Law: after the transaction to which a command is judged the live transactions are made again.
pub fn verdicts_make_anew()
    ensures { VerdictsMakeAnew }
{}

/// Law: so they are after a history that commands make.
pub fn histories_make_anew()
    ensures { HistoriesMakeAnew }
{}

/// Law: commands keep a state compact.
pub fn histories_stay_compact()
    ensures { HistoriesStayCompact }
{}

/// Law: the live transactions of a history that commands made lead to its state.
pub fn live_make_the_state()
    ensures { LiveMakeTheState }
{}

/// Law: those of a compact state lead to no other one.
pub fn live_make_one_state()
    ensures { LiveMakeOneState }
{}

/// Law: a summary is that of one compact state.
pub fn compact_states_are_one()
    ensures { CompactStatesAreOne }
{}

/// Law: in the state to which the live transactions lead, each query has the answers that it has in the state itself.
pub fn answers_stay()
    ensures { AnswersStay }
{}

/// Law: a state to which the records of a slot lead is compact.
pub fn opened_are_compact()
    ensures { OpenedAreCompact }
{}

/// Law: where it has the summary of a compact state, the machine sees it as that state.
pub fn opened_are_one()
    ensures { OpenedAreOne }
{}

/// Law: a record that is made again is admitted among the kept ones, behind those that were taken up.
pub fn kept_are_admitted()
    ensures { KeptAreAdmitted }
{}

/// Law: the live transactions of a history are in range, where its transactions are.
pub fn live_stay_in_range()
    ensures { LiveStayInRange }
{}

/// Law: where a checkpoint and the records since lead to a state, the machine sees it as the one that was made.
pub fn checkpoints_are_resumed()
    ensures { CheckpointsAreResumed }
{}

/// Law: no record breaks a checkpoint and the records since.
pub fn checkpoints_reopen()
    ensures { CheckpointsReopen }
{}

/// Law: a store with these records is opened again, unless a fault or want of memory comes.
pub fn checkpointed_stores_reopen()
    ensures { CheckpointedStoresReopen }
{}

/// Law: an image stands for one summary.
pub fn images_stand_for_one()
    ensures { ImagesStandForOne }
{}

/// Law: where that is the summary of a compact state, the image is opened to no other one.
pub fn reopened_states_are_one()
    ensures { ReopenedStatesAreOne }
{}

/// Law: what a crash leaves of a history is opened to no state but the one after a front part of it.
pub fn crashes_resume()
    ensures { CrashesResume }
{}

/// Law: so is what it leaves at any moment of a call whose transactions commands make.
pub fn calls_resume<J: Journal>()
    ensures { CallsResume J.tells J.moment J.left_since }
{}

/// Law: commands make the transactions of a script, and what a crash leaves at any moment of it is opened so.
pub fn scripts_resume<J: Journal>()
    ensures { ScriptsResume J.tells J.holds J.moment J.left_since J.place J.moved }
{}

/// Law: the state with which a session begins is compact, and so is each to which commands lead from there.
pub fn sessions_are_compact()
    ensures { SessionsAreCompact }
{}

/// Law: the records of transactions that commands make are fit, from a state on whose live ones are made again.
pub fn histories_are_fit()
    ensures { HistoriesAreFit }
{}

/// Law: whatever a crash leaves at any moment of a call whose transactions commands make has fit records.
pub fn crashes_are_fit<J: Journal>()
    ensures { CrashesAreFit J.tells J.moment J.left_since }
{}

/// Law: so it has at any moment of a script.
pub fn scripts_reopen<J: Journal>()
    ensures { ScriptsReopen J.tells J.holds J.moment J.left_since J.place J.moved }
{}

/// Law: an image with fit records is opened, unless a fault or want of memory comes.
pub fn fit_images_reopen()
    ensures { FitImagesReopen }
{}

/// Law: an own image is opened, to no state but the one whose own it is.
pub fn own_stores_reopen()
    ensures { OwnStoresReopen }
{}

/// Law: whatever a crash leaves of an own store at any moment of a call is an own image.
pub fn own_stores_stay<J: Journal>()
    ensures { OwnStoresStay J.tells J.moment J.left_since }
{}

/// Law: at the end of the call it is an own one of the state to which the call led.
pub fn own_stores_go_on<J: Journal>()
    ensures { OwnStoresGoOn J.tells J.holds J.moment J.left_since }
{}

/// Law: whatever a crash leaves of an own store at any moment of a script is an own image.
pub fn own_scripts_stay<J: Journal>()
    ensures { OwnScriptsStay J.tells J.holds J.moment J.left_since J.place J.moved }
{}

/// Law: a new store is a blank state's own.
pub fn new_stores_are_own()
    ensures { NewStoresAreOwn }
{}
