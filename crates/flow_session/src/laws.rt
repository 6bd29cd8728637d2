//! Laws of a script: what is answered is kept, the state stays right, what is made is a run of the machine and was
//! asked for, and what is replied is what the machine replies.
//!
//! Each function here takes nothing and does nothing; its `ensures` is a statement about the definitions,
//! which is proved.
ghost use Rattle.flow_session.specs.Bridge.{InputsAreReplies, ScriptsAreReplies, ScriptsHaveOneList};
ghost use Rattle.flow_session.specs.Scripts.{AnsweredIsKept, ScriptsAreRuns, ScriptsKeepRight, ScriptsMakeAsked};

use crate::journal::Journal;

/// After any number of replies of a script, whatever a crash leaves stands for the state after their inputs and a
/// front part of the transactions that are made later.
pub fn answered_is_kept<J: Journal>()
    ensures { AnsweredIsKept J.tells J.holds J.moment J.left_since J.place J.moved }
{}

/// A script keeps a right state right.
pub fn scripts_keep_right<J: Journal>()
    ensures { ScriptsKeepRight J.tells J.holds J.moment J.left_since J.place J.moved }
{}

/// A script makes one list of transactions: from a right state they are a run of the machine from its first state to
/// its last one, and a crash at any moment leaves the history with a front part of them.
pub fn scripts_are_runs<J: Journal>()
    ensures { ScriptsAreRuns J.tells J.holds J.moment J.left_since J.place J.moved }
{}

/// A script makes only the transactions for which its inputs ask, one input after the other.
pub fn scripts_make_what_is_asked<J: Journal>()
    ensures { ScriptsMakeAsked J.tells J.holds J.moment J.left_since J.place J.moved }
{}

/// What an input does to a session, and what is replied, is what it does to the machine and what that replies.
pub fn inputs_are_replies()
    ensures { InputsAreReplies }
{}

/// The replies of a session to a script are the machine's.
pub fn scripts_are_replies<J: Journal>()
    ensures { ScriptsAreReplies J.tells J.holds J.moment J.left_since J.place J.moved }
{}

/// Two sessions that the machine sees as one have one list of replies to a script, whatever journals they have.
pub fn scripts_have_one_list<J: Journal, K: Journal>()
    ensures { ScriptsHaveOneList J.tells J.holds J.moment J.left_since J.place J.moved
        K.tells K.holds K.moment K.left_since K.place K.moved }
{}
