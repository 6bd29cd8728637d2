//! The laws: each transaction is a step of the machine, and a script has one list of replies.
ghost use Rattle.machine_laws.specs.Laws.{ClocksAreSteps, SuspendsAreSteps, ResumesAreSteps, TerminatesAreSteps};
ghost use Rattle.machine_laws.specs.Laws.{DeletesAreSteps, ImportsAreSteps, ClaimsAreSteps, TurnsAreSteps};
ghost use Rattle.machine_laws.specs.Laws.{DonesAreSteps, ForcesAreSteps, StartsAreSteps, ReleasesAreSteps};
ghost use Rattle.machine_laws.specs.Laws.{TransfersAreSteps, AgentTakesAreSteps, RestartsAreSteps, ItemsAreSeen};
ghost use Rattle.machine_laws.specs.Shown.{RowsAreShown};
ghost use Rattle.machine_laws.specs.Applied.{AppliedAreSteps, AdoptedAreSteps, VerdictsAreGood, AdmittedAreGood};
ghost use Rattle.machine_laws.specs.Right.{AllowedAreSteps};
ghost use Rattle.machine_laws.specs.One.{PathsAreOne, LinesAreOne, TextsAreJudgedOnce, VerdictsAreOne};
ghost use Rattle.machine_laws.specs.One.{CommandsAreOne, DrainsAreOne};
ghost use Rattle.machine_laws.specs.One.{WorklistsAreOne, AnswersAreOne, ScriptsAreOne};

/// Law: a Clock is a step of the machine.
pub fn clocks_are_steps()
    ensures { ClocksAreSteps }
{}

/// Law: a Suspend is a step of the machine.
pub fn suspends_are_steps()
    ensures { SuspendsAreSteps }
{}

/// Law: a Resume is a step of the machine.
pub fn resumes_are_steps()
    ensures { ResumesAreSteps }
{}

/// Law: a Terminate is a step of the machine.
pub fn terminates_are_steps()
    ensures { TerminatesAreSteps }
{}

/// Law: a Delete is a step of the machine.
pub fn deletes_are_steps()
    ensures { DeletesAreSteps }
{}

/// Law: an Import is a step of the machine, whatever it adds.
pub fn imports_are_steps()
    ensures { ImportsAreSteps }
{}

/// Law: a Claim of an item whose scope is there is a step of the machine.
pub fn claims_are_steps()
    ensures { ClaimsAreSteps }
{}

/// Law: a Turn whose message is met is a step of the machine.
pub fn turns_are_steps()
    ensures { TurnsAreSteps }
{}

/// Law: a Done of an item that is there is a step of the machine.
pub fn dones_are_steps()
    ensures { DonesAreSteps }
{}

/// Law: a Force of an item that is there is a step of the machine.
pub fn forces_are_steps()
    ensures { ForcesAreSteps }
{}

/// Law: a Start of the newest version under a root number that no live root has is a step of the machine.
pub fn starts_are_steps()
    ensures { StartsAreSteps }
{}

/// Law: a Release of an item whose scope is there is a step of the machine.
pub fn releases_are_steps()
    ensures { ReleasesAreSteps }
{}

/// Law: a Transfer of an item whose scope is there is a step of the machine.
pub fn transfers_are_steps()
    ensures { TransfersAreSteps }
{}

/// Law: a Take of an item whose scope is there is a step of the machine.
pub fn agent_takes_are_steps()
    ensures { AgentTakesAreSteps }
{}

/// Law: a Restart of an item whose scope is there is a step of the machine.
pub fn restarts_are_steps()
    ensures { RestartsAreSteps }
{}

/// Law: the machine finds the item of a path where the engine finds it, and sees the same of it.
pub fn items_are_seen()
    ensures { ItemsAreSeen }
{}

/// Law: a token spells at most one path.
pub fn paths_are_one()
    ensures { PathsAreOne }
{}

/// Law: a line is read in one way.
pub fn lines_are_one()
    ensures { LinesAreOne }
{}

/// Law: a text breaks one rule first in a state, or none.
pub fn texts_are_judged_once()
    ensures { TextsAreJudgedOnce }
{}

/// Law: a command has one verdict in a state.
pub fn verdicts_are_one()
    ensures { VerdictsAreOne }
{}

/// Law: a command leads to one state and has one reply.
pub fn commands_are_one()
    ensures { CommandsAreOne }
{}

/// Law: a DRAIN leads to one state and has one reply.
pub fn drains_are_one()
    ensures { DrainsAreOne }
{}

/// Law: a worklist lists its items in one order.
pub fn worklists_are_one()
    ensures { WorklistsAreOne }
{}

/// Law: a query has one reply.
pub fn answers_are_one()
    ensures { AnswersAreOne }
{}

/// Law: a script has one list of replies and leads to one state.
pub fn scripts_are_one()
    ensures { ScriptsAreOne }
{}

/// Law: in a right state, each transaction that is allowed is a step of the machine.
pub fn allowed_are_steps()
    ensures { AllowedAreSteps }
{}

/// Law: in a right state, what `apply` says of an allowed transaction is a step of the machine.
pub fn applied_are_steps()
    ensures { AppliedAreSteps }
{}

/// Law: in a right state, what `adopt` says of an allowed transaction is a step under the number of its record.
pub fn adopted_are_steps()
    ensures { AdoptedAreSteps }
{}

/// Law: the transaction to which a command is judged is good: an Import breaks no rule, a Start has the newest version.
pub fn verdicts_are_good()
    ensures { VerdictsAreGood }
{}

/// Law: so is the transaction of a record that is admitted.
pub fn admitted_are_good()
    ensures { AdmittedAreGood }
{}

/// Law: the rows of a view are those of the scopes that show it.
pub fn rows_are_shown()
    ensures { RowsAreShown }
{}
