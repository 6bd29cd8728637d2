//! The laws: the keys of the engine are those of the machine, and so are its verdicts, its replies and its answers.
ghost use Rattle.machine_laws.specs.Keyed.{BlanksAreKeyed, KeysStay, KeysStayAdopted, VerdictsHaveFreeKeys};
ghost use Rattle.machine_laws.specs.Keyed.{AdmittedHaveFreeKeys};
ghost use Rattle.machine_laws.specs.Verdicts.{VerdictsAreSeen, NotesAreSeen};
ghost use Rattle.machine_laws.specs.Answers.{QueuesAreSeen, AuditsAreSeen, TemplatesAreSeen, OutputsAreSeen};
ghost use Rattle.machine_laws.specs.Answers.{InputsAreSeen, WorklistsAreSeen, ShowsAreSeen, AnswersAreSeen};
ghost use Rattle.machine_laws.specs.Obeyed.{CommandsAreObeyed, RefusalsAreObeyed, SamesAreObeyed};
ghost use Rattle.machine_laws.specs.Obeyed.{RecordsAreAdopted};

/// Law: before any transaction the keys are the machine's.
pub fn blanks_are_keyed()
    ensures { BlanksAreKeyed }
{}

/// Law: in a right state they stay so with what `apply` says of a transaction that may come.
pub fn keys_stay()
    ensures { KeysStay }
{}

/// Law: they stay so with what `adopt` says of a record that may come.
pub fn keys_stay_adopted()
    ensures { KeysStayAdopted }
{}

/// Law: the transaction to which a command is judged names no key that a live root has.
pub fn verdicts_have_free_keys()
    ensures { VerdictsHaveFreeKeys }
{}

/// Law: nor does the transaction of a record that is admitted.
pub fn admitted_have_free_keys()
    ensures { AdmittedHaveFreeKeys }
{}

/// Law: the verdict of a command over the engine's state is its verdict over the machine's.
pub fn verdicts_are_seen()
    ensures { VerdictsAreSeen }
{}

/// Law: what a reply names by the engine's states is what it names by the machine's.
pub fn notes_are_seen()
    ensures { NotesAreSeen }
{}

/// Law: the reply to QUEUE over the engine's state is its reply over the machine's.
pub fn queues_are_seen()
    ensures { QueuesAreSeen }
{}

/// Law: so it is of AUDIT.
pub fn audits_are_seen()
    ensures { AuditsAreSeen }
{}

/// Law: so it is of TEMPLATES.
pub fn templates_are_seen()
    ensures { TemplatesAreSeen }
{}

/// Law: in a right state so it is of OUTPUT.
pub fn outputs_are_seen()
    ensures { OutputsAreSeen }
{}

/// Law: in a right state so it is of INPUT.
pub fn inputs_are_seen()
    ensures { InputsAreSeen }
{}

/// Law: in a right state whose worklists hold exactly its open manual items it is so of WORKLIST.
pub fn worklists_are_seen()
    ensures { WorklistsAreSeen }
{}

/// Law: and of SHOW.
pub fn shows_are_seen()
    ensures { ShowsAreSeen }
{}

/// Law: in a right state whose worklists hold exactly its open manual items it is so of each query.
pub fn answers_are_seen()
    ensures { AnswersAreSeen }
{}

/// Law: in a right, keyed state a transaction is made and replied to as the machine makes it and replies to it.
pub fn commands_are_obeyed()
    ensures { CommandsAreObeyed }
{}

/// Law: a command that is refused is replied to as the machine replies.
pub fn refusals_are_obeyed()
    ensures { RefusalsAreObeyed }
{}

/// Law: a START with the key of a live root is replied to as the machine replies.
pub fn sames_are_obeyed()
    ensures { SamesAreObeyed }
{}

/// Law: in a right, keyed state what is made of an admitted record is a step of the machine under its number.
pub fn records_are_adopted()
    ensures { RecordsAreAdopted }
{}
