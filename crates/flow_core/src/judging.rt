//! Whether a command is allowed now: the first refusal in the order of its tests, or its transaction.
ghost use Rattle.std.specs.Prelude.{◌≡◌, ◌≤◌, ◌<◌, [], ◌∷◌, None, Some, Ok, length, List as ListOf, option_copied};
ghost use Rattle.std.specs.Prelude.{option_map, IfOk, IfErr, OnOk};
ghost use Rattle.flow_model.specs.declared.commands.Command.TheVariants as asked;
ghost use Rattle.flow_model.specs.declared.transactions.Setting.{Setting as SettingOf};
ghost use Rattle.flow_model.specs.declared.transactions.Transaction.TheVariants as made;
ghost use Rattle.containers.specs.Settings.{outcome_by};
ghost use Rattle.flow_model.specs.declared.graphs.Graph.{out-Graph};
ghost use Rattle.flow_core.specs.Allowing.{subject_of, mode_in, IsAllowed};
ghost use Rattle.flow_core.specs.Answers.{instance_of};
ghost use Rattle.flow_core.specs.Refusals.{first_of, full_test, number_test, person_of, person_test, newest_of};
ghost use Rattle.flow_core.specs.Refusals.{process_test, value_test, input_test, outcome_test, minutes_test};
ghost use Rattle.flow_core.specs.Refusals.{clock_test, queue_test, message_test, is_active, is_suspended, is_going};
ghost use Rattle.flow_core.specs.Refusals.{is_over, root_test, queued_test, IsRuleOf, IsFirstRefusal};
ghost use Rattle.flow_core.specs.Refusals.{same_root as root_with_key, StopsBy, StopsAs, IsStop};
ghost use Rattle.flow_core.specs.declared.refusals.Refusal.TheVariants as refused;
ghost use Rattle.flow_core.specs.Judgements.{IsVerdict};
ghost use Rattle.flow_core.specs.Verdicts.{IsFor, IsFront, next_root};

use crate::items::Known;
use crate::paths::copy_message;
use crate::refusals::{Refusal, Stop};
use crate::state::Core;
use containers::settings_of;
use flow_model::{
    Bytes, Command, Leaves, List, Message, Mode, Name, NumberAt, Outcome, PersonDef, RawSetting,
    Setting, Template, Transaction,
};
use std::alloc::AllocError;
use template_check::ImportFault;

/// The clock is at most this many minutes.
pub(crate) const MOST_MINUTES: u64 = 2_147_483_647;

/// The verdict on a command.
#[derive(Drop)]
pub enum Verdict {
    /// It is allowed, and makes this transaction.
    Do(Transaction),
    /// A live root has the key.
    Same(u64),
    Refused(Refusal),
}

impl Core {
    pub(crate) fn needs_room(&self) -> Result<(), Stop>
        ensures room { OnOk result (self.now.number < self.now.limit) }
        ensures stops { StopsBy (full_test self.now) result }
    {
        if self.is_full() {
            Err(Stop::Refused(Refusal::Full(self.limit)))
        } else {
            Ok(())
        }
    }

    /// The number of the next root. Each root takes a transaction, so that the limit comes first.
    fn needs_number(&self) -> Result<u64, Stop>
        ensures number { IfOk result (λ root. root ≡ next_root self.now) }
        ensures stops { StopsBy (number_test self.now) result }
    {
        match self.roots.checked_add(1) {
            Some(root) => Ok(root),
            None => Err(Stop::Refused(Refusal::Full(self.limit))),
        }
    }

    fn no_person(&self, name: &Name) -> Stop
        ensures { IsStop (Some (refused.Person name.now)) result }
    {
        match name.copy(self.alloc) {
            Ok(name) => Stop::Refused(Refusal::Person(name)),
            Err(_) => Stop::NoMemory,
        }
    }

    /// The person whom a name means, or PERSON.
    pub(crate) fn needs_person(&self, name: &Name) -> Result<&PersonDef, Stop>
        ensures stops { StopsBy (person_test self.now name.now) result }
        ensures person { IfOk result (λ person. person_of self.now name.now ≡ Some person.now) }
    {
        match self.store.person(name) {
            Some(person) => Ok(person),
            None => Err(self.no_person(name)),
        }
    }

    fn no_process(&self, name: &Name) -> Stop
        ensures { IsStop (Some (refused.Process name.now)) result }
    {
        match name.copy(self.alloc) {
            Ok(name) => Stop::Refused(Refusal::Process(name)),
            Err(_) => Stop::NoMemory,
        }
    }

    /// The newest template of a process.
    pub(crate) fn newest(&self, process: &Name) -> Option<&Template>
        ensures { option_copied result ≡ newest_of self.now process.now }
    {
        self.store.template(self.store.newest(process)?)
    }

    /// The newest template of a process, or PROCESS.
    fn needs_process(&self, process: &Name) -> Result<&Template, Stop>
        ensures stops { StopsBy (process_test self.now process.now) result }
        ensures newest { IfOk result (λ t. newest_of self.now process.now ≡ Some t.now) }
    {
        match self.newest(process) {
            Some(template) => Ok(template),
            None => Err(self.no_process(process)),
        }
    }

    /// The settings for a container, or VALUE.
    fn needs_settings(
        &self,
        leaves: &Leaves,
        rc: Option<&NumberAt>,
        written: &[RawSetting],
    ) -> Result<List<Setting>, Stop>
        ensures set { IfOk result (λ settings. outcome_by leaves.now (option_copied rc.entry) written.now
            ≡ Ok settings) }
        ensures stops { StopsBy (value_test leaves.now (option_copied rc.entry) written.now) result }
    {
        match settings_of(self.alloc, leaves, rc, written)? {
            Ok(settings) => Ok(settings),
            Err(place) => Err(Stop::Refused(Refusal::Value(place.saturating_add(1)))),
        }
    }

    /// The settings of a completion of an item, or VALUE.
    pub(crate) fn needs_outcome(
        &self,
        known: &Known<'_>,
        outcome: &Outcome,
    ) -> Result<List<Setting>, Stop>
        ensures set { IfOk result (λ settings. outcome_by known.now.item.activity.now.output outcome.now.rc
            outcome.now.settings ≡ Ok settings) }
        ensures stops { StopsBy (outcome_test outcome.now (subject_of known.now)) result }
    {
        let leaves = &known.item.activity.output;
        self.needs_settings(leaves, outcome.rc.as_ref(), outcome.settings.as_slice())
    }

    /// A text that breaks no rule, or RULE.
    fn needs_rules(&mut self, text: &Bytes) -> Result<(), Stop>
        ensures same { self.new ≡ self.old }
        ensures stops { StopsAs (IsRuleOf self.old text.now) result }
    {
        match self.store.check(self.alloc, text.as_slice()) {
            Ok(()) => Ok(()),
            Err(ImportFault::NoMemory) => Err(Stop::NoMemory),
            Err(ImportFault::Rule(fault)) => {
                Err(Stop::Refused(Refusal::Rule(fault.rule, fault.line)))
            }
        }
    }

    fn judge_import(&mut self, text: &Bytes) -> Result<Transaction, Stop>
        ensures same { self.new ≡ self.old }
        ensures room { OnOk result (self.old.number < self.old.limit) }
        ensures made { IfOk result (IsFor self.old (asked.Import text.now)) }
        ensures allowed { IfOk result (IsAllowed self.old) }
        ensures stops { StopsAs (IsFirstRefusal self.old (asked.Import text.now)) result }
    {
        self.needs_rules(text)?;
        self.needs_room()?;
        Ok(Transaction::Import(text.copy(self.alloc)?))
    }

    fn copied_key(&self, key: Option<&Name>) -> Result<Option<Name>, AllocError>
        ensures { IfOk result (λ copy. copy ≡ option_copied key.entry) }
    {
        match key {
            None => Ok(None),
            Some(key) => Ok(Some(key.copy(self.alloc)?)),
        }
    }

    /// The START of a process that is there, by a person who is declared.
    fn start_of(
        &self,
        template: &Template,
        process: &Name,
        starter: &Name,
        key: Option<&Name>,
        written: &[RawSetting],
    ) -> Result<Transaction, Stop>
        ensures room { OnOk result (self.now.number < self.now.limit) }
        ensures made { IfOk result (λ t. (settings : ListOf SettingOf)
            × (outcome_by (out-Graph template.now.graph).input None written.now ≡ Ok settings)
            × (t ≡ made.Start (next_root self.now) process.now template.now.version starter.now
            (option_copied key.entry) settings)) }
        ensures allowed { IfOk result (IsAllowed self.now) }
        ensures stops { StopsBy (first_of (input_test written.now (Some template.now) ∷ full_test self.now
            ∷ number_test self.now ∷ [])) result }
    {
        let settings = self.needs_settings(&template.graph.input, None, written)?;
        self.needs_room()?;
        Ok(Transaction::Start(
            self.needs_number()?,
            process.copy(self.alloc)?,
            template.version,
            starter.copy(self.alloc)?,
            self.copied_key(key)?,
            settings,
        ))
    }

    fn judge_start(
        &self,
        process: &Name,
        starter: &Name,
        key: Option<&Name>,
        written: &[RawSetting],
    ) -> Result<Transaction, Stop>
        ensures room { OnOk result (self.now.number < self.now.limit) }
        ensures made { IfOk result (IsFor self.now
            (asked.Start process.now starter.now (option_copied key.entry) written.now)) }
        ensures allowed { IfOk result (IsAllowed self.now) }
        ensures stops { StopsAs (IsFirstRefusal self.now
            (asked.Start process.now starter.now (option_copied key.entry) written.now)) result }
    {
        self.needs_person(starter)?;
        let template = self.needs_process(process)?;
        self.start_of(template, process, starter, key, written)
    }

    /// The number of a queue, or QUEUE.
    fn needs_queue(&self, number: u64) -> Result<u8, Stop>
        ensures number { IfOk result (λ queue. (queue ≡ number) × (1 ≤ queue) × (queue ≤ length self.now.queues)) }
        ensures stops { StopsBy (queue_test self.now number) result }
    {
        let count = self.queues.count();
        if number < 1 || number > u64::from(count) {
            return Err(Stop::Refused(Refusal::Queue(count)));
        }
        Ok(number as u8)
    }

    /// The front message of a queue, or EMPTY.
    fn needs_message(&self, queue: u8) -> Result<&Message, Stop>
        requires counted { 1 ≤ queue }
        requires there { queue ≤ length self.now.queues }
        ensures front { IfOk result (λ message. IsFront self.now queue message.now) }
        ensures stops { StopsBy (message_test self.now queue) result }
    {
        match self.queues.front(queue) {
            Some(message) => Ok(message),
            None => Err(Stop::Refused(Refusal::Empty(queue))),
        }
    }

    fn judge_turn(&self, number: u64) -> Result<Transaction, Stop>
        ensures room { OnOk result (self.now.number < self.now.limit) }
        ensures made { IfOk result (IsFor self.now (asked.Turn number)) }
        ensures allowed { IfOk result (IsAllowed self.now) }
        ensures stops { StopsAs (IsFirstRefusal self.now (asked.Turn number)) result }
    {
        let queue = self.needs_queue(number)?;
        let message = self.needs_message(queue)?;
        self.needs_room()?;
        Ok(Transaction::Turn(queue, copy_message(self.alloc, message)?))
    }

    /// The mode of a live root, or ROOT.
    fn needs_root(&self, root: u64) -> Result<Mode, Stop>
        ensures mode { IfOk result (λ mode. option_map mode_in (instance_of self.now root) ≡ Some mode) }
        ensures stops { IfErr result (λ stop. (option_map mode_in (instance_of self.now root) ≡ None)
            × IsStop (Some (refused.Root root)) stop) }
    {
        match self.instance(root) {
            Some(instance) => Ok(instance.mode()),
            None => Err(Stop::Refused(Refusal::Root(root))),
        }
    }

    pub(crate) fn may_suspend(&self, root: u64) -> Result<(), Stop>
        ensures { StopsBy (root_test self.now is_active root) result }
    {
        match self.needs_root(root)? {
            Mode::Active => Ok(()),
            mode => Err(Stop::Refused(Refusal::Mode(mode))),
        }
    }

    pub(crate) fn may_resume(&self, root: u64) -> Result<(), Stop>
        ensures { StopsBy (root_test self.now is_suspended root) result }
    {
        match self.needs_root(root)? {
            Mode::Suspended => Ok(()),
            mode => Err(Stop::Refused(Refusal::Mode(mode))),
        }
    }

    pub(crate) fn may_terminate(&self, root: u64) -> Result<(), Stop>
        ensures { StopsBy (root_test self.now is_going root) result }
    {
        match self.needs_root(root)? {
            Mode::Active => Ok(()),
            Mode::Suspended => Ok(()),
            mode => Err(Stop::Refused(Refusal::Mode(mode))),
        }
    }

    fn needs_over(&self, root: u64) -> Result<(), Stop>
        ensures { StopsBy (root_test self.now is_over root) result }
    {
        match self.needs_root(root)? {
            Mode::Done => Ok(()),
            Mode::Terminated => Ok(()),
            mode => Err(Stop::Refused(Refusal::Mode(mode))),
        }
    }

    fn needs_none_queued(&self, root: u64) -> Result<(), Stop>
        ensures { StopsBy (queued_test self.now root) result }
    {
        match self.queues.count_of_root(root) {
            0 => Ok(()),
            count => Err(Stop::Refused(Refusal::Queued(count))),
        }
    }

    pub(crate) fn may_delete(&self, root: u64) -> Result<(), Stop>
        ensures { StopsBy (first_of (root_test self.now is_over root ∷ queued_test self.now root ∷ [])) result }
    {
        self.needs_over(root)?;
        self.needs_none_queued(root)
    }

    pub(crate) fn may_set_clock(&self, minutes: u64) -> Result<(), Stop>
        ensures { StopsBy (clock_test self.now minutes) result }
    {
        if minutes < self.clock {
            return Err(Stop::Refused(Refusal::Clock(self.clock)));
        }
        Ok(())
    }

    /// The minutes of a clock, or VALUE.
    fn needs_minutes(&self, number: &NumberAt) -> Result<(), Stop>
        ensures { StopsBy (minutes_test number.now) result }
    {
        if number.size > MOST_MINUTES {
            let place = number.place.saturating_add(1);
            return Err(Stop::Refused(Refusal::Value(place)));
        }
        Ok(())
    }

    fn judge_suspend(&self, root: u64) -> Result<Transaction, Stop>
        ensures room { OnOk result (self.now.number < self.now.limit) }
        ensures made { IfOk result (IsFor self.now (asked.Suspend root)) }
        ensures allowed { IfOk result (IsAllowed self.now) }
        ensures stops { StopsAs (IsFirstRefusal self.now (asked.Suspend root)) result }
    {
        self.may_suspend(root)?;
        self.needs_room()?;
        Ok(Transaction::Suspend(root))
    }

    fn judge_resume(&self, root: u64) -> Result<Transaction, Stop>
        ensures room { OnOk result (self.now.number < self.now.limit) }
        ensures made { IfOk result (IsFor self.now (asked.Resume root)) }
        ensures allowed { IfOk result (IsAllowed self.now) }
        ensures stops { StopsAs (IsFirstRefusal self.now (asked.Resume root)) result }
    {
        self.may_resume(root)?;
        self.needs_room()?;
        Ok(Transaction::Resume(root))
    }

    fn judge_terminate(&self, root: u64) -> Result<Transaction, Stop>
        ensures room { OnOk result (self.now.number < self.now.limit) }
        ensures made { IfOk result (IsFor self.now (asked.Terminate root)) }
        ensures allowed { IfOk result (IsAllowed self.now) }
        ensures stops { StopsAs (IsFirstRefusal self.now (asked.Terminate root)) result }
    {
        self.may_terminate(root)?;
        self.needs_room()?;
        Ok(Transaction::Terminate(root))
    }

    fn judge_delete(&self, root: u64) -> Result<Transaction, Stop>
        ensures room { OnOk result (self.now.number < self.now.limit) }
        ensures made { IfOk result (IsFor self.now (asked.Delete root)) }
        ensures allowed { IfOk result (IsAllowed self.now) }
        ensures stops { StopsAs (IsFirstRefusal self.now (asked.Delete root)) result }
    {
        self.needs_over(root)?;
        self.needs_none_queued(root)?;
        self.needs_room()?;
        Ok(Transaction::Delete(root))
    }

    fn judge_clock(&self, number: &NumberAt) -> Result<Transaction, Stop>
        ensures room { OnOk result (self.now.number < self.now.limit) }
        ensures made { IfOk result (IsFor self.now (asked.Clock number.now)) }
        ensures allowed { IfOk result (IsAllowed self.now) }
        ensures stops { StopsAs (IsFirstRefusal self.now (asked.Clock number.now)) result }
    {
        self.needs_minutes(number)?;
        self.may_set_clock(number.size)?;
        self.needs_room()?;
        Ok(Transaction::Clock(number.size))
    }

    /// The transaction of a command, or why it is refused.
    fn transaction(&mut self, command: &Command) -> Result<Transaction, Stop>
        ensures same { self.new ≡ self.old }
        ensures room { OnOk result (self.old.number < self.old.limit) }
        ensures made { IfOk result (IsFor self.old command.now) }
        ensures allowed { IfOk result (IsAllowed self.old) }
        ensures stops { StopsAs (IsFirstRefusal self.old command.now) result }
    {
        match command {
            Command::Import(text) => self.judge_import(text),
            Command::Start(process, starter, key, settings) => {
                self.judge_start(process, starter, key.as_ref(), settings.as_slice())
            }
            Command::Turn(queue) => self.judge_turn(*queue),
            Command::Claim(item, person) => self.judge_claim(item, person),
            Command::Release(item, person) => self.judge_release(item, person),
            Command::Transfer(item, from, to) => self.judge_transfer(item, from, to),
            Command::Take(item) => self.judge_take(item),
            Command::Done(item, who, outcome) => self.judge_done(item, who, outcome),
            Command::Force(item, outcome) => self.judge_force(item, outcome),
            Command::Restart(item) => self.judge_restart(item),
            Command::Suspend(root) => self.judge_suspend(*root),
            Command::Resume(root) => self.judge_resume(*root),
            Command::Terminate(root) => self.judge_terminate(*root),
            Command::Delete(root) => self.judge_delete(*root),
            Command::Clock(number) => self.judge_clock(number),
            Command::Drain => Err(Stop::NoMemory),
            Command::Checkpoint => Err(Stop::NoMemory),
            Command::Ask(_) => Err(Stop::NoMemory),
        }
    }

    /// The live root that has a START's key.
    fn same_root(&self, command: &Command) -> Option<u64>
        ensures { result ≡ root_with_key self.now command.now }
    {
        match command {
            Command::Start(_, _, Some(key), _) => self.keys.get(key.as_slice()).copied(),
            _ => None,
        }
    }

    /// The verdict on a command that may make a transaction; the state stays as it is. What an accepted text compiles
    /// to is kept for its import.
    pub fn judge(&mut self, command: &Command) -> Result<Verdict, AllocError>
        ensures same { self.new ≡ self.old }
        ensures verdict { IfOk result (IsVerdict self.old command.now) }
    {
        if let Some(root) = self.same_root(command) {
            return Ok(Verdict::Same(root));
        }
        match self.transaction(command) {
            Ok(transaction) => Ok(Verdict::Do(transaction)),
            Err(Stop::Refused(refusal)) => Ok(Verdict::Refused(refusal)),
            Err(Stop::NoMemory) => Err(AllocError),
        }
    }
}
