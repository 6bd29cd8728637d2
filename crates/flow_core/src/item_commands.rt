//! The commands on items: the first refusal in the order of their tests, or the transaction.
ghost use Rattle.std.specs.Prelude.{◌≡◌, ◌<◌, [], ◌∷◌, Ok, Some, List as ListOf, IfOk, OnOk};
ghost use Rattle.activity_states.specs.States.{next_take};
ghost use Rattle.containers.specs.Settings.{outcome_by};
ghost use Rattle.flow_model.specs.declared.commands.Command.TheVariants as asked;
ghost use Rattle.flow_model.specs.declared.transactions.Setting.{Setting as SettingOf};
ghost use Rattle.flow_model.specs.declared.transactions.Transaction.TheVariants as made;
ghost use Rattle.flow_core.specs.Allowing.{subject_of, IsKnown, IsOpen, IsAllowed};
ghost use Rattle.flow_core.specs.Refusals.{first_of, full_test, who_test, claim_test, release_test, transfer_test};
ghost use Rattle.flow_core.specs.Refusals.{taking_test, completing_test, outcome_test, forcing_test, restart_test};
ghost use Rattle.flow_core.specs.Refusals.{IsFirstRefusal, StopsBy, StopsAs};
ghost use Rattle.flow_core.specs.Verdicts.{IsFor};

use crate::items::Found;
use crate::refusals::Stop;
use crate::state::Core;
use flow_model::{Bytes, Name, Outcome, PersonDef, Transaction, Who};
use std::alloc::AllocError;

impl Core {
    /// The CLAIM of an item by a person.
    fn claim_item(
        &self,
        found: Found<'_>,
        person: &PersonDef,
        name: &Name,
    ) -> Result<Transaction, Stop>
        ensures room { OnOk result (self.now.number < self.now.limit) }
        ensures made { IfOk result (λ t. t ≡ made.Claim found.entry.path name.now) }
        ensures stops { StopsBy (first_of (claim_test (Some person.now) (subject_of found.entry.known)
            ∷ full_test self.now ∷ [])) result }
    {
        let Found { path, known } = found;
        self.may_claim(&known, person)?;
        self.needs_room()?;
        Ok(Transaction::Claim(path, name.copy(self.alloc)?))
    }

    pub(crate) fn judge_claim(&self, token: &Bytes, name: &Name) -> Result<Transaction, Stop>
        ensures room { OnOk result (self.now.number < self.now.limit) }
        ensures made { IfOk result (IsFor self.now (asked.Claim token.now name.now)) }
        ensures allowed { IfOk result (IsAllowed self.now) }
        ensures stops { StopsAs (IsFirstRefusal self.now (asked.Claim token.now name.now)) result }
    {
        let found = self.found(token)?;
        let person = self.needs_person(name)?;
        let item = self.needs_item(token, found)?;
        self.claim_item(item, person, name)
    }

    /// The RELEASE of an item by a person.
    fn release_item(&self, found: Found<'_>, name: &Name) -> Result<Transaction, Stop>
        ensures room { OnOk result (self.now.number < self.now.limit) }
        ensures made { IfOk result (λ t. t ≡ made.Release found.entry.path name.now) }
        ensures stops { StopsBy (first_of (release_test name.now (subject_of found.entry.known) ∷ full_test self.now
            ∷ [])) result }
    {
        let Found { path, known } = found;
        self.may_release(&known, name)?;
        self.needs_room()?;
        Ok(Transaction::Release(path, name.copy(self.alloc)?))
    }

    pub(crate) fn judge_release(&self, token: &Bytes, name: &Name) -> Result<Transaction, Stop>
        ensures room { OnOk result (self.now.number < self.now.limit) }
        ensures made { IfOk result (IsFor self.now (asked.Release token.now name.now)) }
        ensures allowed { IfOk result (IsAllowed self.now) }
        ensures stops { StopsAs (IsFirstRefusal self.now
            (asked.Release token.now name.now)) result }
    {
        let found = self.found(token)?;
        self.needs_person(name)?;
        let item = self.needs_item(token, found)?;
        self.release_item(item, name)
    }

    /// The TRANSFER of an item from a person to another.
    fn transfer_item(
        &self,
        found: Found<'_>,
        from: &Name,
        person: &PersonDef,
        to: &Name,
    ) -> Result<Transaction, Stop>
        ensures room { OnOk result (self.now.number < self.now.limit) }
        ensures made { IfOk result (λ t. t ≡ made.Transfer found.entry.path from.now to.now) }
        ensures stops { StopsBy (first_of (transfer_test from.now (Some person.now) (subject_of found.entry.known)
            ∷ full_test self.now ∷ [])) result }
    {
        let Found { path, known } = found;
        self.may_transfer(&known, from, person)?;
        self.needs_room()?;
        Ok(Transaction::Transfer(path, from.copy(self.alloc)?, to.copy(self.alloc)?))
    }

    pub(crate) fn judge_transfer(
        &self,
        token: &Bytes,
        from: &Name,
        to: &Name,
    ) -> Result<Transaction, Stop>
        ensures room { OnOk result (self.now.number < self.now.limit) }
        ensures made { IfOk result (IsFor self.now (asked.Transfer token.now from.now to.now)) }
        ensures allowed { IfOk result (IsAllowed self.now) }
        ensures stops { StopsAs (IsFirstRefusal self.now
            (asked.Transfer token.now from.now to.now)) result }
    {
        let found = self.found(token)?;
        self.needs_person(from)?;
        let person = self.needs_person(to)?;
        let item = self.needs_item(token, found)?;
        self.transfer_item(item, from, person, to)
    }

    /// The TAKE of an item.
    fn take_item(&self, found: Found<'_>) -> Result<Transaction, Stop>
        ensures room { OnOk result (self.now.number < self.now.limit) }
        ensures made { IfOk result (λ t. t ≡ made.Take found.entry.path (next_take found.entry.known.item.state.now)) }
        ensures stops { StopsBy (first_of (taking_test (subject_of found.entry.known) ∷ full_test self.now
            ∷ [])) result }
    {
        let Found { path, known } = found;
        self.may_take(&known)?;
        let number = known.item.state.next_take();
        self.needs_room()?;
        Ok(Transaction::Take(path, number))
    }

    pub(crate) fn judge_take(&self, token: &Bytes) -> Result<Transaction, Stop>
        ensures room { OnOk result (self.now.number < self.now.limit) }
        ensures made { IfOk result (IsFor self.now (asked.Take token.now)) }
        ensures allowed { IfOk result (IsAllowed self.now) }
        ensures stops { StopsAs (IsFirstRefusal self.now (asked.Take token.now)) result }
    {
        let found = self.found(token)?;
        let item = self.needs_item(token, found)?;
        self.take_item(item)
    }

    /// Who completes an item, where a person is declared.
    fn needs_who(&self, who: &Who) -> Result<(), Stop>
        ensures { StopsBy (who_test self.now who.now) result }
    {
        match who {
            Who::Agent(_) => Ok(()),
            Who::Person(name) => match self.needs_person(name) {
                Ok(_) => Ok(()),
                Err(stop) => Err(stop),
            },
        }
    }

    fn copied_who(&self, who: &Who) -> Result<Who, AllocError>
        ensures { IfOk result (λ copy. copy ≡ who.now) }
    {
        match who {
            Who::Person(name) => Ok(Who::Person(name.copy(self.alloc)?)),
            Who::Agent(take) => Ok(Who::Agent(*take)),
        }
    }

    /// The DONE of an item, by a person or by an agent.
    fn done_item(&self, found: Found<'_>, who: &Who, outcome: &Outcome) -> Result<Transaction, Stop>
        requires { IsKnown self.now found.path found.known }
        ensures room { OnOk result (self.now.number < self.now.limit) }
        ensures made { IfOk result (λ t. (settings : ListOf SettingOf)
            × (outcome_by found.entry.known.item.activity.now.output outcome.now.rc outcome.now.settings ≡ Ok settings)
            × (t ≡ made.Done found.entry.path who.now settings)) }
        ensures opened { OnOk result (IsOpen self.now found.entry.path) }
        ensures stops { StopsBy (first_of (first_of
            (completing_test who.now (subject_of found.entry.known)
            ∷ outcome_test outcome.now (subject_of found.entry.known) ∷ []) ∷ full_test self.now ∷ [])) result }
    {
        let Found { path, known } = found;
        self.may_complete(&known, who)?;
        let settings = self.needs_outcome(&known, outcome)?;
        self.needs_room()?;
        Ok(Transaction::Done(path, self.copied_who(who)?, settings))
    }

    pub(crate) fn judge_done(
        &self,
        token: &Bytes,
        who: &Who,
        outcome: &Outcome,
    ) -> Result<Transaction, Stop>
        ensures room { OnOk result (self.now.number < self.now.limit) }
        ensures made { IfOk result (IsFor self.now (asked.Done token.now who.now outcome.now)) }
        ensures allowed { IfOk result (IsAllowed self.now) }
        ensures stops { StopsAs (IsFirstRefusal self.now
            (asked.Done token.now who.now outcome.now)) result }
    {
        let found = self.found(token)?;
        self.needs_who(who)?;
        let item = self.needs_item(token, found)?;
        self.done_item(item, who, outcome)
    }

    /// The FORCE of an item.
    fn force_item(&self, found: Found<'_>, outcome: &Outcome) -> Result<Transaction, Stop>
        requires { IsKnown self.now found.path found.known }
        ensures room { OnOk result (self.now.number < self.now.limit) }
        ensures made { IfOk result (λ t. (settings : ListOf SettingOf)
            × (outcome_by found.entry.known.item.activity.now.output outcome.now.rc outcome.now.settings ≡ Ok settings)
            × (t ≡ made.Force found.entry.path settings)) }
        ensures opened { OnOk result (IsOpen self.now found.entry.path) }
        ensures stops { StopsBy (first_of (first_of
            (forcing_test (subject_of found.entry.known) ∷ outcome_test outcome.now (subject_of found.entry.known)
            ∷ []) ∷ full_test self.now ∷ [])) result }
    {
        let Found { path, known } = found;
        self.may_force(&known)?;
        let settings = self.needs_outcome(&known, outcome)?;
        self.needs_room()?;
        Ok(Transaction::Force(path, settings))
    }

    pub(crate) fn judge_force(&self, token: &Bytes, outcome: &Outcome) -> Result<Transaction, Stop>
        ensures room { OnOk result (self.now.number < self.now.limit) }
        ensures made { IfOk result (IsFor self.now (asked.Force token.now outcome.now)) }
        ensures allowed { IfOk result (IsAllowed self.now) }
        ensures stops { StopsAs (IsFirstRefusal self.now (asked.Force token.now outcome.now)) result }
    {
        let found = self.found(token)?;
        let item = self.needs_item(token, found)?;
        self.force_item(item, outcome)
    }

    /// The RESTART of an item.
    fn restart_item(&self, found: Found<'_>) -> Result<Transaction, Stop>
        ensures room { OnOk result (self.now.number < self.now.limit) }
        ensures made { IfOk result (λ t. t ≡ made.Restart found.entry.path) }
        ensures stops { StopsBy (first_of (restart_test (subject_of found.entry.known) ∷ full_test self.now
            ∷ [])) result }
    {
        let Found { path, known } = found;
        self.may_restart(&known)?;
        self.needs_room()?;
        Ok(Transaction::Restart(path))
    }

    pub(crate) fn judge_restart(&self, token: &Bytes) -> Result<Transaction, Stop>
        ensures room { OnOk result (self.now.number < self.now.limit) }
        ensures made { IfOk result (IsFor self.now (asked.Restart token.now)) }
        ensures allowed { IfOk result (IsAllowed self.now) }
        ensures stops { StopsAs (IsFirstRefusal self.now (asked.Restart token.now)) result }
    {
        let found = self.found(token)?;
        let item = self.needs_item(token, found)?;
        self.restart_item(item)
    }
}
