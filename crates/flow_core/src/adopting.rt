//! Records of a store: which are allowed, and the state after them.
ghost use Rattle.std.specs.Prelude.{◌≡◌, ◌⊎◌, ◌↔◌, None, Option, OnOk, IfOk, IfErr, IfSome, IsTrue, IsFalse, is_none};
ghost use Rattle.std.specs.Prelude.{option_copied};
ghost use Rattle.flow_core.specs.Admitting.{IsAdmitted, IsRefused, IsTold, IsDue, IsDueAt, IsItemDue, IsStartDue};
ghost use Rattle.flow_core.specs.Admitting.{IsKeptNumber, IsNextNumber, IsKeptKind, IsNextKind, IsPlace};
ghost use Rattle.flow_core.specs.Admitting.{root_with as keyed_root};
ghost use Rattle.flow_core.specs.Allowing.{subject_of, IsKnown, IsOpen, IsFree, CountsRoot, IsAsked, IsAskedAt};
ghost use Rattle.flow_core.specs.Allowing.{IsAllowed, IsPassed};
ghost use Rattle.flow_core.specs.Refusals.{person_test, who_test, IsRuleOf, StopsBy};
ghost use Rattle.flow_core.specs.declared.refusals.Refusal.{Refusal as RefusalOf};
ghost use Rattle.flow_model.specs.declared.transactions.Transaction.TheVariants as made;
ghost use Rattle.flow_model.specs.declared.instances.Path.{Path as PathOf};
ghost use Rattle.flow_core.specs.Driving.{LibraryAfter, clock_after, Drives};
ghost use Rattle.flow_core.specs.Shelving.{IsExact, Shelves};
ghost use Rattle.flow_core.specs.Keys.{KeysAfter};
ghost use Rattle.flow_core.specs.Summaries.{summary, taken_up, counted, last_kept, last_number, Follows, deleted};
ghost use Rattle.flow_core.specs.Summaries.{started, roots_after};
ghost use Rattle.flow_core.specs.Verdicts.{IsFront};
ghost use Rattle.template_check.specs.Judged.{IsFaultless};
ghost use Rattle.flow_core.specs.declared.adopting.AdoptFault.TheVariants.{NoMemory, NotAllowed};

use crate::items::{Known, settings_fit};
use crate::judging::MOST_MINUTES;
use crate::paths::same_message;
use crate::refusals::Stop;
use crate::state::Core;
use flow_model::{Message, Name, Path, Setting, Transaction, Who};
use live_history::{deleted_root, started_root};
use std::alloc::AllocError;
use template_check::ImportFault;
use thiserror::Error;

/// Why a record isn't adopted.
#[derive(Clone, Copy, Debug, PartialEq, Eq, Drop, Error)]
pub enum AdoptFault {
    /// The record isn't allowed there; the state is unchanged.
    #[error("NotAllowed")]
    NotAllowed,
    /// There was no memory for it.
    #[error("NoMemory")]
    NoMemory,
}

impl From<AllocError> for AdoptFault {
    ghost from_gives = { λ _ e. e ≡ NoMemory };

    fn from(_fault: AllocError) -> AdoptFault {
        AdoptFault::NoMemory
    }
}

/// A test of a command, as a test of its record.
fn passes(test: Result<(), Stop>) -> Result<bool, AllocError>
    ensures passed { IfOk result (λ passed. IsTrue passed → IsPassed test) }
    ensures told { (refusal : Option RefusalOf) → StopsBy refusal test
        → IfOk result (λ passed. IsTrue passed ↔ (refusal ≡ None)) }
{
    match test {
        Ok(()) => Ok(true),
        Err(Stop::Refused(_)) => Ok(false),
        Err(Stop::NoMemory) => Err(AllocError),
    }
}

impl Core {
    fn allows_import(&mut self, text: &[u8]) -> Result<bool, AllocError>
        ensures same { self.new ≡ self.old }
        ensures asked { IfOk result (λ allowed. IsTrue allowed
            → IsFaultless self.old.store text.now) }
        ensures told { IfOk result (λ allowed. (rule : Option RefusalOf)
            × IsRuleOf self.old text.now rule × (allowed ≡ is_none rule)) }
    {
        match self.store.check(self.alloc, text) {
            Ok(()) => Ok(true),
            Err(ImportFault::Rule(_)) => Ok(false),
            Err(ImportFault::NoMemory) => Err(AllocError),
        }
    }

    /// A START carries the newest version, a key that no live root has, and settings that fit.
    fn allows_start(
        &self,
        process: &Name,
        version: u32,
        starter: &Name,
        key: Option<&Name>,
        settings: &[Setting],
    ) -> bool
        ensures { IsTrue result ↔ IsStartDue self.now process.now version starter.now
            (option_copied key.entry) settings.now }
    {
        let Some(template) = self.newest(process) else {
            return false;
        };
        if template.version != version {
            return false;
        }
        if !self.is_person(starter) {
            return false;
        }
        if !self.is_unused(key) {
            return false;
        }
        settings_fit(&template.graph.input, settings)
    }

    /// Whether a person is declared.
    fn is_person(&self, name: &Name) -> bool
        ensures { IsTrue result ↔ (person_test self.now name.now ≡ None) }
    {
        self.store.person(name).is_some()
    }

    /// The live root that has a key.
    fn root_with(&self, key: Option<&Name>) -> Option<u64>
        ensures { result ≡ keyed_root self.now (option_copied key.entry) }
    {
        match key {
            None => None,
            Some(key) => self.keys.get(key.as_slice()).copied(),
        }
    }

    /// Whether no live root has a key.
    fn is_unused(&self, key: Option<&Name>) -> bool
        ensures { IsTrue result ↔ (keyed_root self.now (option_copied key.entry) ≡ None) }
    {
        self.root_with(key).is_none()
    }

    fn allows_turn(&self, queue: u8, message: &Message) -> bool
        ensures { IsTrue result ↔ IsFront self.now queue message.now }
    {
        if queue < 1 || queue > self.queues.count() {
            return false;
        }
        match self.queues.front(queue) {
            None => false,
            Some(front) => same_message(front, message),
        }
    }

    fn allows_claim(&self, known: &Known<'_>, who: &Name) -> Result<bool, AllocError>
        ensures { (item : PathOf) → IfOk result (λ allowed. IsTrue allowed ↔ IsDueAt self.now (subject_of known.now)
            (made.Claim item who.now)) }
    {
        match self.store.person(who) {
            None => Ok(false),
            Some(person) => passes(self.may_claim(known, person)),
        }
    }

    fn allows_transfer(&self, known: &Known<'_>, from: &Name, to: &Name) -> Result<bool, AllocError>
        ensures { (item : PathOf) → IfOk result (λ allowed. IsTrue allowed ↔ IsDueAt self.now (subject_of known.now)
            (made.Transfer item from.now to.now)) }
    {
        if !self.is_person(from) {
            return Ok(false);
        }
        match self.store.person(to) {
            None => Ok(false),
            Some(person) => passes(self.may_transfer(known, from, person)),
        }
    }

    fn allows_release(&self, known: &Known<'_>, who: &Name) -> Result<bool, AllocError>
        ensures { (item : PathOf) → IfOk result (λ allowed. IsTrue allowed ↔ IsDueAt self.now (subject_of known.now)
            (made.Release item who.now)) }
    {
        if !self.is_person(who) {
            return Ok(false);
        }
        passes(self.may_release(known, who))
    }

    fn allows_take(&self, known: &Known<'_>, take: u64) -> Result<bool, AllocError>
        ensures { (item : PathOf) → IfOk result (λ allowed. IsTrue allowed ↔ IsDueAt self.now (subject_of known.now)
            (made.Take item take)) }
    {
        if known.item.state.next_take() != take {
            return Ok(false);
        }
        passes(self.may_take(known))
    }

    /// Whether the one who completes an item is declared; an agent has no name.
    fn is_declared(&self, who: &Who) -> bool
        ensures { IsTrue result ↔ (who_test self.now who.now ≡ None) }
    {
        match who {
            Who::Person(name) => self.is_person(name),
            Who::Agent(_) => true,
        }
    }

    fn allows_done(
        &self,
        known: &Known<'_>,
        who: &Who,
        settings: &[Setting],
    ) -> Result<bool, AllocError>
        ensures opened { (item : PathOf) → IsKnown self.now item known.now
            → IfOk result (λ allowed. IsTrue allowed → IsOpen self.now item) }
        ensures due { (item : PathOf) → IfOk result (λ allowed. IsTrue allowed ↔ IsDueAt self.now (subject_of known.now)
            (made.Done item who.now settings.now)) }
    {
        if !self.is_declared(who) {
            return Ok(false);
        }
        if !settings_fit(&known.item.activity.output, settings) {
            return Ok(false);
        }
        passes(self.may_complete(known, who))
    }

    fn allows_force(&self, known: &Known<'_>, settings: &[Setting]) -> Result<bool, AllocError>
        ensures opened { (item : PathOf) → IsKnown self.now item known.now
            → IfOk result (λ allowed. IsTrue allowed → IsOpen self.now item) }
        ensures due { (item : PathOf) → IfOk result (λ allowed. IsTrue allowed ↔ IsDueAt self.now
            (subject_of known.now) (made.Force item settings.now)) }
    {
        if !settings_fit(&known.item.activity.output, settings) {
            return Ok(false);
        }
        passes(self.may_force(known))
    }

    /// Whether a record on an item is allowed, where its item is there.
    fn allows_on(&self, known: &Known<'_>, t: &Transaction) -> Result<bool, AllocError>
        ensures asked { (item : PathOf) → IsKnown self.now item known.now
            → IfOk result (λ allowed. IsTrue allowed → IsAskedAt self.now item t.now) }
        ensures due { IfOk result (λ allowed. IsTrue allowed ↔ IsDueAt self.now
            (subject_of known.now) t.now) }
    {
        match t {
            Transaction::Claim(_, who) => self.allows_claim(known, who),
            Transaction::Release(_, who) => self.allows_release(known, who),
            Transaction::Transfer(_, from, to) => self.allows_transfer(known, from, to),
            Transaction::Take(_, take) => self.allows_take(known, *take),
            Transaction::Done(_, who, settings) => {
                self.allows_done(known, who, settings.as_slice())
            }
            Transaction::Force(_, settings) => self.allows_force(known, settings.as_slice()),
            Transaction::Restart(_) => passes(self.may_restart(known)),
            _ => Ok(false),
        }
    }

    fn allows_item(&self, item: &Path, t: &Transaction) -> Result<bool, AllocError>
        ensures asked { IfOk result (λ allowed. IsTrue allowed → IsAskedAt self.now item.now t.now) }
        ensures due { IfOk result (λ allowed. IsTrue allowed ↔ IsItemDue self.now item.now t.now) }
    {
        match self.known(item) {
            None => Ok(false),
            Some(known) => self.allows_on(&known, t),
        }
    }

    fn allows_clock(&self, minutes: u64) -> Result<bool, AllocError>
        ensures { IfOk result (λ allowed. IsTrue allowed ↔ IsDue self.now (made.Clock minutes)) }
    {
        if minutes > MOST_MINUTES {
            return Ok(false);
        }
        passes(self.may_set_clock(minutes))
    }

    /// Whether the tests of a record's command give it now, number and root aside.
    fn allows(&mut self, t: &Transaction) -> Result<bool, AllocError>
        ensures same { self.new ≡ self.old }
        ensures asked { IfOk result (λ allowed. IsTrue allowed → IsAsked self.old t.now) }
        ensures due { IfOk result (IsTold self.old t.now) }
    {
        match t {
            Transaction::Import(text) => self.allows_import(text.as_slice()),
            Transaction::Start(_, process, version, starter, key, settings) => Ok(
                self.allows_start(
                    process,
                    *version,
                    starter,
                    key.as_ref(),
                    settings.as_slice(),
                ),
            ),
            Transaction::Turn(queue, message) => Ok(self.allows_turn(*queue, message)),
            Transaction::Claim(item, _) => self.allows_item(item, t),
            Transaction::Release(item, _) => self.allows_item(item, t),
            Transaction::Transfer(item, _, _) => self.allows_item(item, t),
            Transaction::Take(item, _) => self.allows_item(item, t),
            Transaction::Done(item, _, _) => self.allows_item(item, t),
            Transaction::Force(item, _) => self.allows_item(item, t),
            Transaction::Restart(item) => self.allows_item(item, t),
            Transaction::Suspend(root) => passes(self.may_suspend(*root)),
            Transaction::Resume(root) => passes(self.may_resume(*root)),
            Transaction::Terminate(root) => passes(self.may_terminate(*root)),
            Transaction::Delete(root) => passes(self.may_delete(*root)),
            Transaction::Clock(minutes) => self.allows_clock(*minutes),
        }
    }

    /// Whether the number of a record is allowed: above that of the kept one before, or the next one.
    fn allows_number(&self, number: u64) -> bool
        ensures { IsTrue result ↔ (IsKeptNumber self.now number ⊎ IsNextNumber self.now number) }
    {
        if number <= self.kept {
            number > self.kept_number && self.number == self.kept
        } else {
            self.number < self.limit && number == self.number + 1
        }
    }

    /// Whether the root of a kept Start is the next of the kept ones, and there is no kept Delete.
    fn allows_kept(&self, t: &Transaction) -> bool
        ensures kept { IsTrue result → (deleted t.now ≡ None) × (roots_after t.now self.now.roots ≡ self.now.roots) }
        ensures exact { IsTrue result ↔ IsKeptKind self.now t.now }
    {
        if deleted_root(t).is_some() {
            return false;
        }
        match started_root(t) {
            None => true,
            Some(root) => root > self.kept_root && root <= self.roots,
        }
    }

    /// Whether the root of a Start is the next one.
    fn allows_new(&self, t: &Transaction) -> bool
        ensures { IsTrue result ↔ IsNextKind self.now t.now }
    {
        match started_root(t) {
            None => true,
            Some(root) => self.roots.checked_add(1) == Some(root),
        }
    }

    /// Whether a record may stand under its number.
    fn allows_place(&self, number: u64, t: &Transaction) -> bool
        ensures follows { IsTrue result → Follows self.now.kept (summary self.now) (record {
          number = number;
          transaction = t.now;
        }) }
        ensures free { IsTrue result → IfSome (started t.now) (IsFree self.now) }
        ensures exact { IsTrue result ↔ IsPlace self.now number t.now }
    {
        if !self.allows_number(number) {
            return false;
        }
        if number <= self.kept {
            self.allows_kept(t)
        } else {
            self.allows_new(t)
        }
    }

    /// Whether a record may stand under its number, and the tests of its command give it now.
    fn admits(&mut self, number: u64, t: &Transaction) -> Result<bool, AllocError>
        ensures same { self.new ≡ self.old }
        ensures follows { IfOk result (λ allowed. IsTrue allowed
            → Follows self.old.kept (summary self.old) (record { number = number; transaction = t.now })) }
        ensures free { IfOk result (λ allowed. IsTrue allowed → IfSome (started t.now) (IsFree self.old)) }
        ensures asked { IfOk result (λ allowed. IsTrue allowed → IsAsked self.old t.now) }
        ensures admitted { IfOk result (λ allowed. IsTrue allowed → IsAdmitted self.old number t.now) }
        ensures refused { IfOk result (λ allowed. IsFalse allowed → IsRefused self.old number t.now) }
    {
        if !self.allows_place(number, t) {
            return Ok(false);
        }
        self.allows(t)
    }

    /// Counts a record as kept, or as the next transaction.
    fn count(&mut self, number: u64, t: &Transaction)
        ensures counted { summary self.new ≡ counted self.old.kept number (summary self.old) }
        ensures kept { self.new.kept ≡ self.old.kept }
        ensures kept_root { self.new.kept_root
            ≡ last_kept self.old.kept (record { number = number; transaction = t.now }) self.old.kept_root }
        ensures kept_number { self.new.kept_number ≡ last_number self.old.kept number self.old.kept_number }
        ensures rest { self.new ≡ record self.old {
          number = self.new.number;
          roots = self.new.roots;
          kept_number = self.new.kept_number;
          kept_root = self.new.kept_root;
        } }
    {
        if number > self.kept {
            self.number = number;
            return;
        }
        self.kept_number = number;
        if let Some(root) = started_root(t) {
            self.kept_root = root;
        }
    }

    /// Adopts a record of a store, in the order of the records. `NotAllowed` comes exactly where it may not stand under
    /// its number there, or the tests of its command don't give it; then the state is unchanged.
    pub fn adopt(&mut self, number: u64, t: Transaction) -> Result<(), AdoptFault>
        ensures follows { OnOk result (Follows self.old.kept (summary self.old)
            (record { number = number; transaction = t })) }
        ensures taken { OnOk result (summary self.new
            ≡ taken_up self.old.kept (record { number = number; transaction = t }) (summary self.old)) }
        ensures kept { OnOk result (self.new.kept ≡ self.old.kept) }
        ensures allowed { OnOk result (IsAllowed self.old t) }
        ensures drives { OnOk result (Drives self.old t self.new) }
        ensures shelves { OnOk result (Shelves self.old t self.new) }
        ensures counts { OnOk result (CountsRoot self.old t self.new) }
        ensures admitted { OnOk result (IsAdmitted self.old number t) }
        ensures refused { IfErr result (λ fault. fault ≡ NotAllowed → IsRefused self.old number t) }
        ensures unchanged { IfErr result (λ fault. fault ≡ NotAllowed → self.new ≡ self.old) }
        ensures clock { OnOk result (self.new.clock ≡ clock_after t self.old.clock) }
        ensures store { OnOk result (LibraryAfter t self.old.store self.new.store) }
        ensures keys { OnOk result (KeysAfter self.old t self.new) }
        ensures kept_number { OnOk result (self.new.kept_number
            ≡ last_number self.old.kept number self.old.kept_number) }
        ensures kept_root { OnOk result (self.new.kept_root
            ≡ last_kept self.old.kept (record { number = number; transaction = t }) self.old.kept_root) }
        ensures exact { OnOk result (IsExact self.old t self.new) }
    {
        if !self.admits(number, &t)? {
            return Err(AdoptFault::NotAllowed);
        }
        self.count(number, &t);
        let _ = self.apply_as(number, &t)?;
        Ok(())
    }
}
