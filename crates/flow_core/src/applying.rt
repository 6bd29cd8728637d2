//! The state after a transaction that is allowed.
ghost use Rattle.std.specs.Prelude.{◌≡◌, ◌<◌, ◌+◌, OnOk, IfOk};
ghost use Rattle.flow_core.specs.Verdicts.{IsNoteOf};
ghost use Rattle.template_check.specs.Judged.{IsFaultless};
ghost use Rattle.flow_core.specs.Allowing.{CountsRoot, IsAsked, IsFaultlessImport};
ghost use Rattle.flow_core.specs.Driving.{templates, TemplatesAfter, LibraryAfter, clock_after, Drives, IsFrontOf};
ghost use Rattle.flow_core.specs.Shelving.{stands, SameStanding, IsExact, Shelves};
ghost use Rattle.flow_core.specs.Summaries.{summary, noted, next, with_transaction, with_root_of, without, kept_by};
ghost use Rattle.flow_core.specs.Keys.{KeepsKeys, KeysAfter};
ghost use Rattle.flow_core.specs.declared.applying.Note.TheVariants as notes;
ghost use Rattle.flow_model.specs.declared.transactions.Transaction.TheVariants as made;

use crate::state::Core;
use flow_model::{Bytes, Fate, Message, Mode, Transaction};
use live_history::{deleted_root, started_root};
use std::alloc::AllocError;
use template_check::ImportFault;

/// What the reply of a transaction names.
#[derive(Drop)]
pub enum Note {
    /// The number of processes.
    Imported(u32),
    Rooted(u64),
    Turned(u8, Message),
    Fated(Fate),
    Taken(u64),
    Moded(Mode),
    Deleted,
    Clocked(u64),
}

/// A transaction's number, and what its reply names.
#[derive(Drop)]
pub struct Applied {
    pub number: u64,
    pub note: Note,
}

impl Core {
    /// Adds a text to the library.
    fn import(&mut self, text: &Bytes) -> Result<Note, AllocError>
        requires { IsFaultless self.old.store text.now }
        ensures kept { noted self.new ≡ noted self.old }
        ensures rest { self.new ≡ record self.old { store = self.new.store } }
        ensures library { OnOk result (TemplatesAfter (made.Import text.now) (templates self.old)
            (templates self.new)) }
        ensures shelves { SameStanding (stands self.new) (stands self.old) }
        ensures note { IfOk result (IsNoteOf self.old (made.Import text.now) self.new) }
        ensures clock { OnOk result (self.new.clock ≡ self.old.clock) }
        ensures store { OnOk result (LibraryAfter (made.Import text.now) self.old.store self.new.store) }
        ensures keys { KeepsKeys self.old self.new }
    {
        match self.store.import(self.alloc, text.as_slice()) {
            Ok(count) => Ok(Note::Imported(count)),
            Err(ImportFault::Rule(_)) => unreachable!(),
            Err(ImportFault::NoMemory) => Err(AllocError),
        }
    }

    fn set_clock(&mut self, minutes: u64) -> Note
        ensures kept { noted self.new ≡ noted self.old }
        ensures drives { Drives self.old (made.Clock minutes) self.new }
        ensures shelves { SameStanding (stands self.new) (stands self.old) }
        ensures note { result ≡ notes.Clocked minutes }
        ensures clock { self.new.clock ≡ minutes }
        ensures store { self.new.store ≡ self.old.store }
        ensures keys { KeepsKeys self.old self.new }
    {
        self.clock = minutes;
        Note::Clocked(minutes)
    }

    fn change_by(&mut self, t: &Transaction) -> Result<Note, AllocError>
        requires faultless { IsFaultlessImport self.old.store t.now }
        requires front { IsFrontOf self.old t.now }
        ensures kept { noted self.new ≡ noted self.old }
        ensures note { IfOk result (IsNoteOf self.old t.now self.new) }
        ensures drives { OnOk result (Drives self.old t.now self.new) }
        ensures shelves { OnOk result (Shelves self.old t.now self.new) }
        ensures clock { OnOk result (self.new.clock ≡ clock_after t.now self.old.clock) }
        ensures store { OnOk result (LibraryAfter t.now self.old.store self.new.store) }
        ensures keys { OnOk result (KeysAfter self.old t.now self.new) }
        ensures exact { OnOk result (IsExact self.old t.now self.new) }
    {
        match t {
            Transaction::Import(text) => self.import(text),
            Transaction::Start(root, process, version, starter, key, settings) => self.start(
                *root,
                process,
                *version,
                starter,
                key.as_ref(),
                settings.as_slice(),
            ),
            Transaction::Turn(queue, _) => self.turn(*queue),
            Transaction::Claim(item, who) => self.hold_by(item, who),
            Transaction::Release(item, _) => self.give_back(item),
            Transaction::Transfer(item, _, to) => self.hold_by(item, to),
            Transaction::Take(item, take) => self.hold_by_agent(item, *take),
            Transaction::Done(item, who, settings) => self.done(item, who, settings.as_slice()),
            Transaction::Force(item, settings) => self.complete(item, None, settings.as_slice()),
            Transaction::Restart(item) => self.give_back(item),
            Transaction::Suspend(root) => Ok(self.suspend(*root)),
            Transaction::Resume(root) => Ok(self.resume_root(*root)),
            Transaction::Terminate(root) => self.terminate(*root),
            Transaction::Delete(root) => Ok(self.delete(*root)),
            Transaction::Clock(minutes) => Ok(self.set_clock(*minutes)),
        }
    }

    /// Counts the root of a Start.
    fn count_root(&mut self, t: &Transaction)
        ensures counted { noted self.new ≡ (
          self.old.kept,
          self.old.kept_number,
          self.old.kept_root,
          with_root_of t.now
              (summary self.old),
        ) }
        ensures rest { self.new ≡ record self.old { roots = self.new.roots } }
    {
        if let Some(root) = started_root(t) {
            self.roots = self.roots.max(root);
        }
    }

    /// Takes the transactions about a root away.
    fn forget(&mut self, root: u64)
        ensures forgets { noted self.new ≡ (
          self.old.kept,
          self.old.kept_number,
          self.old.kept_root,
          without root
              (summary self.old),
        ) }
        ensures rest { self.new ≡ record self.old { live = self.new.live } }
    {
        self.live.remove(root);
    }

    /// Keeps a transaction where it is live; a Delete takes those of its root away.
    fn keep(&mut self, number: u64, t: &Transaction) -> Result<(), AllocError>
        ensures keeps { OnOk result (noted self.new
            ≡ (self.old.kept, self.old.kept_number, self.old.kept_root, kept_by number t.now (summary self.old))) }
        ensures rest { self.new ≡ record self.old { live = self.new.live } }
    {
        match deleted_root(t) {
            Some(root) => self.forget(root),
            None => self.live.push(number, t)?,
        }
        Ok(())
    }

    /// Applies a transaction under a number, and keeps it where it is live.
    pub(crate) fn apply_as(&mut self, number: u64, t: &Transaction) -> Result<Applied, AllocError>
        requires faultless { IsFaultlessImport self.old.store t.now }
        requires front { IsFrontOf self.old t.now }
        ensures numbered { IfOk result (λ applied. applied.number ≡ number) }
        ensures note { IfOk result (λ applied. IsNoteOf self.old t.now self.new applied.note) }
        ensures applied { OnOk result (noted self.new
            ≡ (
              self.old.kept,
              self.old.kept_number,
              self.old.kept_root,
              with_transaction self.old.number number t.now
                  (summary self.old),
            )) }
        ensures drives { OnOk result (Drives self.old t.now self.new) }
        ensures shelves { OnOk result (Shelves self.old t.now self.new) }
        ensures clock { OnOk result (self.new.clock ≡ clock_after t.now self.old.clock) }
        ensures store { OnOk result (LibraryAfter t.now self.old.store self.new.store) }
        ensures keys { OnOk result (KeysAfter self.old t.now self.new) }
        ensures exact { OnOk result (IsExact self.old t.now self.new) }
    {
        self.count_root(t);
        let note = self.change_by(t)?;
        self.keep(number, t)?;
        Ok(Applied { number, note })
    }

    /// The state after the next transaction, as `judge` gives it: what it asks for is there (`asked`). An error is want
    /// of memory alone; after it the state isn't used.
    pub fn apply(&mut self, t: Transaction) -> Result<Applied, AllocError>
        requires room { self.old.number < self.old.limit }
        requires asked { IsAsked self.old t }
        ensures next { OnOk result (summary self.new ≡ next t (summary self.old)) }
        ensures number { IfOk result (λ applied. applied.number ≡ self.old.number + 1) }
        ensures note { IfOk result (λ applied. IsNoteOf self.old t self.new applied.note) }
        ensures drives { OnOk result (Drives self.old t self.new) }
        ensures shelves { OnOk result (Shelves self.old t self.new) }
        ensures counts { OnOk result (CountsRoot self.old t self.new) }
        ensures clock { OnOk result (self.new.clock ≡ clock_after t self.old.clock) }
        ensures store { OnOk result (LibraryAfter t self.old.store self.new.store) }
        ensures keys { OnOk result (KeysAfter self.old t self.new) }
        ensures exact { OnOk result (IsExact self.old t self.new) }
    {
        self.number += 1;
        self.apply_as(self.number, &t)
    }
}
