//! Roots that start, are suspended, resumed, terminated or deleted.
ghost use Rattle.std.specs.Prelude.{◌≡◌, [], Some, None, option_copied, OnOk, IfOk, IsTrue, if◌then◌else◌};
ghost use Rattle.flow_core.specs.Driving.{templates, IsVersionAt, IfNewest, RunsAt, IsVersionPlace, IsMade};
ghost use Rattle.flow_core.specs.Driving.{IsSuspended, IsTerminated, IfLive, ChangesRoot, Drives};
ghost use Rattle.flow_core.specs.Answers.{instance_of};
ghost use Rattle.flow_core.specs.Shelving.{stands, SameStanding, without_items};
ghost use Rattle.flow_core.specs.Summaries.{noted};
ghost use Rattle.flow_core.specs.Keys.{KeepsKeys, StartsKey, FreesKey, holder, is_key};
ghost use Rattle.flow_model.specs.declared.names.Name.{Name as NameOf};
ghost use Rattle.flow_model.specs.declared.instances.Mode.TheVariants as modes;
ghost use Rattle.flow_core.specs.declared.applying.Note.TheVariants as notes;
ghost use Rattle.flow_model.specs.declared.transactions.Transaction.TheVariants as made;

use crate::applying::Note;
use crate::state::{Core, Root};
use containers::{fresh, with_settings};
use flow_model::{List, Message, Mode, Name, Path, Setting};
use navigator::Instance;
use std::alloc::AllocError;

impl Core {
    /// Whether the template at a place is this version of a process.
    fn is_version(&self, place: u32, process: &Name, version: u32) -> bool
        ensures version { IsTrue result → IsVersionAt (templates self.now) process.now version place }
        ensures there { IsVersionAt (templates self.now) process.now version place → IsTrue result }
    {
        match self.store.template(place) {
            None => false,
            Some(template) => {
                template.version == version && template.name.as_slice() == process.as_slice()
            }
        }
    }

    /// The place of this version of a process; it is mostly the newest.
    fn version_place(&self, process: &Name, version: u32) -> Option<u32>
        ensures version { IsVersionPlace (templates self.now) process.now version result }
        ensures newest { IfNewest self.now.store process.now version (λ place. result ≡ Some place) }
    {
        match self.store.newest(process) {
            Some(place) if self.is_version(place, process, version) => Some(place),
            _ => self.store.version(process, version),
        }
    }

    /// The instance that a START makes; None where the version isn't there.
    fn new_instance(
        &self,
        root: u64,
        process: &Name,
        version: u32,
        starter: &Name,
        settings: &[Setting],
    ) -> Result<Option<Instance>, AllocError>
        ensures made { IfOk result
            (λ made. IsMade (templates self.now) root process.now version starter.now settings.now made) }
        ensures placed { IfNewest self.now.store process.now version (λ place. IfOk result (RunsAt place)) }
    {
        let Some(place) = self.version_place(process, version) else {
            return Ok(None);
        };
        let Some(template) = self.store.template(place) else {
            return Ok(None);
        };
        let input = fresh(self.alloc, &template.graph.input)?;
        let input = with_settings(self.alloc, input, settings)?;
        let starter = starter.copy(self.alloc)?;
        Instance::start(self.alloc, self.library(), place, root, starter, input)
    }

    /// Notes that a root has a key, where it has one, and gives a copy of it.
    fn add_key(&mut self, root: u64, key: Option<&Name>) -> Result<Option<Name>, AllocError>
        ensures rest { self.new ≡ record self.old { keys = self.new.keys } }
        ensures copy { IfOk result (λ copy. copy ≡ option_copied key.entry) }
        ensures held { OnOk result ((held : NameOf) → holder self.new held
            ≡ (if is_key held (option_copied key.entry) then Some root else holder self.old held)) }
    {
        match key {
            None => Ok(None),
            Some(key) => {
                let bytes = Vec::from_slice(self.alloc, key.as_slice())?;
                self.keys.insert(bytes, root)?;
                Ok(Some(key.copy(self.alloc)?))
            }
        }
    }

    /// Adds a root under its number and its key.
    fn add_root(
        &mut self,
        root: u64,
        instance: Instance,
        key: Option<&Name>,
    ) -> Result<(), AllocError>
        ensures rest { self.new ≡ record self.old { live_roots = self.new.live_roots; keys = self.new.keys } }
        ensures roots { OnOk result (ChangesRoot root (λ _ after. after ≡ Some instance) self.old self.new) }
        ensures keys { OnOk result (StartsKey root (option_copied key.entry) self.old self.new) }
    {
        let key = self.add_key(root, key)?;
        self.live_roots.insert(root, Root { instance, key })?;
        Ok(())
    }

    pub(crate) fn start(
        &mut self,
        root: u64,
        process: &Name,
        version: u32,
        starter: &Name,
        key: Option<&Name>,
        settings: &[Setting],
    ) -> Result<Note, AllocError>
        ensures kept { noted self.new ≡ noted self.old }
        ensures drives { OnOk result (Drives self.old
            (made.Start root process.now version starter.now (option_copied key.entry) settings.now) self.new) }
        ensures shelves { OnOk result (SameStanding (stands self.new) (stands self.old)) }
        ensures note { IfOk result (λ n. n ≡ notes.Rooted root) }
        ensures clock { OnOk result (self.new.clock ≡ self.old.clock) }
        ensures store { OnOk result (self.new.store ≡ self.old.store) }
        ensures keys { OnOk result (IfNewest self.old.store process.now version
            (λ place. StartsKey root (option_copied key.entry) self.old self.new)) }
        ensures placed { IfNewest self.old.store process.now version
            (λ place. OnOk result (RunsAt place (instance_of self.new root))) }
    {
        let made = self.new_instance(root, process, version, starter, settings)?;
        let Some(instance) = made else {
            return Ok(Note::Rooted(root));
        };
        self.add_root(root, instance, key)?;
        self.put(Message::Begin(Path {
            root,
            parts: List::new(self.alloc),
        }))?;
        Ok(Note::Rooted(root))
    }

    /// Sets whether a root is suspended, where it is live.
    fn set_suspended(&mut self, root: u64, suspended: bool)
        ensures rest { self.new ≡ record self.old { live_roots = self.new.live_roots } }
        ensures keys { KeepsKeys self.old self.new }
        ensures roots { ChangesRoot root (IfLive (IsSuspended suspended) []) self.old self.new }
    {
        if let Some(found) = self.live_roots.get_mut(root) {
            if suspended {
                found.instance.suspend();
            } else {
                found.instance.resume();
            }
        }
    }

    /// Ends a root, where it is live.
    fn terminate_root(&mut self, root: u64)
        ensures rest { self.new ≡ record self.old { live_roots = self.new.live_roots } }
        ensures keys { KeepsKeys self.old self.new }
        ensures roots { ChangesRoot root (IfLive IsTerminated []) self.old self.new }
    {
        if let Some(found) = self.live_roots.get_mut(root) {
            found.instance.terminate();
        }
    }

    pub(crate) fn terminate(&mut self, root: u64) -> Result<Note, AllocError>
        ensures kept { noted self.new ≡ noted self.old }
        ensures drives { OnOk result (Drives self.old (made.Terminate root) self.new) }
        ensures shelves { OnOk result (SameStanding (stands self.new) (without_items root (stands self.old))) }
        ensures note { IfOk result (λ n. n ≡ notes.Moded modes.Terminated) }
        ensures clock { OnOk result (self.new.clock ≡ self.old.clock) }
        ensures store { OnOk result (self.new.store ≡ self.old.store) }
        ensures keys { OnOk result (KeepsKeys self.old self.new) }
    {
        self.terminate_root(root);
        self.worklists.drop_root(root)?;
        Ok(Note::Moded(Mode::Terminated))
    }

    pub(crate) fn suspend(&mut self, root: u64) -> Note
        ensures kept { noted self.new ≡ noted self.old }
        ensures drives { Drives self.old (made.Suspend root) self.new }
        ensures shelves { SameStanding (stands self.new) (stands self.old) }
        ensures note { result ≡ notes.Moded modes.Suspended }
        ensures clock { self.new.clock ≡ self.old.clock }
        ensures store { self.new.store ≡ self.old.store }
        ensures keys { KeepsKeys self.old self.new }
    {
        self.set_suspended(root, true);
        Note::Moded(Mode::Suspended)
    }

    pub(crate) fn resume_root(&mut self, root: u64) -> Note
        ensures kept { noted self.new ≡ noted self.old }
        ensures drives { Drives self.old (made.Resume root) self.new }
        ensures shelves { SameStanding (stands self.new) (stands self.old) }
        ensures note { result ≡ notes.Moded modes.Active }
        ensures clock { self.new.clock ≡ self.old.clock }
        ensures store { self.new.store ≡ self.old.store }
        ensures keys { KeepsKeys self.old self.new }
    {
        self.set_suspended(root, false);
        Note::Moded(Mode::Active)
    }

    /// Notes that no root has a key any more.
    fn free_key(&mut self, key: Option<&Name>)
        ensures rest { self.new ≡ record self.old { keys = self.new.keys } }
        ensures held { (held : NameOf) → holder self.new held
            ≡ (if is_key held (option_copied key.entry) then None else holder self.old held) }
    {
        if let Some(key) = key {
            let _ = self.keys.swap_remove(key.as_slice());
        }
    }

    /// Takes a root and its key away.
    fn remove_root(&mut self, root: u64)
        ensures rest { self.new ≡ record self.old { live_roots = self.new.live_roots; keys = self.new.keys } }
        ensures roots { ChangesRoot root (λ _ after. after ≡ None) self.old self.new }
        ensures keys { FreesKey root self.old self.new }
    {
        if let Some(found) = self.live_roots.remove(root) {
            self.free_key(found.key.as_ref());
        }
    }

    pub(crate) fn delete(&mut self, root: u64) -> Note
        ensures kept { noted self.new ≡ noted self.old }
        ensures drives { Drives self.old (made.Delete root) self.new }
        ensures shelves { SameStanding (stands self.new) (stands self.old) }
        ensures note { result ≡ notes.Deleted }
        ensures clock { self.new.clock ≡ self.old.clock }
        ensures store { self.new.store ≡ self.old.store }
        ensures keys { FreesKey root self.old self.new }
    {
        self.remove_root(root);
        Note::Deleted
    }
}
