//! Messages that are taken, and items that are held or completed.
ghost use Rattle.std.specs.Prelude.{◌≡◌, [], ◌∷◌, option_map, is_some, OnOk, IfOk, IfSome};
ghost use Rattle.flow_model.specs.declared.instances.Message.{Message as MessageOf};
ghost use Rattle.flow_core.specs.Verdicts.{fate_now, IsFront};
ghost use Rattle.containers.specs.Settings.{filled};
ghost use Rattle.flow_model.specs.Containers.{fresh as fresh_of};
ghost use Rattle.flow_core.specs.Driving.{templates, IfLive, ChangesRoot};
ghost use Rattle.flow_core.specs.Driving.{Drives, HoldsItem, CompletesItem, item_of, put_in, queue_now};
ghost use Rattle.recover_queue.specs.Queues.{root_of as root_of_message};
ghost use Rattle.root_laws.specs.Becoming.{TakesIn, CompletesIn, HoldsIn};
ghost use Rattle.flow_core.specs.Answers.{instance_of};
ghost use Rattle.flow_core.specs.Shelving.{stands, SameStanding, all_listed};
ghost use Rattle.flow_core.specs.Shelving.{MakesReady, CompletesReady, IfRootLive, TurnShelves, TakesGiving};
ghost use Rattle.flow_core.specs.Shelving.{CompletesGiving, WhereLive, ExactTurn, CompletesExactly};
ghost use Rattle.flow_core.specs.Shelving.{CompletesShelves, HoldShelves, performer_named, line_now};
ghost use Rattle.flow_core.specs.Summaries.{noted};
ghost use Rattle.flow_core.specs.Keys.{KeepsKeys};
ghost use Rattle.flow_core.specs.declared.applying.Note.TheVariants as notes;
ghost use Rattle.flow_model.specs.declared.transactions.Transaction.TheVariants as made;
ghost use Rattle.navigator.specs.declared.instance.HoldChange.TheVariants as holds;

use crate::applying::Note;
use crate::paths::queue_of;
use crate::state::{Core, Root};
use containers::{fresh, with_settings};
use flow_model::{Container, Fate, Library, List, Message, Name, Path, Setting, Who};
use live_history::root_of;
use navigator::HoldChange;
use std::alloc::{AllocError, Global};

impl Root {
    /// The root takes a message: the messages that it gives, and the items that became ready.
    fn take_message(
        &mut self,
        alloc: Global,
        library: &Library,
        clock: u64,
        message: &Message,
    ) -> Result<(List<Message>, Vec<Path>), AllocError>
        ensures rest { self.new ≡ record self.old { instance = self.new.instance } }
        ensures taken { IfOk result (λ given. TakesIn library.now.templates message.now given.0 self.old.instance
            self.new.instance) }
        ensures ready { IfOk result (λ given. MakesReady library.now.templates clock message.now given.1.items
            self.old.instance self.new.instance) }
        ensures exact { IfOk result (λ given. TakesGiving library.now.templates clock message.now given.0 given.1.items
            self.old.instance self.new.instance) }
    {
        self.instance.take_message(alloc, library, clock, message)
    }

    /// An item of the root is completed.
    fn complete_item(
        &mut self,
        alloc: Global,
        library: &Library,
        clock: u64,
        item: &Path,
        output: Container,
        performer: Option<Name>,
    ) -> Result<(List<Message>, Vec<Path>), AllocError>
        ensures rest { self.new ≡ record self.old { instance = self.new.instance } }
        ensures completed { IfOk result (λ given. CompletesIn library.now.templates item.now output given.0
            self.old.instance self.new.instance) }
        ensures ready { IfOk result (λ given. CompletesReady library.now.templates clock item.now
            (record { output = output; performer = performer }) given.1.items self.old.instance self.new.instance) }
        ensures exact { IfOk result (λ given. CompletesGiving library.now.templates clock item.now
            (record { output = output; performer = performer }) given.0 given.1.items
            self.old.instance self.new.instance) }
    {
        self.instance
            .complete_item(alloc, library, clock, item, output, performer)
    }

    /// The hold of an item of the root changes; an agent gets the next take number of the item.
    fn change_hold(&mut self, library: &Library, item: &Path, change: HoldChange)
        ensures rest { self.new ≡ record self.old { instance = self.new.instance } }
        ensures held { HoldsIn library.now.templates item.now change self.old.instance self.new.instance }
    {
        let _take = self.instance.change_hold(library, item, change);
    }
}

impl Core {
    /// Puts a message into its queue.
    pub(crate) fn put(&mut self, message: Message) -> Result<(), AllocError>
        ensures kept { noted self.new ≡ noted self.old }
        ensures rest { self.new ≡ record self.old { queues = self.new.queues } }
        ensures queues { OnOk result (self.new.queues ≡ put_in (queue_now self.old) (message ∷ []) self.old.queues) }
    {
        let queue = match self.root_graph(root_of(&message)) {
            None => 1,
            Some(graph) => queue_of(self.library(), graph, self.queues.count(), &message),
        };
        if 1 <= queue && queue <= self.queues.count() {
            self.queues.put(queue, message)?;
        }
        Ok(())
    }

    /// Puts messages in turn.
    fn put_all(&mut self, messages: List<Message>) -> Result<(), AllocError>
        ensures kept { noted self.new ≡ noted self.old }
        ensures rest { self.new ≡ record self.old { queues = self.new.queues } }
        ensures queues { OnOk result (self.new.queues ≡ put_in (queue_now self.old) messages self.old.queues) }
    {
        for message in messages.into_vec() {
            self.put(message)?;
        }
        Ok(())
    }

    /// Puts messages, and lists the items that became ready.
    fn follow(&mut self, messages: List<Message>, ready: Vec<Path>) -> Result<(), AllocError>
        ensures kept { noted self.new ≡ noted self.old }
        ensures rest { self.new ≡ record self.old { queues = self.new.queues; worklists = self.new.worklists } }
        ensures queues { OnOk result (self.new.queues ≡ put_in (queue_now self.old) messages self.old.queues) }
        ensures shelves { OnOk result (SameStanding (stands self.new)
            (all_listed self.old ready.items (stands self.old))) }
    {
        self.put_all(messages)?;
        self.list_all(ready)
    }

    /// What a message does to its root, where that is live: the messages that it gives, and the items that
    /// became ready.
    fn take_in_root(&mut self, message: &Message) -> Result<(List<Message>, Vec<Path>), AllocError>
        ensures rest { self.new ≡ record self.old { live_roots = self.new.live_roots } }
        ensures keys { KeepsKeys self.old self.new }
        ensures roots { IfOk result (λ given. ChangesRoot (root_of_message message.now)
            (IfLive (TakesIn (templates self.old) message.now given.0) given.0) self.old self.new) }
        ensures ready { IfOk result (λ given. IfRootLive
            (MakesReady (templates self.old) self.old.clock message.now) given.1.items
            (instance_of self.old (root_of_message message.now)) (instance_of self.new (root_of_message message.now))) }
        ensures exact { IfOk result (λ given.
            WhereLive (TakesGiving (templates self.old) self.old.clock message.now given.0 given.1.items)
            (instance_of self.old (root_of_message message.now)) (instance_of self.new (root_of_message message.now))) }
    {
        match self.live_roots.get_mut(root_of(message)) {
            None => Ok((List::new(self.alloc), Vec::new(self.alloc))),
            Some(root) => {
                root.take_message(self.alloc, self.store.library(), self.clock, message)
            }
        }
    }

    /// Takes the front message of a queue.
    pub(crate) fn turn(&mut self, queue: u8) -> Result<Note, AllocError>
        requires { (message : MessageOf) × IsFront self.old queue message }
        ensures kept { noted self.new ≡ noted self.old }
        ensures note { IfOk result (λ n. (message : MessageOf) → IsFront self.old queue message
            → n ≡ notes.Turned queue message) }
        ensures drives { OnOk result ((message : MessageOf) → IsFront self.old queue message
            → Drives self.old (made.Turn queue message) self.new) }
        ensures shelves { OnOk result ((message : MessageOf) → IsFront self.old queue message
            → TurnShelves self.old message self.new) }
        ensures clock { OnOk result (self.new.clock ≡ self.old.clock) }
        ensures store { OnOk result (self.new.store ≡ self.old.store) }
        ensures keys { OnOk result (KeepsKeys self.old self.new) }
        ensures exact { OnOk result ((message : MessageOf) → IsFront self.old queue message
            → ExactTurn self.old queue message self.new) }
    {
        let Some(message) = self.queues.take(queue) else {
            unreachable!()
        };
        let (messages, ready) = self.take_in_root(&message)?;
        self.follow(messages, ready)?;
        Ok(Note::Turned(queue, message))
    }

    /// The output of a completion, and whether its item is manual; None where there is no such item.
    fn output(
        &self,
        item: &Path,
        settings: &[Setting],
    ) -> Result<Option<(Container, bool)>, AllocError>
        ensures output { IfOk result (λ out. option_map (λ o. o.0) out ≡ option_map (λ e. filled settings.now
            (fresh_of e.activity.output)) (item_of self.now item.now)) }
        ensures manual { IfOk result (λ out. IfSome out (λ o. o.1 ≡ is_some (line_now self.now item.now))) }
    {
        let Some(known) = self.known(item) else {
            return Ok(None);
        };
        let output = fresh(self.alloc, &known.item.activity.output)?;
        let output = with_settings(self.alloc, output, settings)?;
        Ok(Some((output, known.program.manual)))
    }

    /// What a completion does to its root, where that is live.
    fn complete_in_root(
        &mut self,
        item: &Path,
        output: Container,
        performer: Option<Name>,
    ) -> Result<(List<Message>, Vec<Path>), AllocError>
        ensures rest { self.new ≡ record self.old { live_roots = self.new.live_roots } }
        ensures keys { KeepsKeys self.old self.new }
        ensures roots { IfOk result (λ given. ChangesRoot item.now.root
            (IfLive (CompletesIn (templates self.old) item.now output given.0) given.0) self.old self.new) }
        ensures ready { IfOk result (λ given. IfRootLive
            (CompletesReady (templates self.old) self.old.clock item.now
            (record { output = output; performer = performer })) given.1.items (instance_of self.old item.now.root)
            (instance_of self.new item.now.root)) }
        ensures exact { IfOk result (λ given. WhereLive (CompletesGiving (templates self.old) self.old.clock item.now
            (record { output = output; performer = performer }) given.0 given.1.items)
            (instance_of self.old item.now.root) (instance_of self.new item.now.root)) }
    {
        match self.live_roots.get_mut(item.root) {
            None => Ok((List::new(self.alloc), Vec::new(self.alloc))),
            Some(root) => root.complete_item(
                self.alloc,
                self.store.library(),
                self.clock,
                item,
                output,
                performer,
            ),
        }
    }

    pub(crate) fn complete(
        &mut self,
        item: &Path,
        performer: Option<Name>,
        settings: &[Setting],
    ) -> Result<Note, AllocError>
        ensures kept { noted self.new ≡ noted self.old }
        ensures completes { OnOk result (CompletesItem self.old item.now settings.now self.new) }
        ensures shelves { OnOk result (CompletesShelves self.old item.now performer settings.now
            (item_of self.old item.now) self.new) }
        ensures note { IfOk result (λ n. n ≡ notes.Fated (fate_now self.new item.now)) }
        ensures clock { OnOk result (self.new.clock ≡ self.old.clock) }
        ensures store { OnOk result (self.new.store ≡ self.old.store) }
        ensures keys { OnOk result (KeepsKeys self.old self.new) }
        ensures exact { OnOk result
            (CompletesExactly self.old item.now performer settings.now (item_of self.old item.now) self.new) }
    {
        let Some((output, manual)) = self.output(item, settings)? else {
            return Ok(Note::Fated(self.fate_of(item)));
        };
        self.unlist_item(item, manual)?;
        let (messages, ready) = self.complete_in_root(item, output, performer)?;
        self.follow(messages, ready)?;
        Ok(Note::Fated(self.fate_of(item)))
    }

    /// The fate of an item's activity; it waits where there is no such item.
    pub fn fate_of(&self, item: &Path) -> Fate
        ensures { result ≡ fate_now self.now item.now }
    {
        match self.known(item) {
            None => Fate::Waiting,
            Some(known) => known.item.fate(),
        }
    }

    /// What a change of a hold does to its root, where that is live.
    fn hold_in_root(&mut self, item: &Path, change: HoldChange)
        ensures rest { self.new ≡ record self.old { live_roots = self.new.live_roots } }
        ensures keys { KeepsKeys self.old self.new }
        ensures roots { ChangesRoot item.now.root
            (IfLive (HoldsIn (templates self.old) item.now change) []) self.old self.new }
    {
        if let Some(root) = self.live_roots.get_mut(item.root) {
            root.change_hold(self.store.library(), item, change);
        }
    }

    /// Changes who holds an item.
    fn change_hold(&mut self, item: &Path, change: HoldChange) -> Result<(), AllocError>
        ensures rest { self.new ≡ record self.old { live_roots = self.new.live_roots; worklists = self.new.worklists } }
        ensures roots { OnOk result (ChangesRoot item.now.root
            (IfLive (HoldsIn (templates self.old) item.now change) []) self.old self.new) }
        ensures shelves { OnOk result (HoldShelves self.old item.now self.new) }
        ensures keys { OnOk result (KeepsKeys self.old self.new) }
    {
        self.hold_in_root(item, change);
        self.list_item(item)
    }

    pub(crate) fn hold_by(&mut self, item: &Path, who: &Name) -> Result<Note, AllocError>
        ensures kept { noted self.new ≡ noted self.old }
        ensures held { OnOk result (HoldsItem self.old item.now (holds.Person who.now) self.new) }
        ensures shelves { OnOk result (HoldShelves self.old item.now self.new) }
        ensures note { IfOk result (λ n. n ≡ notes.Fated (fate_now self.new item.now)) }
        ensures clock { OnOk result (self.new.clock ≡ self.old.clock) }
        ensures store { OnOk result (self.new.store ≡ self.old.store) }
        ensures keys { OnOk result (KeepsKeys self.old self.new) }
    {
        let who = who.copy(self.alloc)?;
        self.change_hold(item, HoldChange::Person(who))?;
        Ok(Note::Fated(self.fate_of(item)))
    }

    pub(crate) fn hold_by_agent(&mut self, item: &Path, take: u64) -> Result<Note, AllocError>
        ensures kept { noted self.new ≡ noted self.old }
        ensures held { OnOk result (HoldsItem self.old item.now holds.Agent self.new) }
        ensures shelves { OnOk result (HoldShelves self.old item.now self.new) }
        ensures note { IfOk result (λ n. n ≡ notes.Taken take) }
        ensures clock { OnOk result (self.new.clock ≡ self.old.clock) }
        ensures store { OnOk result (self.new.store ≡ self.old.store) }
        ensures keys { OnOk result (KeepsKeys self.old self.new) }
    {
        self.change_hold(item, HoldChange::Agent)?;
        Ok(Note::Taken(take))
    }

    pub(crate) fn give_back(&mut self, item: &Path) -> Result<Note, AllocError>
        ensures kept { noted self.new ≡ noted self.old }
        ensures held { OnOk result (HoldsItem self.old item.now holds.Nobody self.new) }
        ensures shelves { OnOk result (HoldShelves self.old item.now self.new) }
        ensures note { IfOk result (λ n. n ≡ notes.Fated (fate_now self.new item.now)) }
        ensures clock { OnOk result (self.new.clock ≡ self.old.clock) }
        ensures store { OnOk result (self.new.store ≡ self.old.store) }
        ensures keys { OnOk result (KeepsKeys self.old self.new) }
    {
        self.change_hold(item, HoldChange::Nobody)?;
        Ok(Note::Fated(self.fate_of(item)))
    }

    /// Completes an item, by a person or by an agent.
    pub(crate) fn done(
        &mut self,
        item: &Path,
        who: &Who,
        settings: &[Setting],
    ) -> Result<Note, AllocError>
        ensures kept { noted self.new ≡ noted self.old }
        ensures completes { OnOk result (CompletesItem self.old item.now settings.now self.new) }
        ensures shelves { OnOk result (CompletesShelves self.old item.now (performer_named who.now) settings.now
            (item_of self.old item.now) self.new) }
        ensures note { IfOk result (λ n. n ≡ notes.Fated (fate_now self.new item.now)) }
        ensures clock { OnOk result (self.new.clock ≡ self.old.clock) }
        ensures store { OnOk result (self.new.store ≡ self.old.store) }
        ensures keys { OnOk result (KeepsKeys self.old self.new) }
        ensures exact { OnOk result (CompletesExactly self.old item.now (performer_named who.now) settings.now
            (item_of self.old item.now) self.new) }
    {
        let performer = match who {
            Who::Person(name) => Some(name.copy(self.alloc)?),
            Who::Agent(_) => None,
        };
        self.complete(item, performer, settings)
    }
}
