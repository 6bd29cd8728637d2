//! What the names of processes and people stand for in a text.
ghost use Rattle.std.specs.Prelude.{◌≡◌, ℕ, ◌<◌, List, [], ◌∷◌, ◌++◌, IfOk, OnOk, IfSome, map, slice_get};
ghost use Rattle.std.specs.Prelude.{option_copied};
ghost use Rattle.std.specs.List.{cons_option};
ghost use Rattle.flow_model.specs.declared.trees.PersonTree.{PersonTree};
ghost use Rattle.flow_model.specs.declared.trees.ProcessTree.{ProcessTree};
ghost use Rattle.process_rules.specs.Doers.{is_person};
ghost use Rattle.process_rules.specs.Knowing.{IsKnowing, ArePeople};
ghost use Rattle.text_graphs.specs.Texts.{process_of, processes_in, person_of, people_in};
ghost use Rattle.process_rules.specs.Calling.{IsBefore, earlier_meant, stored_named, callee_meant};

use crate::catalog::Catalog;
use flow_model::{ItemTree, NameAt, PersonTree, ProcessTree, Tree};
use indexmap::{IndexMap, IndexSet};
use std::alloc::{AllocError, Global};
use text_graphs::narrow;

/// The process that an activity runs.
#[derive(Clone, Copy, Debug, PartialEq, Eq)]
pub enum Callee {
    /// The process of this number in the text.
    Text(u32),
    /// The template at this place of the library.
    Library(u32),
}

/// What the names of processes and people stand for in a text.
#[derive(Drop)]
pub struct Known<'a> {
    catalog: &'a Catalog,
    processes: Vec<&'a ProcessTree>,
    numbers: IndexMap<&'a [u8], u32>,
    people: IndexSet<&'a [u8]>,
}

impl<'a> Known<'a> {
    pub fn new(alloc: Global, tree: &'a Tree, catalog: &'a Catalog) -> Result<Known<'a>, AllocError>
        ensures catalog { IfOk result (λ known. known.catalog.now ≡ catalog.now) }
        ensures knowing { IfOk result (λ known. IsKnowing known (processes_in tree.now.items)) }
        ensures people { IfOk result (λ known. ArePeople known (people_in tree.now.items)) }
    {
        let mut known = Known {
            catalog,
            processes: Vec::new(alloc),
            numbers: IndexMap::new(alloc),
            people: IndexSet::new(alloc),
        };
        for item in tree.items.as_slice() {
            known.add(item)?;
        }
        Ok(known)
    }

    fn add(&mut self, item: &'a ItemTree) -> Result<(), AllocError>
        ensures catalog { self.new.catalog ≡ self.old.catalog }
        ensures knowing { OnOk result ((processes : List ProcessTree) → IsKnowing self.old processes
            → IsKnowing self.new (processes ++ cons_option (process_of item.now) [])) }
        ensures people { OnOk result ((people : List PersonTree) → ArePeople self.old people
            → ArePeople self.new (people ++ cons_option (person_of item.now) [])) }
    {
        match item {
            ItemTree::Structure(_) => Ok(()),
            ItemTree::Person(person) => self.add_person(person),
            ItemTree::Process(process) => self.add_process(process),
        }
    }

    fn add_person(&mut self, person: &'a PersonTree) -> Result<(), AllocError>
        ensures catalog { self.new.catalog ≡ self.old.catalog }
        ensures knowing { (processes : List ProcessTree) → IsKnowing self.old processes → IsKnowing self.new processes }
        ensures people { OnOk result ((people : List PersonTree) → ArePeople self.old people
            → ArePeople self.new (people ++ person.now ∷ [])) }
    {
        self.people.insert_full(person.name.name.as_slice())?;
        Ok(())
    }

    fn add_process(&mut self, process: &'a ProcessTree) -> Result<(), AllocError>
        ensures catalog { self.new.catalog ≡ self.old.catalog }
        ensures knowing { OnOk result ((processes : List ProcessTree) → IsKnowing self.old processes
            → IsKnowing self.new (processes ++ process.now ∷ [])) }
        ensures people { (people : List PersonTree) → ArePeople self.old people → ArePeople self.new people }
    {
        let number = narrow(self.processes.len())?;
        self.processes.push(process)?;
        self.numbers.insert(process.name.name.as_slice(), number)?;
        Ok(())
    }

    /// The processes of the text, in order.
    pub fn processes(&self) -> &[&'a ProcessTree]
        ensures { result.now ≡ self.now.processes.items }
    {
        &self.processes
    }

    /// The process of a number; None exactly where there is none.
    pub fn process(&self, number: u32) -> Option<&'a ProcessTree>
        ensures { option_copied result ≡ slice_get (map (λ p. p.now) self.now.processes.items) number }
    {
        self.processes.get(number as usize).copied()
    }

    /// The library of earlier imports.
    pub fn catalog(&self) -> &'a Catalog
        ensures { result.now ≡ self.now.catalog.now }
    {
        self.catalog
    }

    /// What an activity in the process of this number runs: a process that stands before it in the text,
    /// else the newest version that was imported earlier.
    pub fn callee(&self, process: u32, name: &'a NameAt) -> Option<Callee>
        ensures before { IfSome result (IsBefore self.now.catalog.now.library process) }
        ensures meant { result ≡ callee_meant self.now process name.now.name }
    {
        match self.earlier(process, name) {
            Some(number) => Some(Callee::Text(number)),
            None => self.stored(name),
        }
    }

    /// The process of a name that stands before this one in the text.
    fn earlier(&self, process: u32, name: &'a NameAt) -> Option<u32>
        ensures before { IfSome result (λ number. number < process) }
        ensures meant { result ≡ earlier_meant self.now process name.now.name }
    {
        match self.numbers.get(&name.name.as_slice()).copied() {
            None => None,
            Some(number) => { if number < process { Some(number) } else { None } }
        }
    }

    /// The newest version of a process in the library.
    fn stored(&self, name: &'a NameAt) -> Option<Callee>
        ensures before { IfSome result (λ found. (number : ℕ) → IsBefore self.now.catalog.now.library number found) }
        ensures meant { result ≡ stored_named self.now.catalog.now.library name.now.name }
    {
        match self.catalog.newest(&name.name) {
            None => None,
            Some(place) => match self.catalog.template(place) {
                None => None,
                Some(_) => Some(Callee::Library(place)),
            },
        }
    }

    /// Whether a name is a person's of the text or of an earlier import.
    pub fn is_person(&self, name: &'a NameAt) -> bool
        ensures { (people : List PersonTree) → ArePeople self.now people
            → result ≡ is_person self.now.catalog.now.library people name.now.name }
    {
        self.people.contains(&name.name.as_slice()) || self.catalog.person(&name.name).is_some()
    }
}
