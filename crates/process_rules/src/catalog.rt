//! The library of the imports so far, with its names.
ghost use Rattle.std.specs.Prelude.{◌≡◌, ◌≤◌, ◌<◌, ◌^◌, ◌++◌, ◌∷◌, [], length, slice_get, option_copied, IfOk, OnOk};
ghost use Rattle.std.specs.Prelude.{OnErr};
ghost use Rattle.std.proofs.Props.{props};
ghost use Rattle.leaf_rules.specs.Classes.{AreMadeBehind};
ghost use Rattle.process_rules.specs.Containers.{AreClassesKnown};
ghost use Rattle.process_rules.specs.Indexes.{AreIndexed};

use flow_model::{Library, List, Name, PersonDef, Template};
use indexmap::IndexMap;
use leaf_rules::{LeafClass, LeafClasses};
use std::alloc::{AllocError, Global};

/// The classes of the containers of a template, where they are known.
#[derive(Clone, Copy, Debug)]
pub struct ContainerClasses {
    pub input: Option<u32>,
    pub output: Option<u32>,
}

/// A library, where the newest of each name stands in it, and of which classes the containers of its templates are.
#[derive(Drop)]
pub struct Catalog {
    library: Library,
    templates: IndexMap<Vec<u8>, u32>,
    people: IndexMap<Vec<u8>, u32>,
    /// The classes of the structures of the texts so far.
    classes: LeafClasses,
    /// Those of the containers of templates, by the places of the templates.
    containers: IndexMap<u32, ContainerClasses>,
    pub ghost few: { length library.templates ≤ 2 ^ 32 },
    pub ghost templates_indexed: { AreIndexed (λ t. t.name) library.templates templates },
    pub ghost people_indexed: { AreIndexed (λ q. q.name) library.people people },
    pub ghost classed: { AreClassesKnown classes.classes library.templates containers } by { Prim.hlevel props },
}

/// The place of the next element of a list; there is no memory for more than 2^32 elements.
fn next_place(len: usize) -> Result<u32, AllocError>
    ensures { IfOk result (λ place. place ≡ len) }
{
    match u32::try_from(len) {
        Ok(place) => Ok(place),
        Err(_) => Err(AllocError),
    }
}

impl Catalog {
    ghost use Rattle.process_rules.specs.Imports.{newest_place, next_version, latest_place};
    ghost use Rattle.process_rules.specs.Imports.{latest_person};
    ghost use Rattle.process_rules.specs.Containers.{HasClasses};
    ghost use Rattle.flow_model.specs.declared.graphs.Template.{Template as Stored};

    /// An empty library.
    pub fn new(alloc: Global) -> Catalog
        ensures { result.library ≡ record { templates = []; people = [] } }
    {
        Catalog {
            library: Library {
                templates: List::new(alloc),
                people: List::new(alloc),
            },
            templates: IndexMap::new(alloc),
            people: IndexMap::new(alloc),
            classes: LeafClasses::new(alloc),
            containers: IndexMap::new(alloc),
        }
    }

    /// The library.
    pub fn library(&self) -> &Library
        ensures { result.now ≡ self.now.library }
    {
        &self.library
    }

    /// The place of the newest template of this name; None exactly where there is none.
    pub fn newest(&self, name: &Name) -> Option<u32>
        ensures { result ≡ newest_place self.now.library name.now }
    {
        self.templates.get(name.as_slice()).copied()
    }

    /// The template at a place.
    pub fn template(&self, place: u32) -> Option<&Template>
        ensures { option_copied result ≡ slice_get self.now.library.templates place }
    {
        self.library.templates.as_slice().get(place as usize)
    }

    /// The classes of the structures of the texts so far.
    pub fn classes(&self) -> &LeafClasses
        ensures { result.now ≡ self.now.classes }
    {
        &self.classes
    }

    /// The classes of the containers of the template at a place, where they are known.
    pub fn container_classes(&self, place: u32) -> ContainerClasses
        ensures { (t : Stored) → slice_get self.now.library.templates place ≡ Some t
            → HasClasses self.now.classes.classes t result }
    {
        match self.containers.get(&place).copied() {
            None => ContainerClasses {
                input: None,
                output: None,
            },
            Some(found) => found,
        }
    }

    /// The version that the next template of this name has.
    pub fn next_version(&self, name: &Name) -> u32
        ensures { result ≡ next_version self.now.library name.now }
    {
        match self.newest(name) {
            None => 1,
            Some(place) => match self.template(place) {
                None => 1,
                Some(template) => template.version.saturating_add(1),
            },
        }
    }

    /// The latest declaration of the person of this name; None exactly where there is none.
    pub fn person(&self, name: &Name) -> Option<&PersonDef>
        ensures { option_copied result ≡ latest_person self.now.library name.now }
    {
        match self.latest(name) {
            None => None,
            Some(place) => self.person_at(place),
        }
    }

    /// The place of the latest declaration of a name.
    fn latest(&self, name: &Name) -> Option<u32>
        ensures { result ≡ latest_place self.now.library name.now }
    {
        self.people.get(name.as_slice()).copied()
    }

    /// The person at a place.
    fn person_at(&self, place: u32) -> Option<&PersonDef>
        ensures { option_copied result ≡ slice_get self.now.library.people place }
    {
        self.library.people.as_slice().get(place as usize)
    }

    /// Adds the classes of the structures of a text. An error is want of memory; then a part of them may have been
    /// added.
    pub fn add_classes(&mut self, alloc: Global, added: List<LeafClass>) -> Result<(), AllocError>
        requires { AreMadeBehind self.old.classes.classes added }
        ensures added { OnOk result (self.new.classes.classes ≡ self.old.classes.classes ++ added) }
        ensures unchanged { self.new.library ≡ self.old.library }
    {
        self.classes.extend(alloc, added)
    }

    /// Adds a template, which is the newest of its name from now on, with the classes of its containers. An error is
    /// want of memory; then nothing is added.
    pub fn add_template(
        &mut self,
        alloc: Global,
        template: Template,
        containers: ContainerClasses,
    ) -> Result<(), AllocError>
        requires { HasClasses self.old.classes.classes template containers }
        ensures classes { self.new.classes ≡ self.old.classes }
        ensures added { OnOk result (self.new.library ≡ record {
          templates = self.old.library.templates
              ++ template ∷ [];
          people = self.old.library.people;
        }) }
        ensures unchanged { OnErr result (self.new.library ≡ self.old.library) }
    {
        let place = next_place(self.library.templates.len())?;
        let name = Vec::from_slice(alloc, template.name.as_slice())?;
        self.templates.reserve(1)?;
        // Where there is no memory for the template, these stay at a place without one; the next template takes it.
        self.containers.insert(place, containers)?;
        self.library.templates.push(template)?;
        match self.templates.insert(name, place) {
            Ok(_) => Ok(()),
            Err(_) => unreachable!(),
        }
    }

    /// Adds a person, whose roles count from now on. An error is want of memory; then nothing is added.
    pub fn add_person(&mut self, alloc: Global, person: PersonDef) -> Result<(), AllocError>
        ensures added { OnOk result (self.new.library ≡ record {
          templates = self.old.library.templates;
          people =
              self.old.library.people ++ person ∷ [];
        }) }
        ensures unchanged { OnErr result (self.new.library ≡ self.old.library) }
    {
        let place = next_place(self.library.people.len())?;
        let name = Vec::from_slice(alloc, person.name.as_slice())?;
        self.people.reserve(1)?;
        self.library.people.push(person)?;
        match self.people.insert(name, place) {
            Ok(_) => Ok(()),
            Err(_) => unreachable!(),
        }
    }
}
