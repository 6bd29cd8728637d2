//! The imports so far.
ghost use Rattle.std.specs.Prelude.{◌≡◌, ◌-◌, ◌^◌, ◌<◌, ◌+◌, [], ◌++◌, min, length, slice_get, option_copied};
ghost use Rattle.std.specs.Prelude.{List as Seq, Some, OnOk, IfOk, IfSome, ◌==◌, ◌&&◌, position, bytes_eq, true};
ghost use Rattle.leaf_rules.specs.Classes.{AreMadeBehind};
ghost use Rattle.process_rules.specs.Containers.{HasClasses};
ghost use Rattle.flow_model.specs.declared.graphs.Template.{Template as Stored};
ghost use Rattle.leaf_rules.specs.declared.leaf_classes.LeafClass.{LeafClass as Class};
ghost use Rattle.template_check.specs.Built.{AreSound};
ghost use Rattle.template_check.specs.Classed.{HaveClasses, IsClassed};
ghost use Rattle.template_check.specs.Judged.{IsJudged};
ghost use Rattle.process_rules.specs.Imports.{newest_place, latest_person};
ghost use Rattle.template_check.specs.declared.compiling.Compiled.{Compiled as Added};
ghost use Rattle.template_store.specs.Store.{version_place, with_compiled, is_refusal, AddsText};
ghost use Rattle.template_store.specs.Store.{CompilesTo};

use flow_model::{Library, List, Name, PersonDef, Template};
use leaf_rules::LeafClass;
use process_rules::ContainerClasses;
use std::alloc::{AllocError, Global};
use std::marker::Model;
use template_check::{Catalog, Compiled, ImportFault, compile};

/// A text that breaks no rule, and what it compiles to behind the imports so far.
#[derive(Drop)]
struct Accepted {
    text: Vec<u8>,
    compiled: Compiled,
}

/// What a text compiles to; it is compiled unless it is the accepted one.
fn compiled_text(
    alloc: Global,
    text: &[u8],
    accepted: Option<Accepted>,
    catalog: &Catalog,
) -> Result<Compiled, ImportFault>
    requires { IfSome accepted (λ last. CompilesTo catalog.now.library last.text.items last.compiled
        × IsClassed catalog.now.classes.classes last.compiled) }
    ensures compiled { IfOk result (CompilesTo catalog.now.library text.now) }
    ensures classed { IfOk result (IsClassed catalog.now.classes.classes) }
    ensures judged { IsJudged catalog.now.library text.now result }
{
    if let Some(accepted) = accepted {
        let Accepted {
            text: last,
            compiled,
        } = accepted;
        if last.as_slice() == text {
            return Ok(compiled);
        }
    }
    compile(alloc, text, catalog)
}

/// The library of the imports so far, which is its value.
#[derive(Drop)]
pub struct TemplateStore {
    catalog: Catalog,
    /// The text that was checked last, if it breaks no rule: its import need not compile it again.
    accepted: Option<Accepted>,
}

impl Model for TemplateStore {
    ghost use Rattle.std.specs.Prelude.{IfSome};
    ghost use Rattle.flow_model.specs.declared.graphs.Library.{Library};
    ghost use Rattle.flow_model.specs.contracts.graphs.Library as of_library;
    ghost use Rattle.template_check.specs.Classed.{IsClassed};
    ghost use Rattle.template_store.specs.Store.{CompilesTo};

    ghost Value = { Library };

    ghost coded = { of_library.the_row.coded };

    ghost view = { λ store. store.catalog.library };

    ghost invariant = { λ store.
        IfSome store.accepted (λ accepted. CompilesTo store.catalog.library accepted.text.items accepted.compiled
        × IsClassed store.catalog.classes.classes accepted.compiled) };
}

impl TemplateStore {
    /// No imports yet.
    pub fn new(alloc: Global) -> TemplateStore
        ensures empty { result ≡ record { templates = []; people = [] } }
        ensures sound { AreSound result.templates }
    {
        TemplateStore {
            catalog: Catalog::new(alloc),
            accepted: None,
        }
    }

    /// Whether a text may be imported: `Rule` exactly where it breaks a rule, which is the first and its least place,
    /// and `NoMemory` where there is none for what it compiles to, or to keep that. The library stays as it is.
    pub fn check(&mut self, alloc: Global, text: &[u8]) -> Result<(), ImportFault>
        ensures same { self.new ≡ self.old }
        ensures judged { IsJudged self.old text.now result }
    {
        self.accepted = None;
        let compiled = compile(alloc, text, &self.catalog)?;
        let text = Vec::from_slice(alloc, text)?;
        self.accepted = Some(Accepted { text, compiled });
        Ok(())
    }

    /// Adds the processes and people of a text; answers the number of processes. A refusal changes nothing.
    /// Without memory, or where the library gets more elements than 32 bits tell apart, a part of them may have
    /// been added.
    pub fn import(&mut self, alloc: Global, text: &[u8]) -> Result<u32, ImportFault>
        ensures added { IfOk result (λ count. (added : Added) × (count ≡ min (length added.templates) (2 ^ 32 - 1))
            × (self.new ≡ with_compiled self.old added)) }
        ensures of_text { OnOk result (AddsText text.now self.old self.new) }
        ensures refused { is_refusal result ≡ true → self.new ≡ self.old }
        ensures judged { IsJudged self.old text.now result }
        ensures sound { OnOk result (AreSound self.old.templates
            → AreSound self.new.templates) }
    {
        let accepted = self.accepted.take();
        let compiled = compiled_text(alloc, text, accepted, &self.catalog)?;
        Ok(add(&mut self.catalog, alloc, compiled)?)
    }

    /// The library.
    pub fn library(&self) -> &Library
        ensures { result.now ≡ self.now }
    {
        self.catalog.library()
    }

    /// The place of the newest template of this name; None exactly where there is none.
    pub fn newest(&self, name: &Name) -> Option<u32>
        ensures { result ≡ newest_place self.now name.now }
    {
        self.catalog.newest(name)
    }

    /// The template at a place.
    pub fn template(&self, place: u32) -> Option<&Template>
        ensures { option_copied result ≡ slice_get self.now.templates place }
    {
        self.catalog.template(place)
    }

    /// The place of this version of a name; None exactly where there is none.
    pub fn version(&self, name: &Name, version: u32) -> Option<u32>
        ensures { result ≡ version_place self.now name.now version }
    {
        let templates = self.catalog.library().templates.as_slice();
        let place = position_of(templates, name, version)?;
        match u32::try_from(place) {
            Ok(place) => Some(place),
            Err(_) => None,
        }
    }

    /// The latest declaration of the person of this name; None exactly where there is none.
    pub fn person(&self, name: &Name) -> Option<&PersonDef>
        ensures { option_copied result ≡ latest_person self.now name.now }
    {
        self.catalog.person(name)
    }
}

/// Where this version of a name stands.
fn position_of(templates: &[Template], name: &Name, version: u32) -> Option<usize>
    ensures { result ≡ position (λ t. t.version == version && bytes_eq t.name name.now) templates.now }
{
    templates.iter().position(|template| {
        template.version == version && template.name.as_slice() == name.as_slice()
    })
}

/// Adds what a text compiled to; answers the number of processes.
fn add(catalog: &mut Catalog, alloc: Global, compiled: Compiled) -> Result<u32, AllocError>
    requires { IsClassed catalog.old.classes.classes compiled }
    ensures added { IfOk result (λ count. (count ≡ min (length compiled.templates) (2 ^ 32 - 1))
        × (catalog.new.library ≡ with_compiled catalog.old.library compiled)) }
{
    let Compiled {
        templates,
        people,
        containers,
        classes,
    } = compiled;
    let count = u32::try_from(templates.len()).unwrap_or(u32::MAX);
    add_processes(catalog, alloc, templates, containers.as_slice(), classes)?;
    add_people(catalog, alloc, people.into_vec())?;
    Ok(count)
}

/// Adds the templates of a text, with the classes of their containers.
///
/// The classes of a text without processes are not added: its table of leaves would stay in memory for nothing.
fn add_processes(
    catalog: &mut Catalog,
    alloc: Global,
    templates: List<Template>,
    containers: &[ContainerClasses],
    classes: List<LeafClass>,
) -> Result<(), AllocError>
    requires made { AreMadeBehind catalog.old.classes.classes classes }
    requires containers { HaveClasses (catalog.old.classes.classes ++ classes) templates containers.now }
    ensures added { OnOk result (catalog.new.library ≡ record {
      templates = catalog.old.library.templates ++ templates;
      people = catalog.old.library.people;
    }) }
{
    if templates.is_empty() {
        return Ok(());
    }
    catalog.add_classes(alloc, classes)?;
    add_templates(catalog, alloc, templates.into_vec(), containers)
}

/// The classes of the containers of the template at a place, if they are there.
fn nth_containers(containers: &[ContainerClasses], place: usize) -> Option<ContainerClasses>
    ensures { result ≡ slice_get containers.now place }
{
    containers.get(place).copied()
}

/// The classes of the containers of the template at a place, where they are known.
fn containers_at(containers: &[ContainerClasses], place: usize) -> ContainerClasses
    ensures { (classes : Seq Class) (ts : Seq Stored) (t : Stored) → HaveClasses classes ts containers.now
        → slice_get ts place ≡ Some t → HasClasses classes t result }
{
    match nth_containers(containers, place) {
        Some(found) => found,
        None => ContainerClasses {
            input: None,
            output: None,
        },
    }
}

fn add_templates(
    catalog: &mut Catalog,
    alloc: Global,
    templates: Vec<Template>,
    containers: &[ContainerClasses],
) -> Result<(), AllocError>
    requires { HaveClasses catalog.old.classes.classes templates.items containers.now }
    ensures added { OnOk result (catalog.new.library ≡ record {
      templates = catalog.old.library.templates ++ templates.items;
      people = catalog.old.library.people;
    }) }
{
    for (i, template) in templates.into_iter().enumerate() {
        catalog.add_template(alloc, template, containers_at(containers, i))?;
    }
    Ok(())
}

fn add_people(
    catalog: &mut Catalog,
    alloc: Global,
    people: Vec<PersonDef>,
) -> Result<(), AllocError>
    ensures added { OnOk result (catalog.new.library ≡ record {
      templates = catalog.old.library.templates;
      people = catalog.old.library.people ++ people.items;
    }) }
{
    for person in people {
        catalog.add_person(alloc, person)?;
    }
    Ok(())
}
