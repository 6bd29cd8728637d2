//! The leaves of the containers of graphs, each structure's made once.
ghost use Rattle.std.specs.Prelude.{◌≡◌, ◌<◌, ◌^◌, ℕ, List as Seq, length, IfOk, IfSome, option_copied, option_map};
ghost use Rattle.std.specs.Prelude.{IsTrue};
ghost use Rattle.text_graphs.specs.GraphTexts.{text_of};
ghost use Rattle.leaf_rules.specs.Classes.{HaveSameLeaves, AreMadeBehind, IsClassOf};
ghost use Rattle.leaf_rules.specs.TableClasses.{table_classes};
ghost use Rattle.leaf_rules.specs.Structures.{behind};
ghost use Rattle.leaf_rules.specs.StructureLeaves.{leaves_in};
ghost use Rattle.leaf_rules.specs.Ordered.{IsOrdered};
ghost use Rattle.leaf_rules.specs.Leaves.{with_code, forms_named, table_leaves, input_leaves, output_leaves};
ghost use Rattle.leaf_rules.specs.Leaves.{source_leaves, target_leaves, line_source, line_target};

use crate::forms::{StructureLeaves, all_forms};
use crate::leaf_classes::{LeafClass, LeafClasses};
use crate::members::{LeafTable, TextClasses};
use crate::structures::Structures;
use flow_model::{ControlTree, EndTree, EndsTree, Leaves, List, NameAt};
use std::alloc::{AllocError, Global};
use std::rc::Rc;
use text_graphs::Scope;

impl<'a> LeafTable<'a> {
    /// The leaves of structures that have an order: see `Structures::cycle`. A class of theirs that earlier texts
    /// have is found there; the others are added behind those.
    pub fn new(
        alloc: Global,
        structures: Structures<'a>,
        known: &'a LeafClasses,
    ) -> Result<LeafTable<'a>, AllocError>
        requires { IsOrdered (behind structures.definitions.items) structures.order }
        ensures kept { IfOk result (λ table. behind table.structures.definitions.items
            ≡ behind structures.entry.definitions.items) }
        ensures there { IfOk result (λ table. (name : Seq ℕ)
            → table_leaves table name ≡ leaves_in (behind structures.entry.definitions.items) name) }
        ensures known { IfOk result (λ table. table.known.now ≡ known.now) }
    {
        let (table, runs) = structures.rows(alloc, structures.order())?;
        let leaves = all_forms(alloc, &Rc::new(alloc, table)?, &runs)?;
        let mut text = TextClasses::new(alloc, known);
        let order = structures.order();
        let classes = structures.classes(alloc, &mut text, order, &runs, &leaves)?;
        Ok(LeafTable {
            structures,
            leaves,
            known,
            added: text.into_added(),
            classes,
        })
    }

    /// The structures of the text.
    pub fn structures(&self) -> &Structures<'a>
        ensures { result.now ≡ self.now.structures }
    {
        &self.structures
    }

    /// The leaves of the structure of this name.
    fn forms(&self, name: &'a NameAt) -> Option<&StructureLeaves>
        ensures { option_copied result ≡ forms_named self.now name.now.name }
    {
        let number = self.structures.number(name)?;
        self.leaves.get(number as usize)
    }

    /// The leaves of a structure, without `_RC`.
    pub fn plain(&self, name: &'a NameAt) -> Option<&Leaves>
        ensures leaves { option_map (λ l. l.now.leaves) result ≡ table_leaves self.now name.now.name }
        ensures few { IfSome result (λ l. length l.now.leaves < 2 ^ 32) }
    {
        match self.forms(name) {
            None => None,
            Some(found) => Some(&found.plain),
        }
    }

    /// The class of the structure of this name, where it is found.
    pub fn class(&self, name: &'a NameAt) -> Option<u32>
        ensures { IfSome result (λ class.
            IsClassOf (table_classes self.now) class (table_leaves self.now name.now.name)) }
    {
        self.structures.class(&self.classes, name)
    }

    /// Whether two structures are of one class, so that their leaves are the same.
    pub fn are_alike(&self, first: &'a NameAt, second: &'a NameAt) -> bool
        ensures { IsTrue result → HaveSameLeaves (table_leaves self.now) first.now.name second.now.name }
    {
        match self.forms(first) {
            None => false,
            Some(_) => match self.class(first) {
                None => false,
                Some(class) => self.class(second) == Some(class),
            },
        }
    }

    /// The classes that the text adds behind those of earlier texts.
    pub fn into_added(self) -> List<LeafClass>
        ensures added { result ≡ self.entry.added }
        ensures made { AreMadeBehind self.entry.known.now.classes result }
    {
        self.added
    }

    /// The leaves of an activity's output structure, with `_RC` before them.
    pub fn coded(&self, name: &'a NameAt) -> Option<&Leaves>
        ensures leaves { option_map (λ l. l.now.leaves) result ≡ with_code (table_leaves self.now name.now.name) }
        ensures few { IfSome result (λ l. length l.now.leaves < 2 ^ 32) }
    {
        match self.forms(name) {
            None => None,
            Some(found) => Some(&found.coded),
        }
    }

    /// The leaves of the output of the activity of this name.
    fn output_of(&self, scope: &Scope<'a>, name: &'a NameAt) -> Option<&Leaves>
        ensures leaves { option_map (λ l. l.now.leaves) result
            ≡ output_leaves (table_leaves self.now) scope.now.elements.now name.now.name }
        ensures few { IfSome result (λ l. length l.now.leaves < 2 ^ 32) }
    {
        match scope.activity(name) {
            None => None,
            Some(activity) => self.coded(&activity.output),
        }
    }

    /// The leaves of the input of the activity of this name.
    fn input_of(&self, scope: &Scope<'a>, name: &'a NameAt) -> Option<&Leaves>
        ensures leaves { option_map (λ l. l.now.leaves) result
            ≡ input_leaves (table_leaves self.now) scope.now.elements.now name.now.name }
        ensures few { IfSome result (λ l. length l.now.leaves < 2 ^ 32) }
    {
        match scope.activity(name) {
            None => None,
            Some(activity) => self.plain(&activity.input),
        }
    }

    /// The leaves that a DATA line reads.
    fn source(&self, scope: &Scope<'a>, end: &'a EndTree) -> Option<&Leaves>
        ensures leaves { option_map (λ l. l.now.leaves) result
            ≡ source_leaves (table_leaves self.now) (text_of scope.now) end.now }
        ensures few { IfSome result (λ l. length l.now.leaves < 2 ^ 32) }
    {
        match end {
            EndTree::Border => self.plain(scope.input),
            EndTree::Activity(name) => self.output_of(scope, name),
        }
    }

    /// The leaves that a DATA line writes.
    fn target(&self, scope: &Scope<'a>, end: &'a EndTree) -> Option<&Leaves>
        ensures leaves { option_map (λ l. l.now.leaves) result
            ≡ target_leaves (table_leaves self.now) (text_of scope.now) end.now }
        ensures few { IfSome result (λ l. length l.now.leaves < 2 ^ 32) }
    {
        match end {
            EndTree::Border => self.plain(scope.output),
            EndTree::Activity(name) => self.input_of(scope, name),
        }
    }

    /// The leaves that a line reads.
    pub fn line_source(&self, scope: &Scope<'a>, ends: &'a EndsTree) -> Option<&Leaves>
        ensures leaves { option_map (λ l. l.now.leaves) result
            ≡ line_source (table_leaves self.now) (text_of scope.now) ends.now }
        ensures few { IfSome result (λ l. length l.now.leaves < 2 ^ 32) }
    {
        match ends {
            EndsTree::Line(from, _) => self.source(scope, from),
            EndsTree::Loop(name) => self.output_of(scope, name),
        }
    }

    /// The leaves that a line writes.
    pub fn line_target(&self, scope: &Scope<'a>, ends: &'a EndsTree) -> Option<&Leaves>
        ensures leaves { option_map (λ l. l.now.leaves) result
            ≡ line_target (table_leaves self.now) (text_of scope.now) ends.now }
        ensures few { IfSome result (λ l. length l.now.leaves < 2 ^ 32) }
    {
        match ends {
            EndsTree::Line(_, to) => self.target(scope, to),
            EndsTree::Loop(name) => self.input_of(scope, name),
        }
    }

    /// The leaves that a transition condition reads.
    pub fn connector_leaves(&self, scope: &Scope<'a>, control: &'a ControlTree) -> Option<&Leaves>
        ensures leaves { option_map (λ l. l.now.leaves) result
            ≡ output_leaves (table_leaves self.now) scope.now.elements.now control.now.from.name }
        ensures few { IfSome result (λ l. length l.now.leaves < 2 ^ 32) }
    {
        self.output_of(scope, &control.from)
    }
}
