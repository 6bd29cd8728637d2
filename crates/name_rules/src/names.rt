//! Rules 4 and 5: the names after END, and what is declared twice.
ghost use Rattle.std.specs.Prelude.{◌≡◌, ◌⊎◌, List, [], ◌∷◌, ◌++◌, map, IfOk};
ghost use Rattle.flow_model.specs.declared.trees.AttrAt.{AttrAt};
ghost use Rattle.text_graphs.specs.Graphs.{graph_at};
ghost use Rattle.text_graphs.specs.Meeting.{IsAgainAt};
ghost use Rattle.name_rules.specs.KindsMet.{AreOfKind, IsKindMet};
ghost use Rattle.name_rules.specs.Names.{IsOtherEnd, IsItemEnd, AreActivityEnds, kind_said, IsKindAgain};
ghost use Rattle.name_rules.specs.Names.{AreAttributesAgain, IsItemAgain, IsPartAgain, IsInsideAgain, IsEndWrong};
ghost use Rattle.name_rules.specs.Names.{IsTwice};
ghost use Rattle.text_graphs.specs.Places.{IsLeastOf, AnyAt, PairAt};
ghost use Rattle.text_graphs.specs.Texts.{activities_in, processes_in, structures_in, people_in};

use flow_model::{AttrAt, AttrTree, ItemTree, NameAt, PersonTree, StructDef, Tree};
use std::alloc::{AllocError, Global};
use text_graphs::{Repeats, Scope, lesser};

/// The place of the name after END, where it isn't the opening one.
fn end_fault(name: &NameAt, end: &NameAt) -> Option<u32>
    ensures { IsLeastOf (IsOtherEnd name.now end.now) result }
{
    if name.name.as_slice() == end.name.as_slice() {
        None
    } else {
        Some(end.place)
    }
}

fn item_end(item: &ItemTree) -> Option<u32>
    ensures { IsLeastOf (IsItemEnd item.now) result }
{
    match item {
        ItemTree::Structure(structure) => end_fault(&structure.name, &structure.end),
        ItemTree::Person(person) => end_fault(&person.name, &person.end),
        ItemTree::Process(process) => end_fault(&process.name, &process.end),
    }
}

fn item_ends(items: &[ItemTree]) -> Option<u32>
    ensures { IsLeastOf (AnyAt IsItemEnd items.now) result }
{
    let mut least = None;
    for item in items {
        least = lesser(least, item_end(item));
    }
    least
}

fn activity_ends(scope: &Scope<'_>) -> Option<u32>
    ensures { IsLeastOf (AreActivityEnds (graph_at scope.now)) result }
{
    let mut least = None;
    for activity in &scope.activities {
        least = lesser(least, end_fault(&activity.name, &activity.end));
    }
    least
}

fn ends_in_graphs(scopes: &[Scope<'_>]) -> Option<u32>
    ensures { IsLeastOf (AnyAt (λ s. AreActivityEnds (graph_at s)) scopes.now) result }
{
    let mut least = None;
    for scope in scopes {
        least = lesser(least, activity_ends(scope));
    }
    least
}

/// Rule 4: the name after END isn't the one after the opening word.
pub fn end_name(tree: &Tree, scopes: &[Scope<'_>]) -> Option<u32>
    ensures { IsLeastOf (IsEndWrong tree.now.items (AnyAt (λ s. AreActivityEnds (graph_at s)) scopes.now)) result }
{
    lesser(item_ends(tree.items.as_slice()), ends_in_graphs(scopes))
}

/// A second structure of one name.
fn second_structure(alloc: Global, items: &[ItemTree]) -> Result<Option<u32>, AllocError>
    ensures { IfOk result (IsLeastOf (PairAt IsAgainAt (map (λ s. s.name) (structures_in items.now)))) }
{
    let mut structures = Repeats::new(alloc);
    for item in items {
        match item {
            ItemTree::Structure(structure) => structures.meet(&structure.name)?,
            ItemTree::Person(_) => {}
            ItemTree::Process(_) => {}
        }
    }
    Ok(structures.first())
}

/// A second person of one name.
fn second_person(alloc: Global, items: &[ItemTree]) -> Result<Option<u32>, AllocError>
    ensures { IfOk result (IsLeastOf (PairAt IsAgainAt (map (λ p. p.name) (people_in items.now)))) }
{
    let mut people = Repeats::new(alloc);
    for item in items {
        match item {
            ItemTree::Structure(_) => {}
            ItemTree::Person(person) => people.meet(&person.name)?,
            ItemTree::Process(_) => {}
        }
    }
    Ok(people.first())
}

/// A second process of one name.
fn second_process(alloc: Global, items: &[ItemTree]) -> Result<Option<u32>, AllocError>
    ensures { IfOk result (IsLeastOf (PairAt IsAgainAt (map (λ p. p.name) (processes_in items.now)))) }
{
    let mut processes = Repeats::new(alloc);
    for item in items {
        match item {
            ItemTree::Structure(_) => {}
            ItemTree::Person(_) => {}
            ItemTree::Process(process) => processes.meet(&process.name)?,
        }
    }
    Ok(processes.first())
}

/// A second structure, person or process of one name.
fn second_item(alloc: Global, items: &[ItemTree]) -> Result<Option<u32>, AllocError>
    ensures { IfOk result (IsLeastOf (IsItemAgain items.now)) }
{
    let structure = second_structure(alloc, items)?;
    let person = second_person(alloc, items)?;
    let process = second_process(alloc, items)?;
    Ok(lesser(structure, lesser(person, process)))
}

fn second_member(alloc: Global, structure: &StructDef) -> Result<Option<u32>, AllocError>
    ensures { IfOk result (IsLeastOf (PairAt IsAgainAt (map (λ m. m.name) structure.now.members))) }
{
    let mut members = Repeats::new(alloc);
    for member in structure.members.as_slice() {
        members.meet(&member.name)?;
    }
    Ok(members.first())
}

fn second_role(alloc: Global, person: &PersonTree) -> Result<Option<u32>, AllocError>
    ensures { IfOk result (IsLeastOf (PairAt IsAgainAt person.now.roles)) }
{
    let mut roles = Repeats::new(alloc);
    for role in person.roles.as_slice() {
        roles.meet(role)?;
    }
    Ok(roles.first())
}

/// A second member or role of one name.
fn second_part(alloc: Global, item: &ItemTree) -> Result<Option<u32>, AllocError>
    ensures { IfOk result (IsLeastOf (IsPartAgain item.now)) }
{
    match item {
        ItemTree::Structure(structure) => second_member(alloc, structure),
        ItemTree::Person(person) => second_role(alloc, person),
        ItemTree::Process(_) => Ok(None),
    }
}

fn second_parts(alloc: Global, items: &[ItemTree]) -> Result<Option<u32>, AllocError>
    ensures { IfOk result (IsLeastOf (AnyAt IsPartAgain items.now)) }
{
    let mut least = None;
    for item in items {
        least = lesser(least, second_part(alloc, item)?);
    }
    Ok(least)
}

fn second_activity(alloc: Global, scope: &Scope<'_>) -> Result<Option<u32>, AllocError>
    ensures { IfOk result (IsLeastOf (PairAt IsAgainAt (map (λ a. a.name) (activities_in scope.now.elements.now)))) }
{
    let mut activities = Repeats::new(alloc);
    for activity in &scope.activities {
        activities.meet(&activity.name)?;
    }
    Ok(activities.first())
}

/// The five kinds of attributes.
#[derive(Clone, Copy, Debug, PartialEq, Eq)]
enum AttributeKind {
    When,
    Exit,
    Start,
    Expires,
    DoneBy,
}

fn attribute_kind(what: &AttrTree) -> AttributeKind
    ensures { result ≡ kind_said what.now }
{
    match what {
        AttrTree::When(_) => AttributeKind::When,
        AttrTree::Exit(_) => AttributeKind::Exit,
        AttrTree::Start(_) => AttributeKind::Start,
        AttrTree::Expires(_) => AttributeKind::Expires,
        AttrTree::Role(_) => AttributeKind::DoneBy,
        AttrTree::Person(_) => AttributeKind::DoneBy,
        AttrTree::Starter => AttributeKind::DoneBy,
        AttrTree::Performer(_) => AttributeKind::DoneBy,
    }
}

/// The attributes of one kind that were met, to find the least place of one behind the first of them.
#[derive(Drop)]
struct OfKind {
    kind: AttributeKind,
    is_met: bool,
    second: Option<u32>,
}

impl OfKind {
    fn new(kind: AttributeKind) -> OfKind
        ensures { IsKindMet result kind [] }
    {
        OfKind {
            kind,
            is_met: false,
            second: None,
        }
    }

    /// Meets an attribute.
    fn meet(&mut self, attribute: &AttrAt)
        ensures { (kind : AttributeKind) (attributes : List AttrAt) → IsKindMet self.old kind attributes
            → IsKindMet self.new kind (attributes ++ attribute.now ∷ []) }
    {
        if attribute_kind(&attribute.what) != self.kind {
            return;
        }
        if self.is_met {
            self.second = lesser(self.second, Some(attribute.place));
            return;
        }
        self.is_met = true;
    }
}

/// A second attribute of this kind.
fn second_of_kind(attributes: &[AttrAt], kind: AttributeKind) -> Option<u32>
    ensures { IsLeastOf (PairAt (AreOfKind kind) attributes.now) result }
{
    let mut of_kind = OfKind::new(kind);
    for attribute in attributes {
        of_kind.meet(attribute);
    }
    of_kind.second
}

/// A second attribute of one kind.
fn second_attribute(attributes: &[AttrAt]) -> Option<u32>
    ensures { IsLeastOf (PairAt IsKindAgain attributes.now) result }
{
    let when = second_of_kind(attributes, AttributeKind::When);
    let exit = second_of_kind(attributes, AttributeKind::Exit);
    let start = second_of_kind(attributes, AttributeKind::Start);
    let expires = second_of_kind(attributes, AttributeKind::Expires);
    let done_by = second_of_kind(attributes, AttributeKind::DoneBy);
    lesser(when, lesser(exit, lesser(start, lesser(expires, done_by))))
}

fn second_attributes(scope: &Scope<'_>) -> Option<u32>
    ensures { IsLeastOf (AreAttributesAgain (graph_at scope.now)) result }
{
    let mut least = None;
    for activity in &scope.activities {
        least = lesser(least, second_attribute(activity.attrs.as_slice()));
    }
    least
}

/// A second structure, person or process of one name, or member or role.
fn second_in_items(alloc: Global, items: &[ItemTree]) -> Result<Option<u32>, AllocError>
    ensures { IfOk result (IsLeastOf (λ p. IsItemAgain items.now p ⊎ AnyAt IsPartAgain items.now p)) }
{
    let item = second_item(alloc, items)?;
    let part = second_parts(alloc, items)?;
    Ok(lesser(item, part))
}

/// A second activity of one name in a graph, or attribute of one kind in an activity.
fn second_in_graph(alloc: Global, scope: &Scope<'_>) -> Result<Option<u32>, AllocError>
    ensures { IfOk result (IsLeastOf (IsInsideAgain (graph_at scope.now))) }
{
    let activity = second_activity(alloc, scope)?;
    Ok(lesser(activity, second_attributes(scope)))
}

fn second_in_graphs(alloc: Global, scopes: &[Scope<'_>]) -> Result<Option<u32>, AllocError>
    ensures { IfOk result (IsLeastOf (AnyAt (λ s. IsInsideAgain (graph_at s)) scopes.now)) }
{
    let mut least = None;
    for scope in scopes {
        least = lesser(least, second_in_graph(alloc, scope)?);
    }
    Ok(least)
}

/// Rule 5: something is declared twice: the later name, or the attribute's first word.
pub fn duplicate(
    alloc: Global,
    tree: &Tree,
    scopes: &[Scope<'_>],
) -> Result<Option<u32>, AllocError>
    ensures { IfOk result (IsLeastOf (IsTwice tree.now.items (AnyAt (λ s. IsInsideAgain (graph_at s)) scopes.now))) }
{
    let outside = second_in_items(alloc, tree.items.as_slice())?;
    Ok(lesser(outside, second_in_graphs(alloc, scopes)?))
}
