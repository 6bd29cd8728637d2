//! The structures of a text with their leaves, and rules 6, 7 and 8 on them.
ghost use Rattle.std.specs.Prelude.{◌≡◌, ◌⊎◌, ◌<◌, ◌++◌, map, length, false, replicate, slice_get, slice_index};
ghost use Rattle.std.specs.Prelude.{slice_index_or, slice_set, Some, IfOk, IsTrue, OnOk, option_copied};
ghost use Rattle.std.specs.List.{filter_map};
ghost use Rattle.graph_check.specs.Walks.{IsOrder};
ghost use Rattle.text_graphs.specs.ClosedWalks.{AreClosed};
ghost use Rattle.text_graphs.specs.Graphs.{graph_at};
ghost use Rattle.text_graphs.specs.Places.{IsLeastOf, AnyAt};
ghost use Rattle.text_graphs.specs.Texts.{activities_in, structures_in};
ghost use Rattle.leaf_rules.specs.Structures.{AreStructuresNumbered, behind, structure_in, IsNoStructure, IsNoKind};
ghost use Rattle.leaf_rules.specs.Structures.{AreNoKinds, AreNoContainers, AreNoContainersIn, NamesNoStructure};
ghost use Rattle.leaf_rules.specs.StructureLeaves.{element_count};
ghost use Rattle.leaf_rules.specs.Ordered.{IsOrdered};
ghost use Rattle.leaf_rules.specs.KindEdges.{kind_in, kind_edge, kind_edges, IsInStructureCycle};
ghost use Rattle.leaf_rules.specs.ArrayCounts.{IsOutside, HasCountOutside, IsCountOutside};
ghost use Rattle.leaf_rules.specs.Counts.{told, AreCounted, count_at, kind_count, members_count, HasTooManyLeaves};

use flow_model::{ItemTree, KindTree, List, Member, NameAt, StructDef, Tree};
use indexmap::IndexMap;
use std::alloc::{AllocError, Global};
use text_graphs::{Edges, Scope, lesser, narrow};

/// No structure has more leaves.
const MOST_LEAVES: u64 = 512;

/// The structures of a text, by name.
#[derive(Drop)]
pub struct Structures<'a> {
    definitions: Vec<&'a StructDef>,
    numbers: IndexMap<&'a [u8], u32>,
    /// The number of leaves of each; none where structures lead back to themselves.
    counts: Vec<u64>,
    /// An order in which each comes behind the kinds of its members; none where there is no such order.
    order: List<u32>,
    ghost numbered: { AreStructuresNumbered (map (λ s. s.now) definitions.items) numbers },
}

/// How many elements a member has.
pub(crate) fn element_count(member: &Member) -> u64
    ensures { result ≡ element_count member.now }
{
    match &member.count {
        Some(count) => count.size,
        None => 1,
    }
}

/// The structures of a text, in order.
fn structures_of<'a>(alloc: Global, items: &'a [ItemTree]) -> Result<Vec<&'a StructDef>, AllocError>
    ensures { IfOk result (λ found. map (λ s. s.now) found.items ≡ structures_in items.now) }
{
    let mut structures = Vec::new(alloc);
    for item in items {
        match item {
            ItemTree::Structure(structure) => structures.push(structure)?,
            ItemTree::Person(_) => {}
            ItemTree::Process(_) => {}
        }
    }
    Ok(structures)
}

/// The number of each name; of two structures of one name the first has it.
fn numbers_of<'a>(
    alloc: Global,
    structures: &[&'a StructDef],
) -> Result<IndexMap<&'a [u8], u32>, AllocError>
    ensures { IfOk result (λ numbers. AreStructuresNumbered (map (λ s. s.now) structures.now) numbers) }
{
    let mut numbers: IndexMap<&'a [u8], u32> = IndexMap::new(alloc);
    for (i, structure) in structures.iter().enumerate() {
        let name = structure.name.name.as_slice();
        if !numbers.contains_key(&name) {
            numbers.insert(name, narrow(i)?)?;
        }
    }
    Ok(numbers)
}

/// The place of a structure through which a closed walk leads.
fn place_where(closed: &[bool], number: usize, structure: &StructDef) -> Option<u32>
    ensures { IsLeastOf (λ p. IsTrue (slice_index_or closed.now number false) × (structure.now.name.place ≡ p)) result }
{
    if closed.get(number).copied().unwrap_or(false) {
        Some(structure.name.place)
    } else {
        None
    }
}

/// The place of a structure with too many leaves.
fn place_above(counts: &[u64], number: usize, structure: &StructDef) -> Option<u32>
    ensures { IsLeastOf (λ p. (512 < slice_index counts.now number) × (structure.now.name.place ≡ p)) result }
{
    if counts.get(number).copied().unwrap_or(0) > MOST_LEAVES {
        Some(structure.name.place)
    } else {
        None
    }
}

fn no_counts(alloc: Global, structures: usize) -> Result<Vec<u64>, AllocError>
    ensures { IfOk result (λ counts. counts.items ≡ replicate structures 0) }
{
    Ok(vec![in alloc; 0; structures]?)
}

fn set_count(counts: &mut Vec<u64>, number: u32, count: u64)
    requires { number < length counts.old.items }
    ensures { counts.new.items ≡ slice_set counts.old.items number count }
{
    counts[number as usize] = count;
}

/// What is counted for the structure of this number, if there is one.
fn count_at(counts: &[u64], number: Option<u32>) -> u64
    ensures { result ≡ count_at counts.now number }
{
    match number {
        Some(number) => counts.get(number as usize).copied().unwrap_or(0),
        None => 0,
    }
}

/// The place of an array count that is not from 1 to 512.
fn count_outside(member: &Member) -> Option<u32>
    ensures { IsLeastOf (IsOutside member.now.count) result }
{
    match &member.count {
        None => None,
        Some(count) => {
            if count.size < 1 || count.size > MOST_LEAVES {
                Some(count.place)
            } else {
                None
            }
        }
    }
}

fn count_in_structure(structure: &StructDef) -> Option<u32>
    ensures { IsLeastOf (HasCountOutside structure.now) result }
{
    let mut least = None;
    for member in structure.members.as_slice() {
        least = lesser(least, count_outside(member));
    }
    least
}

impl<'a> Structures<'a> {
    /// The structures of a text; of two of one name the first counts.
    pub fn new(alloc: Global, tree: &'a Tree) -> Result<Structures<'a>, AllocError>
        ensures { IfOk result (λ known. behind known.definitions.items ≡ structures_in tree.now.items) }
    {
        let definitions = structures_of(alloc, tree.items.as_slice())?;
        let numbers = numbers_of(alloc, &definitions)?;
        Ok(Structures {
            definitions,
            numbers,
            counts: Vec::new(alloc),
            order: List::new(alloc),
        })
    }

    /// The number of the structure of this name.
    pub fn number(&self, name: &'a NameAt) -> Option<u32>
        ensures { result ≡ structure_in (behind self.now.definitions.items) name.now.name }
    {
        self.numbers.get(&name.name.as_slice()).copied()
    }

    /// The place of a name that names no structure.
    fn unknown(&self, name: &'a NameAt) -> Option<u32>
        ensures { IsLeastOf (IsNoStructure (behind self.now.definitions.items) name.now) result }
    {
        match self.number(name) {
            Some(_) => None,
            None => Some(name.place),
        }
    }

    fn unknown_kind(&self, kind: &'a KindTree) -> Option<u32>
        ensures { IsLeastOf (IsNoKind (behind self.now.definitions.items) kind.now) result }
    {
        match kind {
            KindTree::Long => None,
            KindTree::Str => None,
            KindTree::Struct(name) => self.unknown(name),
        }
    }

    fn unknown_member(&self, structure: &'a StructDef) -> Option<u32>
        ensures { IsLeastOf (AreNoKinds (behind self.now.definitions.items) structure.now) result }
    {
        let mut least = None;
        for member in structure.members.as_slice() {
            least = lesser(least, self.unknown_kind(&member.kind));
        }
        least
    }

    fn unknown_members(&self) -> Option<u32>
        ensures { IsLeastOf (AnyAt (AreNoKinds (behind self.now.definitions.items)) (behind self.now.definitions.items))
            result }
    {
        let mut least = None;
        for structure in &self.definitions {
            least = lesser(least, self.unknown_member(structure));
        }
        least
    }

    /// An input or output that names no structure.
    fn unknown_of_two(&self, input: &'a NameAt, output: &'a NameAt) -> Option<u32>
        ensures { IsLeastOf (λ p. IsNoStructure (behind self.now.definitions.items) input.now p
            ⊎ IsNoStructure (behind self.now.definitions.items) output.now p) result }
    {
        lesser(self.unknown(input), self.unknown(output))
    }

    fn unknown_of_activities(&self, scope: &Scope<'a>) -> Option<u32>
        ensures { IsLeastOf (AnyAt (AreNoContainers (behind self.now.definitions.items))
            (activities_in scope.now.elements.now)) result }
    {
        let mut least = None;
        for activity in &scope.activities {
            least = lesser(
                least,
                self.unknown_of_two(&activity.input, &activity.output),
            );
        }
        least
    }

    fn unknown_container(&self, scope: &Scope<'a>) -> Option<u32>
        ensures { IsLeastOf (AreNoContainersIn (behind self.now.definitions.items) (graph_at scope.now)) result }
    {
        let own = self.unknown_of_two(scope.input, scope.output);
        lesser(own, self.unknown_of_activities(scope))
    }

    fn unknown_containers(&self, scopes: &[Scope<'a>]) -> Option<u32>
        ensures { IsLeastOf (AnyAt (λ s. AreNoContainersIn (behind self.now.definitions.items) (graph_at s)) scopes.now)
            result }
    {
        let mut least = None;
        for scope in scopes {
            least = lesser(least, self.unknown_container(scope));
        }
        least
    }

    /// Rule 6: a member kind or a container names no structure of the text.
    pub fn unknown_structure(&self, scopes: &[Scope<'a>]) -> Option<u32>
        ensures { IsLeastOf (NamesNoStructure (behind self.now.definitions.items)
            (AnyAt (λ s. AreNoContainersIn (behind self.now.definitions.items) (graph_at s)) scopes.now)) result }
    {
        lesser(self.unknown_members(), self.unknown_containers(scopes))
    }

    /// The structure that a kind is.
    fn kind_number(&self, kind: &'a KindTree) -> Option<u32>
        ensures { result ≡ kind_in (behind self.now.definitions.items) kind.now }
    {
        match kind {
            KindTree::Long => None,
            KindTree::Str => None,
            KindTree::Struct(name) => self.number(name),
        }
    }

    /// Adds an edge to a structure from each kind of its members.
    fn add_kinds(
        &self,
        edges: &mut Edges,
        to: u32,
        structure: &'a StructDef,
    ) -> Result<(), AllocError>
        requires nodes { edges.old.nodes ≡ length (behind self.now.definitions.items) }
        requires within { to < edges.old.nodes }
        ensures nodes { OnOk result (edges.new.nodes ≡ edges.old.nodes) }
        ensures added { OnOk result (edges.new.pairs.items
            ≡ edges.old.pairs.items ++ filter_map (kind_edge (behind self.now.definitions.items) to)
            structure.now.members) }
    {
        for member in structure.members.as_slice() {
            match self.kind_number(&member.kind) {
                None => {}
                Some(from) => edges.add(from, to)?,
            }
        }
        Ok(())
    }

    /// An edge to each structure from each kind of its members.
    fn edges(&self, alloc: Global) -> Result<Edges, AllocError>
        ensures nodes { IfOk result (λ edges. edges.nodes ≡ length (behind self.now.definitions.items)) }
        ensures pairs { IfOk result (λ edges. edges.pairs.items ≡ kind_edges (behind self.now.definitions.items)) }
    {
        let mut edges = Edges::new(alloc, narrow(self.definitions.len())?);
        for (i, structure) in self.definitions.iter().enumerate() {
            self.add_kinds(&mut edges, narrow(i)?, structure)?;
        }
        Ok(edges)
    }

    /// The least place of a structure of which it is known that a closed walk leads through it.
    fn least_closed(&self, closed: &[bool]) -> Option<u32>
        requires { AreClosed (length (behind self.now.definitions.items))
            (kind_edges (behind self.now.definitions.items)) closed.now }
        ensures { IsLeastOf (IsInStructureCycle (behind self.now.definitions.items)) result }
    {
        let mut least = None;
        for (i, structure) in self.definitions.iter().enumerate() {
            least = lesser(least, place_where(closed, i, structure));
        }
        least
    }

    /// Rule 7: a structure reaches itself through member kinds. Where none does, leaves are counted.
    pub fn cycle(&mut self, alloc: Global) -> Result<Option<u32>, AllocError>
        ensures kept { behind self.new.definitions.items ≡ behind self.old.definitions.items }
        ensures least { IfOk result (IsLeastOf (IsInStructureCycle (behind self.old.definitions.items))) }
        ensures counted { IfOk result (λ place. place ≡ None
            → AreCounted (behind self.new.definitions.items) self.new.counts.items) }
        ensures ordered { IfOk result (λ place. place ≡ None
            → IsOrdered (behind self.new.definitions.items) self.new.order) }
    {
        let edges = self.edges(alloc)?;
        match edges.order(alloc)? {
            Some(order) => {
                self.counts = self.leaf_counts(alloc, order.as_slice())?;
                self.order = order;
                Ok(None)
            }
            None => {
                let closed = edges.closed_nodes(alloc)?;
                Ok(self.least_closed(&closed))
            }
        }
    }

    /// The leaves of each structure, counted in an order in which each comes behind its kinds.
    fn leaf_counts(&self, alloc: Global, order: &[u32]) -> Result<Vec<u64>, AllocError>
        requires { IsOrder (length (behind self.now.definitions.items))
            (kind_edges (behind self.now.definitions.items)) order.now }
        ensures { IfOk result (λ counts. AreCounted (behind self.now.definitions.items) counts.items) }
    {
        let mut counts = no_counts(alloc, self.definitions.len())?;
        for number in order {
            let structure = self.definitions[*number as usize];
            let count = self.count_of(&counts, structure);
            set_count(&mut counts, *number, count);
        }
        Ok(counts)
    }

    /// What is counted for a kind.
    fn kind_count(&self, counts: &[u64], kind: &'a KindTree) -> u64
        ensures { result ≡ kind_count (behind self.now.definitions.items) counts.now kind.now }
    {
        match kind {
            KindTree::Long => 1,
            KindTree::Str => 1,
            KindTree::Struct(name) => count_at(counts, self.number(name)),
        }
    }

    /// The number of leaves of a structure whose kinds are counted.
    fn count_of(&self, counts: &[u64], structure: &'a StructDef) -> u64
        ensures { result ≡ told (members_count (behind self.now.definitions.items) counts.now structure.now.members) }
    {
        let mut count = 0u64;
        for member in structure.members.as_slice() {
            let each = self.kind_count(counts, &member.kind);
            count = count.saturating_add(each.saturating_mul(element_count(member)));
        }
        count
    }

    /// Rule 8: a structure has more than 512 leaves.
    pub fn too_many_leaves(&self) -> Option<u32>
        requires { AreCounted (behind self.now.definitions.items) self.now.counts.items }
        ensures { IsLeastOf (HasTooManyLeaves (behind self.now.definitions.items)) result }
    {
        let mut least = None;
        for (i, structure) in self.definitions.iter().enumerate() {
            least = lesser(least, place_above(&self.counts, i, structure));
        }
        least
    }

    /// How many structures the text has.
    pub(crate) fn len(&self) -> usize
        ensures { result ≡ length (behind self.now.definitions.items) }
    {
        self.definitions.len()
    }

    /// The structure of this number.
    pub(crate) fn structure(&self, number: u32) -> &'a StructDef
        requires { number < length (behind self.now.definitions.items) }
        ensures { slice_get (behind self.now.definitions.items) number ≡ Some result.now }
    {
        self.definitions[number as usize]
    }

    /// The structure of a number, if there is one.
    pub(crate) fn nth(&self, number: u32) -> Option<&'a StructDef>
        ensures { option_copied result ≡ slice_get (behind self.now.definitions.items) number }
    {
        self.definitions.get(number as usize).copied()
    }

    /// An order in which each structure comes behind the kinds of its members.
    pub(crate) fn order(&self) -> &[u32]
        ensures { result.now ≡ self.now.order }
    {
        self.order.as_slice()
    }

    /// Rule 23 on arrays: a count is outside 1 to 512.
    pub fn count_fault(&self) -> Option<u32>
        ensures { IsLeastOf (IsCountOutside (behind self.now.definitions.items)) result }
    {
        let mut least = None;
        for structure in &self.definitions {
            least = lesser(least, count_in_structure(structure));
        }
        least
    }
}
