//! The rules in their order, group by group: of each group the first that is broken, at its least place.
ghost use Rattle.std.specs.Prelude.{◌≡◌, ℕ, map, None, IfOk};
ghost use Rattle.std.specs.List.{All};
ghost use Rattle.leaf_rules.specs.Counts.{AreCounted};
ghost use Rattle.leaf_rules.specs.Ordered.{IsOrdered};
ghost use Rattle.leaf_rules.specs.Leaves.{table_leaves};
ghost use Rattle.leaf_rules.specs.StructureLeaves.{leaves_in};
ghost use Rattle.leaf_rules.specs.Structures.{behind};
ghost use Rattle.leaf_rules.specs.Tables.{HasContainers};
ghost use Rattle.process_rules.specs.Callees.{NamesNone};
ghost use Rattle.process_rules.specs.Calling.{callee_meant};
ghost use Rattle.process_rules.specs.Doers.{NamesNoPerformer};
ghost use Rattle.process_rules.specs.Knowing.{ArePeople, IsKnowing};
ghost use Rattle.process_rules.specs.Shapes.{shapes_of, told_shape};
ghost use Rattle.template_check.specs.Rules.{rules_on_names, rules_on_structures, rules_on_connectors, rules_on_leaves};
ghost use Rattle.template_check.specs.Rules.{rules_on_lines, rules_on_callees, rules_on_people, rules_on_sizes};
ghost use Rattle.template_check.specs.Rules.{rules_on_counts, IsFirstBroken};
ghost use Rattle.text_graphs.specs.Graphs.{graph_at, graphs_in, AreGraphsOf, InGraphs};
ghost use Rattle.text_graphs.specs.Texts.{lines_in, people_in, processes_in, structures_in, AreNamesApart, IsConnected};
ghost use Rattle.text_graphs.specs.Texts.{IsLimited, IsLineAlong};

use connector_rules::{
    cycle, double_connector, empty_graph, otherwise, unknown_activity, unreachable_data,
};
use flow_model::Tree;
use leaf_rules::{LeafTable, Structures, mixed_kinds, unknown_leaves};
use name_rules::{duplicate, end_name};
use process_rules::{
    Known, Shape, count_limit, deep_processes, graph_numbers, large_processes,
    mismatched_containers, unknown_people, unknown_processes, wrong_performers,
};
use std::alloc::{AllocError, Global};
use text_graphs::{Scope, lesser};

/// A broken rule and its place.
pub type Broken = Option<(u8, u32)>;

/// Rules 4 to 6.
pub fn first_of_names<'a>(
    alloc: Global,
    tree: &Tree,
    structures: &Structures<'a>,
    scopes: &[Scope<'a>],
) -> Result<Broken, AllocError>
    requires graphs { AreGraphsOf tree.now.items (graphs_in scopes.now) }
    requires structures { behind structures.now.definitions.items ≡ structures_in tree.now.items }
    ensures named { IfOk result (λ fault. fault ≡ None → All (λ s. AreNamesApart s.elements.now) scopes.now) }
    ensures first { IfOk result (IsFirstBroken (rules_on_names tree.now.items)) }
{
    if let Some(place) = end_name(tree, scopes) {
        return Ok(Some((4, place)));
    }
    if let Some(place) = duplicate(alloc, tree, scopes)? {
        return Ok(Some((5, place)));
    }
    match structures.unknown_structure(scopes) {
        Some(place) => Ok(Some((6, place))),
        None => Ok(None),
    }
}

/// Rules 7 and 8; where neither is broken, the leaves of the structures are counted.
pub fn first_of_structures<'a>(
    alloc: Global,
    structures: &mut Structures<'a>,
    tree: &Tree,
) -> Result<Broken, AllocError>
    requires { behind structures.old.definitions.items ≡ structures_in tree.now.items }
    ensures kept { behind structures.new.definitions.items ≡ structures_in tree.now.items }
    ensures counted { IfOk result (λ fault. fault ≡ None
        → AreCounted (behind structures.new.definitions.items) structures.new.counts.items) }
    ensures ordered { IfOk result (λ fault. fault ≡ None
        → IsOrdered (behind structures.new.definitions.items) structures.new.order) }
    ensures first { IfOk result (IsFirstBroken (rules_on_structures tree.now.items)) }
{
    if let Some(place) = structures.cycle(alloc)? {
        return Ok(Some((7, place)));
    }
    match structures.too_many_leaves() {
        Some(place) => Ok(Some((8, place))),
        None => Ok(None),
    }
}

/// Rules 9 to 12.
pub fn first_of_connectors(
    alloc: Global,
    tree: &Tree,
    scopes: &[Scope<'_>],
) -> Result<Broken, AllocError>
    requires { AreGraphsOf tree.now.items (graphs_in scopes.now) }
    ensures connected { IfOk result (λ fault. fault ≡ None → All (λ s. IsConnected s.elements.now) scopes.now) }
    ensures first { IfOk result (IsFirstBroken (rules_on_connectors tree.now.items)) }
{
    if let Some(place) = unknown_activity(scopes) {
        return Ok(Some((9, place)));
    }
    if let Some(place) = double_connector(alloc, scopes)? {
        return Ok(Some((10, place)));
    }
    if let Some(place) = cycle(alloc, scopes)? {
        return Ok(Some((11, place)));
    }
    match empty_graph(scopes) {
        Some(place) => Ok(Some((12, place))),
        None => Ok(None),
    }
}

/// Rules 13 and 14.
pub fn first_of_leaves<'a>(tree: &Tree, table: &LeafTable<'a>, scopes: &[Scope<'a>]) -> Broken
    requires graphs { AreGraphsOf tree.now.items (graphs_in scopes.now) }
    requires leaves { All (λ s. HasContainers (leaves_in (structures_in tree.now.items)) (table_leaves table.now)
        (graph_at s)) scopes.now }
    ensures { IsFirstBroken (rules_on_leaves tree.now.items) result }
{
    if let Some(place) = unknown_leaves(table, scopes) {
        return Some((13, place));
    }
    match mixed_kinds(table, scopes) {
        Some(place) => Some((14, place)),
        None => None,
    }
}

/// Rules 15 and 16.
pub fn first_of_lines(
    alloc: Global,
    tree: &Tree,
    scopes: &[Scope<'_>],
) -> Result<Broken, AllocError>
    requires { AreGraphsOf tree.now.items (graphs_in scopes.now) }
    ensures along { IfOk result (λ fault. fault ≡ None
        → All (λ s. All (IsLineAlong s.elements.now) (lines_in s.elements.now)) scopes.now) }
    ensures first { IfOk result (IsFirstBroken (rules_on_lines tree.now.items)) }
{
    if let Some(place) = otherwise(alloc, scopes)? {
        return Ok(Some((15, place)));
    }
    match unreachable_data(alloc, scopes)? {
        Some(place) => Ok(Some((16, place))),
        None => Ok(None),
    }
}

/// Rules 17 and 18.
pub fn first_of_callees<'a>(
    alloc: Global,
    known: &Known<'a>,
    tree: &Tree,
    table: &LeafTable<'a>,
    scopes: &[Scope<'a>],
) -> Result<Broken, AllocError>
    requires graphs { AreGraphsOf tree.now.items (graphs_in scopes.now) }
    requires leaves { All (λ s. HasContainers (leaves_in (structures_in tree.now.items)) (table_leaves table.now)
        (graph_at s)) scopes.now }
    requires knowing { IsKnowing known.now (processes_in tree.now.items) }
    requires classes { table.now.known.now ≡ known.now.catalog.now.classes }
    ensures called { IfOk result (λ fault. fault ≡ None
        → (p : ℕ) → InGraphs tree.now.items (NamesNone (callee_meant known.now)) p → ⊥) }
    ensures first { IfOk result (IsFirstBroken (rules_on_callees known.now.catalog.now.library tree.now.items)) }
{
    if let Some(place) = unknown_processes(known, scopes) {
        return Ok(Some((17, place)));
    }
    match mismatched_containers(alloc, known, table, scopes)? {
        Some(place) => Ok(Some((18, place))),
        None => Ok(None),
    }
}

/// Rules 19 and 20.
pub fn first_of_people<'a>(
    alloc: Global,
    known: &Known<'a>,
    tree: &Tree,
    scopes: &[Scope<'a>],
) -> Result<Broken, AllocError>
    requires graphs { AreGraphsOf tree.now.items (graphs_in scopes.now) }
    requires people { ArePeople known.now (people_in tree.now.items) }
    ensures performers { IfOk result (λ fault. fault ≡ None → (p : ℕ) → InGraphs tree.now.items NamesNoPerformer p
        → ⊥) }
    ensures first { IfOk result (IsFirstBroken (rules_on_people known.now.catalog.now.library tree.now.items)) }
{
    if let Some(place) = unknown_people(known, scopes) {
        return Ok(Some((19, place)));
    }
    match wrong_performers(alloc, scopes)? {
        Some(place) => Ok(Some((20, place))),
        None => Ok(None),
    }
}

/// Rules 21 and 22.
pub fn first_of_sizes(known: &Known<'_>, tree: &Tree, shapes: &[Shape]) -> Broken
    requires knowing { IsKnowing known.now (processes_in tree.now.items) }
    requires shapes { shapes.now
        ≡ map told_shape (shapes_of known.now.catalog.now.library (processes_in tree.now.items)) }
    ensures { IsFirstBroken (rules_on_sizes known.now.catalog.now.library tree.now.items) result }
{
    if let Some(place) = deep_processes(known, shapes) {
        return Some((21, place));
    }
    match large_processes(known, shapes) {
        Some(place) => Some((22, place)),
        None => None,
    }
}

/// Rules 23 and 24.
pub fn first_of_counts<'a>(
    alloc: Global,
    tree: &Tree,
    structures: &Structures<'a>,
    known: &Known<'a>,
    scopes: &[Scope<'a>],
) -> Result<Broken, AllocError>
    requires graphs { AreGraphsOf tree.now.items (graphs_in scopes.now) }
    requires structures { behind structures.now.definitions.items ≡ structures_in tree.now.items }
    requires knowing { IsKnowing known.now (processes_in tree.now.items) }
    ensures limited { IfOk result (λ fault. fault ≡ None → All (λ s. IsLimited s.elements.now) scopes.now) }
    ensures first { IfOk result (IsFirstBroken (rules_on_counts tree.now.items)) }
{
    if let Some(place) = lesser(structures.count_fault(), graph_numbers(alloc, scopes)?) {
        return Ok(Some((23, place)));
    }
    match count_limit(known, scopes) {
        Some(place) => Ok(Some((24, place))),
        None => Ok(None),
    }
}
