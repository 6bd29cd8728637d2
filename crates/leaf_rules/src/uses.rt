//! Rules 13 and 14: the leaves that conditions and maps read and write, and their kinds.
ghost use Rattle.std.specs.Prelude.{◌≡◌, ◌⊎◌, ◌<◌, ◌^◌, length, IfSome, MatchBool, option_map};
ghost use Rattle.text_graphs.specs.Attributes.{exit_said};
ghost use Rattle.text_graphs.specs.Graphs.{graph_at};
ghost use Rattle.text_graphs.specs.GraphTexts.{text_of};
ghost use Rattle.text_graphs.specs.Places.{IsLeastOf, AnyAt};
ghost use Rattle.text_graphs.specs.Texts.{activities_in, controls_in, lines_in};
ghost use Rattle.leaf_rules.specs.Leaves.{with_code, table_leaves};
ghost use Rattle.leaf_rules.specs.LeafUses.{IsInCond, IsInExit, when_said, IsInTransition, IsInMaps, IsInLine};
ghost use Rattle.leaf_rules.specs.LeafUses.{IsInUses, IsNoLeaf, ReadsUnknownLeaf, leaf_kind, MixesKinds};
ghost use Rattle.leaf_rules.specs.Searches.{finds_of, breaks_of};

use crate::members::LeafTable;
use conditions::{first_mismatch, first_unknown};
use containers::find_leaf;
use flow_model::{
    ActivityTree, AttrTree, Cond, CondAt, ControlTree, DataTree, Kind, LeafAt, Leaves, MapTree,
    NameAt, WhenTree,
};
use text_graphs::{Scope, lesser};

/// What a rule looks for.
#[derive(Clone, Copy, Debug, PartialEq, Eq)]
enum Search {
    /// A leaf that isn't there.
    Unknown,
    /// Kinds that don't fit.
    Mismatch,
}

fn cond_fault(search: Search, cond: &Cond, leaves: &Leaves) -> Option<u32>
    requires { length leaves.now.leaves < 2 ^ 32 }
    ensures { result ≡ finds_of search leaves.now.leaves cond.now }
{
    match search {
        Search::Unknown => first_unknown(cond, leaves),
        Search::Mismatch => first_mismatch(cond, leaves),
    }
}

/// The place that is found in a condition over leaves, if there are such.
fn found_in_cond(search: Search, cond: Option<&CondAt>, leaves: Option<&Leaves>) -> Option<u32>
    requires { IfSome leaves (λ l. length l.now.leaves < 2 ^ 32) }
    ensures { IsLeastOf (IsInCond (finds_of search) (option_map (λ l. l.now.leaves) leaves.entry)
        (option_map (λ c. c.now) cond.entry)) result }
{
    match leaves {
        None => None,
        Some(leaves) => match cond {
            None => None,
            Some(cond) => cond_fault(search, &cond.cond, leaves),
        },
    }
}

/// The place of a leaf that isn't one of these.
fn no_leaf(leaves: &Leaves, leaf: &LeafAt) -> Option<u32>
    requires { length leaves.now.leaves < 2 ^ 32 }
    ensures { IsLeastOf (IsNoLeaf leaves.now.leaves leaf.now) result }
{
    match find_leaf(leaves, leaf) {
        Some(_) => None,
        None => Some(leaf.place),
    }
}

fn kind_of(leaves: &Leaves, leaf: &LeafAt) -> Option<Kind>
    requires { length leaves.now.leaves < 2 ^ 32 }
    ensures { result ≡ leaf_kind leaves.now.leaves leaf.now }
{
    match find_leaf(leaves, leaf) {
        None => None,
        Some(place) => leaves.kind(place as usize),
    }
}

fn are_same(left: Option<Kind>, right: Option<Kind>) -> bool
    ensures { MatchBool result (left ≡ right) (left ≡ right → ⊥) }
{
    left == right
}

fn map_fault(search: Search, map: &MapTree, from: &Leaves, to: &Leaves) -> Option<u32>
    requires from { length from.now.leaves < 2 ^ 32 }
    requires to { length to.now.leaves < 2 ^ 32 }
    ensures { IsLeastOf (breaks_of search from.now.leaves to.now.leaves map.now) result }
{
    match search {
        Search::Unknown => lesser(no_leaf(from, &map.from), no_leaf(to, &map.to)),
        Search::Mismatch => {
            if are_same(kind_of(from, &map.from), kind_of(to, &map.to)) {
                None
            } else {
                Some(map.to.place)
            }
        }
    }
}

fn maps_fault(search: Search, maps: &[MapTree], from: &Leaves, to: &Leaves) -> Option<u32>
    requires from { length from.now.leaves < 2 ^ 32 }
    requires to { length to.now.leaves < 2 ^ 32 }
    ensures { IsLeastOf (AnyAt (breaks_of search from.now.leaves to.now.leaves) maps.now) result }
{
    let mut least = None;
    for map in maps {
        least = lesser(least, map_fault(search, map, from, to));
    }
    least
}

/// The place that is found in maps between leaves, if there are such on both sides.
fn found_in_maps(
    search: Search,
    maps: &[MapTree],
    from: Option<&Leaves>,
    to: Option<&Leaves>,
) -> Option<u32>
    requires from { IfSome from (λ l. length l.now.leaves < 2 ^ 32) }
    requires to { IfSome to (λ l. length l.now.leaves < 2 ^ 32) }
    ensures { IsLeastOf (IsInMaps (breaks_of search) (option_map (λ l. l.now.leaves) from.entry)
        (option_map (λ l. l.now.leaves) to.entry) maps.now) result }
{
    match from {
        None => None,
        Some(from) => match to {
            None => None,
            Some(to) => maps_fault(search, maps, from, to),
        },
    }
}

fn line_fault<'a>(
    search: Search,
    table: &LeafTable<'a>,
    scope: &Scope<'a>,
    line: &'a DataTree,
) -> Option<u32>
    ensures { IsLeastOf (IsInLine (breaks_of search) (table_leaves table.now) (text_of scope.now) line.now) result }
{
    let from = table.line_source(scope, &line.ends);
    let to = table.line_target(scope, &line.ends);
    found_in_maps(search, line.maps.as_slice(), from, to)
}

fn lines_fault<'a>(search: Search, table: &LeafTable<'a>, scope: &Scope<'a>) -> Option<u32>
    ensures { IsLeastOf (AnyAt (IsInLine (breaks_of search) (table_leaves table.now) (text_of scope.now))
        (lines_in scope.now.elements.now)) result }
{
    let mut least = None;
    for line in &scope.lines {
        least = lesser(least, line_fault(search, table, scope, line));
    }
    least
}

/// The condition of a connector, if it has one.
fn condition(when: &WhenTree) -> Option<&CondAt>
    ensures { option_map (λ c. c.now) result ≡ when_said when.now }
{
    match when {
        WhenTree::Always => None,
        WhenTree::Cond(cond) => Some(cond),
        WhenTree::Otherwise => None,
    }
}

fn transition_fault<'a>(
    search: Search,
    table: &LeafTable<'a>,
    scope: &Scope<'a>,
    control: &'a ControlTree,
) -> Option<u32>
    ensures { IsLeastOf (IsInTransition (finds_of search) (table_leaves table.now) scope.now.elements.now control.now)
        result }
{
    let leaves = table.connector_leaves(scope, control);
    found_in_cond(search, condition(&control.when), leaves)
}

fn transitions_fault<'a>(search: Search, table: &LeafTable<'a>, scope: &Scope<'a>) -> Option<u32>
    ensures { IsLeastOf (AnyAt (IsInTransition (finds_of search) (table_leaves table.now) scope.now.elements.now)
        (controls_in scope.now.elements.now)) result }
{
    let mut least = None;
    for control in &scope.controls {
        least = lesser(least, transition_fault(search, table, scope, control));
    }
    least
}

/// The condition that an attribute is, if it is EXIT.
fn exit_condition(what: &AttrTree) -> Option<&CondAt>
    ensures { option_map (λ c. c.now) result ≡ exit_said what.now }
{
    match what {
        AttrTree::When(_) => None,
        AttrTree::Exit(cond) => Some(cond),
        AttrTree::Start(_) => None,
        AttrTree::Expires(_) => None,
        AttrTree::Role(_) => None,
        AttrTree::Person(_) => None,
        AttrTree::Starter => None,
        AttrTree::Performer(_) => None,
    }
}

fn exit_fault<'a>(
    search: Search,
    table: &LeafTable<'a>,
    output: &'a NameAt,
    what: &AttrTree,
) -> Option<u32>
    ensures { IsLeastOf (IsInCond (finds_of search) (with_code (table_leaves table.now output.now.name))
        (exit_said what.now)) result }
{
    found_in_cond(search, exit_condition(what), table.coded(output))
}

fn activity_fault<'a>(
    search: Search,
    table: &LeafTable<'a>,
    activity: &'a ActivityTree,
) -> Option<u32>
    ensures { IsLeastOf (IsInExit (finds_of search) (table_leaves table.now) activity.now) result }
{
    let mut least = None;
    for attribute in activity.attrs.as_slice() {
        least = lesser(
            least,
            exit_fault(search, table, &activity.output, &attribute.what),
        );
    }
    least
}

fn exits_fault<'a>(search: Search, table: &LeafTable<'a>, scope: &Scope<'a>) -> Option<u32>
    ensures { IsLeastOf (AnyAt (IsInExit (finds_of search) (table_leaves table.now))
        (activities_in scope.now.elements.now)) result }
{
    let mut least = None;
    for activity in &scope.activities {
        least = lesser(least, activity_fault(search, table, activity));
    }
    least
}

fn conditions_fault<'a>(search: Search, table: &LeafTable<'a>, scope: &Scope<'a>) -> Option<u32>
    ensures { IsLeastOf (λ p. AnyAt (IsInExit (finds_of search) (table_leaves table.now))
        (activities_in scope.now.elements.now) p ⊎ AnyAt
        (IsInTransition (finds_of search) (table_leaves table.now) scope.now.elements.now)
        (controls_in scope.now.elements.now) p) result }
{
    lesser(
        exits_fault(search, table, scope),
        transitions_fault(search, table, scope),
    )
}

/// The least place of a graph where a search finds something.
fn graph_fault<'a>(search: Search, table: &LeafTable<'a>, scope: &Scope<'a>) -> Option<u32>
    ensures { IsLeastOf (IsInUses (finds_of search) (breaks_of search) (table_leaves table.now) (graph_at scope.now))
        result }
{
    lesser(
        conditions_fault(search, table, scope),
        lines_fault(search, table, scope),
    )
}

fn graphs_fault<'a>(search: Search, table: &LeafTable<'a>, scopes: &[Scope<'a>]) -> Option<u32>
    ensures { IsLeastOf (AnyAt (λ s. IsInUses (finds_of search) (breaks_of search) (table_leaves table.now)
        (graph_at s)) scopes.now) result }
{
    let mut least = None;
    for scope in scopes {
        least = lesser(least, graph_fault(search, table, scope));
    }
    least
}

/// Rule 13: a condition or a map reads or writes a leaf that its container doesn't have.
pub fn unknown_leaves<'a>(table: &LeafTable<'a>, scopes: &[Scope<'a>]) -> Option<u32>
    ensures { IsLeastOf (AnyAt (λ s. ReadsUnknownLeaf (table_leaves table.now) (graph_at s)) scopes.now) result }
{
    graphs_fault(Search::Unknown, table, scopes)
}

/// Rule 14: a map joins unequal kinds, or the sides of a comparison don't have one kind.
pub fn mixed_kinds<'a>(table: &LeafTable<'a>, scopes: &[Scope<'a>]) -> Option<u32>
    ensures { IsLeastOf (AnyAt (λ s. MixesKinds (table_leaves table.now) (graph_at s)) scopes.now) result }
{
    graphs_fault(Search::Mismatch, table, scopes)
}
