//! Rules 9 to 12 and 16: connectors and data lines as edges of their graph.
ghost use Rattle.std.specs.Prelude.{◌≡◌, ◌<◌, List, [], ◌∷◌, ◌++◌, None, IfOk, OnOk, length};
ghost use Rattle.std.specs.List.{All, Contains};
ghost use Rattle.flow_model.specs.declared.trees.ControlTree.{ControlTree};
ghost use Rattle.text_graphs.specs.Graphs.{graph_at};
ghost use Rattle.connector_rules.specs.Connectors.{IsNobody, IsLoose, IsEndNobody, AreEndsNobody, NamesNobody};
ghost use Rattle.connector_rules.specs.Connectors.{IsDouble, IsClosing, IsOnCycle, IsEmptyGraph, IsUnreachable};
ghost use Rattle.connector_rules.specs.Connectors.{IsUnreachableData, IsLineTold};
ghost use Rattle.connector_rules.specs.EdgesMet.{AreEdgesMet};
ghost use Rattle.text_graphs.specs.Places.{IsLeastOf, AnyAt};
ghost use Rattle.text_graphs.specs.ClosedWalks.{IsAcyclic};
ghost use Rattle.graph_check.specs.Components.{same_number};
ghost use Rattle.connector_rules.specs.EdgesGrouped.{AreGroupsOf};
ghost use Rattle.connector_rules.specs.Walking.{AreWalksOf};
ghost use Rattle.text_graphs.specs.Texts.{controls_in, lines_in, edges_in, line_edge, IsLineAlong};

use crate::walks::{Walks, groups};
use flow_model::{ControlTree, DataTree, EndTree, EndsTree, NameAt};
use indexmap::IndexSet;
use std::alloc::{AllocError, Global};
use text_graphs::{Scope, lesser};

/// The place of a name that is no activity's of the graph.
fn unknown<'a>(scope: &Scope<'a>, name: &'a NameAt) -> Option<u32>
    ensures { IsLeastOf (IsNobody scope.now.elements.now name.now) result }
{
    match scope.number(name) {
        Some(_) => None,
        None => Some(name.place),
    }
}

fn unknown_end<'a>(scope: &Scope<'a>, end: &'a EndTree) -> Option<u32>
    ensures { IsLeastOf (IsEndNobody scope.now.elements.now end.now) result }
{
    match end {
        EndTree::Border => None,
        EndTree::Activity(name) => unknown(scope, name),
    }
}

fn unknown_ends<'a>(scope: &Scope<'a>, ends: &'a EndsTree) -> Option<u32>
    ensures { IsLeastOf (AreEndsNobody scope.now.elements.now ends.now) result }
{
    match ends {
        EndsTree::Line(from, to) => lesser(unknown_end(scope, from), unknown_end(scope, to)),
        EndsTree::Loop(name) => unknown(scope, name),
    }
}

fn unknown_in_control<'a>(scope: &Scope<'a>, control: &'a ControlTree) -> Option<u32>
    ensures { IsLeastOf (IsLoose scope.now.elements.now control.now) result }
{
    lesser(unknown(scope, &control.from), unknown(scope, &control.to))
}

fn unknown_in_controls(scope: &Scope<'_>) -> Option<u32>
    ensures { IsLeastOf (AnyAt (IsLoose scope.now.elements.now) (controls_in scope.now.elements.now)) result }
{
    let mut least = None;
    for control in &scope.controls {
        least = lesser(least, unknown_in_control(scope, control));
    }
    least
}

fn unknown_in_lines(scope: &Scope<'_>) -> Option<u32>
    ensures { IsLeastOf (AnyAt (λ l. AreEndsNobody scope.now.elements.now l.ends) (lines_in scope.now.elements.now))
        result }
{
    let mut least = None;
    for line in &scope.lines {
        least = lesser(least, unknown_ends(scope, &line.ends));
    }
    least
}

fn unknown_in_graph(scope: &Scope<'_>) -> Option<u32>
    ensures { IsLeastOf (NamesNobody (graph_at scope.now)) result }
{
    lesser(unknown_in_controls(scope), unknown_in_lines(scope))
}

/// Rule 9: a CONTROL or DATA line names no activity of its own graph.
pub fn unknown_activity(scopes: &[Scope<'_>]) -> Option<u32>
    ensures { IsLeastOf (AnyAt (λ s. NamesNobody (graph_at s)) scopes.now) result }
{
    let mut least = None;
    for scope in scopes {
        least = lesser(least, unknown_in_graph(scope));
    }
    least
}

/// The ends of the connectors that were met, to find the least place of one that comes again.
#[derive(Drop)]
struct Doubles {
    met: IndexSet<(u32, u32)>,
    first: Option<u32>,
}

impl Doubles {
    fn new<'a>(alloc: Global, scope: &Scope<'a>) -> Doubles
        ensures { AreEdgesMet scope.now.elements.now result [] }
    {
        Doubles {
            met: IndexSet::new(alloc),
            first: None,
        }
    }

    /// Meets a connector.
    fn meet<'a>(&mut self, scope: &Scope<'a>, control: &'a ControlTree) -> Result<(), AllocError>
        ensures { OnOk result ((controls : List ControlTree) → AreEdgesMet scope.now.elements.now self.old controls
            → AreEdgesMet scope.now.elements.now self.new (controls ++ control.now ∷ [])) }
    {
        match scope.ends(&control.from, &control.to) {
            None => Ok(()),
            Some(ends) => {
                let (_place, is_new) = self.met.insert_full(ends)?;
                if is_new {
                    return Ok(());
                }
                self.first = lesser(self.first, Some(control.place));
                Ok(())
            }
        }
    }
}

fn double_in_graph(alloc: Global, scope: &Scope<'_>) -> Result<Option<u32>, AllocError>
    ensures { IfOk result (IsLeastOf (IsDouble (graph_at scope.now))) }
{
    let mut doubles = Doubles::new(alloc, scope);
    for control in &scope.controls {
        doubles.meet(scope, control)?;
    }
    Ok(doubles.first)
}

/// Rule 10: an earlier CONTROL of the graph has the same source and target.
pub fn double_connector(alloc: Global, scopes: &[Scope<'_>]) -> Result<Option<u32>, AllocError>
    ensures { IfOk result (IsLeastOf (AnyAt (λ s. IsDouble (graph_at s)) scopes.now)) }
{
    let mut least = None;
    for scope in scopes {
        least = lesser(least, double_in_graph(alloc, scope)?);
    }
    Ok(least)
}

/// Whether two activities are in one group.
fn is_together(groups: &[u32], from: u32, to: u32) -> bool
    requires from { from < length groups.now }
    requires to { to < length groups.now }
    ensures { result ≡ same_number groups.now (from, to) }
{
    groups[from as usize] == groups[to as usize]
}

/// The place of a connector that lies on a closed walk.
fn closing<'a>(scope: &Scope<'a>, groups: &[u32], control: &'a ControlTree) -> Option<u32>
    requires groups { AreGroupsOf scope.now.elements.now groups.now }
    requires listed { Contains (controls_in scope.now.elements.now) control.now }
    ensures { IsLeastOf (IsClosing scope.now.elements.now control.now) result }
{
    match scope.ends(&control.from, &control.to) {
        None => None,
        Some((from, to)) => {
            if is_together(groups, from, to) {
                Some(control.place)
            } else {
                None
            }
        }
    }
}

fn cycle_in_graph(alloc: Global, scope: &Scope<'_>) -> Result<Option<u32>, AllocError>
    ensures { IfOk result (IsLeastOf (IsOnCycle (graph_at scope.now))) }
{
    let groups = groups(alloc, scope)?;
    let mut least = None;
    for control in &scope.controls {
        least = lesser(least, closing(scope, &groups, control));
    }
    Ok(least)
}

/// Rule 11: a CONTROL lies on a closed walk of its graph.
pub fn cycle(alloc: Global, scopes: &[Scope<'_>]) -> Result<Option<u32>, AllocError>
    ensures least { IfOk result (IsLeastOf (AnyAt (λ s. IsOnCycle (graph_at s)) scopes.now)) }
    ensures acyclic { IfOk result (λ place. place ≡ None → All (λ s. IsAcyclic (edges_in s.elements.now)) scopes.now) }
{
    let mut least = None;
    for scope in scopes {
        least = lesser(least, cycle_in_graph(alloc, scope)?);
    }
    Ok(least)
}

fn empty(scope: &Scope<'_>) -> Option<u32>
    ensures { IsLeastOf (IsEmptyGraph (graph_at scope.now)) result }
{
    if scope.activities.is_empty() {
        Some(scope.place)
    } else {
        None
    }
}

/// Rule 12: a PROCESS or BLOCK has no activity.
pub fn empty_graph(scopes: &[Scope<'_>]) -> Option<u32>
    ensures { IsLeastOf (AnyAt (λ s. IsEmptyGraph (graph_at s)) scopes.now) result }
{
    let mut least = None;
    for scope in scopes {
        least = lesser(least, empty(scope));
    }
    least
}

/// The numbers of the two activities of a DATA line between activities.
fn line_ends<'a>(scope: &Scope<'a>, ends: &'a EndsTree) -> Option<(u32, u32)>
    ensures { result ≡ line_edge scope.now.elements.now ends.now }
{
    match ends {
        EndsTree::Line(from, to) => match from {
            EndTree::Border => None,
            EndTree::Activity(from) => match to {
                EndTree::Border => None,
                EndTree::Activity(to) => scope.ends(from, to),
            },
        },
        EndsTree::Loop(_) => None,
    }
}

/// Whether a DATA line between two activities goes along a walk; true of other lines.
fn has_line<'a>(scope: &Scope<'a>, walks: &Walks, line: &'a DataTree) -> bool
    requires { AreWalksOf scope.now.elements.now walks.now }
    ensures { IsLineTold scope.now.elements.now line.now result }
{
    match line_ends(scope, &line.ends) {
        None => true,
        Some((from, to)) => walks.lead(from, to),
    }
}

/// The place of a DATA line between two activities that goes along no walk.
fn apart<'a>(scope: &Scope<'a>, walks: &Walks, line: &'a DataTree) -> Option<u32>
    requires { AreWalksOf scope.now.elements.now walks.now }
    ensures least { IsLeastOf (IsUnreachable scope.now.elements.now line.now) result }
    ensures along { result ≡ None → IsLineAlong scope.now.elements.now line.now }
{
    if has_line(scope, walks, line) {
        None
    } else {
        Some(line.place)
    }
}

/// Walks are looked for only where there are DATA lines.
fn unreachable_in_graph(alloc: Global, scope: &Scope<'_>) -> Result<Option<u32>, AllocError>
    ensures least { IfOk result (IsLeastOf (IsUnreachableData (graph_at scope.now))) }
    ensures along { IfOk result (λ place. place ≡ None
        → All (IsLineAlong scope.now.elements.now) (lines_in scope.now.elements.now)) }
{
    if scope.lines.is_empty() {
        return Ok(None);
    }
    let walks = Walks::new(alloc, scope)?;
    let mut least = None;
    for line in &scope.lines {
        least = lesser(least, apart(scope, &walks, line));
    }
    Ok(least)
}

/// Rule 16: a DATA line between two activities whose target isn't reachable from the source.
pub fn unreachable_data(alloc: Global, scopes: &[Scope<'_>]) -> Result<Option<u32>, AllocError>
    ensures least { IfOk result (IsLeastOf (AnyAt (λ s. IsUnreachableData (graph_at s)) scopes.now)) }
    ensures along { IfOk result (λ place. place ≡ None
        → All (λ s. All (IsLineAlong s.elements.now) (lines_in s.elements.now)) scopes.now) }
{
    let mut least = None;
    for scope in scopes {
        least = lesser(least, unreachable_in_graph(alloc, scope)?);
    }
    Ok(least)
}
