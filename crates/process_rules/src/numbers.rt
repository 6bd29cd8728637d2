//! Rule 23: numbers that are out of range.
ghost use Rattle.std.specs.Prelude.{◌≡◌, ◌<◌, ◌==◌, ◌+◌, ◌-◌, ◌^◌, ℕ, IfOk, if◌then◌else◌, length, slice_index};
ghost use Rattle.process_rules.specs.Numbers.{IsOutside, IsJoinOutside, IsSaidOutside, AreSaidOutside, IsNumberWrong};
ghost use Rattle.process_rules.specs.Numbers.{connectors_to, is_to};
ghost use Rattle.text_graphs.specs.Graphs.{graph_at};
ghost use Rattle.text_graphs.specs.Places.{IsLeastOf, AnyAt};
ghost use Rattle.text_graphs.specs.Texts.{activities_in};

use crate::said::{Looked, in_conditions};
use flow_model::{ActivityTree, AttrTree, ControlTree, JoinTree, NumberAt};
use std::alloc::{AllocError, Global};
use text_graphs::{Scope, lesser};

const MOST_MINUTES: u64 = 2_147_483_647;

/// The place of a number outside 1 to the most.
fn outside(number: &NumberAt, most: u64) -> Option<u32>
    ensures { IsLeastOf (IsOutside most number.now) result }
{
    if number.size < 1 || number.size > most {
        Some(number.place)
    } else {
        None
    }
}

fn join_outside(join: &JoinTree, connectors: u64) -> Option<u32>
    ensures { IsLeastOf (IsJoinOutside connectors join.now) result }
{
    match join {
        JoinTree::All => None,
        JoinTree::AtLeastOne => None,
        JoinTree::AtLeast(number) => outside(number, connectors),
    }
}

fn attribute_outside(what: &AttrTree, connectors: u64) -> Option<u32>
    ensures { IsLeastOf (IsSaidOutside connectors what.now) result }
{
    match what {
        AttrTree::When(join) => join_outside(join, connectors),
        AttrTree::Exit(_) => None,
        AttrTree::Start(_) => None,
        AttrTree::Expires(number) => outside(number, MOST_MINUTES),
        AttrTree::Role(_) => None,
        AttrTree::Person(_) => None,
        AttrTree::Starter => None,
        AttrTree::Performer(_) => None,
    }
}

fn activity_outside(activity: &ActivityTree, connectors: u64) -> Option<u32>
    ensures { IsLeastOf (AnyAt (λ x. IsSaidOutside connectors x.what) activity.now.attrs) result }
{
    let mut least = None;
    for attribute in activity.attrs.as_slice() {
        least = lesser(least, attribute_outside(&attribute.what, connectors));
    }
    least
}

/// One more for a node.
fn count_one(counts: &mut Vec<u64>, node: u32)
    requires within { node < length counts.old.items }
    requires room { slice_index counts.old.items node < 2 ^ 64 - 1 }
    ensures len { length counts.new.items ≡ length counts.old.items }
    ensures counted { (n : ℕ) → slice_index counts.new.items n
        ≡ slice_index counts.old.items n + (if node == n then 1 else 0) }
{
    let place = node as usize;
    counts[place] += 1;
}

/// One more for the activity to which a connector leads, where that is known.
fn count_connector<'a>(scope: &Scope<'a>, counts: &mut Vec<u64>, control: &'a ControlTree)
    requires wide { length counts.old.items ≡ length (activities_in scope.now.elements.now) }
    requires room { (n : ℕ) → slice_index counts.old.items n < 2 ^ 64 - 1 }
    ensures len { length counts.new.items ≡ length counts.old.items }
    ensures counted { (n : ℕ) → slice_index counts.new.items n
        ≡ slice_index counts.old.items n + (if is_to scope.now.elements.now n control.now then 1 else 0) }
{
    match scope.number(&control.to) {
        None => {}
        Some(to) => count_one(counts, to),
    }
}

/// For each activity of a graph, the number of connectors that lead to it.
fn connectors(alloc: Global, scope: &Scope<'_>) -> Result<Vec<u64>, AllocError>
    ensures { IfOk result (λ counts. (n : ℕ) → slice_index counts.items n ≡ connectors_to scope.now.elements.now n) }
{
    let mut counts = vec![in alloc; 0u64; scope.activities.len()]?;
    for control in &scope.controls {
        count_connector(scope, &mut counts, control);
    }
    Ok(counts)
}

/// The count of a node.
fn count_at(counts: &[u64], node: usize) -> u64
    ensures { result ≡ slice_index counts.now node }
{
    counts.get(node).copied().unwrap_or(0)
}

fn attributes_outside(alloc: Global, scope: &Scope<'_>) -> Result<Option<u32>, AllocError>
    ensures { IfOk result (IsLeastOf (AreSaidOutside (graph_at scope.now))) }
{
    let counts = connectors(alloc, scope)?;
    let mut least = None;
    for (i, activity) in scope.activities.iter().enumerate() {
        least = lesser(least, activity_outside(activity, count_at(&counts, i)));
    }
    Ok(least)
}

fn wrong_in_graph(alloc: Global, scope: &Scope<'_>) -> Result<Option<u32>, AllocError>
    ensures { IfOk result (IsLeastOf (IsNumberWrong (graph_at scope.now))) }
{
    let attributes = attributes_outside(alloc, scope)?;
    Ok(lesser(attributes, in_conditions(Looked::Numbers, scope)))
}

/// Rule 23 in graphs: a number of a condition, of EXPIRES or of AT_LEAST is out of its range.
pub fn graph_numbers(alloc: Global, scopes: &[Scope<'_>]) -> Result<Option<u32>, AllocError>
    ensures { IfOk result (IsLeastOf (AnyAt (λ s. IsNumberWrong (graph_at s)) scopes.now)) }
{
    let mut least = None;
    for scope in scopes {
        least = lesser(least, wrong_in_graph(alloc, scope)?);
    }
    Ok(least)
}
