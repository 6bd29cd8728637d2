//! What rules 23 and 24 find in the conditions of a graph.
ghost use Rattle.std.specs.Prelude.{◌≡◌, option_copied};
ghost use Rattle.process_rules.specs.Counts.{IsLarge};
ghost use Rattle.process_rules.specs.Numbers.{IsUnsized};
ghost use Rattle.process_rules.specs.Said.{OfSaid, when_said, InExits, InConnectors, InConditions};
ghost use Rattle.process_rules.specs.Search.{looked_for};
ghost use Rattle.text_graphs.specs.Attributes.{exit_said};
ghost use Rattle.text_graphs.specs.Graphs.{graph_at};
ghost use Rattle.text_graphs.specs.Places.{IsLeastOf, AnyAt};

use conditions::{first_number_fault, size_of};
use flow_model::{ActivityTree, AttrTree, CondAt, WhenTree};
use text_graphs::{Scope, lesser};

const MOST_OPERANDS: u64 = 64;

const MOST_NODES: u64 = 256;

/// What a rule looks for in conditions.
#[derive(Clone, Copy, Debug, PartialEq, Eq)]
pub enum Looked {
    /// A number without 64 bits.
    Numbers,
    /// Too many operands or nodes.
    Sizes,
}

/// The place of the first number of a condition that has no 64 bits.
fn unsized_place(cond: &CondAt) -> Option<u32>
    ensures { IsLeastOf (IsUnsized cond.now) result }
{
    first_number_fault(&cond.cond)
}

/// The place of a condition with too many operands or nodes.
fn large_place(cond: &CondAt) -> Option<u32>
    ensures { IsLeastOf (IsLarge cond.now) result }
{
    let size = size_of(&cond.cond);
    if size.operands > MOST_OPERANDS || size.nodes > MOST_NODES {
        Some(cond.place)
    } else {
        None
    }
}

fn in_condition(looked: Looked, cond: &CondAt) -> Option<u32>
    ensures { IsLeastOf (looked_for looked cond.now) result }
{
    match looked {
        Looked::Numbers => unsized_place(cond),
        Looked::Sizes => large_place(cond),
    }
}

/// The condition of EXIT.
fn exit_condition(what: &AttrTree) -> Option<&CondAt>
    ensures { option_copied result ≡ exit_said what.now }
{
    match what {
        AttrTree::When(_) => None,
        AttrTree::Exit(cond) => Some(cond),
        AttrTree::Start(_) => None,
        AttrTree::Expires(_) => None,
        AttrTree::Role(_) => None,
        AttrTree::Person(_) => None,
        AttrTree::Starter => None,
        AttrTree::Performer(_) => None,
    }
}

fn in_attribute(looked: Looked, what: &AttrTree) -> Option<u32>
    ensures { IsLeastOf (OfSaid (looked_for looked) (exit_said what.now)) result }
{
    match exit_condition(what) {
        None => None,
        Some(cond) => in_condition(looked, cond),
    }
}

fn in_activity(looked: Looked, activity: &ActivityTree) -> Option<u32>
    ensures { IsLeastOf (AnyAt (λ x. OfSaid (looked_for looked) (exit_said x.what)) activity.now.attrs) result }
{
    let mut least = None;
    for attribute in activity.attrs.as_slice() {
        least = lesser(least, in_attribute(looked, &attribute.what));
    }
    least
}

fn in_exits(looked: Looked, scope: &Scope<'_>) -> Option<u32>
    ensures { IsLeastOf (InExits (looked_for looked) (graph_at scope.now)) result }
{
    let mut least = None;
    for activity in &scope.activities {
        least = lesser(least, in_activity(looked, activity));
    }
    least
}

fn in_connector(looked: Looked, when: &WhenTree) -> Option<u32>
    ensures { IsLeastOf (OfSaid (looked_for looked) (when_said when.now)) result }
{
    match when {
        WhenTree::Always => None,
        WhenTree::Cond(cond) => in_condition(looked, cond),
        WhenTree::Otherwise => None,
    }
}

fn in_connectors(looked: Looked, scope: &Scope<'_>) -> Option<u32>
    ensures { IsLeastOf (InConnectors (looked_for looked) (graph_at scope.now)) result }
{
    let mut least = None;
    for control in &scope.controls {
        least = lesser(least, in_connector(looked, &control.when));
    }
    least
}

/// The least place that is found in a condition of a graph.
pub fn in_conditions(looked: Looked, scope: &Scope<'_>) -> Option<u32>
    ensures { IsLeastOf (InConditions (looked_for looked) (graph_at scope.now)) result }
{
    lesser(in_exits(looked, scope), in_connectors(looked, scope))
}
