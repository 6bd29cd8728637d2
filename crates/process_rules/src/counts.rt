//! Rule 24: more than is allowed of processes, of a graph's activities or lines, or of a condition's parts.
ghost use Rattle.std.specs.Prelude.{◌≡◌, ◌≤◌, None, List, length, map, slice_get, option_copied};
ghost use Rattle.std.specs.List.{All};
ghost use Rattle.flow_model.specs.declared.trees.ProcessTree.{ProcessTree};
ghost use Rattle.process_rules.specs.Counts.{IsExtra, IsLineExtra, IsTooMuch, IsTooMuchOf};
ghost use Rattle.process_rules.specs.Knowing.{IsKnowing};
ghost use Rattle.text_graphs.specs.Graphs.{graph_at};
ghost use Rattle.text_graphs.specs.Places.{IsLeastOf, AnyAt};
ghost use Rattle.text_graphs.specs.Texts.{activities_in, controls_in, lines_in, IsLimited};

use crate::people::Known;
use crate::said::{Looked, in_conditions};
use flow_model::{ActivityTree, ControlTree, DataTree, ProcessTree};
use text_graphs::{Scope, lesser};

const MOST_PROCESSES: usize = 256;

const MOST_ACTIVITIES: usize = 1_024;

const MOST_CONTROLS: usize = 4_096;

const MOST_LINES: usize = 4_096;

/// The process of a number.
fn nth_process<'a>(processes: &[&'a ProcessTree], number: usize) -> Option<&'a ProcessTree>
    ensures { option_copied result ≡ slice_get (map (λ p. p.now) processes.now) number }
{
    processes.get(number).copied()
}

/// The activity of a number in a graph.
fn nth_activity<'a>(scope: &Scope<'a>, number: usize) -> Option<&'a ActivityTree>
    ensures { option_copied result ≡ slice_get (activities_in scope.now.elements.now) number }
{
    scope.activities.get(number).copied()
}

/// The connector of a number in a graph.
fn nth_control<'a>(scope: &Scope<'a>, number: usize) -> Option<&'a ControlTree>
    ensures { option_copied result ≡ slice_get (controls_in scope.now.elements.now) number }
{
    scope.controls.get(number).copied()
}

/// The data line of a number in a graph.
fn nth_line<'a>(scope: &Scope<'a>, number: usize) -> Option<&'a DataTree>
    ensures { option_copied result ≡ slice_get (lines_in scope.now.elements.now) number }
{
    scope.lines.get(number).copied()
}

fn extra_process(processes: &[&ProcessTree]) -> Option<u32>
    ensures { IsLeastOf (IsExtra (λ p. p.place) 256 (map (λ p. p.now) processes.now)) result }
{
    match nth_process(processes, MOST_PROCESSES) {
        None => None,
        Some(process) => Some(process.place),
    }
}

fn extra_activity(scope: &Scope<'_>) -> Option<u32>
    ensures extra { IsLeastOf (IsExtra (λ a. a.place) 1024 (activities_in scope.now.elements.now)) result }
    ensures small { result ≡ None → length (activities_in scope.now.elements.now) ≤ 1024 }
{
    match nth_activity(scope, MOST_ACTIVITIES) {
        None => None,
        Some(activity) => Some(activity.place),
    }
}

fn extra_control(scope: &Scope<'_>) -> Option<u32>
    ensures extra { IsLeastOf (IsExtra (λ c. c.place) 4096 (controls_in scope.now.elements.now)) result }
    ensures few { result ≡ None → length (controls_in scope.now.elements.now) ≤ 4096 }
{
    match nth_control(scope, MOST_CONTROLS) {
        None => None,
        Some(control) => Some(control.place),
    }
}

fn extra_line(scope: &Scope<'_>) -> Option<u32>
    ensures { IsLeastOf (IsExtra (λ l. l.place) 4096 (lines_in scope.now.elements.now)) result }
{
    match nth_line(scope, MOST_LINES) {
        None => None,
        Some(line) => Some(line.place),
    }
}

fn extra_in_graph(scope: &Scope<'_>) -> Option<u32>
    ensures extra { IsLeastOf (IsLineExtra (graph_at scope.now)) result }
    ensures limited { result ≡ None → IsLimited scope.now.elements.now }
{
    let lines = lesser(extra_control(scope), extra_line(scope));
    lesser(extra_activity(scope), lines)
}

fn too_much_in_graph(scope: &Scope<'_>) -> Option<u32>
    ensures found { IsLeastOf (IsTooMuch (graph_at scope.now)) result }
    ensures limited { result ≡ None → IsLimited scope.now.elements.now }
{
    lesser(extra_in_graph(scope), in_conditions(Looked::Sizes, scope))
}

fn too_much_in_graphs(scopes: &[Scope<'_>]) -> Option<u32>
    ensures found { IsLeastOf (AnyAt (λ s. IsTooMuch (graph_at s)) scopes.now) result }
    ensures limited { result ≡ None → All (λ s. IsLimited s.elements.now) scopes.now }
{
    let mut least = None;
    for scope in scopes {
        least = lesser(least, too_much_in_graph(scope));
    }
    least
}

/// Rule 24: more than is allowed of processes, of a graph's activities or lines, or of a condition's parts.
pub fn count_limit(known: &Known<'_>, scopes: &[Scope<'_>]) -> Option<u32>
    ensures found { (processes : List ProcessTree) → IsKnowing known.now processes
        → IsLeastOf (IsTooMuchOf processes (AnyAt (λ s. IsTooMuch (graph_at s)) scopes.now)) result }
    ensures limited { result ≡ None → All (λ s. IsLimited s.elements.now) scopes.now }
{
    lesser(extra_process(known.processes()), too_much_in_graphs(scopes))
}
