//! Rules 17 and 18: the processes that activities name, and the leaves of their containers.
ghost use Rattle.std.specs.Prelude.{◌≡◌, ◌++◌, List, map, option_copied, IfOk, OnOk, IsTrue};
ghost use Rattle.std.specs.Bool.{Decides};
ghost use Rattle.std.specs.List.Sorted.{IsNonDecreasingBy};
ghost use Rattle.std.specs.Option.{option_map};
ghost use Rattle.flow_model.specs.declared.trees.ProcessTree.{ProcessTree};
ghost use Rattle.leaf_rules.specs.TableClasses.{table_classes};
ghost use Rattle.leaf_rules.specs.Leaves.{table_leaves};
ghost use Rattle.process_rules.specs.Callees.{process_named, IsNoProcess, NamesNone, NamesNoProcess, called};
ghost use Rattle.process_rules.specs.Callees.{callee_input, callee_output, AreAlike, IsFitting, HasMisfit};
ghost use Rattle.process_rules.specs.Callees.{call_at, call_of, calls_in, calls_among, AreCallsInOrder, IsMisfitOf};
ghost use Rattle.process_rules.specs.Calling.{callee_meant};
ghost use Rattle.process_rules.specs.Containers.{IsOfClass};
ghost use Rattle.process_rules.specs.Knowing.{IsKnowing};
ghost use Rattle.text_graphs.specs.Graphs.{graph_at, graphs_in};
ghost use Rattle.text_graphs.specs.Places.{IsLeastOf, AnyAt};

use crate::alike::are_alike;
use crate::people::{Callee, Known};
use flow_model::{ActivityTree, NameAt, WorkTree};
use leaf_rules::LeafTable;
use std::alloc::{AllocError, Global};
use text_graphs::{Scope, lesser};

/// The name of the process that an activity runs; None of other activities.
fn process_name(work: &WorkTree) -> Option<&NameAt>
    ensures { option_copied result ≡ process_named work.now }
{
    match work {
        WorkTree::Program => None,
        WorkTree::Process(name) => Some(name),
        WorkTree::Block(_) => None,
    }
}

/// The place of the name of a process that isn't there.
fn unknown_callee<'a>(known: &Known<'a>, process: u32, work: &'a WorkTree) -> Option<u32>
    ensures { IsLeastOf (IsNoProcess (callee_meant known.now) process (process_named work.now)) result }
{
    match process_name(work) {
        None => None,
        Some(name) => match known.callee(process, name) {
            Some(_) => None,
            None => Some(name.place),
        },
    }
}

fn unknown_in_graph<'a>(known: &Known<'a>, scope: &Scope<'a>) -> Option<u32>
    ensures { IsLeastOf (NamesNone (callee_meant known.now) (graph_at scope.now)) result }
{
    let mut least = None;
    for activity in &scope.activities {
        least = lesser(least, unknown_callee(known, scope.process, &activity.work));
    }
    least
}

fn unknown_in_graphs<'a>(known: &Known<'a>, scopes: &[Scope<'a>]) -> Option<u32>
    ensures { IsLeastOf (AnyAt (λ s. NamesNone (callee_meant known.now) (graph_at s)) scopes.now) result }
{
    let mut least = None;
    for scope in scopes {
        least = lesser(least, unknown_in_graph(known, scope));
    }
    least
}

/// Rule 17: a PROCESS_ACTIVITY names a process that isn't there yet.
///
/// The clause `known` holds of the names as `Known` resolves them, whatever processes it was made of; `named` holds
/// where those are the processes of the text.
pub fn unknown_processes<'a>(known: &Known<'a>, scopes: &[Scope<'a>]) -> Option<u32>
    ensures known { IsLeastOf (AnyAt (λ s. NamesNone (callee_meant known.now) (graph_at s)) scopes.now) result }
    ensures named { (processes : List ProcessTree) → IsKnowing known.now processes
        → IsLeastOf (AnyAt (λ s. NamesNoProcess known.now.catalog.now.library processes (graph_at s)) scopes.now)
        result }
{
    unknown_in_graphs(known, scopes)
}

/// What an activity in the process of this number runs.
fn called<'a>(known: &Known<'a>, process: u32, work: &'a WorkTree) -> Option<Callee>
    ensures { result ≡ called (callee_meant known.now) process work.now }
{
    match process_name(work) {
        None => None,
        Some(name) => known.callee(process, name),
    }
}

/// Whether two structures of the text have the same leaves.
fn is_like<'a>(table: &LeafTable<'a>, ours: &'a NameAt, theirs: &'a NameAt) -> bool
    ensures { Decides result (AreAlike (table_leaves table.now ours.now.name)
        (table_leaves table.now theirs.now.name)) }
{
    if table.are_alike(ours, theirs) {
        return true;
    }
    are_alike(table.plain(ours), table.plain(theirs))
}

/// Whether a structure of the text is of a class, where one is given.
fn is_of_class<'a>(table: &LeafTable<'a>, ours: &'a NameAt, class: Option<u32>) -> bool
    ensures { IsTrue result → IsOfClass (table_classes table.now) class (table_leaves table.now ours.now.name) }
{
    match class {
        None => false,
        Some(number) => table.class(ours) == Some(number),
    }
}

/// Whether the input of an activity is like that of a process. No leaves are compared where both are of one class,
/// since that may take long.
fn input_fits<'a>(
    known: &Known<'a>,
    table: &LeafTable<'a>,
    input: &'a NameAt,
    callee: Callee,
) -> bool
    requires { table.now.known.now ≡ known.now.catalog.now.classes }
    ensures { Decides result (AreAlike (table_leaves table.now input.now.name)
        (callee_input (table_leaves table.now) known.now.catalog.now.library
        (map (λ p. p.now) known.now.processes.items) callee)) }
{
    match callee {
        Callee::Text(number) => match known.process(number) {
            None => false,
            Some(process) => is_like(table, input, &process.input),
        },
        Callee::Library(place) => match known.catalog().template(place) {
            None => false,
            Some(template) => {
                let class = known.catalog().container_classes(place).input;
                is_of_class(table, input, class)
                    || are_alike(table.plain(input), Some(&template.graph.input))
            }
        },
    }
}

/// Whether its output is.
fn output_fits<'a>(
    known: &Known<'a>,
    table: &LeafTable<'a>,
    output: &'a NameAt,
    callee: Callee,
) -> bool
    requires { table.now.known.now ≡ known.now.catalog.now.classes }
    ensures { Decides result (AreAlike (table_leaves table.now output.now.name)
        (callee_output (table_leaves table.now) known.now.catalog.now.library
        (map (λ p. p.now) known.now.processes.items) callee)) }
{
    match callee {
        Callee::Text(number) => match known.process(number) {
            None => false,
            Some(process) => is_like(table, output, &process.output),
        },
        Callee::Library(place) => match known.catalog().template(place) {
            None => false,
            Some(template) => {
                let class = known.catalog().container_classes(place).output;
                is_of_class(table, output, class)
                    || are_alike(table.plain(output), Some(&template.graph.output))
            }
        },
    }
}

/// Whether the containers of an activity are like those of a process.
fn fits<'a>(
    known: &Known<'a>,
    table: &LeafTable<'a>,
    activity: &'a ActivityTree,
    callee: Callee,
) -> bool
    requires { table.now.known.now ≡ known.now.catalog.now.classes }
    ensures { Decides result (IsFitting (table_leaves table.now) known.now.catalog.now.library
        (map (λ p. p.now) known.now.processes.items) activity.now callee) }
{
    input_fits(known, table, &activity.input, callee)
        && output_fits(known, table, &activity.output, callee)
}

/// An activity that runs a process, and which one.
#[derive(Clone, Copy)]
struct Call<'a> {
    activity: &'a ActivityTree,
    callee: Callee,
}

/// The call that an activity in the process of this number is, if it runs a process.
fn process_call<'a>(known: &Known<'a>, process: u32, activity: &'a ActivityTree) -> Option<Call<'a>>
    ensures { option_map call_at result ≡ call_of (callee_meant known.now) process activity.now }
{
    match called(known, process, &activity.work) {
        None => None,
        Some(callee) => Some(Call { activity, callee }),
    }
}

/// Puts the calls of a graph behind the others.
fn add_calls<'a>(
    known: &Known<'a>,
    scope: &Scope<'a>,
    calls: &mut Vec<Call<'a>>,
) -> Result<(), AllocError>
    ensures { OnOk result (map call_at calls.new.items
        ≡ map call_at calls.old.items ++ calls_in (callee_meant known.now) (graph_at scope.now)) }
{
    for activity in &scope.activities {
        match process_call(known, scope.process, activity) {
            Some(call) => calls.push(call)?,
            None => {}
        }
    }
    Ok(())
}

/// The calls of these graphs, one graph after another.
fn calls_of<'a>(
    alloc: Global,
    known: &Known<'a>,
    scopes: &[Scope<'a>],
) -> Result<Vec<Call<'a>>, AllocError>
    ensures { IfOk result (λ calls. map call_at calls.items
        ≡ calls_among (callee_meant known.now) (graphs_in scopes.now)) }
{
    let mut calls = Vec::new(alloc);
    for scope in scopes {
        add_calls(known, scope, &mut calls)?;
    }
    Ok(calls)
}

/// The same in the order of their places, so that the calls in a block stand between those around it.
fn calls_in_order<'a>(
    alloc: Global,
    known: &Known<'a>,
    scopes: &[Scope<'a>],
) -> Result<Vec<Call<'a>>, AllocError>
    ensures { IfOk result (λ calls. AreCallsInOrder (callee_meant known.now) (graphs_in scopes.now) calls.items) }
{
    let mut calls = calls_of(alloc, known, scopes)?;
    calls.sort_by_key(|call| call.activity.place)?;
    Ok(calls)
}

/// The place of the first of these calls whose containers aren't like those of the process. No call behind it is
/// compared, since a comparison leaf by leaf may take long.
fn first_misfit<'a>(known: &Known<'a>, table: &LeafTable<'a>, calls: &[Call<'a>]) -> Option<u32>
    requires classes { table.now.known.now ≡ known.now.catalog.now.classes }
    requires rising { IsNonDecreasingBy (λ c. c.activity.now.place) calls.now }
    ensures { IsLeastOf (AnyAt (λ c. IsMisfitOf (table_leaves table.now) known.now.catalog.now.library
        (map (λ p. p.now) known.now.processes.items) (call_at c)) calls.now) result }
{
    for call in calls {
        if !fits(known, table, call.activity, call.callee) {
            return Some(call.activity.place);
        }
    }
    None
}

/// Rule 18: the leaves of a process activity's containers and of the process's differ.
pub fn mismatched_containers<'a>(
    alloc: Global,
    known: &Known<'a>,
    table: &LeafTable<'a>,
    scopes: &[Scope<'a>],
) -> Result<Option<u32>, AllocError>
    requires { table.now.known.now ≡ known.now.catalog.now.classes }
    ensures { (processes : List ProcessTree) → IsKnowing known.now processes
        → IfOk result (IsLeastOf (AnyAt (λ s. HasMisfit (table_leaves table.now) known.now.catalog.now.library processes
        (graph_at s)) scopes.now)) }
{
    let calls = calls_in_order(alloc, known, scopes)?;
    Ok(first_misfit(known, table, &calls))
}
