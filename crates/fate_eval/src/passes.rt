//! The recursion over scopes.
ghost use Rattle.std.specs.Prelude.{◌≡◌, ◌<◌, ◌≤◌, ◌+◌, ◌^◌, ◌∷◌, [], ℕ, Option, List, Some, None, true};
ghost use Rattle.std.specs.Prelude.{slice_get, slice_set, length, false, unwrap_or, IfOk, IfErr, IfSome};
ghost use Rattle.std.specs.Prelude.{replicate};
ghost use Rattle.std.specs.List.{flat_map, All, Contains};
ghost use Rattle.std.specs.Option.{option_map};
ghost use Rattle.flow_model.specs.Fates.{goes_on as next_try};
ghost use Rattle.flow_model.specs.Rows.{below as path_below, rows as rows_in, deepest, AreReady};
ghost use Rattle.flow_model.specs.ScopeContainers.{output_by};
ghost use Rattle.flow_model.specs.declared.graphs.Graph.{out-Graph};
ghost use Rattle.flow_model.specs.Containers.{with_return_code as with_code};
ghost use Rattle.flow_model.specs.Scopes.{part, at, output as output_of_scope};
ghost use Rattle.flow_model.specs.declared.graphs.Template.{Template};
ghost use Rattle.flow_model.specs.declared.instances.SourceEnd.TheVariants.{Unsettled};
ghost use Rattle.blocks_subprocs.specs.Ends.{ends_of};
ghost use Rattle.flow_model.specs.Wiring.{IsLooping, IsSinking};
ghost use Rattle.fate_eval.specs.Entries.{dated_in, output_in, known_in};
ghost use Rattle.fate_eval.specs.Grouped.{AreByAttempt};
ghost use Rattle.fate_eval.specs.Refusals.{IsWithin, IsBehindReady, IsUnready, IsFirstUnready, AreOf, AreReadyIn};
ghost use Rattle.fate_eval.specs.Refusals.{AreMarked};
ghost use Rattle.fate_eval.specs.Whole.{IsNested, WellBelow, IsWholeProgram, IsWholeAttempt, IsWholeScope, IsWholePass};
ghost use Rattle.fate_eval.specs.Whole.{IsWholeLast, AreWhole, IsWholeOpen, IsWholeFound};
ghost use Rattle.fate_eval.specs.Timely.{IsTimelyProgram, IsTimelyAttempt, IsTimelyScope, IsTimelyPass, IsTimelyLast};
ghost use Rattle.fate_eval.specs.Timely.{AreTimely, IsTimelyOpen, IsTimelyFound};
ghost use Rattle.fate_laws.specs.Layout.{IsLaid, OfInside, Laid, LaidBelow};
ghost use Rattle.fate_laws.specs.WellFormed.{Well};
ghost use Rattle.fate_eval.specs.Passing.{IsAttempt, IsScopeAttempt, IsLast, AreAttempts, IsOpen, IsFound, IsPassed};
ghost use Rattle.fate_eval.specs.Passing.{AreFates, turn_of};

use crate::accepted::{Entry, Groups, completion, entries_at, entries_of, groups_of};
use crate::results::{FateFault, Fates};
use crate::scopes::{complete_after, fed_after, is_complete, is_fed, joined_after, values};
use blocks_subprocs::{Next, first_input, graph_of, next_attempt, next_input, output_of};
use containers::with_return_code;
use dead_paths::join;
use flow_model::{
    Activity, Container, Fact, Fate, FateRow, Graph, Library, List, Path, SourceEnd, Work,
};
use std::alloc::{AllocError, Global};

/// No process nests deeper.
const DEEPEST: u32 = 16;

/// What an attempt gave, after how many completions, the rows below it, and the completions that were ready in their turn.
#[derive(Drop)]
struct Attempt {
    output: Option<Container>,
    after: u64,
    rows: Vec<FateRow>,
    ready: Vec<u64>,
}

/// The rows below some attempts, and the completions below them that were ready in their turn.
#[derive(Drop)]
struct Shown {
    rows: Vec<FateRow>,
    ready: Vec<u64>,
}

/// The result of the attempts of an activity, after how many completions, and what an [`Attempt`] has of each.
#[derive(Drop)]
struct Attempts {
    fate: Fate,
    end: SourceEnd,
    after: u64,
    rows: Vec<FateRow>,
    ready: Vec<u64>,
}

/// What a pass finds of one activity: how it has ended, after how many completions, its row and those below it,
/// and the completions that were ready in their turn.
#[derive(Drop)]
struct Found {
    end: SourceEnd,
    after: u64,
    rows: Vec<FateRow>,
    ready: Vec<u64>,
}

/// What a pass finds of one scope: its rows, its output once it is complete, after how many completions, and the
/// completions that were ready in their turn.
#[derive(Drop)]
struct Passed {
    rows: Vec<FateRow>,
    output: Option<Container>,
    after: u64,
    ready: Vec<u64>,
}

/// A scope: its graph, where it stands, what it reads, after how many completions it began, and its completions,
/// also by the attempts that they lead to.
struct Scope<'a> {
    graph: &'a Graph,
    path: Path,
    input: Container,
    since: u64,
    entries: &'a [Entry<'a>],
    groups: Groups<'a>,
    ghost grouped: { AreByAttempt groups entries.now },
}

impl Drop for Scope<'_> {
    fn drop(self) {
        let Scope {
            graph: _,
            path: _,
            input: _,
            since: _,
            entries: _,
            groups: _,
        } = self;
    }
}

/// What is the same in all scopes of a root.
#[derive(Drop)]
struct Root<'a> {
    alloc: Global,
    library: &'a Library,
    /// No activity has more attempts.
    most: u64,
    ghost bounded: { most < 2 ^ 63 },
}

/// What follows of an attempt: the activity stops at a fate and an end, or goes on with an input.
#[derive(Drop)]
enum Turn {
    Stops(Fate, SourceEnd),
    GoesOn(Container),
}

/// The number of a completion, counted from 0, if its item could be completed after this many.
fn ready_since(alloc: Global, after: u64, since: u64) -> Result<Vec<u64>, AllocError>
    ensures sound { IfOk result (λ v. All (λ i. (since ≤ i) × (i + 1 ≡ after)) v.items) }
    ensures whole { IfOk result (λ v. (i : ℕ) → since ≤ i → i + 1 ≡ after → Contains v.items i) }
{
    let mut ready = Vec::new(alloc);
    if since < after {
        ready.push(after - 1)?;
    }
    Ok(ready)
}

/// Puts an element in the place of another one, if there is one.
fn put<T: Drop>(items: &mut Vec<T>, place: u32, item: T)
    ensures { items.new.items ≡ slice_set items.old.items place item }
{
    if (place as usize) < items.len() {
        items[place as usize] = item;
    }
}

/// The path of an attempt of an activity of a scope.
fn path_of(
    alloc: Global,
    scope: &Path,
    activity: &Activity,
    attempt: u64,
) -> Result<Path, AllocError>
    ensures { IfOk result (λ p. p ≡ path_below scope.now (part activity.now.name attempt)) }
{
    scope.below(alloc, &activity.name, attempt)
}

/// The fate of an activity whose next attempt is this one.
fn goes_on(work: &Work, attempt: u64) -> Fate
    ensures { result ≡ next_try work.now attempt }
{
    match work {
        Work::Program(_) => Fate::Ready(attempt),
        Work::Block(_) => Fate::Running(attempt),
        Work::Process(_) => Fate::Running(attempt),
    }
}

/// An attempt that gave nothing.
fn nothing(alloc: Global, since: u64) -> Attempt
    ensures { (result.output ≡ None) × (result.rows.items ≡ []) × (result.after ≡ since) × (result.ready.items ≡ []) }
{
    Attempt {
        output: None,
        after: since,
        rows: Vec::new(alloc),
        ready: Vec::new(alloc),
    }
}

/// Attempt `attempt` of a program activity, which may be completed after `since` completions.
fn program_attempt<'a>(
    alloc: Global,
    scope: &Scope<'a>,
    activity: &'a Activity,
    attempt: u64,
    since: u64,
) -> Result<Attempt, AllocError>
    ensures exact { IfOk result (λ r. (r.output ≡ output_in scope.now.entries.now
        (part activity.now.name attempt ∷ [])) × (r.rows.items ≡ [])) }
    ensures timely { IfOk result (λ r. IsTimelyProgram
        (dated_in scope.now.entries.now (part activity.now.name attempt ∷ [])) since r.output r.after r.ready.items) }
    ensures whole { IfOk result (λ r. IsWholeProgram
        (dated_in scope.now.entries.now (part activity.now.name attempt ∷ [])) since r.output r.after r.ready.items) }
{
    let name = activity.name.as_slice();
    match completion(entries_at(&scope.groups, name, attempt)) {
        None => Ok(nothing(alloc, since)),
        Some(entry) => Ok(Attempt {
            output: Some(entry.output.copy(alloc)?),
            after: since.max(entry.after),
            rows: Vec::new(alloc),
            ready: ready_since(alloc, entry.after, since)?,
        }),
    }
}

/// What a scope gave, with the return code before it.
fn with_code_of(alloc: Global, output: Option<Container>) -> Result<Option<Container>, AllocError>
    ensures { IfOk result (λ o. o ≡ option_map with_code output) }
{
    match output {
        None => Ok(None),
        Some(output) => Ok(Some(with_return_code(alloc, &output)?)),
    }
}

/// An attempt of an activity that runs a graph: a scope that begins after `since` completions.
#[cycle(scopes)]
fn scope_attempt<'a>(
    root: &Root<'a>,
    depth: u32,
    scope: &Scope<'a>,
    activity: &'a Activity,
    graph: &'a Graph,
    attempt: u64,
    input: &Container,
    since: u64,
) -> Result<Attempt, AllocError>
    ensures exact { Laid root.now.library.now.templates depth graph.now
        → IfOk result (λ r. (r.output ≡ option_map with_code
        (output_of_scope root.now.library.now.templates (depth + 1)
        (at (part activity.now.name attempt) (known_in root.now.most scope.now.entries.now)) graph.now input.now))
        × (r.rows.items ≡ rows_in root.now.library.now.templates depth
        (at (part activity.now.name attempt) (known_in root.now.most scope.now.entries.now)) graph.now input.now
        (path_below scope.now.path (part activity.now.name attempt)))) }
    ensures timely { Laid root.now.library.now.templates depth graph.now
        → IfOk result (λ r. IsTimelyScope root.now.library.now.templates depth root.now.most scope.now.entries.now
        scope.now.path (part activity.now.name attempt) graph.now input.now since r.output r.after r.ready.items) }
    ensures whole { Laid root.now.library.now.templates depth graph.now
        → Well root.now.library.now.templates depth graph.now
        → IfOk result (λ r. IsWholeScope root.now.library.now.templates depth root.now.most scope.now.entries.now
        scope.now.path (part activity.now.name attempt) graph.now input.now since r.output r.after r.ready.items) }
{
    let found = entries_at(&scope.groups, activity.name.as_slice(), attempt);
    let below = Scope {
        graph,
        path: path_of(root.alloc, &scope.path, activity, attempt)?,
        input: input.copy(root.alloc)?,
        since,
        entries: found,
        groups: groups_of(root.alloc, found)?,
    };
    let Passed {
        rows,
        output,
        after,
        ready,
    } = pass(root, depth, &below)?;
    Ok(Attempt {
        output: with_code_of(root.alloc, output)?,
        after,
        rows,
        ready,
    })
}

/// Attempt `attempt` of a block or process activity.
#[cycle(scopes)]
fn nested_attempt<'a>(
    root: &Root<'a>,
    depth: u32,
    scope: &Scope<'a>,
    activity: &'a Activity,
    attempt: u64,
    input: &Container,
    since: u64,
) -> Result<Attempt, AllocError>
    ensures exact { OfInside root.now.library.now.templates (LaidBelow root.now.library.now.templates depth)
        (Some activity.now) → IfOk result (λ r. IsScopeAttempt root.now.library.now.templates depth
        (known_in root.now.most scope.now.entries.now) scope.now.path activity.now attempt input.now r.output
        r.rows.items) }
    ensures timely { OfInside root.now.library.now.templates (LaidBelow root.now.library.now.templates depth)
        (Some activity.now) → IfOk result (λ r. IsTimelyAttempt root.now.library.now.templates depth root.now.most
        scope.now.entries.now scope.now.path activity.now attempt input.now since r.output r.after r.ready.items) }
    ensures whole { IsNested activity.now.work → OfInside root.now.library.now.templates
        (LaidBelow root.now.library.now.templates depth) (Some activity.now)
        → OfInside root.now.library.now.templates (WellBelow root.now.library.now.templates depth) (Some activity.now)
        → IfOk result (λ r. IsWholeAttempt root.now.library.now.templates depth root.now.most scope.now.entries.now
        scope.now.path activity.now attempt input.now since r.output r.after r.ready.items) }
{
    match graph_of(root.library, &activity.work) {
        None => Ok(nothing(root.alloc, since)),
        Some(graph) => {
            if depth == 0 {
                return Ok(nothing(root.alloc, since));
            }
            scope_attempt(
                root,
                depth - 1,
                scope,
                activity,
                graph,
                attempt,
                input,
                since,
            )
        }
    }
}

/// Attempt `attempt` of an activity, which may begin after `since` completions.
#[cycle(scopes)]
fn attempt_of<'a>(
    root: &Root<'a>,
    depth: u32,
    scope: &Scope<'a>,
    activity: &'a Activity,
    attempt: u64,
    input: &Container,
    since: u64,
) -> Result<Attempt, AllocError>
    ensures exact { OfInside root.now.library.now.templates (LaidBelow root.now.library.now.templates depth)
        (Some activity.now) → IfOk result (λ r. IsAttempt root.now.library.now.templates depth
        (known_in root.now.most scope.now.entries.now) scope.now.path activity.now attempt input.now r.output
        r.rows.items) }
    ensures timely { OfInside root.now.library.now.templates (LaidBelow root.now.library.now.templates depth)
        (Some activity.now) → IfOk result (λ r. IsTimelyAttempt root.now.library.now.templates depth root.now.most
        scope.now.entries.now scope.now.path activity.now attempt input.now since r.output r.after r.ready.items) }
    ensures whole { OfInside root.now.library.now.templates (LaidBelow root.now.library.now.templates depth)
        (Some activity.now) → OfInside root.now.library.now.templates (WellBelow root.now.library.now.templates depth)
        (Some activity.now) → IfOk result (λ r. IsWholeAttempt root.now.library.now.templates depth root.now.most
        scope.now.entries.now scope.now.path activity.now attempt input.now since r.output r.after r.ready.items) }
{
    match &activity.work {
        Work::Program(_) => { program_attempt(root.alloc, scope, activity, attempt, since) }
        Work::Block(_) => nested_attempt(root, depth, scope, activity, attempt, input, since),
        Work::Process(_) => nested_attempt(root, depth, scope, activity, attempt, input, since),
    }
}

/// What follows of an attempt that gave this.
fn next_turn(
    alloc: Global,
    graph: &Graph,
    place: u32,
    activity: &Activity,
    base: &Container,
    attempt: u64,
    output: Option<Container>,
) -> Result<Turn, AllocError>
    ensures { IsLooping graph.now → IfOk result (λ t. t
        ≡ turn_of graph.now place activity.now base.now attempt output) }
{
    let Some(output) = output else {
        return Ok(Turn::Stops(goes_on(&activity.work, attempt), SourceEnd::Unsettled));
    };
    match next_attempt(&activity.exit, &output, attempt) {
        Next::Finish => Ok(Turn::Stops(Fate::Finished(attempt), SourceEnd::Finished(output))),
        Next::Again(_) => {
            let base = base.copy(alloc)?;
            let next = next_input(alloc, graph, place, base, &output)?;
            Ok(Turn::GoesOn(next))
        }
    }
}

/// The attempt behind the last one that counts, with the rows before it: it stops the activity.
#[cycle(scopes)]
fn last_attempt<'a>(
    root: &Root<'a>,
    depth: u32,
    scope: &Scope<'a>,
    activity: &'a Activity,
    input: &Container,
    since: u64,
    before: Shown,
) -> Result<Attempts, AllocError>
    ensures exact { OfInside root.now.library.now.templates (LaidBelow root.now.library.now.templates depth)
        (Some activity.now) → IfOk result (λ r. IsLast root.now.library.now.templates depth
        (known_in root.now.most scope.now.entries.now) scope.now.path activity.now
        (root.now.most + 1) input.now before.rows.items r.fate r.end r.rows.items) }
    ensures timely { OfInside root.now.library.now.templates (LaidBelow root.now.library.now.templates depth)
        (Some activity.now) → IfOk result (λ r. IsTimelyLast root.now.library.now.templates depth root.now.most
        scope.now.entries.now scope.now.path activity.now
        (root.now.most + 1) input.now since before.ready.items r.end r.ready.items) }
    ensures whole { OfInside root.now.library.now.templates (LaidBelow root.now.library.now.templates depth)
        (Some activity.now) → OfInside root.now.library.now.templates (WellBelow root.now.library.now.templates depth)
        (Some activity.now) → IfOk result (λ r. IsWholeLast root.now.library.now.templates depth root.now.most
        scope.now.entries.now scope.now.path activity.now
        (root.now.most + 1) input.now since before.ready.items r.ready.items) }
{
    let number = root.most + 1;
    let last = attempt_of(root, depth, scope, activity, number, input, since)?;
    let Attempt {
        output: _,
        after: _,
        rows: mut below,
        ready: mut found,
    } = last;
    let Shown {
        mut rows,
        mut ready,
    } = before;
    rows.append(&mut below)?;
    ready.append(&mut found)?;
    Ok(Attempts {
        fate: goes_on(&activity.work, number),
        end: SourceEnd::Unsettled,
        after: 0,
        rows,
        ready,
    })
}

/// The attempts of an activity whose first one may begin after `since` completions.
#[cycle(scopes)]
fn attempts_from<'a>(
    root: &Root<'a>,
    depth: u32,
    scope: &Scope<'a>,
    place: u32,
    activity: &'a Activity,
    base: &Container,
    since: u64,
) -> Result<Attempts, AllocError>
    ensures exact { IsLooping scope.now.graph.now → OfInside root.now.library.now.templates
        (LaidBelow root.now.library.now.templates depth) (Some activity.now)
        → IfOk result (λ r. AreAttempts root.now.library.now.templates depth
        (known_in root.now.most scope.now.entries.now) scope.now.graph.now scope.now.path place activity.now base.now
        r.fate r.end r.rows.items) }
    ensures timely { IsLooping scope.now.graph.now
        → OfInside root.now.library.now.templates (LaidBelow root.now.library.now.templates depth) (Some activity.now)
        → IfOk result (λ r. AreTimely root.now.library.now.templates depth root.now.most scope.now.entries.now
        scope.now.graph.now scope.now.path place activity.now base.now since r.end r.after r.ready.items) }
    ensures whole { IsLooping scope.now.graph.now → OfInside root.now.library.now.templates
        (LaidBelow root.now.library.now.templates depth) (Some activity.now)
        → OfInside root.now.library.now.templates (WellBelow root.now.library.now.templates depth) (Some activity.now)
        → IfOk result (λ r. AreWhole root.now.library.now.templates depth root.now.most scope.now.entries.now
        scope.now.graph.now scope.now.path place activity.now base.now since r.end r.after r.ready.items) }
{
    let alloc = root.alloc;
    let mut input = base.copy(alloc)?;
    let mut after = since;
    let mut rows = Vec::new(alloc);
    let mut ready = Vec::new(alloc);
    for number in 1..root.most + 1 {
        let tried = attempt_of(root, depth, scope, activity, number, &input, after)?;
        let Attempt {
            output,
            after: known,
            rows: mut below,
            ready: mut found,
        } = tried;
        rows.append(&mut below)?;
        ready.append(&mut found)?;
        after = known;
        match next_turn(alloc, scope.graph, place, activity, base, number, output)? {
            Turn::Stops(fate, end) => {
                return Ok(Attempts {
                    fate,
                    end,
                    after,
                    rows,
                    ready,
                });
            }
            Turn::GoesOn(next) => input = next,
        }
    }
    let before = Shown { rows, ready };
    last_attempt(root, depth, scope, activity, &input, after, before)
}

/// An activity with this fate and end, and no attempts.
fn untried(alloc: Global, fate: Fate, end: SourceEnd, after: u64) -> Attempts
    ensures { (result.fate ≡ fate) × (result.end ≡ end) × (result.rows.items ≡ []) × (result.after ≡ after)
        × (result.ready.items ≡ []) }
{
    Attempts {
        fate,
        end,
        after,
        rows: Vec::new(alloc),
        ready: Vec::new(alloc),
    }
}

/// What comes of an activity whose join is true after `since` completions.
#[cycle(scopes)]
fn open_activity<'a>(
    root: &Root<'a>,
    depth: u32,
    scope: &Scope<'a>,
    ends: &[SourceEnd],
    afters: &[u64],
    place: u32,
    activity: &'a Activity,
    since: u64,
) -> Result<Attempts, AllocError>
    ensures exact { IsLaid scope.now.graph.now → OfInside root.now.library.now.templates
        (LaidBelow root.now.library.now.templates depth) (Some activity.now)
        → IfOk result (λ r. IsOpen root.now.library.now.templates depth
        (known_in root.now.most scope.now.entries.now) scope.now.graph.now scope.now.input scope.now.path
        (ends_of ends.now) place activity.now r.fate r.end r.rows.items) }
    ensures timely { IsLaid scope.now.graph.now → OfInside root.now.library.now.templates
        (LaidBelow root.now.library.now.templates depth) (Some activity.now)
        → IfOk result (λ r. IsTimelyOpen root.now.library.now.templates depth root.now.most scope.now.entries.now
        scope.now.graph.now scope.now.input scope.now.path ends.now afters.now place activity.now since r.end r.after
        r.ready.items) }
    ensures whole { IsLaid scope.now.graph.now → OfInside root.now.library.now.templates
        (LaidBelow root.now.library.now.templates depth) (Some activity.now)
        → OfInside root.now.library.now.templates (WellBelow root.now.library.now.templates depth) (Some activity.now)
        → IfOk result (λ r. IsWholeOpen root.now.library.now.templates depth root.now.most scope.now.entries.now
        scope.now.graph.now scope.now.input scope.now.path ends.now afters.now place activity.now since r.end r.after
        r.ready.items) }
{
    let graph = scope.graph;
    if !is_fed(graph, ends, place) {
        let fate = goes_on(&activity.work, 1);
        return Ok(untried(root.alloc, fate, SourceEnd::Unsettled, 0));
    }
    let since = fed_after(graph, afters, place, since);
    let base = first_input(root.alloc, graph, activity, place, &scope.input, ends)?;
    attempts_from(root, depth, scope, place, activity, &base, since)
}

/// What is found of an activity: its own row before those below it.
fn with_row(
    alloc: Global,
    scope: &Path,
    activity: &Activity,
    tried: Attempts,
) -> Result<Found, AllocError>
    ensures { IfOk result (λ f. (f.end ≡ tried.end)
        × (f.rows.items ≡ record { scope = scope.now; name = activity.now.name; fate = tried.fate } ∷ tried.rows.items)
        × (f.after ≡ tried.after) × (f.ready.items ≡ tried.ready.items)) }
{
    let Attempts {
        fate,
        end,
        after,
        rows: mut below,
        ready,
    } = tried;
    let mut rows = Vec::new(alloc);
    rows.push(FateRow {
        scope: scope.copy(alloc)?,
        name: activity.name.copy(alloc)?,
        fate,
    })?;
    rows.append(&mut below)?;
    Ok(Found {
        end,
        after,
        rows,
        ready,
    })
}

/// What follows of the activity at a place, where its sources are known.
#[cycle(scopes)]
fn activity<'a>(
    root: &Root<'a>,
    depth: u32,
    scope: &Scope<'a>,
    ends: &[SourceEnd],
    afters: &[u64],
    place: u32,
    activity: &'a Activity,
) -> Result<Found, AllocError>
    ensures exact { IsLaid scope.now.graph.now → OfInside root.now.library.now.templates
        (LaidBelow root.now.library.now.templates depth) (Some activity.now)
        → IfOk result (λ f. IsFound root.now.library.now.templates depth
        (known_in root.now.most scope.now.entries.now) scope.now.graph.now scope.now.input scope.now.path
        (ends_of ends.now) place (Some activity.now) f.end f.rows.items) }
    ensures timely { IsLaid scope.now.graph.now → OfInside root.now.library.now.templates
        (LaidBelow root.now.library.now.templates depth) (Some activity.now)
        → IfOk result (λ f. IsTimelyFound root.now.library.now.templates depth root.now.most scope.now.entries.now
        scope.now.graph.now scope.now.input scope.now.path scope.now.since ends.now afters.now place
        (Some activity.now) f.end f.after f.ready.items) }
    ensures whole { IsLaid scope.now.graph.now → OfInside root.now.library.now.templates
        (LaidBelow root.now.library.now.templates depth) (Some activity.now)
        → OfInside root.now.library.now.templates (WellBelow root.now.library.now.templates depth) (Some activity.now)
        → IfOk result (λ f. IsWholeFound root.now.library.now.templates depth root.now.most scope.now.entries.now
        scope.now.graph.now scope.now.input scope.now.path scope.now.since ends.now afters.now place
        (Some activity.now) f.end f.after f.ready.items) }
{
    let alloc = root.alloc;
    let values = values(alloc, scope.graph, ends, place)?;
    let since = joined_after(scope.graph, afters, place, scope.since);
    match join(activity.join, &values) {
        None => {
            let waiting = untried(alloc, Fate::Waiting, SourceEnd::Unsettled, 0);
            with_row(alloc, &scope.path, activity, waiting)
        }
        Some(false) => {
            let dead = untried(alloc, Fate::Dead, SourceEnd::Dead, since);
            with_row(alloc, &scope.path, activity, dead)
        }
        Some(true) => {
            let tried = open_activity(root, depth, scope, ends, afters, place, activity, since)?;
            with_row(alloc, &scope.path, activity, tried)
        }
    }
}

/// What is found of the activity at a place, if there is one.
#[cycle(scopes)]
fn found_at<'a>(
    root: &Root<'a>,
    depth: u32,
    scope: &Scope<'a>,
    ends: &[SourceEnd],
    afters: &[u64],
    place: u32,
) -> Result<Found, AllocError>
    ensures exact { Laid root.now.library.now.templates depth scope.now.graph.now
        → IfOk result (λ f. IsFound root.now.library.now.templates depth
        (known_in root.now.most scope.now.entries.now) scope.now.graph.now scope.now.input scope.now.path
        (ends_of ends.now) place (slice_get (out-Graph scope.now.graph.now).activities place) f.end f.rows.items) }
    ensures timely { Laid root.now.library.now.templates depth scope.now.graph.now
        → IfOk result (λ f. IsTimelyFound root.now.library.now.templates depth root.now.most scope.now.entries.now
        scope.now.graph.now scope.now.input scope.now.path scope.now.since ends.now afters.now place
        (slice_get (out-Graph scope.now.graph.now).activities place) f.end f.after f.ready.items) }
    ensures whole { Laid root.now.library.now.templates depth scope.now.graph.now
        → Well root.now.library.now.templates depth scope.now.graph.now
        → IfOk result (λ f. IsWholeFound root.now.library.now.templates depth root.now.most scope.now.entries.now
        scope.now.graph.now scope.now.input scope.now.path scope.now.since ends.now afters.now place
        (slice_get (out-Graph scope.now.graph.now).activities place) f.end f.after f.ready.items) }
{
    match scope.graph.activities.as_slice().get(place as usize) {
        None => Ok(Found {
            end: SourceEnd::Unsettled,
            after: 0,
            rows: Vec::new(root.alloc),
            ready: Vec::new(root.alloc),
        }),
        Some(found) => activity(root, depth, scope, ends, afters, place, found),
    }
}

/// So many activities of which nothing is known.
fn unsettled(alloc: Global, count: usize) -> Result<Vec<SourceEnd>, AllocError>
    ensures { IfOk result (λ v. v.items ≡ replicate count Unsettled) }
{
    let mut ends = Vec::new(alloc);
    for _ in 0..count {
        ends.push(SourceEnd::Unsettled)?;
    }
    Ok(ends)
}

/// So many lists without rows.
fn unshown(alloc: Global, count: usize) -> Result<Vec<Vec<FateRow>>, AllocError>
    ensures { IfOk result (λ v. length v.items ≡ count) }
{
    let mut rows = Vec::new(alloc);
    for _ in 0..count {
        rows.push(Vec::new(alloc))?;
    }
    Ok(rows)
}

/// The rows of all activities, in text order.
fn joined(alloc: Global, rows: Vec<Vec<FateRow>>) -> Result<Vec<FateRow>, AllocError>
    ensures { IfOk result (λ v. v.items ≡ flat_map (λ r. r.items) rows.items) }
{
    let mut all = Vec::new(alloc);
    for mut below in rows {
        all.append(&mut below)?;
    }
    Ok(all)
}

/// The output of a scope, once it is complete.
fn complete_output(
    alloc: Global,
    graph: &Graph,
    input: &Container,
    ends: &[SourceEnd],
) -> Result<Option<Container>, AllocError>
    ensures { IsSinking graph.now → length ends.now ≡ length (out-Graph graph.now).activities
        → IfOk result (λ o. o ≡ output_by graph.now input.now (ends_of ends.now)) }
{
    if is_complete(ends) {
        Ok(Some(output_of(alloc, graph, input, ends)?))
    } else {
        Ok(None)
    }
}

/// The pass over a scope in the order of its graph.
#[cycle(scopes)]
fn pass<'a>(root: &Root<'a>, depth: u32, scope: &Scope<'a>) -> Result<Passed, AllocError>
    ensures exact { Laid root.now.library.now.templates depth scope.now.graph.now
        → IfOk result (λ r. IsPassed root.now.library.now.templates depth
        (known_in root.now.most scope.now.entries.now) scope.now.graph.now scope.now.input scope.now.path r.output
        r.rows.items) }
    ensures timely { Laid root.now.library.now.templates depth scope.now.graph.now
        → IfOk result (λ r. IsTimelyPass root.now.library.now.templates depth root.now.most scope.now.entries.now
        scope.now.graph.now scope.now.input scope.now.path scope.now.since r.output r.after r.ready.items) }
    ensures whole { Laid root.now.library.now.templates depth scope.now.graph.now
        → Well root.now.library.now.templates depth scope.now.graph.now
        → IfOk result (λ r. IsWholePass root.now.library.now.templates depth root.now.most scope.now.entries.now
        scope.now.graph.now scope.now.input scope.now.path scope.now.since r.output r.after r.ready.items) }
{
    let alloc = root.alloc;
    let count = scope.graph.activities.len();
    let mut ends = unsettled(alloc, count)?;
    let mut afters = vec![in alloc; scope.since; count]?;
    let mut rows = unshown(alloc, count)?;
    let mut ready = Vec::new(alloc);
    for place in scope.graph.wiring.order.as_slice() {
        let Found {
            end,
            after,
            rows: shown,
            ready: mut found,
        } = found_at(root, depth, scope, &ends, &afters, *place)?;
        ready.append(&mut found)?;
        put(&mut ends, *place, end);
        put(&mut afters, *place, after);
        put(&mut rows, *place, shown);
    }
    Ok(Passed {
        rows: joined(alloc, rows)?,
        output: complete_output(alloc, scope.graph, &scope.input, &ends)?,
        after: complete_after(&afters, scope.since),
        ready,
    })
}

/// The pass over the scope of a root.
fn root_pass<'a>(
    root: &Root<'a>,
    depth: u32,
    graph: &'a Graph,
    number: u64,
    input: &Container,
    entries: &'a [Entry<'a>],
) -> Result<Passed, AllocError>
    ensures exact { Laid root.now.library.now.templates depth graph.now
        → IfOk result (λ r. IsPassed root.now.library.now.templates depth (known_in root.now.most entries.now) graph.now
        input.now (record { root = number; parts = [] }) r.output r.rows.items) }
    ensures timely { Laid root.now.library.now.templates depth graph.now
        → IfOk result (λ r. IsTimelyPass root.now.library.now.templates depth root.now.most entries.now graph.now
        input.now (record { root = number; parts = [] }) 0 r.output r.after r.ready.items) }
    ensures whole { Laid root.now.library.now.templates depth graph.now
        → Well root.now.library.now.templates depth graph.now
        → IfOk result (λ r. IsWholePass root.now.library.now.templates depth root.now.most entries.now graph.now
        input.now (record { root = number; parts = [] }) 0 r.output r.after r.ready.items) }
{
    let scope = Scope {
        graph,
        path: Path {
            root: number,
            parts: List::new(root.alloc),
        },
        input: input.copy(root.alloc)?,
        since: 0,
        entries,
        groups: groups_of(root.alloc, entries)?,
    };
    pass(root, depth, &scope)
}

/// Marks the completion of a number.
fn mark(marks: &mut Vec<bool>, number: u64)
    ensures { marks.new.items ≡ slice_set marks.old.items number true }
{
    if (number as usize) < marks.len() {
        marks[number as usize] = true;
    }
}

/// Which of this many completions were ready in their turn.
fn marked(alloc: Global, ready: &[u64], count: usize) -> Result<Vec<bool>, AllocError>
    ensures long { IfOk result (λ v. length v.items ≡ count) }
    ensures ready { IfOk result (λ v. (i : ℕ) → slice_get v.items i ≡ Some true → Contains ready.now i) }
    ensures whole { IfOk result (λ v. (i : ℕ) → i < count → Contains ready.now i → slice_get v.items i ≡ Some true) }
{
    let mut marks = vec![in alloc; false; count]?;
    for number in ready {
        mark(&mut marks, *number);
    }
    Ok(marks)
}

/// The number of the first completion that isn't marked.
fn first_unmarked(marks: &[bool]) -> Option<u64>
    ensures bound { IfSome result (λ n. n < length marks.now) }
    ensures before { AreMarked marks.now (unwrap_or result (length marks.now)) }
    ensures unmarked { IfSome result (λ n. slice_get marks.now n ≡ Some false) }
{
    for (i, marked) in marks.iter().enumerate() {
        if !*marked {
            return Some(i as u64);
        }
    }
    None
}

/// The fates of a root of a graph that nests at most so deep.
fn root_fates(
    alloc: Global,
    library: &Library,
    depth: u32,
    graph: &Graph,
    root: u64,
    input: &Container,
    facts: &[Fact],
) -> Result<Fates, FateFault>
    ensures exact { Laid library.now.templates depth graph.now
        → IfOk result (λ v. AreFates library.now.templates depth graph.now root input.now facts.now v.rows v.output) }
    ensures within { IfErr result (IsWithin (length facts.now)) }
    ensures ready { Laid library.now.templates depth graph.now → AreOf root facts.now
        → IfOk result (λ v. AreReadyIn library.now.templates depth graph.now root input.now facts.now
        (length facts.now)) }
    ensures refused { Laid library.now.templates depth graph.now → AreOf root facts.now
        → IfErr result (IsBehindReady library.now.templates depth graph.now root input.now facts.now) }
    ensures unready { Laid library.now.templates depth graph.now → Well library.now.templates depth graph.now
        → AreOf root facts.now → IfErr result (IsUnready library.now.templates depth graph.now root input.now
        facts.now) }
{
    let entries = entries_of(alloc, facts)?;
    let shared = Root {
        alloc,
        library,
        most: facts.len() as u64,
    };
    let Passed {
        rows,
        output,
        after: _,
        ready,
    } = root_pass(&shared, depth, graph, root, input, &entries)?;
    let marks = marked(alloc, &ready, facts.len())?;
    match first_unmarked(&marks) {
        Some(number) => Err(FateFault::NotReady(number)),
        None => Ok(Fates {
            rows: List::from_vec(rows),
            output,
        }),
    }
}

/// The fates of a root of a template, from its input and the accepted completions alone.
///
/// `NotReady` comes with the first completion that isn't ready by those before it.
pub fn fates(
    alloc: Global,
    library: &Library,
    template: u32,
    root: u64,
    input: &Container,
    facts: &[Fact],
) -> Result<Fates, FateFault>
    ensures exact { (t : Template) → slice_get library.now.templates template ≡ Some t
        → Laid library.now.templates deepest t.graph → IfOk result
        (λ v. AreFates library.now.templates deepest t.graph root input.now facts.now v.rows v.output) }
    ensures within { IfErr result (IsWithin (length facts.now)) }
    ensures ready { (t : Template) → slice_get library.now.templates template ≡ Some t
        → Laid library.now.templates deepest t.graph → AreOf root facts.now
        → IfOk result (λ v. AreReady library.now.templates t.graph root input.now facts.now (length facts.now)) }
    ensures refused { (t : Template) → slice_get library.now.templates template ≡ Some t
        → Laid library.now.templates deepest t.graph → AreOf root facts.now
        → IfErr result (IsBehindReady library.now.templates deepest t.graph root input.now facts.now) }
    ensures first { (t : Template) → slice_get library.now.templates template ≡ Some t
        → Laid library.now.templates deepest t.graph → Well library.now.templates deepest t.graph → AreOf root facts.now
        → IfErr result (IsFirstUnready library.now.templates t.graph root input.now facts.now) }
{
    match library.templates.as_slice().get(template as usize) {
        None => Ok(Fates {
            rows: List::new(alloc),
            output: None,
        }),
        Some(template) => root_fates(alloc, library, DEEPEST, &template.graph, root, input, facts),
    }
}
