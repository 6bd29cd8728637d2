//! What an instance shows: its rows, and the containers of items and of the root.
ghost use Rattle.std.specs.Prelude.{◌≡◌, ◌∷◌, ◌++◌, ◌+◌, ◌<◌, ◌^◌, ℕ, [], Some, List as Seq, true, IfOk, OnOk};
ghost use Rattle.std.specs.Prelude.{option_copied};
ghost use Rattle.activity_states.specs.States.{fate_of};
ghost use Rattle.blocks_subprocs.specs.Ends.{ends_of};
ghost use Rattle.flow_model.specs.Containers.{fresh as fresh_container};
ghost use Rattle.flow_model.specs.ScopeContainers.{fed, graph_in, graph_of as template_graph};
ghost use Rattle.flow_model.specs.ScopeContainers.{is_complete as all_settled};
ghost use Rattle.flow_model.specs.Scopes.{Known, Start, at, part, tree_ends, output as output_of_scope};
ghost use Rattle.flow_model.specs.Wiring.{IsFeeding, IsLooping, IsSinking};
ghost use Rattle.flow_model.specs.declared.graphs.Container.{Container as Values};
ghost use Rattle.flow_model.specs.declared.graphs.Graph.{Graph as Process, out-Graph};
ghost use Rattle.flow_model.specs.declared.instances.Fate.{Fate as Stands};
ghost use Rattle.flow_model.specs.declared.graphs.MapEnd.TheVariants.{Border};
ghost use Rattle.navigator.specs.ItemInputs.{ReadsAttempt};
ghost use Rattle.navigator.specs.Items.{item_input, performer_in, performer_at};
ghost use Rattle.navigator.specs.Reading.{state_fate};
ghost use Rattle.navigator.specs.ViewRows.{AreNumbered, attempt_rows, inner_rows, rows_within, view_rows};
ghost use Rattle.navigator.specs.Views.{Shows, ShowsWithin, ShowsNested, ShowsWork, shows_attempt};
ghost use Rattle.navigator.specs.declared.scopes.ActivityState.{Nested};
ghost use Rattle.navigator.specs.declared.scopes.ScopeState.{out-ScopeState};

use crate::changes::path_below;
use crate::instance::{Instance, Item};
use crate::scopes::{ActivityState, NestedState, ScopeState};
use blocks_subprocs::{base_input, graph_of, next_input, output_of};
use flow_model::{Activity, Container, Fate, FateRow, Graph, Library, List, Name, Path, SourceEnd};
use std::alloc::{AllocError, Global};

/// Adds the rows of the scope of an attempt, once it has begun.
#[cycle(rows)]
fn add_attempt<'x>(
    alloc: Global,
    scope: &ScopeState,
    library: &'x Library,
    graph: &'x Graph,
    path: &Path,
    activity: &'x Activity,
    attempt: u64,
    rows: &mut List<FateRow>,
) -> Result<(), AllocError>
    ensures { (n : ℕ) → (k : Known) → (input : Values)
        → ShowsWithin library.now.templates n (at (part activity.now.name attempt) k) graph.now input scope.now
        → OnOk result (rows.new ≡ rows.old ++ attempt_rows (rows_within library.now.templates n) k activity.now
        (Some graph.now) (Some scope.now) path.now (record { attempt = attempt; input = input })) }
{
    if !scope.begun {
        return Ok(());
    }
    let below = path_below(alloc, path, activity, attempt)?;
    add_rows(alloc, scope, library, graph, &below, rows)?;
    Ok(())
}

/// Adds the rows of the begun scopes of a block or process activity.
#[cycle(rows)]
fn add_inner<'x>(
    alloc: Global,
    state: &NestedState,
    library: &'x Library,
    path: &Path,
    activity: &'x Activity,
    rows: &mut List<FateRow>,
) -> Result<(), AllocError>
    ensures { (n : ℕ) → (k : Known) → (fate : Stands) → (starts : Seq Start) → AreNumbered starts
        → ShowsNested fate starts (shows_attempt (ShowsWithin library.now.templates n) k activity.now.name
        (graph_in library.now.templates activity.now.work)) state.now
        → OnOk result (rows.new ≡ rows.old ++ inner_rows library.now.templates
        (rows_within library.now.templates n) k activity.now (Nested state.now) path.now starts) }
{
    let Some(graph) = graph_of(library, &activity.work) else {
        return Ok(());
    };
    for (i, scope) in state.scopes.iter().enumerate() {
        let attempt = (i as u64).saturating_add(1);
        add_attempt(alloc, scope, library, graph, path, activity, attempt, rows)?;
    }
    Ok(())
}

/// Adds the row of an activity and those inside it.
#[cycle(rows)]
fn add_activity<'x>(
    alloc: Global,
    state: &ActivityState,
    library: &'x Library,
    path: &Path,
    activity: &'x Activity,
    rows: &mut List<FateRow>,
) -> Result<(), AllocError>
    ensures { (n : ℕ) → (k : Known) → (fate : Stands) → (outs : Seq Values) → (starts : Seq Start) → AreNumbered starts
        → ShowsWork activity.now.work fate outs starts
        (shows_attempt (ShowsWithin library.now.templates n) k activity.now.name
        (graph_in library.now.templates activity.now.work)) state.now
        → OnOk result (rows.new ≡ rows.old ++ record {
          scope = path.now;
          name = activity.now.name;
          fate =
              state_fate state.now;
        } ∷ inner_rows library.now.templates
        (rows_within library.now.templates n) k activity.now state.now path.now starts) }
{
    rows.push(FateRow {
        scope: path.copy(alloc)?,
        name: activity.name.copy(alloc)?,
        fate: state.fate(),
    })?;
    match state {
        ActivityState::Program(_) => Ok(()),
        ActivityState::Nested(inner) => {
            add_inner(alloc, inner, library, path, activity, rows)?;
            Ok(())
        }
    }
}

/// Adds the rows of a scope, each activity's before those inside it.
#[cycle(rows)]
fn add_rows<'x>(
    alloc: Global,
    scope: &ScopeState,
    library: &'x Library,
    graph: &'x Graph,
    path: &Path,
    rows: &mut List<FateRow>,
) -> Result<(), AllocError>
    ensures { (n : ℕ) → (k : Known) → (input : Values) → ShowsWithin library.now.templates n k graph.now input scope.now
        → OnOk result (rows.new ≡ rows.old ++ rows_within library.now.templates n k graph.now input scope.now
        path.now) }
{
    for (place, activity) in graph.activities.as_slice().iter().enumerate() {
        let Some(state) = scope.states.get(place) else {
            return Ok(());
        };
        add_activity(alloc, state, library, path, activity, rows)?;
    }
    Ok(())
}

/// The output of a scope, once it is complete.
fn scope_output(alloc: Global, graph: &Graph, scope: &ScopeState) -> Result<Container, AllocError>
    ensures { IsSinking graph.now → IfOk result (λ out. out
        ≡ fed (out-Graph graph.now).lines Border (out-ScopeState scope.now).input
        (ends_of (out-ScopeState scope.now).ends.items) (fresh_container (out-Graph graph.now).output)) }
{
    output_of(alloc, graph, &scope.input, &scope.ends)
}

impl Instance {
    /// The view in show order.
    pub fn rows(&self, alloc: Global, library: &Library) -> Result<List<FateRow>, AllocError>
        ensures { IfOk result (λ rows. (g : Process) → template_graph library.now.templates self.now.template ≡ Some g
            → (depth : ℕ) → (k : Known) → (input : Values) → Shows library.now.templates depth k g input self.now.scope
            → rows ≡ view_rows library.now.templates depth k g input self.now.scope
            (record { root = self.now.root; parts = [] })) }
    {
        let mut rows = List::new(alloc);
        let path = Path {
            root: self.root,
            parts: List::new(alloc),
        };
        let Some(graph) = self.graph(library) else {
            return Ok(rows);
        };
        add_rows(alloc, &self.scope, library, graph, &path, &mut rows)?;
        Ok(rows)
    }

    /// The output of the root, where its mode is DONE.
    pub fn output(&self, alloc: Global, library: &Library) -> Result<Container, AllocError>
        ensures { IfOk result (λ out. (g : Process) → template_graph library.now.templates self.now.template ≡ Some g
            → IsSinking g → (depth : ℕ) → (k : Known) → (input : Values)
            → Shows library.now.templates depth k g input self.now.scope
            → all_settled g (tree_ends library.now.templates depth k g input) ≡ true
            → output_of_scope library.now.templates (depth + 1) k g input ≡ Some out) }
    {
        match self.graph(library) {
            None => Ok(Container {
                values: List::new(alloc),
            }),
            Some(graph) => scope_output(alloc, graph, &self.scope),
        }
    }
}

/// The person whose completion of a program activity was the last one.
fn last_performer(state: &ActivityState) -> Option<&Name>
    ensures { option_copied result ≡ performer_in (Some state.now) }
{
    match state {
        ActivityState::Program(program) => program.performer(),
        ActivityState::Nested(_) => None,
    }
}

impl<'a> Item<'a> {
    /// The base input, with the LOOP maps from the output of the attempt before.
    fn looped_input(&self, alloc: Global) -> Result<Container, AllocError>
        ensures { self.now.number < 2 ^ 32 → IsFeeding self.now.place.graph.now → IsLooping self.now.place.graph.now
            → IfOk result (λ c. c ≡ item_input self.now.place.graph.now self.now.place.scope.now self.now.number
            self.now.state.now self.now.attempt) }
    {
        let (graph, scope) = (self.place.graph, self.place.scope);
        let number = u32::try_from(self.number).unwrap_or(u32::MAX);
        let base = base_input(alloc, graph, number, &scope.input, &scope.ends)?;
        match self.state.output(self.attempt.saturating_sub(1)) {
            None => Ok(base),
            Some(last) => next_input(alloc, graph, number, base, last),
        }
    }

    /// The input of the item: the base input, with the LOOP maps from the output of the attempt before it.
    pub fn input(&self, alloc: Global) -> Result<Container, AllocError>
        ensures state { self.now.number < 2 ^ 32 → IsFeeding self.now.place.graph.now
            → IsLooping self.now.place.graph.now → IfOk result
            (λ c. c ≡ item_input self.now.place.graph.now self.now.place.scope.now self.now.number self.now.state.now
            self.now.attempt) }
        ensures shows { self.now.number < 2 ^ 32 → IsFeeding self.now.place.graph.now
            → IsLooping self.now.place.graph.now → IfOk result
            (λ c. ReadsAttempt self.now.place.graph.now self.now.place.scope.now self.now.number self.now.state.now
            self.now.attempt c) }
    {
        self.looped_input(alloc)
    }

    /// The fate of the item's activity.
    pub fn fate(&self) -> Fate
        ensures { result ≡ fate_of self.now.state.now }
    {
        self.state.fate()
    }

    /// The person whose DONE gave the final output of the activity at a place of the item's scope; None where
    /// it was an agent's or an administrator's, or the activity isn't finished.
    pub fn performer_of(&self, place: u32) -> Option<&'a Name>
        ensures { option_copied result ≡ performer_at self.now.place.scope.now place }
    {
        let scope = self.place.scope;
        match scope.ends.get(place as usize)? {
            SourceEnd::Finished(_) => last_performer(scope.states.get(place as usize)?),
            SourceEnd::Dead => None,
            SourceEnd::Unsettled => None,
        }
    }
}
