//! A scope of an instance.
ghost use Rattle.std.specs.Prelude.{◌≡◌, ◌+◌, ◌==◌, ◌&&◌, ◌<◌, ◌^◌, ℕ, List as Seq, [], length, IfOk, OnOk};
ghost use Rattle.std.specs.Prelude.{option_copied, option_map};
ghost use Rattle.flow_model.specs.Scopes.{Known, tree_ends, tree_fate};
ghost use Rattle.flow_model.specs.ScopeContainers.{graph_in, is_complete as all_settled};
ghost use Rattle.flow_model.specs.Wiring.{IsIncoming};
ghost use Rattle.flow_model.specs.declared.graphs.Graph.{Graph as Process, out-Graph};
ghost use Rattle.flow_model.specs.declared.graphs.Container.{Container as Values};
ghost use Rattle.flow_model.specs.declared.graphs.Template.{Template};
ghost use Rattle.navigator.specs.Fresh.{incoming_count as connectors_to, IsFreshWork, IsFreshNested, IsFresh};
ghost use Rattle.navigator.specs.Items.{stand, both, into};
ghost use Rattle.navigator.specs.Reading.{place_of as place_in, attempt_place as place_before, nested_fate, state_fate};
ghost use Rattle.navigator.specs.Reading.{fate_in, hold_in, with_hold, inner_of};
ghost use Rattle.navigator.specs.Steps.{Grows, GrowsState, next_of};
ghost use Rattle.navigator.specs.Views.{Shows};
ghost use Rattle.view_laws.specs.Coming.{IsUntouched};
ghost use Rattle.navigator.specs.declared.scopes.NestedState.{out-NestedState};
ghost use Rattle.navigator.specs.declared.scopes.ScopeState.{out-ScopeState};

use activity_states::ProgramState;
use blocks_subprocs::graph_of;
use dead_paths::Tally;
use flow_model::{Activity, Container, Fate, Graph, Library, Name, Part, SourceEnd, Work};
use std::alloc::{AllocError, Global};

/// The state of a block or process activity: its scopes by attempt, and what has become of the last one.
#[cycle(scopes)]
#[derive(Drop)]
pub struct NestedState {
    pub scopes: Vec<ScopeState>,
    pub stage: NestedStage,
}

/// What has become of a block or process activity.
#[derive(Clone, Copy, Debug, PartialEq, Eq)]
pub enum NestedStage {
    Waiting,
    Running,
    Finished,
    Dead,
}

/// The state of an activity.
#[cycle(scopes)]
#[derive(Drop)]
pub enum ActivityState {
    Program(ProgramState),
    Nested(NestedState),
}

/// The state of a scope.
#[cycle(scopes)]
#[derive(Drop)]
pub struct ScopeState {
    /// Whether its BEGIN is taken.
    pub begun: bool,
    pub input: Container,
    /// What is known of the connectors that lead to each activity.
    pub tallies: Vec<Tally>,
    /// How each activity has ended.
    pub ends: Vec<SourceEnd>,
    pub states: Vec<ActivityState>,
    /// The number of activities that aren't settled.
    pub unsettled: usize,
}

/// The place of the activity of this name in a graph.
pub fn place_of(graph: &Graph, name: &Name) -> Option<usize>
    ensures { result ≡ place_in graph.now name.now }
{
    graph
        .activities
        .as_slice()
        .iter()
        .position(|activity| activity.name.as_slice() == name.as_slice())
}

/// The number of an attempt as a place.
pub fn attempt_place(attempt: u64) -> Option<usize>
    ensures { result ≡ place_before attempt }
{
    usize::try_from(attempt.checked_sub(1)?).ok()
}

impl NestedState {
    fn new(alloc: Global) -> NestedState
        ensures { IsFreshNested result }
    {
        NestedState {
            scopes: Vec::new(alloc),
            stage: NestedStage::Waiting,
        }
    }

    pub fn fate(&self) -> Fate
        ensures { result ≡ nested_fate self.now }
    {
        match self.stage {
            NestedStage::Waiting => Fate::Waiting,
            NestedStage::Running => Fate::Running(self.scopes.len() as u64),
            NestedStage::Finished => Fate::Finished(self.scopes.len() as u64),
            NestedStage::Dead => Fate::Dead,
        }
    }
}

impl NestedState {
    /// Adds the scope of the next attempt; answers its number.
    fn add_scope(&mut self, scope: ScopeState) -> Result<u64, AllocError>
        ensures number { IfOk result (λ j. j ≡ length (out-NestedState self.old).scopes.items + 1) }
        ensures grows { OnOk result (Grows scope self.old self.new) }
    {
        self.scopes.push(scope)?;
        self.stage = NestedStage::Running;
        Ok(self.scopes.len() as u64)
    }
}

impl ActivityState {
    /// Adds the scope of the next attempt of a block or process activity; answers its number.
    pub fn add_scope(&mut self, scope: ScopeState) -> Result<u64, AllocError>
        ensures number { IfOk result (λ j. j ≡ next_of self.old) }
        ensures grows { OnOk result (GrowsState scope self.old self.new) }
    {
        match self {
            ActivityState::Program(_) => Ok(0),
            ActivityState::Nested(state) => state.add_scope(scope),
        }
    }

    fn new(alloc: Global, work: &Work) -> ActivityState
        ensures { IsFreshWork work.now result }
    {
        match work {
            Work::Program(_) => ActivityState::Program(ProgramState::new(alloc)),
            Work::Block(_) => ActivityState::Nested(NestedState::new(alloc)),
            Work::Process(_) => ActivityState::Nested(NestedState::new(alloc)),
        }
    }

    pub fn fate(&self) -> Fate
        ensures { result ≡ state_fate self.now }
    {
        match self {
            ActivityState::Program(state) => state.fate(),
            ActivityState::Nested(state) => state.fate(),
        }
    }
}

/// The number of connectors that lead to an activity.
fn incoming_count(graph: &Graph, place: usize) -> u32
    ensures { result ≡ connectors_to graph.now place }
{
    match graph.wiring.incoming.as_slice().get(place) {
        None => 0,
        Some(row) => u32::try_from(row.len()).unwrap_or(u32::MAX),
    }
}

impl ScopeState {
    /// A scope of a graph that hasn't begun.
    pub fn new(alloc: Global, graph: &Graph, input: Container) -> Result<ScopeState, AllocError>
        ensures fresh { IfOk result (λ s. IsFresh graph.now input s) }
        ensures shows { IfOk result (λ s. (ts : Seq Template) → (depth : ℕ) → (k : Known) → IsUntouched k
            → IsIncoming graph.now → length (out-Graph graph.now).controls < 2 ^ 32
            → Shows ts depth k graph.now input s) }
    {
        let count = graph.activities.len();
        let mut tallies = Vec::with_capacity(alloc, count)?;
        let mut ends = Vec::with_capacity(alloc, count)?;
        let mut states = Vec::with_capacity(alloc, count)?;
        for (i, activity) in graph.activities.as_slice().iter().enumerate() {
            tallies.push(Tally::new(incoming_count(graph, i)))?;
            ends.push(SourceEnd::Unsettled)?;
            states.push(ActivityState::new(alloc, &activity.work))?;
        }
        Ok(ScopeState {
            begun: false,
            input,
            tallies,
            ends,
            states,
            unsettled: count,
        })
    }

    /// Whether all activities are settled.
    pub fn is_complete(&self) -> bool
        ensures state { result ≡ ((out-ScopeState self.now).begun && ((out-ScopeState self.now).unsettled == 0)) }
        ensures shows { (ts : Seq Template) → (depth : ℕ) → (k : Known) → (g : Process) → (input : Values)
            → Shows ts depth k g input self.now → result ≡ (k.begun []
            && all_settled g (tree_ends ts depth k g input)) }
    {
        self.begun && self.unsettled == 0
    }

    /// The fate of the activity at a place; all is waiting in a scope that hasn't begun.
    pub fn fate(&self, place: usize) -> Fate
        ensures state { result ≡ fate_in self.now place }
        ensures shows { (ts : Seq Template) → (depth : ℕ) → (k : Known) → (g : Process) → (input : Values)
            → Shows ts depth k g input self.now → result ≡ with_hold (hold_in self.now place)
            (tree_fate ts depth k g input place) }
    {
        match self.states.get(place) {
            None => Fate::Waiting,
            Some(state) => state.fate(),
        }
    }

    /// The scope of an attempt of the activity at a place.
    pub fn inner(&self, place: usize, attempt: u64) -> Option<&ScopeState>
        ensures { option_copied result ≡ inner_of self.now place attempt }
    {
        match self.states.get(place)? {
            ActivityState::Program(_) => None,
            ActivityState::Nested(state) => state.scopes.get(attempt_place(attempt)?),
        }
    }
}

/// A scope of an instance with its graph.
#[derive(Clone, Copy)]
pub struct Place<'a> {
    pub graph: &'a Graph,
    pub scope: &'a ScopeState,
}

/// The scope of an attempt of the activity at a place, if the activity runs a graph.
fn step_in<'a>(
    library: &'a Library,
    scope: &'a ScopeState,
    place: usize,
    activity: &'a Activity,
    attempt: u64,
) -> Option<Place<'a>>
    ensures { option_map (λ p. stand p.graph.now p.scope.now) result
        ≡ both (graph_in library.now.templates activity.now.work) (inner_of scope.now place attempt) }
{
    let graph = graph_of(library, &activity.work)?;
    let scope = scope.inner(place, attempt)?;
    Some(Place { graph, scope })
}

/// The scope one step down.
pub fn step_into<'a>(
    library: &'a Library,
    graph: &'a Graph,
    scope: &'a ScopeState,
    part: &Part,
) -> Option<Place<'a>>
    ensures { option_map (λ p. stand p.graph.now p.scope.now) result
        ≡ into library.now.templates (stand graph.now scope.now) part.now }
{
    let place = place_of(graph, &part.name)?;
    let activity = graph.activities.as_slice().get(place)?;
    step_in(library, scope, place, activity, part.attempt)
}
