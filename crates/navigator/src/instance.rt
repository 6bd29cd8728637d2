//! A root instance.
ghost use Rattle.std.specs.Prelude.{◌∷◌, ◌++◌, ◌≡◌, true, false, ◌==◌, ◌&&◌, ℕ, List as Seq, [], slice_get, IfOk, OnOk};
ghost use Rattle.std.specs.Prelude.{option_copied, option_map, option_and_then, Some};
ghost use Rattle.activity_states.specs.States.{fate_of, hold_of};
ghost use Rattle.flow_model.specs.Scopes.{Known, tree_ends};
ghost use Rattle.flow_model.specs.ScopeContainers.{graph_of as template_graph, is_complete as all_settled};
ghost use Rattle.flow_model.specs.declared.graphs.Container.{Container as Values};
ghost use Rattle.flow_model.specs.declared.graphs.Graph.{Graph as Process};
ghost use Rattle.flow_model.specs.declared.graphs.Template.{Template};
ghost use Rattle.flow_model.specs.declared.instances.Message.TheVariants.{End};
ghost use Rattle.flow_model.specs.declared.instances.Part.{Part as Step};
ghost use Rattle.navigator.specs.Events.{ChangesAt, ChangesScope, ChangesState, Completes, happening, Happens, Takes};
ghost use Rattle.navigator.specs.Holding.{held_by, take_of, held_state, take_from, SetsHold, HoldsChanged};
ghost use Rattle.navigator.specs.Giving.{GivesTaken, GivesCompleted};
ghost use Rattle.navigator.specs.Instances.{mode_of, Starts};
ghost use Rattle.navigator.specs.Items.{stand, entry_of, attempts_in as attempts_of_fate, entry_of_state, entry_here};
ghost use Rattle.navigator.specs.Items.{entry_at, phase_of};
ghost use Rattle.navigator.specs.Showing.{ShowsTaken, ShowsCompleted, DiffersInHold, StaysShown, StaysShownItem};
ghost use Rattle.navigator.specs.Showing.{StaysShownNested, StaysShownWork};
ghost use Rattle.navigator.specs.Views.{Shows};
ghost use Rattle.navigator.specs.declared.scopes.ActivityState.{Nested};
ghost use Rattle.navigator.specs.declared.scopes.NestedState.{NestedState as Nest, out-NestedState};
ghost use Rattle.navigator.specs.declared.scopes.ScopeState.{ScopeState as Scope, out-ScopeState};

use crate::changes::{Context, Effects, Event, messages_of};
use crate::scopes::{
    ActivityState, NestedState, Place, ScopeState, attempt_place, place_of, step_into,
};
use activity_states::ProgramState;
use blocks_subprocs::graph_of;
use flow_model::{
    Activity, Container, Fate, Graph, Hold, Library, List, Message, Mode, Name, Part, Path, Phase,
};
use std::alloc::{AllocError, Global};

/// A root instance: its template, who started it with what, and its scopes.
#[derive(Drop)]
pub struct Instance {
    pub root: u64,
    pub template: u32,
    pub starter: Name,
    pub(crate) scope: ScopeState,
    suspended: bool,
    terminated: bool,
}

/// A change of who holds an item.
#[derive(Drop)]
pub enum HoldChange {
    Person(Name),
    Agent,
    Nobody,
}

/// An item of a begun scope: the graph of its scope, its activity and its state.
#[derive(Clone, Copy)]
pub struct Item<'a> {
    pub place: Place<'a>,
    pub number: usize,
    pub activity: &'a Activity,
    pub state: &'a ProgramState,
    pub attempt: u64,
}

/// The attempts that a fate counts.
fn attempts_in(fate: Fate) -> u64
    ensures { result ≡ attempts_of_fate fate }
{
    match fate {
        Fate::Waiting => 0,
        Fate::Ready(attempt) => attempt,
        Fate::Running(attempt) => attempt,
        Fate::Finished(attempt) => attempt,
        Fate::Dead => 0,
    }
}

/// The graph of the template at a place.
#[tactic(auto, using(blocks_subprocs::proofs::Library::template_graph))]
fn root_graph(library: &Library, template: u32) -> Option<&Graph>
    ensures { option_copied result ≡ template_graph library.now.templates template }
{
    match library.templates.as_slice().get(template as usize) {
        None => None,
        Some(template) => Some(&template.graph),
    }
}

/// The item of an attempt of an activity that is a program activity.
fn item_of<'a>(
    place: Place<'a>,
    number: usize,
    activity: &'a Activity,
    state: &'a ActivityState,
    attempt: u64,
) -> Option<Item<'a>>
    ensures { option_map (λ i. entry_of i.place.graph.now i.place.scope.now i.number i.activity.now i.state.now
        i.attempt) result ≡ entry_of_state (stand place.entry.graph.now place.entry.scope.now) attempt number
        activity.now state.now }
{
    let ActivityState::Program(state) = state else {
        return None;
    };
    if attempt < 1 || attempt > attempts_in(state.fate()) {
        return None;
    }
    Some(Item {
        place,
        number,
        activity,
        state,
        attempt,
    })
}

/// The item of a part in a scope, which has to have begun.
fn item_here<'a>(graph: &'a Graph, scope: &'a ScopeState, part: &Part) -> Option<Item<'a>>
    ensures { option_map (λ i. entry_of i.place.graph.now i.place.scope.now i.number i.activity.now i.state.now
        i.attempt) result ≡ entry_here part.now (stand graph.now scope.now) }
{
    if !scope.begun {
        return None;
    }
    let number = place_of(graph, &part.name)?;
    let activity = graph.activities.as_slice().get(number)?;
    let state = scope.states.get(number)?;
    item_of(
        Place { graph, scope },
        number,
        activity,
        state,
        part.attempt,
    )
}

/// The item to which the parts of a path lead from a scope.
fn item_at<'a>(
    library: &'a Library,
    graph: &'a Graph,
    scope: &'a ScopeState,
    parts: &[Part],
) -> Option<Item<'a>>
    ensures { option_map (λ i. entry_of i.place.graph.now i.place.scope.now i.number i.activity.now i.state.now
        i.attempt) result ≡ entry_at library.now.templates parts.now (stand graph.now scope.now) }
{
    match parts {
        [] => None,
        [last] => item_here(graph, scope, last),
        [part, rest @ ..] => {
            let inner = step_into(library, graph, scope, part)?;
            item_at(library, inner.graph, inner.scope, rest)
        }
    }
}

impl Instance {
    /// A root that is started now; the caller puts the BEGIN of its scope.
    pub fn start(
        alloc: Global,
        library: &Library,
        template: u32,
        root: u64,
        starter: Name,
        input: Container,
    ) -> Result<Option<Instance>, AllocError>
        ensures { IfOk result (λ i. Starts library.now.templates template root starter input i) }
    {
        let Some(graph) = root_graph(library, template) else {
            return Ok(None);
        };
        Ok(Some(Instance {
            root,
            template,
            starter,
            scope: ScopeState::new(alloc, graph, input)?,
            suspended: false,
            terminated: false,
        }))
    }

    /// The graph of the root scope.
    pub fn graph<'a>(&self, library: &'a Library) -> Option<&'a Graph>
        ensures { option_copied result ≡ template_graph library.now.templates self.now.template }
    {
        root_graph(library, self.template)
    }

    /// The mode.
    pub fn mode(&self) -> Mode
        ensures state { result ≡ mode_of self.now.terminated
            ((out-ScopeState self.now.scope).begun && ((out-ScopeState self.now.scope).unsettled == 0))
            self.now.suspended }
        ensures shows { (ts : Seq Template) → (depth : ℕ) → (k : Known) → (g : Process) → (input : Values)
            → Shows ts depth k g input self.now.scope → result
            ≡ mode_of self.now.terminated (k.begun [] && all_settled g (tree_ends ts depth k g input))
            self.now.suspended }
    {
        if self.terminated {
            Mode::Terminated
        } else if self.scope.is_complete() {
            Mode::Done
        } else if self.suspended {
            Mode::Suspended
        } else {
            Mode::Active
        }
    }

    pub fn suspend(&mut self)
        ensures { self.new ≡ record self.old { suspended = true } }
    {
        self.suspended = true;
    }

    pub fn resume(&mut self)
        ensures { self.new ≡ record self.old { suspended = false } }
    {
        self.suspended = false;
    }

    pub fn terminate(&mut self)
        ensures { self.new ≡ record self.old { terminated = true } }
    {
        self.terminated = true;
    }

    /// What an event does to the scope of a path.
    fn change<'x>(
        &mut self,
        with: Context<'x>,
        path: &Path,
        event: Event<'_>,
    ) -> Result<(List<Message>, Vec<Path>), AllocError>
        ensures kept { self.new ≡ record self.old { scope = self.new.scope } }
        ensures happens { IfOk result (λ given. (g : Process)
            → template_graph with.entry.library.now.templates self.old.template ≡ Some g
            → Happens with.entry.library.now.templates path.now with.entry.clock
            (happening event.entry) g self.old.scope self.new.scope given.0 given.1.items) }
    {
        let mut effects = Effects::new(with.alloc);
        let Some(graph) = self.graph(with.library) else {
            return messages_of(effects);
        };
        let parts = path.parts.as_slice();
        self.scope
            .change(with, graph, path, parts, event, &mut effects)?;
        let given = messages_of(effects)?;
        Ok(given)
    }

    /// Takes the END of an attempt, which happens to the scope around it; the root has none.
    fn take_end<'x>(
        &mut self,
        with: Context<'x>,
        path: &Path,
    ) -> Result<(List<Message>, Vec<Path>), AllocError>
        ensures kept { self.new ≡ record self.old { scope = self.new.scope } }
        ensures takes { IfOk result (λ given. (g : Process)
            → template_graph with.entry.library.now.templates self.old.template ≡ Some g
            → Takes with.entry.library.now.templates with.entry.clock
            (End path.now) g self.old.scope self.new.scope given.0 given.1.items) }
    {
        match path.parts.as_slice() {
            [] => Ok((List::new(with.alloc), Vec::new(with.alloc))),
            [parts @ .., last] => {
                let scope = path_of_parts(with.alloc, path.root, parts)?;
                self.change(with, &scope, Event::End(&last.name, last.attempt))
            }
        }
    }

    /// Takes a message: the messages that the turn puts, and the items that became ready.
    pub fn take_message(
        &mut self,
        alloc: Global,
        library: &Library,
        clock: u64,
        message: &Message,
    ) -> Result<(List<Message>, Vec<Path>), AllocError>
        ensures kept { self.new ≡ record self.old { scope = self.new.scope } }
        ensures idle { self.old.terminated ≡ true → (self.new ≡ self.old)
            × IfOk result (λ given. (given.0 ≡ []) × (given.1.items ≡ [])) }
        ensures takes { self.old.terminated ≡ false → IfOk result
            (λ given. (g : Process) → template_graph library.now.templates self.old.template ≡ Some g
            → Takes library.now.templates clock message.now g self.old.scope self.new.scope given.0 given.1.items) }
        ensures shows { self.old.terminated ≡ false → OnOk result
            ((g : Process) → template_graph library.now.templates self.old.template ≡ Some g
            → ShowsTaken library.now.templates g message.now self.old.scope self.new.scope) }
        ensures gives { self.old.terminated ≡ false → IfOk result
            (λ given. (g : Process) → template_graph library.now.templates self.old.template ≡ Some g
            → GivesTaken library.now.templates g message.now self.old.scope given.0) }
    {
        if self.terminated {
            return Ok((List::new(alloc), Vec::new(alloc)));
        }
        let with = Context {
            alloc,
            library,
            clock,
        };
        match message {
            Message::Begin(path) => self.change(with, path, Event::Begin),
            Message::Signal(path, _, to, value) => {
                self.change(with, path, Event::Signal(to, *value))
            }
            Message::End(path) => self.take_end(with, path),
        }
    }

    /// Completes an item, which happens to the scope of its activity.
    fn complete<'x>(
        &mut self,
        with: Context<'x>,
        item: &Path,
        output: Container,
        performer: Option<Name>,
    ) -> Result<(List<Message>, Vec<Path>), AllocError>
        ensures kept { self.new ≡ record self.old { scope = self.new.scope } }
        ensures completes { IfOk result (λ given. (g : Process)
            → template_graph with.entry.library.now.templates self.old.template ≡ Some g → (parts : Seq Step)
            → (q : Step) → item.now.parts ≡ parts ++ q ∷ []
            → Happens with.entry.library.now.templates (record { root = item.now.root; parts = parts }) with.entry.clock
            (Completes q.name (record { output = output; performer = performer })) g self.old.scope self.new.scope
            given.0 given.1.items) }
    {
        match item.parts.as_slice() {
            [] => Ok((List::new(with.alloc), Vec::new(with.alloc))),
            [parts @ .., last] => {
                let scope = path_of_parts(with.alloc, item.root, parts)?;
                let event = Event::Complete(&last.name, output, performer);
                self.change(with, &scope, event)
            }
        }
    }

    /// Completes an item: the messages that follow, and the items that became ready.
    pub fn complete_item(
        &mut self,
        alloc: Global,
        library: &Library,
        clock: u64,
        item: &Path,
        output: Container,
        performer: Option<Name>,
    ) -> Result<(List<Message>, Vec<Path>), AllocError>
        ensures kept { self.new ≡ record self.old { scope = self.new.scope } }
        ensures completes { IfOk result (λ given. (g : Process)
            → template_graph library.now.templates self.old.template ≡ Some g → (parts : Seq Step) → (q : Step)
            → item.now.parts ≡ parts ++ q ∷ [] → Happens library.now.templates
            (record { root = item.now.root; parts = parts }) clock
            (Completes q.name (record { output = output; performer = performer })) g self.old.scope self.new.scope
            given.0 given.1.items) }
        ensures shows { OnOk result ((g : Process) → template_graph library.now.templates self.old.template ≡ Some g
            → ShowsCompleted library.now.templates g item.now.parts output self.old.scope self.new.scope) }
        ensures gives { IfOk result (λ given. (g : Process)
            → template_graph library.now.templates self.old.template ≡ Some g
            → GivesCompleted library.now.templates g item.now output self.old.scope given.0) }
    {
        let with = Context {
            alloc,
            library,
            clock,
        };
        self.complete(with, item, output, performer)
    }

    /// The item of a path; None exactly where there is no such item.
    pub fn item<'a>(&'a self, library: &'a Library, item: &Path) -> Option<Item<'a>>
        ensures { option_map (λ i. entry_of i.place.graph.now i.place.scope.now i.number i.activity.now i.state.now
            i.attempt) result ≡ option_and_then (λ g. entry_at library.now.templates item.now.parts
            (stand g self.now.scope)) (template_graph library.now.templates self.now.template) }
    {
        item_at(
            library,
            self.graph(library)?,
            &self.scope,
            item.parts.as_slice(),
        )
    }

    /// Changes who holds the open attempt of an item's activity; answers the take number of an agent.
    pub fn change_hold(&mut self, library: &Library, item: &Path, change: HoldChange) -> u64
        ensures kept { self.new ≡ record self.old { scope = self.new.scope } }
        ensures shows { (g : Process) → template_graph library.now.templates self.old.template ≡ Some g
            → StaysShown library.now.templates g self.old.scope self.new.scope }
        ensures sets { (g : Process) → template_graph library.now.templates self.old.template ≡ Some g
            → HoldsChanged library.now.templates item.now.parts change g self.old.scope self.new.scope result }
    {
        let [parts @ .., last] = item.parts.as_slice() else {
            return 0;
        };
        match self.graph(library) {
            None => 0,
            Some(graph) => self
                .scope
                .change_hold(library, graph, parts, &last.name, change),
        }
    }
}

/// The path of a scope.
fn path_of_parts(alloc: Global, root: u64, parts: &[Part]) -> Result<Path, AllocError>
    ensures { IfOk result (λ p. p ≡ record { root = root; parts = parts.now }) }
{
    let mut copies = List::with_capacity(alloc, parts.len())?;
    for part in parts {
        copies.push(part.copy(alloc)?)?;
    }
    Ok(Path {
        root,
        parts: copies,
    })
}

impl ScopeState {
    /// Changes a hold in the scope to which the parts lead.
    #[cycle(hold)]
    fn change_hold<'x>(
        &mut self,
        library: &'x Library,
        graph: &'x Graph,
        parts: &[Part],
        name: &Name,
        change: HoldChange,
    ) -> u64
        ensures shows { StaysShown library.now.templates graph.now self.old self.new }
        ensures sets { ChangesAt library.now.templates
            (SetsHold name.now change result) parts.now graph.now self.old self.new }
    {
        match parts {
            [] => change_hold_here(graph, self, name, change),
            [part, rest @ ..] => self.change_hold_inside(library, graph, part, rest, name, change),
        }
    }

    #[cycle(hold)]
    fn change_hold_inside<'x>(
        &mut self,
        library: &'x Library,
        graph: &'x Graph,
        part: &Part,
        rest: &[Part],
        name: &Name,
        change: HoldChange,
    ) -> u64
        ensures shows { StaysShown library.now.templates graph.now self.old self.new }
        ensures sets { ChangesAt library.now.templates (SetsHold name.now change result)
            (part.now ∷ rest.now) graph.now self.old self.new }
    {
        let Some(place) = place_of(graph, &part.name) else {
            return 0;
        };
        let Some(activity) = graph.activities.as_slice().get(place) else {
            return 0;
        };
        let (Some(inner), Some(attempt)) = (
            graph_of(library, &activity.work),
            attempt_place(part.attempt),
        ) else {
            return 0;
        };
        match self.states.get_mut(place) {
            None => 0,
            Some(state) => state.change_hold(attempt, library, inner, rest, name, change),
        }
    }
}

impl ActivityState {
    #[cycle(hold)]
    fn change_hold<'x>(
        &mut self,
        attempt: usize,
        library: &'x Library,
        graph: &'x Graph,
        rest: &[Part],
        name: &Name,
        change: HoldChange,
    ) -> u64
        ensures shows { StaysShownWork library.now.templates graph.now self.old self.new }
        ensures sets { (n : Nest) → self.old ≡ Nested n → (inner : Scope)
            → slice_get (out-NestedState n).scopes.items attempt ≡ Some inner
            → ChangesState (ChangesAt library.now.templates (SetsHold name.now change result) rest.now graph.now)
            attempt inner n self.new }
    {
        match self {
            ActivityState::Program(_) => 0,
            ActivityState::Nested(state) => {
                state.change_hold(attempt, library, graph, rest, name, change)
            }
        }
    }
}

impl NestedState {
    #[cycle(hold)]
    fn change_hold<'x>(
        &mut self,
        attempt: usize,
        library: &'x Library,
        graph: &'x Graph,
        rest: &[Part],
        name: &Name,
        change: HoldChange,
    ) -> u64
        ensures shows { StaysShownNested library.now.templates graph.now self.old self.new }
        ensures sets { (inner : Scope) → slice_get (out-NestedState self.old).scopes.items attempt ≡ Some inner
            → ChangesScope (ChangesAt library.now.templates (SetsHold name.now change result) rest.now graph.now)
            attempt inner self.old self.new }
    {
        match self.scopes.get_mut(attempt) {
            None => 0,
            Some(scope) => scope.change_hold(library, graph, rest, name, change),
        }
    }
}

/// Changes who holds the open attempt of a program activity; answers the take number of an agent.
fn change_program_hold(state: &mut ProgramState, change: HoldChange) -> u64
    ensures differs { DiffersInHold state.old state.new }
    ensures state { state.new ≡ held_by change state.old }
    ensures take { result ≡ take_of change state.old }
{
    match change {
        HoldChange::Person(who) => {
            state.hold_person(who);
            0
        }
        HoldChange::Agent => state.hold_agent(),
        HoldChange::Nobody => {
            state.release();
            0
        }
    }
}

impl ActivityState {
    /// Changes who holds the open attempt of this activity, if it is a program activity.
    fn change_own_hold(&mut self, change: HoldChange) -> u64
        ensures shows { StaysShownItem self.old self.new }
        ensures state { self.new ≡ held_state change self.old }
        ensures take { result ≡ take_from change self.old }
    {
        match self {
            ActivityState::Program(state) => change_program_hold(state, change),
            ActivityState::Nested(_) => 0,
        }
    }
}

/// Changes who holds the open attempt of an activity of a scope.
fn change_hold_here(graph: &Graph, scope: &mut ScopeState, name: &Name, change: HoldChange) -> u64
    ensures shows { (ts : Seq Template) → StaysShown ts graph.now scope.old scope.new }
    ensures sets { SetsHold name.now change result graph.now scope.old scope.new }
{
    let Some(place) = place_of(graph, name) else {
        return 0;
    };
    match scope.states.get_mut(place) {
        None => 0,
        Some(state) => state.change_own_hold(change),
    }
}

impl<'a> Item<'a> {
    /// The phase of the item.
    pub fn phase(&self) -> Phase
        ensures { result ≡ phase_of (fate_of self.now.state.now) self.now.attempt }
    {
        match self.state.fate() {
            Fate::Ready(attempt) if attempt == self.attempt => Phase::Ready,
            Fate::Running(attempt) if attempt == self.attempt => Phase::Running,
            _ => Phase::Ended,
        }
    }

    /// Who holds the item.
    pub fn hold(&self) -> &'a Hold
        ensures { result.now ≡ hold_of self.now.state.now }
    {
        self.state.hold()
    }
}
