//! What an event does to the scope that receives it, and what follows from it.
ghost use Rattle.std.specs.Prelude.{◌≡◌, ◌∷◌, ◌++◌, ◌-◌, ◌<◌, ◌≤◌, ◌^◌, length, ℕ, List as Seq, Option, Bool, [], Some};
ghost use Rattle.std.specs.Prelude.{None, IfOk, OnOk, slice_get};
ghost use Rattle.activity_states.specs.States.{State, fate_of, made_ready, completed};
ghost use Rattle.blocks_subprocs.specs.Ends.{ends_of};
ghost use Rattle.dead_paths.specs.Tallies.{Counts};
ghost use Rattle.dead_paths.specs.declared.joins.Tally.{Tally};
ghost use Rattle.flow_model.specs.Fates.{joined};
ghost use Rattle.flow_model.specs.Rows.{below as path_to};
ghost use Rattle.flow_model.specs.ScopeContainers.{graph_in, base_of, looped};
ghost use Rattle.flow_model.specs.Conditions.{holds};
ghost use Rattle.flow_model.specs.Scopes.{part};
ghost use Rattle.flow_model.specs.Wiring.{IsFeeding, IsLooping, IsOutgoing, IsSinking};
ghost use Rattle.flow_model.specs.declared.graphs.Activity.{Activity as Node};
ghost use Rattle.flow_model.specs.declared.graphs.Graph.{Graph as Process, out-Graph};
ghost use Rattle.flow_model.specs.declared.instances.Message.TheVariants.{Begin};
ghost use Rattle.flow_model.specs.declared.instances.SourceEnd.TheVariants.{Dead, Finished};
ghost use Rattle.navigator.specs.Steps.{fields, told, with_state, settled, end_after, tell_settled, changed_at};
ghost use Rattle.navigator.specs.Steps.{ready_state, completed_state, dead_state, finished_state, dies, finishes};
ghost use Rattle.navigator.specs.Steps.{ready_item, given_by, Begins, Opens, Decides, AreTallied, BeginsAll};
ghost use Rattle.navigator.specs.Steps.{TakesValue, TakesSignal, Completes, EndsAttempt};
ghost use Rattle.navigator.specs.Events.{happening, nothing, IsUsable, Receives, ChangesScope, ChangesState, ChangesAt};
ghost use Rattle.navigator.specs.Reading.{inner_of};
ghost use Rattle.navigator.specs.declared.scopes.NestedState.{NestedState as Nest, out-NestedState};
ghost use Rattle.navigator.specs.declared.scopes.ActivityState.{ActivityState as Stands, Program, Nested};
ghost use Rattle.navigator.specs.declared.scopes.ScopeState.{ScopeState as Scope};

use crate::scopes::{ActivityState, NestedStage, NestedState, ScopeState, attempt_place, place_of};
use blocks_subprocs::{Next, base_input, graph_of, next_attempt, next_input, output_of};
use containers::with_return_code;
use dead_paths::signals_of;
use flow_model::{
    Activity, Container, Fate, Graph, Library, List, Message, Name, Part, Path, SourceEnd,
};
use std::alloc::{AllocError, Global};

/// What follows from an event: the messages that it puts, and the items that became ready.
#[derive(Drop)]
pub struct Effects {
    pub signals: Vec<Message>,
    pub begins: Vec<Message>,
    pub ends: Vec<Message>,
    pub ready: Vec<Path>,
}

impl Effects {
    pub fn new(alloc: Global) -> Effects
        ensures { told result ≡ nothing }
    {
        Effects {
            signals: Vec::new(alloc),
            begins: Vec::new(alloc),
            ends: Vec::new(alloc),
            ready: Vec::new(alloc),
        }
    }

    /// Adds signals.
    fn add_signals(&mut self, signals: List<Message>) -> Result<(), AllocError>
        ensures { OnOk result (told self.new ≡ record (told self.old) {
          signals = (told self.old).signals
              ++ signals;
        }) }
    {
        if self.signals.is_empty() {
            self.signals = signals.into_vec();
            return Ok(());
        }
        let mut signals = signals.into_vec();
        self.signals.append(&mut signals)
    }

    /// Adds the BEGIN of a scope.
    fn add_begin(&mut self, scope: Path) -> Result<(), AllocError>
        ensures { OnOk result (told self.new ≡ record (told self.old) {
          begins = (told self.old).begins
              ++ Begin scope ∷ [];
        }) }
    {
        self.begins.push(Message::Begin(scope))?;
        Ok(())
    }

    /// Adds the END of a scope of which this many activities are left, if it is due; the root has none.
    fn add_end(&mut self, alloc: Global, path: &Path, left: usize) -> Result<(), AllocError>
        ensures { OnOk result (told self.new ≡ record (told self.old) {
          ends = (told self.old).ends
              ++ end_after path.now left;
        }) }
    {
        if left == 0 && !path.parts.is_empty() {
            self.ends.push(Message::End(path.copy(alloc)?))?;
        }
        Ok(())
    }

    /// Adds an item that became ready.
    fn add_ready(&mut self, item: Path) -> Result<(), AllocError>
        ensures { OnOk result (told self.new ≡ record (told self.old) { ready = (told self.old).ready ++ item ∷ [] }) }
    {
        self.ready.push(item)?;
        Ok(())
    }

    /// Adds the item of an activity with this fate, if an attempt is ready.
    fn add_next(
        &mut self,
        alloc: Global,
        path: &Path,
        activity: &Activity,
        fate: Fate,
    ) -> Result<(), AllocError>
        ensures { OnOk result (told self.new ≡ record (told self.old) {
          ready = (told self.old).ready
              ++ ready_item path.now activity.now.name fate;
        }) }
    {
        match fate {
            Fate::Waiting => Ok(()),
            Fate::Ready(attempt) => self.add_ready(path_below(alloc, path, activity, attempt)?),
            Fate::Running(_) => Ok(()),
            Fate::Finished(_) => Ok(()),
            Fate::Dead => Ok(()),
        }
    }
}

/// An event of a scope.
#[derive(Drop)]
pub enum Event<'a> {
    Begin,
    /// The signal of a connector that leads to this activity.
    Signal(&'a Name, bool),
    /// The end of an attempt of this activity.
    End(&'a Name, u64),
    /// The completion of the open attempt of this activity, by a person or not.
    Complete(&'a Name, Container, Option<Name>),
}

/// What changing a scope rests on.
#[derive(Clone, Copy)]
pub struct Context<'a> {
    pub alloc: Global,
    pub library: &'a Library,
    pub clock: u64,
}

/// The path of an attempt of an activity of a scope.
pub fn path_below(
    alloc: Global,
    scope: &Path,
    activity: &Activity,
    attempt: u64,
) -> Result<Path, AllocError>
    ensures { IfOk result (λ p. p ≡ path_to scope.now (part activity.now.name attempt)) }
{
    scope.below(alloc, &activity.name, attempt)
}

impl ActivityState {
    /// The first attempt of a program activity is ready.
    fn make_ready(&mut self, clock: u64)
        ensures { self.new ≡ ready_state clock self.old }
    {
        match self {
            ActivityState::Program(state) => state.make_ready(clock),
            ActivityState::Nested(_) => {}
        }
    }

    /// The next attempt of a program activity is completed; answers its fate.
    fn complete(
        &mut self,
        output: Container,
        performer: Option<Name>,
        finished: bool,
        clock: u64,
    ) -> Result<Fate, AllocError>
        ensures fate { (p : State) → self.old ≡ Program p
            → IfOk result (λ f. f ≡ fate_of (completed p (record { output = output; performer = performer }) finished
            clock)) }
        ensures state { OnOk result (self.new ≡ completed_state
            (record { output = output; performer = performer }) finished clock self.old) }
    {
        match self {
            ActivityState::Program(state) => {
                state.complete(output, performer, finished, clock)?;
                Ok(state.fate())
            }
            ActivityState::Nested(_) => Ok(Fate::Waiting),
        }
    }

    /// A block or process activity is finished.
    fn finish(&mut self)
        ensures { self.new ≡ finished_state self.old }
    {
        match self {
            ActivityState::Program(_) => {}
            ActivityState::Nested(state) => state.stage = NestedStage::Finished,
        }
    }

    /// The join is false.
    fn kill(&mut self)
        ensures { self.new ≡ dead_state self.old }
    {
        match self {
            ActivityState::Program(state) => state.kill(),
            ActivityState::Nested(state) => state.stage = NestedStage::Dead,
        }
    }
}

/// Whether an activity ends with an attempt that gave this.
fn is_last(activity: &Activity, output: &Container) -> bool
    ensures { result ≡ holds activity.now.exit output.now }
{
    match next_attempt(&activity.exit, output, 0) {
        Next::Finish => true,
        Next::Again(_) => false,
    }
}

impl ScopeState {
    /// Adds the next scope of a block or process activity, whose input this is, and sends its BEGIN.
    fn begin_attempt<'x>(
        &mut self,
        with: Context<'x>,
        path: &Path,
        place: usize,
        activity: &'x Activity,
        input: Container,
        effects: &mut Effects,
    ) -> Result<(), AllocError>
        ensures { (was : Stands) → slice_get (fields self.old).states place ≡ Some was
            → OnOk result (Begins (graph_in with.entry.library.now.templates activity.now.work) input path.now place
            activity.now was (fields self.old) (fields self.new) (told effects.old) (told effects.new)) }
    {
        let Some(graph) = graph_of(with.library, &activity.work) else {
            return Ok(());
        };
        let Some(state) = self.states.get_mut(place) else {
            return Ok(());
        };
        let scope = ScopeState::new(with.alloc, graph, input)?;
        let attempt = state.add_scope(scope)?;
        let below = path_below(with.alloc, path, activity, attempt)?;
        effects.add_begin(below)?;
        Ok(())
    }

    /// The first attempt of the activity at a place is ready, if it is a program activity.
    fn set_ready(&mut self, place: usize, clock: u64)
        ensures { fields self.new ≡ changed_at (ready_state clock) place (slice_get (fields self.old).states place)
            (fields self.old) }
    {
        if let Some(state) = self.states.get_mut(place) {
            state.make_ready(clock);
        }
    }

    /// The first attempt of a program activity is ready.
    fn open_item<'x>(
        &mut self,
        with: Context<'x>,
        path: &Path,
        place: usize,
        activity: &'x Activity,
        effects: &mut Effects,
    ) -> Result<(), AllocError>
        ensures { (p : State) → slice_get (fields self.old).states place ≡ Some (Program p)
            → OnOk result ((fields self.new ≡ with_state place (Program (made_ready p with.entry.clock))
            (fields self.old)) × (told effects.new ≡ record
            (told effects.old) {
              ready = (told effects.old).ready
                  ++ path_to path.now (part activity.now.name 1) ∷ [];
            })) }
    {
        self.set_ready(place, with.clock);
        effects.add_ready(path_below(with.alloc, path, activity, 1)?)?;
        Ok(())
    }

    /// The first scope of a block or process activity: its input is the base input.
    fn open_scope<'x>(
        &mut self,
        with: Context<'x>,
        graph: &'x Graph,
        path: &Path,
        place: usize,
        activity: &'x Activity,
        effects: &mut Effects,
    ) -> Result<(), AllocError>
        ensures { place < 2 ^ 32 → IsFeeding graph.now
            → slice_get (out-Graph graph.now).activities place ≡ Some activity.now → (was : Stands)
            → slice_get (fields self.old).states place ≡ Some was
            → OnOk result (Begins (graph_in with.entry.library.now.templates activity.now.work)
            (base_of graph.now activity.now place (fields self.old).input (ends_of (fields self.old).ends)) path.now
            place activity.now was (fields self.old) (fields self.new) (told effects.old) (told effects.new)) }
    {
        let number = u32::try_from(place).unwrap_or(u32::MAX);
        let input = base_input(with.alloc, graph, number, &self.input, &self.ends)?;
        self.begin_attempt(with, path, place, activity, input, effects)
    }

    /// The join of the activity at a place is true: its first attempt is made.
    fn open<'x>(
        &mut self,
        with: Context<'x>,
        graph: &'x Graph,
        path: &Path,
        place: usize,
        activity: &'x Activity,
        effects: &mut Effects,
    ) -> Result<(), AllocError>
        ensures { place < 2 ^ 32 → IsFeeding graph.now
            → slice_get (out-Graph graph.now).activities place ≡ Some activity.now
            → OnOk result (Opens with.entry.library.now.templates graph.now path.now with.entry.clock place activity.now
            (slice_get (fields self.old).states place) (fields self.old) (fields self.new) (told effects.old)
            (told effects.new)) }
    {
        match self.states.get(place) {
            None => Ok(()),
            Some(ActivityState::Program(_)) => self.open_item(with, path, place, activity, effects),
            Some(ActivityState::Nested(_)) => {
                self.open_scope(with, graph, path, place, activity, effects)?;
                Ok(())
            }
        }
    }

    /// The activity at a place has ended so.
    fn set_end(&mut self, place: usize, end: SourceEnd)
        ensures { fields self.new ≡ settled place end (fields self.old) }
    {
        if let Some(known) = self.ends.get_mut(place) {
            *known = end;
        }
        self.unsettled = self.unsettled.saturating_sub(1);
    }

    /// The activity at a place is settled: its signals go out, and the scope's END where it was the last.
    fn settle<'x>(
        &mut self,
        with: Context<'x>,
        graph: &'x Graph,
        path: &Path,
        place: usize,
        end: SourceEnd,
        effects: &mut Effects,
    ) -> Result<(), AllocError>
        ensures state { OnOk result (fields self.new ≡ settled place end (fields self.old)) }
        ensures tells { place < 2 ^ 32 → IsOutgoing graph.now
            → OnOk result (told effects.new ≡ tell_settled graph.now path.now place end
            ((fields self.old).unsettled - 1) (told effects.old)) }
    {
        let number = u32::try_from(place).unwrap_or(u32::MAX);
        let signals = signals_of(with.alloc, graph, path, number, &end)?;
        effects.add_signals(signals)?;
        self.set_end(place, end);
        effects.add_end(with.alloc, path, self.unsettled)
    }

    /// The activity at a place is dead.
    fn set_dead(&mut self, place: usize)
        ensures { fields self.new ≡ changed_at dead_state place (slice_get (fields self.old).states place)
            (fields self.old) }
    {
        if let Some(state) = self.states.get_mut(place) {
            state.kill();
        }
    }

    /// The join of the activity at a place is false.
    fn kill<'x>(
        &mut self,
        with: Context<'x>,
        graph: &'x Graph,
        path: &Path,
        place: usize,
        effects: &mut Effects,
    ) -> Result<(), AllocError>
        ensures state { OnOk result (fields self.new ≡ dies place (fields self.old)) }
        ensures tells { place < 2 ^ 32 → IsOutgoing graph.now
            → OnOk result (told effects.new ≡ tell_settled graph.now path.now place Dead
            ((fields self.old).unsettled - 1) (told effects.old)) }
    {
        self.set_dead(place);
        self.settle(with, graph, path, place, SourceEnd::Dead, effects)
    }

    /// Decides the activity at a place, where its join is known.
    fn decide<'x>(
        &mut self,
        with: Context<'x>,
        graph: &'x Graph,
        path: &Path,
        place: usize,
        effects: &mut Effects,
    ) -> Result<(), AllocError>
        ensures { place < 2 ^ 32 → IsFeeding graph.now → IsOutgoing graph.now → (activity : Node)
            → slice_get (out-Graph graph.now).activities place ≡ Some activity → (t : Tally)
            → slice_get (fields self.old).tallies place ≡ Some t → (vs : Seq (Option Bool)) → Counts t vs
            → OnOk result (Decides with.entry.library.now.templates graph.now path.now with.entry.clock place activity
            (joined activity.join vs) (fields self.old) (fields self.new) (told effects.old) (told effects.new)) }
    {
        let Some(activity) = graph.activities.as_slice().get(place) else {
            return Ok(());
        };
        let Some(tally) = self.tallies.get(place) else {
            return Ok(());
        };
        match tally.join(activity.join) {
            None => Ok(()),
            Some(true) => self.open(with, graph, path, place, activity, effects),
            Some(false) => self.kill(with, graph, path, place, effects),
        }
    }

    /// The BEGIN of the scope is taken: activities without connectors are decided.
    fn begin<'x>(
        &mut self,
        with: Context<'x>,
        graph: &'x Graph,
        path: &Path,
        effects: &mut Effects,
    ) -> Result<(), AllocError>
        ensures { IsFeeding graph.now → IsOutgoing graph.now → length (out-Graph graph.now).activities ≤ 2 ^ 32
            → (values : ℕ → Seq (Option Bool)) → AreTallied graph.now values (fields self.old).tallies
            → OnOk result (BeginsAll with.entry.library.now.templates graph.now path.now with.entry.clock values
            (fields self.old) (fields self.new) (told effects.old) (told effects.new)) }
    {
        self.begun = true;
        for place in 0..graph.activities.len() {
            self.decide(with, graph, path, place, effects)?;
        }
        Ok(())
    }

    /// One more value of the connectors that lead to the activity at a place is known.
    fn take_value(&mut self, place: usize, value: bool)
        ensures { (t : Tally) → slice_get (fields self.old).tallies place ≡ Some t → (xs : Seq (Option Bool))
            → (ys : Seq (Option Bool)) → Counts t (xs ++ None ∷ ys)
            → TakesValue place (xs ++ Some value ∷ ys) (fields self.old) (fields self.new) }
    {
        if let Some(tally) = self.tallies.get_mut(place) {
            tally.take(value);
        }
    }

    /// A signal to the activity at a place is taken.
    fn signal<'x>(
        &mut self,
        with: Context<'x>,
        graph: &'x Graph,
        path: &Path,
        place: usize,
        value: bool,
        effects: &mut Effects,
    ) -> Result<(), AllocError>
        ensures { place < 2 ^ 32 → IsFeeding graph.now → IsOutgoing graph.now → (activity : Node)
            → slice_get (out-Graph graph.now).activities place ≡ Some activity → (t : Tally)
            → slice_get (fields self.old).tallies place ≡ Some t → (xs : Seq (Option Bool)) → (ys : Seq (Option Bool))
            → Counts t (xs ++ None ∷ ys) → OnOk result (TakesSignal with.entry.library.now.templates graph.now path.now
            with.entry.clock place activity (xs ++ Some value ∷ ys) (fields self.old) (fields self.new)
            (told effects.old) (told effects.new)) }
    {
        self.take_value(place, value);
        self.decide(with, graph, path, place, effects)?;
        Ok(())
    }

    /// The output of a scope of the activity at a place, with the return code 0 before it.
    fn inner_output<'x>(
        &self,
        with: Context<'x>,
        place: usize,
        activity: &'x Activity,
        attempt: u64,
    ) -> Result<Option<Container>, AllocError>
        ensures { (h : Process) → graph_in with.entry.library.now.templates activity.now.work ≡ Some h → IsSinking h
            → (s : Scope) → inner_of self.now place attempt ≡ Some s → IfOk result (λ out. out ≡ Some (given_by h s)) }
    {
        let Some(graph) = graph_of(with.library, &activity.work) else {
            return Ok(None);
        };
        let Some(scope) = self.inner(place, attempt) else {
            return Ok(None);
        };
        let output = output_of(with.alloc, graph, &scope.input, &scope.ends)?;
        Ok(Some(with_return_code(with.alloc, &output)?))
    }

    /// The activity at a place is finished, if it is a block or process activity.
    fn set_finished(&mut self, place: usize)
        ensures { fields self.new ≡ changed_at finished_state place (slice_get (fields self.old).states place)
            (fields self.old) }
    {
        if let Some(state) = self.states.get_mut(place) {
            state.finish();
        }
    }

    /// The last scope of the activity at a place has ended with this output.
    fn finish<'x>(
        &mut self,
        with: Context<'x>,
        graph: &'x Graph,
        path: &Path,
        place: usize,
        output: Container,
        effects: &mut Effects,
    ) -> Result<(), AllocError>
        ensures state { OnOk result (fields self.new ≡ finishes place output (fields self.old)) }
        ensures tells { place < 2 ^ 32 → IsOutgoing graph.now
            → OnOk result (told effects.new ≡ tell_settled graph.now path.now place (Finished output)
            ((fields self.old).unsettled - 1) (told effects.old)) }
    {
        self.set_finished(place);
        self.settle(
            with,
            graph,
            path,
            place,
            SourceEnd::Finished(output),
            effects,
        )
    }

    /// The activity at a place goes on after a scope that has ended with this output.
    fn go_on<'x>(
        &mut self,
        with: Context<'x>,
        graph: &'x Graph,
        path: &Path,
        place: usize,
        activity: &'x Activity,
        output: &Container,
        effects: &mut Effects,
    ) -> Result<(), AllocError>
        ensures { place < 2 ^ 32 → IsFeeding graph.now → IsLooping graph.now
            → slice_get (out-Graph graph.now).activities place ≡ Some activity.now → (was : Stands)
            → slice_get (fields self.old).states place ≡ Some was
            → OnOk result (Begins (graph_in with.entry.library.now.templates activity.now.work)
            (looped (out-Graph graph.now).loops place output.now
            (base_of graph.now activity.now place (fields self.old).input (ends_of (fields self.old).ends))) path.now
            place activity.now was (fields self.old) (fields self.new) (told effects.old) (told effects.new)) }
    {
        let number = u32::try_from(place).unwrap_or(u32::MAX);
        let base = base_input(with.alloc, graph, number, &self.input, &self.ends)?;
        let input = next_input(with.alloc, graph, number, base, output)?;
        self.begin_attempt(with, path, place, activity, input, effects)
    }

    /// The END of an attempt of the activity at a place is taken.
    fn end<'x>(
        &mut self,
        with: Context<'x>,
        graph: &'x Graph,
        path: &Path,
        place: usize,
        attempt: u64,
        effects: &mut Effects,
    ) -> Result<(), AllocError>
        ensures { place < 2 ^ 32 → IsFeeding graph.now → IsOutgoing graph.now → IsLooping graph.now → (activity : Node)
            → slice_get (out-Graph graph.now).activities place ≡ Some activity → (h : Process)
            → graph_in with.entry.library.now.templates activity.work ≡ Some h → IsSinking h → (was : Stands)
            → slice_get (fields self.old).states place ≡ Some was → (s : Scope)
            → inner_of self.old place attempt ≡ Some s → OnOk result
            (EndsAttempt graph.now h path.now place activity was (given_by h s) (fields self.old) (fields self.new)
            (told effects.old) (told effects.new)) }
    {
        let Some(activity) = graph.activities.as_slice().get(place) else {
            return Ok(());
        };
        let Some(output) = self.inner_output(with, place, activity, attempt)? else {
            return Ok(());
        };
        if is_last(activity, &output) {
            self.finish(with, graph, path, place, output, effects)?;
            return Ok(());
        }
        self.go_on(with, graph, path, place, activity, &output, effects)?;
        Ok(())
    }

    /// The next attempt of the program activity at a place is completed; answers its fate.
    fn complete_attempt(
        &mut self,
        place: usize,
        output: Container,
        performer: Option<Name>,
        finished: bool,
        clock: u64,
    ) -> Result<Fate, AllocError>
        ensures fate { (p : State) → slice_get (fields self.old).states place ≡ Some (Program p)
            → IfOk result (λ f. f ≡ fate_of (completed p (record { output = output; performer = performer }) finished
            clock)) }
        ensures state { OnOk result (fields self.new ≡ changed_at
            (completed_state (record { output = output; performer = performer }) finished clock) place
            (slice_get (fields self.old).states place) (fields self.old)) }
    {
        match self.states.get_mut(place) {
            None => Ok(Fate::Waiting),
            Some(state) => state.complete(output, performer, finished, clock),
        }
    }

    /// The open attempt of the program activity at a place is completed.
    fn complete<'x>(
        &mut self,
        with: Context<'x>,
        graph: &'x Graph,
        path: &Path,
        place: usize,
        output: Container,
        performer: Option<Name>,
        effects: &mut Effects,
    ) -> Result<(), AllocError>
        ensures { place < 2 ^ 32 → IsOutgoing graph.now → (activity : Node)
            → slice_get (out-Graph graph.now).activities place ≡ Some activity → (p : State)
            → slice_get (fields self.old).states place ≡ Some (Program p)
            → OnOk result (Completes graph.now path.now with.entry.clock place activity p
            (record { output = output; performer = performer }) (fields self.old) (fields self.new) (told effects.old)
            (told effects.new)) }
    {
        let Some(activity) = graph.activities.as_slice().get(place) else {
            return Ok(());
        };
        let Some(ActivityState::Program(_)) = self.states.get(place) else {
            return Ok(());
        };
        let finished = is_last(activity, &output);
        let copy = output.copy(with.alloc)?;
        let fate = self.complete_attempt(place, output, performer, finished, with.clock)?;
        if finished {
            self.settle(with, graph, path, place, SourceEnd::Finished(copy), effects)?;
            return Ok(());
        }
        effects.add_next(with.alloc, path, activity, fate)?;
        Ok(())
    }

    /// What an event does to this scope.
    fn receive<'x>(
        &mut self,
        with: Context<'x>,
        graph: &'x Graph,
        path: &Path,
        event: Event<'_>,
        effects: &mut Effects,
    ) -> Result<(), AllocError>
        ensures { OnOk result (IsUsable graph.now → Receives with.entry.library.now.templates path.now with.entry.clock
            (happening event.entry) (told effects.old) (told effects.new) graph.now self.old self.new) }
    {
        match event {
            Event::Begin => {
                self.begin(with, graph, path, effects)?;
                Ok(())
            }
            Event::Signal(name, value) => {
                let Some(place) = place_of(graph, name) else {
                    return Ok(());
                };
                self.signal(with, graph, path, place, value, effects)?;
                Ok(())
            }
            Event::End(name, attempt) => {
                let Some(place) = place_of(graph, name) else {
                    return Ok(());
                };
                self.end(with, graph, path, place, attempt, effects)?;
                Ok(())
            }
            Event::Complete(name, output, performer) => {
                let Some(place) = place_of(graph, name) else {
                    return Ok(());
                };
                self.complete(with, graph, path, place, output, performer, effects)?;
                Ok(())
            }
        }
    }

    /// What an event does to the scope to which the parts lead; the path is that scope's.
    #[cycle(change)]
    pub fn change<'x>(
        &mut self,
        with: Context<'x>,
        graph: &'x Graph,
        path: &Path,
        parts: &[Part],
        event: Event<'_>,
        effects: &mut Effects,
    ) -> Result<(), AllocError>
        ensures { OnOk result (ChangesAt with.entry.library.now.templates
            (λ g s t. IsUsable g → Receives with.entry.library.now.templates path.now with.entry.clock
            (happening event.entry) (told effects.old) (told effects.new) g s t) parts.now graph.now self.old
            self.new) }
    {
        match parts {
            [] => {
                self.receive(with, graph, path, event, effects)?;
                Ok(())
            }
            [part, rest @ ..] => {
                self.change_inside(with, graph, path, part, rest, event, effects)?;
                Ok(())
            }
        }
    }

    /// What an event does to a scope inside this one.
    #[cycle(change)]
    fn change_inside<'x>(
        &mut self,
        with: Context<'x>,
        graph: &'x Graph,
        path: &Path,
        part: &Part,
        rest: &[Part],
        event: Event<'_>,
        effects: &mut Effects,
    ) -> Result<(), AllocError>
        ensures { OnOk result (ChangesAt with.entry.library.now.templates
            (λ g s t. IsUsable g → Receives with.entry.library.now.templates path.now with.entry.clock
            (happening event.entry) (told effects.old) (told effects.new) g s t)
            (part.now ∷ rest.now) graph.now self.old self.new) }
    {
        let Some(place) = place_of(graph, &part.name) else {
            return Ok(());
        };
        let Some(activity) = graph.activities.as_slice().get(place) else {
            return Ok(());
        };
        let (Some(inner), Some(attempt)) = (
            graph_of(with.library, &activity.work),
            attempt_place(part.attempt),
        ) else {
            return Ok(());
        };
        match self.states.get_mut(place) {
            None => Ok(()),
            Some(state) => {
                state.change_inner(attempt, with, inner, path, rest, event, effects)?;
                Ok(())
            }
        }
    }
}

impl ActivityState {
    /// What an event does to a scope of this activity, or inside it.
    #[cycle(change)]
    fn change_inner<'x>(
        &mut self,
        attempt: usize,
        with: Context<'x>,
        graph: &'x Graph,
        path: &Path,
        rest: &[Part],
        event: Event<'_>,
        effects: &mut Effects,
    ) -> Result<(), AllocError>
        ensures { (n : Nest) → self.old ≡ Nested n → (inner : Scope)
            → slice_get (out-NestedState n).scopes.items attempt ≡ Some inner
            → OnOk result (ChangesState (ChangesAt with.entry.library.now.templates
            (λ g s t. IsUsable g → Receives with.entry.library.now.templates path.now with.entry.clock
            (happening event.entry) (told effects.old) (told effects.new) g s t) rest.now graph.now) attempt inner n
            self.new) }
    {
        match self {
            ActivityState::Program(_) => Ok(()),
            ActivityState::Nested(state) => {
                state.change_scope(attempt, with, graph, path, rest, event, effects)?;
                Ok(())
            }
        }
    }
}

impl NestedState {
    #[cycle(change)]
    fn change_scope<'x>(
        &mut self,
        attempt: usize,
        with: Context<'x>,
        graph: &'x Graph,
        path: &Path,
        rest: &[Part],
        event: Event<'_>,
        effects: &mut Effects,
    ) -> Result<(), AllocError>
        ensures { (inner : Scope) → slice_get (out-NestedState self.old).scopes.items attempt ≡ Some inner
            → OnOk result (ChangesScope (ChangesAt with.entry.library.now.templates
            (λ g s t. IsUsable g → Receives with.entry.library.now.templates path.now with.entry.clock
            (happening event.entry) (told effects.old) (told effects.new) g s t) rest.now graph.now) attempt inner
            self.old self.new) }
    {
        match self.scopes.get_mut(attempt) {
            None => Ok(()),
            Some(scope) => {
                scope.change(with, graph, path, rest, event, effects)?;
                Ok(())
            }
        }
    }
}

/// The messages of effects in the order in which they are put.
pub fn messages_of(effects: Effects) -> Result<(List<Message>, Vec<Path>), AllocError>
    ensures { IfOk result (λ given. (given.0 ≡ (told effects).signals ++ (told effects).begins ++ (told effects).ends)
        × (given.1.items ≡ (told effects).ready)) }
{
    let Effects {
        mut signals,
        mut begins,
        mut ends,
        ready,
    } = effects;
    signals.append(&mut begins)?;
    signals.append(&mut ends)?;
    Ok((List::from_vec(signals), ready))
}
