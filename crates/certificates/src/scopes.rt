//! What the lines so far tell of the scopes of a root.
ghost use Rattle.std.specs.Prelude.{◌≡◌, ◌++◌, IfOk, OnOk, option_map, slice_get, true};
ghost use Rattle.std.specs.Option.{option_map_or, option_to_list};
ghost use Rattle.std.specs.List.{list_all};
ghost use Rattle.blocks_subprocs.specs.Ends.{ends_of};
ghost use Rattle.fate_laws.specs.Equations.{value_in};
ghost use Rattle.fate_laws.specs.Layout.{IsLaid};
ghost use Rattle.flow_model.specs.declared.graphs.Graph.{out-Graph};
ghost use Rattle.flow_model.specs.declared.instances.Path.{Path as PathOf};
ghost use Rattle.flow_model.specs.Fates.{is_settled as is_settled_end};
ghost use Rattle.flow_model.specs.Scopes.{is_fed as is_fed_by, is_ready_source};
ghost use Rattle.certificates.specs.Told.{opened, beginning, changed, with_end, with_output, join_in};
ghost use Rattle.certificates.specs.Told.{first_input as first_input_of, scope_gives, is_known as is_known_so};
ghost use Rattle.certificates.specs.Told.{is_active as is_active_in};
ghost use Rattle.certificates.specs.Kept.{opened_of, placed_of, told_by};

use crate::graphs::Placed;
use blocks_subprocs::{first_input, output_of};
use containers::with_return_code;
use dead_paths::{connector_value, join, row};
use flow_model::{Container, Control, DataLine, Graph, MapEnd, Path, SourceEnd, path_text};
use indexmap::IndexMap;
use std::alloc::{AllocError, Global};

/// What the lines so far tell of a scope that begins.
#[derive(Drop)]
pub struct Begun<'a> {
    pub graph: &'a Graph,
    pub input: Container,
    /// How each activity has ended, by its settled line.
    pub ends: Vec<SourceEnd>,
    /// What the attempt gave that the scope is, where the scope has ended.
    pub output: Option<Container>,
}

/// The scopes that begin, by their texts.
pub type Scopes<'a> = IndexMap<Vec<u8>, Begun<'a>>;

fn is_settled(end: &SourceEnd) -> bool
    ensures { result ≡ is_settled_end end.now }
{
    match end {
        SourceEnd::Unsettled => false,
        SourceEnd::Dead => true,
        SourceEnd::Finished(_) => true,
    }
}

/// The value of a connector.
fn value_of(graph: &Graph, control: &Control, ends: &[SourceEnd]) -> Option<bool>
    ensures { IsLaid graph.now → result ≡ value_in (out-Graph graph.now).controls (ends_of ends.now) control.now }
{
    match ends.get(control.from as usize) {
        None => None,
        Some(end) => connector_value(graph, control, end),
    }
}

/// The value of the connector at a place, if it is there.
fn value_at(graph: &Graph, ends: &[SourceEnd], place: u32) -> Option<Option<bool>>
    ensures { IsLaid graph.now → result ≡ option_map (value_in (out-Graph graph.now).controls (ends_of ends.now))
        (slice_get (out-Graph graph.now).controls place) }
{
    match graph.controls.as_slice().get(place as usize) {
        None => None,
        Some(control) => Some(value_of(graph, control, ends)),
    }
}

/// Adds a value, if there is one.
fn add(values: &mut Vec<Option<bool>>, value: Option<Option<bool>>) -> Result<(), AllocError>
    ensures { OnOk result (values.new.items ≡ values.old.items ++ option_to_list value) }
{
    if let Some(value) = value {
        values.push(value)?;
    }
    Ok(())
}

/// Whether what feeds the data line at a place is settled.
fn is_ready_at(lines: &[DataLine], ends: &[SourceEnd], place: u32) -> bool
    ensures { result ≡ option_map_or (λ line. is_ready_source line.from (ends_of ends.now))
        (slice_get lines.now place) true }
{
    match lines.get(place as usize) {
        None => true,
        Some(line) => is_ready(line, ends),
    }
}

/// Whether what feeds a data line is settled.
fn is_ready(line: &DataLine, ends: &[SourceEnd]) -> bool
    ensures { result ≡ is_ready_source line.now.from (ends_of ends.now) }
{
    match line.from {
        MapEnd::Border => true,
        MapEnd::Activity(from) => match ends.get(from as usize) {
            None => false,
            Some(end) => is_settled(end),
        },
    }
}

/// Whether what feeds the data lines at these places is settled.
fn are_ready(lines: &[DataLine], ends: &[SourceEnd], places: &[u32]) -> bool
    ensures { result ≡ list_all (λ p. option_map_or (λ line. is_ready_source line.from (ends_of ends.now))
        (slice_get lines.now p) true) places.now }
{
    places.iter().all(|place| is_ready_at(lines, ends, *place))
}

/// Whether a join is known, and so.
pub fn is_known(truth: bool, join: Option<bool>) -> bool
    ensures { result ≡ is_known_so truth join }
{
    match join {
        None => false,
        Some(value) => value == truth,
    }
}

impl<'a> Begun<'a> {
    /// A scope as it begins.
    pub fn new(alloc: Global, graph: &'a Graph, input: Container) -> Result<Begun<'a>, AllocError>
        ensures { IfOk result (λ b. opened_of b ≡ opened graph.now input) }
    {
        let mut ends = Vec::new(alloc);
        for _ in 0..graph.activities.len() {
            ends.push(SourceEnd::Unsettled)?;
        }
        Ok(Begun {
            graph,
            input,
            ends,
            output: None,
        })
    }

    /// Keeps how an activity has ended.
    fn settle(&mut self, place: u32, end: SourceEnd)
        ensures { opened_of self.new ≡ with_end place end (opened_of self.old) }
    {
        let place = place as usize;
        if place < self.ends.len() {
            self.ends[place] = end;
        }
    }

    /// Keeps what the scope gave.
    fn give(&mut self, output: Container)
        ensures { opened_of self.new ≡ with_output output (opened_of self.old) }
    {
        self.output = Some(output);
    }

    /// The join of an activity; None where a source isn't settled.
    pub fn join_of(&self, alloc: Global, found: Placed<'_>) -> Result<Option<bool>, AllocError>
        ensures { IsLaid self.now.graph.now → IfOk result
            (λ v. v ≡ join_in (opened_of self.now) (placed_of found.entry)) }
    {
        let mut values = Vec::new(alloc);
        for place in row(self.graph.wiring.incoming.as_slice(), found.place) {
            let value = value_at(self.graph, &self.ends, *place);
            add(&mut values, value)?;
        }
        Ok(join(found.activity.join, &values))
    }

    /// Whether the sources of the data lines to an activity are settled.
    fn is_fed(&self, place: u32) -> bool
        ensures { IsLaid self.now.graph.now → result ≡ is_fed_by (out-Graph self.now.graph.now).lines place
            (ends_of self.now.ends.items) }
    {
        let places = row(self.graph.wiring.feeding.as_slice(), place);
        are_ready(self.graph.lines.as_slice(), &self.ends, places)
    }

    /// Whether attempts of an activity start.
    pub fn is_active(&self, alloc: Global, found: Placed<'_>) -> Result<bool, AllocError>
        ensures { IsLaid self.now.graph.now → IfOk result
            (λ yes. yes ≡ is_active_in (opened_of self.now) (placed_of found.entry)) }
    {
        Ok(is_known(true, self.join_of(alloc, found)?) && self.is_fed(found.place))
    }

    /// Whether all activities are settled.
    fn is_complete(&self) -> bool
        ensures { result ≡ list_all is_settled_end self.now.ends.items }
    {
        self.ends.iter().all(|end| is_settled(end))
    }

    /// The input of attempt 1 of an activity.
    pub fn first_input(&self, alloc: Global, found: Placed<'_>) -> Result<Container, AllocError>
        ensures { IsLaid self.now.graph.now → IfOk result
            (λ c. c ≡ first_input_of (opened_of self.now) (placed_of found.entry)) }
    {
        first_input(
            alloc,
            self.graph,
            found.activity,
            found.place,
            &self.input,
            &self.ends,
        )
    }

    /// What the attempt gave that the scope is, where all its activities are settled.
    pub fn gives(&self, alloc: Global) -> Result<Option<Container>, AllocError>
        ensures { IsLaid self.now.graph.now → IfOk result (λ out. out ≡ scope_gives (opened_of self.now)) }
    {
        if !self.is_complete() {
            return Ok(None);
        }
        let output = output_of(alloc, self.graph, &self.input, &self.ends)?;
        Ok(Some(with_return_code(alloc, &output)?))
    }
}

/// The scope of a path, where a line tells that it begins.
pub fn scope_at<'a, 'b>(
    alloc: Global,
    scopes: &'b Scopes<'a>,
    scope: &Path,
) -> Result<Option<&'b Begun<'a>>, AllocError>
    ensures { IfOk result (λ found. option_map (λ b. opened_of b.now) found ≡ told_by scopes.now scope.now) }
{
    let key = path_text(alloc, scope)?;
    Ok(scopes.get(key.as_slice()))
}

/// Keeps that a scope begins; what is known of it stays.
pub fn begin<'a>(
    alloc: Global,
    scopes: &mut Scopes<'a>,
    scope: &Path,
    begun: Begun<'a>,
) -> Result<(), AllocError>
    ensures { OnOk result ((p : PathOf) → told_by scopes.new p
        ≡ beginning (told_by scopes.old) scope.now (opened_of begun.entry) p) }
{
    let key = path_text(alloc, scope)?;
    if !scopes.contains_key(key.as_slice()) {
        scopes.insert(key, begun)?;
    }
    Ok(())
}

/// Keeps how an activity of a scope has ended.
pub fn settle(
    alloc: Global,
    scopes: &mut Scopes<'_>,
    scope: &Path,
    place: u32,
    end: SourceEnd,
) -> Result<(), AllocError>
    ensures { OnOk result ((p : PathOf) → told_by scopes.new p
        ≡ changed (told_by scopes.old) scope.now (with_end place end) p) }
{
    let key = path_text(alloc, scope)?;
    if let Some(begun) = scopes.get_mut(key.as_slice()) {
        begun.settle(place, end);
    }
    Ok(())
}

/// Keeps what a scope gave.
pub fn give(
    alloc: Global,
    scopes: &mut Scopes<'_>,
    scope: &Path,
    output: Container,
) -> Result<(), AllocError>
    ensures { OnOk result ((p : PathOf) → told_by scopes.new p
        ≡ changed (told_by scopes.old) scope.now (with_output output) p) }
{
    let key = path_text(alloc, scope)?;
    if let Some(begun) = scopes.get_mut(key.as_slice()) {
        begun.give(output);
    }
    Ok(())
}
