//! Connector values and the signals that tell them.
ghost use Rattle.std.specs.Prelude.{◌≡◌, ◌++◌, Option, None, Some, slice_get, option_and_then, false, IfOk};
ghost use Rattle.std.specs.Prelude.{OnOk};
ghost use Rattle.std.specs.List.{list_any};
ghost use Rattle.std.specs.Option.{option_map_or, option_to_list};
ghost use Rattle.flow_model.specs.Fates.{connector_value as value_of, truth_of, when_true};
ghost use Rattle.flow_model.specs.declared.graphs.Graph.{out-Graph};
ghost use Rattle.flow_model.specs.Wiring.{IsOutgoing};
ghost use Rattle.dead_paths.specs.Signals.{signal as signal_between, signal_of, signals as signals_after};

use crate::wiring::row;
use conditions::value;
use flow_model::{Container, Control, Graph, List, Message, Path, SourceEnd, When};
use std::alloc::{AllocError, Global};

/// Whether a transition condition is a WHEN that is true on this output.
fn is_true_when(when: &When, output: &Container) -> bool
    ensures { result ≡ when_true when.now output.now }
{
    match when {
        When::Always => false,
        When::Cond(condition) => value(condition, output),
        When::Otherwise => false,
    }
}

/// Whether the connector at a place has a WHEN that is true on this output.
fn is_true_at(controls: &[Control], place: u32, output: &Container) -> bool
    ensures { result ≡ option_map_or (λ c. when_true c.when output.now) (slice_get controls.now place) false }
{
    match controls.get(place as usize) {
        Some(control) => is_true_when(&control.when, output),
        None => false,
    }
}

/// Whether one of the connectors at these places has a WHEN that is true on this output.
fn some_when(controls: &[Control], places: &[u32], output: &Container) -> bool
    ensures { result ≡ list_any (λ p. option_map_or (λ c. when_true c.when output.now) (slice_get controls.now p) false)
        places.now }
{
    places
        .iter()
        .any(|place| is_true_at(controls, *place, output))
}

/// The truth of a connector of a finished source.
fn truth(graph: &Graph, control: &Control, output: &Container) -> bool
    ensures { IsOutgoing graph.now → result ≡ truth_of
        (out-Graph graph.now).controls control.now.from control.now.when output.now }
{
    match &control.when {
        When::Always => true,
        When::Cond(condition) => value(condition, output),
        When::Otherwise => {
            let places = row(graph.wiring.outgoing.as_slice(), control.from);
            !some_when(graph.controls.as_slice(), places, output)
        }
    }
}

/// The value of a connector, by how its source has ended; None is unknown.
pub fn connector_value(graph: &Graph, control: &Control, end: &SourceEnd) -> Option<bool>
    ensures { IsOutgoing graph.now → result ≡ value_of (out-Graph graph.now).controls control.now end.now }
{
    match end {
        SourceEnd::Unsettled => None,
        SourceEnd::Dead => Some(false),
        SourceEnd::Finished(output) => Some(truth(graph, control, output)),
    }
}

/// The SIGNAL of a connector, if both its ends are there.
fn signal(
    alloc: Global,
    graph: &Graph,
    scope: &Path,
    control: &Control,
    value: bool,
) -> Result<Option<Message>, AllocError>
    ensures { IfOk result (λ m. m ≡ signal_between scope.now
        (slice_get (out-Graph graph.now).activities control.now.from)
        (slice_get (out-Graph graph.now).activities control.now.to) (Some value)) }
{
    let activities = graph.activities.as_slice();
    let Some(from) = activities.get(control.from as usize) else {
        return Ok(None);
    };
    let Some(to) = activities.get(control.to as usize) else {
        return Ok(None);
    };
    Ok(Some(Message::Signal(
        scope.copy(alloc)?,
        from.name.copy(alloc)?,
        to.name.copy(alloc)?,
        value,
    )))
}

/// The SIGNAL of a connector whose source has ended so; None where its value isn't known.
fn signal_after(
    alloc: Global,
    graph: &Graph,
    scope: &Path,
    control: &Control,
    end: &SourceEnd,
) -> Result<Option<Message>, AllocError>
    ensures { IsOutgoing graph.now → IfOk result (λ m. m ≡ signal_of graph.now scope.now end.now control.now) }
{
    match connector_value(graph, control, end) {
        None => Ok(None),
        Some(value) => signal(alloc, graph, scope, control, value),
    }
}

/// The SIGNAL of the connector at a place.
fn signal_at(
    alloc: Global,
    graph: &Graph,
    scope: &Path,
    place: u32,
    end: &SourceEnd,
) -> Result<Option<Message>, AllocError>
    ensures { IsOutgoing graph.now → IfOk result (λ m. m
        ≡ option_and_then (signal_of graph.now scope.now end.now) (slice_get (out-Graph graph.now).controls place)) }
{
    match graph.controls.as_slice().get(place as usize) {
        None => Ok(None),
        Some(control) => signal_after(alloc, graph, scope, control, end),
    }
}

/// Adds a message, if there is one.
fn add(messages: &mut List<Message>, message: Option<Message>) -> Result<(), AllocError>
    ensures { OnOk result (messages.new ≡ messages.old ++ option_to_list message) }
{
    match message {
        None => Ok(()),
        Some(message) => messages.push(message),
    }
}

/// The SIGNALs of an activity that has ended so, in text order; none where it isn't settled.
pub fn signals_of(
    alloc: Global,
    graph: &Graph,
    scope: &Path,
    activity: u32,
    end: &SourceEnd,
) -> Result<List<Message>, AllocError>
    ensures { IsOutgoing graph.now → IfOk result (λ signals. signals
        ≡ signals_after graph.now scope.now activity end.now) }
{
    let mut signals = List::new(alloc);
    for place in row(graph.wiring.outgoing.as_slice(), activity) {
        let message = signal_at(alloc, graph, scope, *place, end)?;
        add(&mut signals, message)?;
    }
    Ok(signals)
}
