//! One scope, by how its activities have ended.
ghost use Rattle.std.specs.Prelude.{◌≡◌, ◌==◌, ◌≤◌, ℕ, Some, true, map, slice_get, ◌++◌, IfOk, OnOk};
ghost use Rattle.std.specs.List.{All, filter, list_all};
ghost use Rattle.std.specs.Option.{option_map, option_map_or, option_to_list};
ghost use Rattle.blocks_subprocs.specs.Ends.{ends_of};
ghost use Rattle.flow_model.specs.Wiring.{IsFeeding, IsIncoming, IsOutgoing};
ghost use Rattle.flow_model.specs.Fates.{connector_value as value_by, is_settled as is_settled_end};
ghost use Rattle.flow_model.specs.Scopes.{is_fed as are_settled, is_ready_source as is_settled_source};
ghost use Rattle.flow_model.specs.declared.graphs.Control.{Control as ControlOf};
ghost use Rattle.flow_model.specs.declared.graphs.DataLine.{DataLine as LineOf};
ghost use Rattle.flow_model.specs.declared.graphs.Graph.{out-Graph};
ghost use Rattle.flow_model.specs.declared.graphs.MapEnd.TheVariants.{Activity as At};
ghost use Rattle.fate_eval.specs.Timely.{after_of, AfterControls, AfterLines};

use dead_paths::{connector_value, row};
use flow_model::{Control, DataLine, Graph, MapEnd, SourceEnd};
use std::alloc::{AllocError, Global};

/// The value of a connector.
fn value_of(graph: &Graph, ends: &[SourceEnd], control: &Control) -> Option<bool>
    ensures { IsOutgoing graph.now → result ≡ value_by (out-Graph graph.now).controls control.now
        (ends_of ends.now control.now.from) }
{
    match ends.get(control.from as usize) {
        Some(end) => connector_value(graph, control, end),
        None => None,
    }
}

/// The value of the connector at a place, if there is one.
fn value_at(graph: &Graph, ends: &[SourceEnd], place: u32) -> Option<Option<bool>>
    ensures { IsOutgoing graph.now → result ≡ option_map
        (λ c. value_by (out-Graph graph.now).controls c (ends_of ends.now c.from))
        (slice_get (out-Graph graph.now).controls place) }
{
    match graph.controls.as_slice().get(place as usize) {
        Some(control) => Some(value_of(graph, ends, control)),
        None => None,
    }
}

/// Adds a value, if there is one.
fn add(values: &mut Vec<Option<bool>>, value: Option<Option<bool>>) -> Result<(), AllocError>
    ensures { OnOk result (values.new.items ≡ values.old.items ++ option_to_list value) }
{
    match value {
        None => Ok(()),
        Some(value) => {
            values.push(value)?;
            Ok(())
        }
    }
}

/// The values of the connectors that lead to an activity.
pub fn values(
    alloc: Global,
    graph: &Graph,
    ends: &[SourceEnd],
    place: u32,
) -> Result<Vec<Option<bool>>, AllocError>
    ensures { IsIncoming graph.now → IsOutgoing graph.now
        → IfOk result (λ v. v.items ≡ map (λ c. value_by (out-Graph graph.now).controls c (ends_of ends.now c.from))
        (filter (λ c. c.to == place) (out-Graph graph.now).controls)) }
{
    let mut values = Vec::new(alloc);
    for place in row(graph.wiring.incoming.as_slice(), place) {
        let value = value_at(graph, ends, *place);
        add(&mut values, value)?;
    }
    Ok(values)
}

/// After how many completions it is known how the activity at a place has ended.
fn after(afters: &[u64], place: u32) -> u64
    ensures { result ≡ after_of afters.now place }
{
    match afters.get(place as usize) {
        Some(after) => *after,
        None => 0,
    }
}

/// After how many completions it is known how the source of the connector at a place has ended.
fn control_after(controls: &[Control], afters: &[u64], place: u32) -> u64
    ensures later { (c : ControlOf) → slice_get controls.now place ≡ Some c → after_of afters.now c.from ≤ result }
    ensures least { (n : ℕ) → ((c : ControlOf) → slice_get controls.now place ≡ Some c → after_of afters.now c.from ≤ n)
        → result ≤ n }
{
    match controls.get(place as usize) {
        Some(control) => after(afters, control.from),
        None => 0,
    }
}

/// After how many completions the values of the connectors that lead to an activity are known.
pub fn joined_after(graph: &Graph, afters: &[u64], place: u32, since: u64) -> u64
    ensures later { since ≤ result }
    ensures controls { IsIncoming graph.now → AfterControls (out-Graph graph.now).controls afters.now place result }
    ensures least { IsIncoming graph.now → (n : ℕ) → since ≤ n
        → AfterControls (out-Graph graph.now).controls afters.now place n → result ≤ n }
{
    let mut known = since;
    for place in row(graph.wiring.incoming.as_slice(), place) {
        known = known.max(control_after(graph.controls.as_slice(), afters, *place));
    }
    known
}

/// Whether it is known how an activity has ended.
fn is_settled(end: &SourceEnd) -> bool
    ensures { result ≡ is_settled_end end.now }
{
    match end {
        SourceEnd::Unsettled => false,
        SourceEnd::Dead => true,
        SourceEnd::Finished(_) => true,
    }
}

/// Whether what feeds a data line is settled.
fn is_ready_source(from: MapEnd, ends: &[SourceEnd]) -> bool
    ensures { result ≡ is_settled_source from (ends_of ends.now) }
{
    match from {
        MapEnd::Border => true,
        MapEnd::Activity(place) => match ends.get(place as usize) {
            Some(end) => is_settled(end),
            None => false,
        },
    }
}

/// Whether what feeds the data line at a place is settled, if there is one.
fn is_ready_line(lines: &[DataLine], place: u32, ends: &[SourceEnd]) -> bool
    ensures { result ≡ option_map_or (λ line. is_settled_source line.from (ends_of ends.now))
        (slice_get lines.now place) true }
{
    match lines.get(place as usize) {
        Some(line) => is_ready_source(line.from, ends),
        None => true,
    }
}

/// Whether what feeds the data lines at these places is settled.
fn are_ready_lines(lines: &[DataLine], places: &[u32], ends: &[SourceEnd]) -> bool
    ensures { result ≡ list_all (λ p. option_map_or (λ line. is_settled_source line.from (ends_of ends.now))
        (slice_get lines.now p) true) places.now }
{
    places
        .iter()
        .all(|place| is_ready_line(lines, *place, ends))
}

/// Whether all activities that feed this one are settled.
pub fn is_fed(graph: &Graph, ends: &[SourceEnd], place: u32) -> bool
    ensures { IsFeeding graph.now → result ≡ are_settled (out-Graph graph.now).lines place (ends_of ends.now) }
{
    let places = row(graph.wiring.feeding.as_slice(), place);
    are_ready_lines(graph.lines.as_slice(), places, ends)
}

/// After how many completions it is known how the activity at the beginning of the data line at a place has ended.
fn line_after(lines: &[DataLine], afters: &[u64], place: u32) -> u64
    ensures later { (l : LineOf) (b : ℕ) → slice_get lines.now place ≡ Some l → l.from ≡ At b
        → after_of afters.now b ≤ result }
    ensures least { (n : ℕ) → ((l : LineOf) (b : ℕ) → slice_get lines.now place ≡ Some l → l.from ≡ At b
        → after_of afters.now b ≤ n) → result ≤ n }
{
    match lines.get(place as usize) {
        Some(line) => match line.from {
            MapEnd::Border => 0,
            MapEnd::Activity(from) => after(afters, from),
        },
        None => 0,
    }
}

/// After how many completions the activities that feed this one are settled.
pub fn fed_after(graph: &Graph, afters: &[u64], place: u32, since: u64) -> u64
    ensures later { since ≤ result }
    ensures lines { IsFeeding graph.now → AfterLines (out-Graph graph.now).lines afters.now place result }
    ensures least { IsFeeding graph.now → (n : ℕ) → since ≤ n
        → AfterLines (out-Graph graph.now).lines afters.now place n → result ≤ n }
{
    let mut known = since;
    for place in row(graph.wiring.feeding.as_slice(), place) {
        known = known.max(line_after(graph.lines.as_slice(), afters, *place));
    }
    known
}

/// Whether all activities are settled.
pub fn is_complete(ends: &[SourceEnd]) -> bool
    ensures { result ≡ list_all is_settled_end ends.now }
{
    ends.iter().all(|end| is_settled(end))
}

/// After how many completions all activities are settled.
pub fn complete_after(afters: &[u64], since: u64) -> u64
    ensures later { since ≤ result }
    ensures all { All (λ after. after ≤ result) afters.now }
    ensures least { (n : ℕ) → since ≤ n → All (λ after. after ≤ n) afters.now → result ≤ n }
{
    let mut known = since;
    for after in afters {
        known = known.max(*after);
    }
    known
}
