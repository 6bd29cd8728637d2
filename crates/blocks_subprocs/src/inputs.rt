//! Inputs of attempts and outputs of scopes.
ghost use Rattle.std.specs.Prelude.{◌≡◌, [], slice_get, IfOk};
ghost use Rattle.std.specs.List.{fold};
ghost use Rattle.std.specs.Option.{option_copied, option_map_or};
ghost use Rattle.flow_model.specs.Containers.{fresh as fresh_container, mapped};
ghost use Rattle.flow_model.specs.ScopeContainers.{brought as what_brings, mapped_if, fed, looped, base_of};
ghost use Rattle.flow_model.specs.declared.graphs.Graph.{out-Graph};
ghost use Rattle.flow_model.specs.declared.graphs.MapEnd.TheVariants.{Border};
ghost use Rattle.blocks_subprocs.specs.Ends.{ends_of};
ghost use Rattle.flow_model.specs.Wiring.{IsFeeding, IsSinking, IsLooping};

use containers::{apply_maps, fresh};
use dead_paths::row;
use flow_model::{Activity, Container, DataLine, Graph, List, LoopLine, MapEnd, SourceEnd};
use std::alloc::{AllocError, Global};

/// What a line from this end brings, where its source is finished.
fn brought<'a>(
    end: MapEnd,
    scope_input: &'a Container,
    ends: &'a [SourceEnd],
) -> Option<&'a Container>
    ensures { option_copied result ≡ what_brings end scope_input.now (ends_of ends.now) }
{
    match end {
        MapEnd::Border => Some(scope_input),
        MapEnd::Activity(place) => match ends.get(place as usize) {
            Some(SourceEnd::Finished(output)) => Some(output),
            Some(SourceEnd::Dead) => None,
            Some(SourceEnd::Unsettled) => None,
            None => None,
        },
    }
}

/// A container with one line applied, if its source is finished.
fn with_line(
    alloc: Global,
    line: &DataLine,
    scope_input: &Container,
    ends: &[SourceEnd],
    target: Container,
) -> Result<Container, AllocError>
    ensures { IfOk result (λ c. c ≡ mapped_if line.now.maps
        (what_brings line.now.from scope_input.now (ends_of ends.now)) target) }
{
    match brought(line.from, scope_input, ends) {
        None => Ok(target),
        Some(source) => apply_maps(alloc, line.maps.as_slice(), source, target),
    }
}

/// A container with the line at a place applied, if it is there.
fn with_line_at(
    alloc: Global,
    lines: &[DataLine],
    place: u32,
    scope_input: &Container,
    ends: &[SourceEnd],
    target: Container,
) -> Result<Container, AllocError>
    ensures { IfOk result (λ c. c ≡ option_map_or (λ line. mapped_if line.maps
        (what_brings line.from scope_input.now (ends_of ends.now)) target) (slice_get lines.now place) target) }
{
    match lines.get(place as usize) {
        None => Ok(target),
        Some(line) => with_line(alloc, line, scope_input, ends, target),
    }
}

/// A container with the lines at these places applied in their order, so that the later wins.
fn with_lines(
    alloc: Global,
    lines: &[DataLine],
    places: &[u32],
    scope_input: &Container,
    ends: &[SourceEnd],
    target: Container,
) -> Result<Container, AllocError>
    ensures { IfOk result (λ c. c ≡ fold (λ d p. option_map_or
        (λ line. mapped_if line.maps (what_brings line.from scope_input.now (ends_of ends.now)) d)
        (slice_get lines.now p) d) target places.now) }
{
    let mut changed = target;
    for place in places {
        changed = with_line_at(alloc, lines, *place, scope_input, ends, changed)?;
    }
    Ok(changed)
}

/// The input of attempt 1 of an activity: a fresh container with the lines that lead there.
pub fn first_input(
    alloc: Global,
    graph: &Graph,
    activity: &Activity,
    place: u32,
    scope_input: &Container,
    ends: &[SourceEnd],
) -> Result<Container, AllocError>
    ensures { IsFeeding graph.now → IfOk result (λ c. c
        ≡ base_of graph.now activity.now place scope_input.now (ends_of ends.now)) }
{
    let target = fresh(alloc, &activity.input)?;
    let places = row(graph.wiring.feeding.as_slice(), place);
    with_lines(
        alloc,
        graph.lines.as_slice(),
        places,
        scope_input,
        ends,
        target,
    )
}

/// The input of attempt 1 of the activity at a place; with no values where there is no activity.
pub fn base_input(
    alloc: Global,
    graph: &Graph,
    place: u32,
    scope_input: &Container,
    ends: &[SourceEnd],
) -> Result<Container, AllocError>
    ensures { IsFeeding graph.now → IfOk result (λ c. c
        ≡ option_map_or (λ a. base_of graph.now a place scope_input.now (ends_of ends.now))
        (slice_get (out-Graph graph.now).activities place) (record { values = [] })) }
{
    match graph.activities.as_slice().get(place as usize) {
        None => Ok(Container {
            values: List::new(alloc),
        }),
        Some(activity) => first_input(alloc, graph, activity, place, scope_input, ends),
    }
}

/// A container with the LOOP line at a place applied, if it is there.
fn with_loop_at(
    alloc: Global,
    loops: &[LoopLine],
    place: u32,
    last: &Container,
    target: Container,
) -> Result<Container, AllocError>
    ensures { IfOk result (λ c. c ≡ option_map_or (λ line. mapped line.maps last.now target)
        (slice_get loops.now place) target) }
{
    match loops.get(place as usize) {
        None => Ok(target),
        Some(line) => apply_maps(alloc, line.maps.as_slice(), last, target),
    }
}

/// The input of the next attempt: the base input with the LOOP maps applied from the output of the last one.
pub fn next_input(
    alloc: Global,
    graph: &Graph,
    place: u32,
    base: Container,
    last: &Container,
) -> Result<Container, AllocError>
    ensures { IsLooping graph.now → IfOk result (λ c. c ≡ looped (out-Graph graph.now).loops place last.now base) }
{
    let mut changed = base;
    let loops = graph.loops.as_slice();
    for place in row(graph.wiring.looping.as_slice(), place) {
        changed = with_loop_at(alloc, loops, *place, last, changed)?;
    }
    Ok(changed)
}

/// The output of a complete scope: a fresh container with the lines that lead to SINK.
pub fn output_of(
    alloc: Global,
    graph: &Graph,
    scope_input: &Container,
    ends: &[SourceEnd],
) -> Result<Container, AllocError>
    ensures { IsSinking graph.now → IfOk result (λ c. c
        ≡ fed (out-Graph graph.now).lines Border scope_input.now (ends_of ends.now)
        (fresh_container (out-Graph graph.now).output)) }
{
    let target = fresh(alloc, &graph.output)?;
    let places = graph.wiring.sinking.as_slice();
    with_lines(
        alloc,
        graph.lines.as_slice(),
        places,
        scope_input,
        ends,
        target,
    )
}
