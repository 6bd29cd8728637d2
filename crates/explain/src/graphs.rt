//! The graph of a scope, and the activities on which one rests.
use blocks_subprocs::graph_of;
use certificates::activity_at;
use flow_model::{Graph, Library, List, MapEnd, Part, Path};
use std::alloc::{AllocError, Global};

/// The graph of the scope to which these parts lead from a graph.
pub fn graph_at<'a>(library: &'a Library, graph: &'a Graph, parts: &[Part]) -> Option<&'a Graph> {
    let mut graph = graph;
    for part in parts {
        graph = graph_of(library, &activity_at(graph, &part.name)?.activity.work)?;
    }
    Some(graph)
}

/// Adds the sources of the connectors that lead to an activity.
fn add_control_sources(
    graph: &Graph,
    place: u32,
    sources: &mut Vec<u32>,
) -> Result<(), AllocError> {
    let Some(row) = graph.wiring.incoming.as_slice().get(place as usize) else {
        return Ok(());
    };
    for place in row.as_slice() {
        if let Some(control) = graph.controls.as_slice().get(*place as usize) {
            sources.push(control.from)?;
        }
    }
    Ok(())
}

/// Adds the activities from which data lines lead to an activity.
fn add_data_sources(graph: &Graph, place: u32, sources: &mut Vec<u32>) -> Result<(), AllocError> {
    let Some(row) = graph.wiring.feeding.as_slice().get(place as usize) else {
        return Ok(());
    };
    for place in row.as_slice() {
        if let Some(line) = graph.lines.as_slice().get(*place as usize) {
            if let MapEnd::Activity(from) = line.from {
                sources.push(from)?;
            }
        }
    }
    Ok(())
}

/// Where an activity's sources stand, in the order of the activities, each once.
pub fn control_sources(alloc: Global, graph: &Graph, place: u32) -> Result<Vec<u32>, AllocError> {
    let mut sources = Vec::new(alloc);
    add_control_sources(graph, place, &mut sources)?;
    sources.sort()?;
    sources.dedup();
    Ok(sources)
}

/// Where an activity's sources stand, those of data lines too, in the order of the activities, each once.
pub fn all_sources(alloc: Global, graph: &Graph, place: u32) -> Result<Vec<u32>, AllocError> {
    let mut sources = Vec::new(alloc);
    add_control_sources(graph, place, &mut sources)?;
    add_data_sources(graph, place, &mut sources)?;
    sources.sort()?;
    sources.dedup();
    Ok(sources)
}

/// The scope in which a scope lies, and its own part; None of a root.
pub fn split_path(alloc: Global, path: &Path) -> Result<Option<(Path, Part)>, AllocError> {
    let Path { root, parts } = path.copy(alloc)?;
    let mut parts = parts.into_vec();
    match parts.pop() {
        None => Ok(None),
        Some(last) => Ok(Some((
            Path {
                root,
                parts: List::from_vec(parts),
            },
            last,
        ))),
    }
}
