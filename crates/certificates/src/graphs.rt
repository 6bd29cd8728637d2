//! The activities of a graph by their names, and paths one step down and up.
ghost use Rattle.std.specs.Prelude.{◌≡◌, IfOk, option_map, position, bytes_eq};
ghost use Rattle.flow_model.specs.declared.graphs.Graph.{out-Graph};
ghost use Rattle.flow_model.specs.Rows.{below};
ghost use Rattle.flow_model.specs.Scopes.{part as part_of};
ghost use Rattle.certificates.specs.Told.{placed as placed_in, activity_at as activity_in, outer};
ghost use Rattle.certificates.specs.Kept.{placed_of};

use flow_model::{Activity, Graph, List, Name, Path};
use std::alloc::{AllocError, Global};

/// An activity with its place in its graph.
#[derive(Clone, Copy)]
pub struct Placed<'a> {
    pub place: u32,
    pub activity: &'a Activity,
}

/// The place of the first activity of this name.
fn place_of(graph: &Graph, name: &Name) -> Option<usize>
    ensures { result ≡ position (λ x. bytes_eq x.name name.now) (out-Graph graph.now).activities }
{
    graph
        .activities
        .as_slice()
        .iter()
        .position(|activity| activity.name.as_slice() == name.as_slice())
}

/// The activity at a place; places have 32 bits.
fn activity_in_place(graph: &Graph, place: usize) -> Option<Placed<'_>>
    ensures { option_map placed_of result ≡ placed_in graph.now place }
{
    let number = u32::try_from(place).ok()?;
    let activity = graph.activities.as_slice().get(place)?;
    Some(Placed {
        place: number,
        activity,
    })
}

/// The activity of this name.
pub fn activity_at<'a>(graph: &'a Graph, name: &Name) -> Option<Placed<'a>>
    ensures { option_map placed_of result ≡ activity_in graph.now name.now }
{
    match place_of(graph, name) {
        None => None,
        Some(place) => activity_in_place(graph, place),
    }
}

/// The path of an attempt of an activity of a scope.
pub fn path_below(
    alloc: Global,
    scope: &Path,
    name: &Name,
    attempt: u64,
) -> Result<Path, AllocError>
    ensures { IfOk result (λ p. p ≡ below scope.now (part_of name.now attempt)) }
{
    scope.below(alloc, name, attempt)
}

/// The scope in which a scope lies; a root's own path for a root.
pub fn outer_scope(alloc: Global, path: &Path) -> Result<Path, AllocError>
    ensures { IfOk result (λ p. p ≡ outer path.now) }
{
    let Path { root, parts } = path.copy(alloc)?;
    let mut parts = parts.into_vec();
    let _ = parts.pop();
    Ok(Path {
        root,
        parts: List::from_vec(parts),
    })
}
