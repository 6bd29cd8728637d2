//! Paths: the queue of a message, the rank of an item, and equal messages.
ghost use Rattle.std.specs.Prelude.{◌≡◌, ◌↔◌, ◌-◌, ◌^◌, ◌∷◌, ◌++◌, min, Some, option_copied, unwrap_or, IfOk, OnOk};
ghost use Rattle.std.specs.Prelude.{IsTrue};
ghost use Rattle.flow_core.specs.Facts.{activity_on};
ghost use Rattle.flow_core.specs.Shelving.{rank_on};
ghost use Rattle.navigator.specs.Showing.{graph_under};
ghost use Rattle.flow_core.specs.Driving.{activity_named as named_activity, is_process as processes_of};
ghost use Rattle.flow_core.specs.Driving.{processes_along, receiver as receiver_of, queue_in};
ghost use Rattle.flow_core.specs.Refusals.{between};
ghost use Rattle.recover_queue.specs.Queues.{root_of as root_in};

use blocks_subprocs::graph_of;
use flow_model::{Activity, Graph, Library, Message, Name, Part, Path, Work};
use navigator::place_of;
use staff_worklists::Rank;
use std::alloc::{AllocError, Global};

/// 1 of a process activity, else 0.
fn is_process(work: &Work) -> u64
    ensures { result ≡ processes_of work.now }
{
    match work {
        Work::Program(_) => 0,
        Work::Block(_) => 0,
        Work::Process(_) => 1,
    }
}

/// The activity of a name.
fn activity_named<'a>(graph: &'a Graph, name: &Name) -> Option<&'a Activity>
    ensures { option_copied result ≡ named_activity graph.now name.now }
{
    graph.activities.as_slice().get(place_of(graph, name)?)
}

/// The activity of an item, by the graph of its root and the names on its path.
pub fn activity_along<'a>(
    library: &'a Library,
    graph: &'a Graph,
    parts: &[Part],
) -> Option<&'a Activity>
    ensures { option_copied result ≡ activity_on library.now.templates parts.now graph.now }
{
    match parts {
        [] => None,
        [part] => activity_named(graph, &part.name),
        [part, rest @ ..] => {
            let activity = activity_named(graph, &part.name)?;
            activity_along(library, graph_of(library, &activity.work)?, rest)
        }
    }
}

/// The number of process activities on the way along these parts.
fn process_count(library: &Library, graph: &Graph, parts: &[Part]) -> u64
    ensures { result ≡ min (processes_along library.now.templates parts.now graph.now) (2 ^ 64 - 1) }
{
    let [part, rest @ ..] = parts else {
        return 0;
    };
    let Some(activity) = activity_named(graph, &part.name) else {
        return 0;
    };
    let Some(inner) = graph_of(library, &activity.work) else {
        return is_process(&activity.work);
    };
    is_process(&activity.work).saturating_add(process_count(library, inner, rest))
}

/// The root and the parts of the scope that receives a message.
fn receiver(message: &Message) -> (u64, &[Part])
    ensures root { result.0 ≡ root_in message.now }
    ensures parts { result.1.now ≡ receiver_of message.now }
{
    match message {
        Message::Begin(path) => (path.root, path.parts.as_slice()),
        Message::Signal(path, _, _, _) => (path.root, path.parts.as_slice()),
        Message::End(path) => match path.parts.as_slice() {
            [] => (path.root, &[]),
            [parts @ .., _last] => (path.root, parts),
        },
    }
}

/// The queue of a message: 1 and the remainder of the root's number and the process activities on the
/// way to the scope that receives it, by the number of queues.
pub fn queue_of(library: &Library, graph: &Graph, queues: u8, message: &Message) -> u8
    ensures { result ≡ queue_in library.now.templates queues (Some graph.now) message.now }
{
    let (root, parts) = receiver(message);
    let count = u128::from(root) + u128::from(process_count(library, graph, parts));
    let queues = u128::from(queues.max(1));
    u8::try_from(count % queues + 1).unwrap_or(1)
}

/// The graph inside the activity at a place; this one where it runs none.
fn inner_graph<'a>(library: &'a Library, graph: &'a Graph, place: usize) -> &'a Graph
    ensures { result.now ≡ unwrap_or (graph_under library.now.templates graph.now (Some place)) graph.now }
{
    let Some(activity) = graph.activities.as_slice().get(place) else {
        return graph;
    };
    graph_of(library, &activity.work).unwrap_or(graph)
}

/// Adds the place and the attempt of each part, as far as their names lead.
fn add_ranks(
    library: &Library,
    graph: &Graph,
    parts: &[Part],
    rank: &mut Rank,
) -> Result<(), AllocError>
    ensures { OnOk result (rank.new.items ≡ rank.old.items ++ rank_on library.now.templates parts.now graph.now) }
{
    let [part, rest @ ..] = parts else {
        return Ok(());
    };
    let Some(place) = place_of(graph, &part.name) else {
        return Ok(());
    };
    rank.push(place as u64)?;
    rank.push(part.attempt)?;
    add_ranks(library, inner_graph(library, graph, place), rest, rank)
}

/// Where an item stands in show order: its root, then the place and the attempt of each part.
pub fn rank_of(
    alloc: Global,
    library: &Library,
    graph: &Graph,
    item: &Path,
) -> Result<Rank, AllocError>
    ensures { IfOk result (λ rank. rank.items ≡ item.now.root
        ∷ rank_on library.now.templates item.now.parts graph.now) }
{
    let mut rank = Vec::new(alloc);
    rank.push(item.root)?;
    add_ranks(library, graph, item.parts.as_slice(), &mut rank)?;
    Ok(rank)
}

fn same_part(first: &Part, second: &Part) -> bool
    ensures { IsTrue result ↔ (first.now ≡ second.now) }
{
    first.attempt == second.attempt && first.name.as_slice() == second.name.as_slice()
}

/// Whether two lists of parts are one.
fn same_parts(first: &[Part], second: &[Part]) -> bool
    ensures { IsTrue result ↔ (first.now ≡ second.now) }
{
    match (first, second) {
        ([], []) => true,
        ([part, rest @ ..], [other, others @ ..]) => {
            same_part(part, other) && same_parts(rest, others)
        }
        _ => false,
    }
}

/// Whether two paths are one.
pub fn same_path(first: &Path, second: &Path) -> bool
    ensures { IsTrue result ↔ (first.now ≡ second.now) }
{
    first.root == second.root && same_parts(first.parts.as_slice(), second.parts.as_slice())
}

/// Whether two messages are one.
pub fn same_message(first: &Message, second: &Message) -> bool
    ensures { IsTrue result ↔ (first.now ≡ second.now) }
{
    match (first, second) {
        (Message::Begin(a), Message::Begin(b)) => same_path(a, b),
        (Message::End(a), Message::End(b)) => same_path(a, b),
        (Message::Signal(a, from, to, value), Message::Signal(b, source, target, truth)) => {
            same_path(a, b)
                && from.as_slice() == source.as_slice()
                && to.as_slice() == target.as_slice()
                && value == truth
        }
        _ => false,
    }
}

/// An equal message.
pub fn copy_message(alloc: Global, message: &Message) -> Result<Message, AllocError>
    ensures { IfOk result (λ copy. copy ≡ message.now) }
{
    match message {
        Message::Begin(path) => Ok(Message::Begin(path.copy(alloc)?)),
        Message::End(path) => Ok(Message::End(path.copy(alloc)?)),
        Message::Signal(path, from, to, value) => Ok(Message::Signal(
            path.copy(alloc)?,
            from.copy(alloc)?,
            to.copy(alloc)?,
            *value,
        )),
    }
}

/// The bytes of an item token between its quotes.
pub fn unquoted(token: &[u8]) -> &[u8]
    ensures { result.now ≡ between token.now }
{
    match token {
        [_, inner @ .., _] => inner,
        _ => token,
    }
}
