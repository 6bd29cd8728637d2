//! Where the lines of a graph lead, by the places of its activities.
ghost use Rattle.std.specs.Prelude.{◌≡◌, ◌<◌, ◌==◌, ◌++◌, ◌∷◌, [], length, replicate, slice_set, slice_index_or, IfOk};
ghost use Rattle.std.specs.Prelude.{OnOk};
ghost use Rattle.std.specs.List.{All};
ghost use Rattle.flow_model.specs.ScopeContainers.{same_end};
ghost use Rattle.flow_model.specs.Wiring.{places};
ghost use Rattle.template_check.specs.Wires.{AreRows, IsEndBelow, AreWithin, AreWired, pairs_of};
ghost use Rattle.text_graphs.specs.ClosedWalks.{IsAcyclic};
ghost use Rattle.graph_levels.specs.Levels.{IsLevelOrder};

use flow_model::{Control, DataLine, List, LoopLine, MapEnd, Wiring};
use graph_check::GraphFault;
use graph_levels::level_order;
use std::alloc::{AllocError, Global};
use std::marker::Model;
use text_graphs::narrow;

/// Rows of places, one for each activity.
#[derive(Drop)]
struct Rows {
    rows: Vec<List<u32>>,
}

impl Model for Rows {
    ghost use Rattle.std.specs.Prelude.{ℕ, List};

    ghost Value = { List (List ℕ) };

    ghost view = { λ s. s.rows.items };
}

impl Rows {
    fn new(alloc: Global, count: usize) -> Result<Rows, AllocError>
        ensures { IfOk result (λ rows. rows ≡ replicate count []) }
    {
        let mut rows = Vec::new(alloc);
        for _activity in 0..count {
            rows.push(List::new(alloc))?;
        }
        Ok(Rows { rows })
    }

    /// Adds a place to the row of an activity. A place of more than 32 bits has no room.
    fn add(&mut self, activity: u32, place: usize) -> Result<(), AllocError>
        requires { activity < length self.old }
        ensures { OnOk result (self.new ≡ slice_set self.old activity
            (slice_index_or self.old activity [] ++ place ∷ [])) }
    {
        let place = narrow(place)?;
        let row = &mut self.rows[activity as usize];
        row.push(place)?;
        Ok(())
    }

    fn into_list(self) -> List<List<u32>>
        ensures { result ≡ self }
    {
        let Rows { rows } = self;
        List::from_vec(rows)
    }
}

fn pairs(alloc: Global, controls: &[Control]) -> Result<Vec<(u32, u32)>, AllocError>
    ensures { IfOk result (λ pairs. pairs.items ≡ pairs_of controls.now) }
{
    let mut pairs = Vec::new(alloc);
    for control in controls {
        pairs.push((control.from, control.to))?;
    }
    Ok(pairs)
}

/// The activities by the longest walk of connectors that leads to each: each connector goes forward. There is such an
/// order, since no walk is closed.
fn order(alloc: Global, count: usize, controls: &[Control]) -> Result<List<u32>, AllocError>
    requires sources { All (λ c. c.from < count) controls.now }
    requires targets { All (λ c. c.to < count) controls.now }
    requires acyclic { IsAcyclic (pairs_of controls.now) }
    ensures { IfOk result (IsLevelOrder count (pairs_of controls.now)) }
{
    let nodes = narrow(count)?;
    let pairs = pairs(alloc, controls)?;
    match level_order(alloc, nodes, &pairs) {
        Ok(order) => Ok(order),
        Err(GraphFault::Cycle(_)) => unreachable!(),
        Err(GraphFault::NoMemory) => Err(AllocError),
    }
}

fn incoming(
    alloc: Global,
    count: usize,
    controls: &[Control],
) -> Result<List<List<u32>>, AllocError>
    requires { All (λ c. c.to < count) controls.now }
    ensures { IfOk result (AreRows (λ c a. c.to == a) count controls.now) }
{
    let mut rows = Rows::new(alloc, count)?;
    for (i, control) in controls.iter().enumerate() {
        rows.add(control.to, i)?;
    }
    Ok(rows.into_list())
}

fn outgoing(
    alloc: Global,
    count: usize,
    controls: &[Control],
) -> Result<List<List<u32>>, AllocError>
    requires { All (λ c. c.from < count) controls.now }
    ensures { IfOk result (AreRows (λ c a. c.from == a) count controls.now) }
{
    let mut rows = Rows::new(alloc, count)?;
    for (i, control) in controls.iter().enumerate() {
        rows.add(control.from, i)?;
    }
    Ok(rows.into_list())
}

fn feeding(alloc: Global, count: usize, lines: &[DataLine]) -> Result<List<List<u32>>, AllocError>
    requires { All (λ line. IsEndBelow count line.to) lines.now }
    ensures { IfOk result (AreRows (λ line a. same_end line.to (MapEnd.Activity a)) count lines.now) }
{
    let mut rows = Rows::new(alloc, count)?;
    for (i, line) in lines.iter().enumerate() {
        match line.to {
            MapEnd::Activity(to) => rows.add(to, i)?,
            MapEnd::Border => {}
        }
    }
    Ok(rows.into_list())
}

fn sinking(alloc: Global, lines: &[DataLine]) -> Result<List<u32>, AllocError>
    ensures { IfOk result (λ row. row ≡ places (λ line. same_end line.to MapEnd.Border) 0 lines.now) }
{
    let mut places = List::new(alloc);
    for (i, line) in lines.iter().enumerate() {
        if line.to == MapEnd::Border {
            places.push(narrow(i)?)?;
        }
    }
    Ok(places)
}

fn looping(alloc: Global, count: usize, loops: &[LoopLine]) -> Result<List<List<u32>>, AllocError>
    requires { All (λ line. line.activity < count) loops.now }
    ensures { IfOk result (AreRows (λ line a. line.activity == a) count loops.now) }
{
    let mut rows = Rows::new(alloc, count)?;
    for (i, line) in loops.iter().enumerate() {
        rows.add(line.activity, i)?;
    }
    Ok(rows.into_list())
}

/// Where these lines lead between this many activities. A list of more lines than places of 32 bits has no room.
pub fn wiring(
    alloc: Global,
    count: usize,
    controls: &[Control],
    lines: &[DataLine],
    loops: &[LoopLine],
) -> Result<Wiring, AllocError>
    requires within { AreWithin count controls.now lines.now loops.now }
    requires acyclic { IsAcyclic (pairs_of controls.now) }
    ensures { IfOk result (AreWired count controls.now lines.now loops.now) }
{
    Ok(Wiring {
        order: order(alloc, count, controls)?,
        incoming: incoming(alloc, count, controls)?,
        outgoing: outgoing(alloc, count, controls)?,
        feeding: feeding(alloc, count, lines)?,
        sinking: sinking(alloc, lines)?,
        looping: looping(alloc, count, loops)?,
    })
}
