//! The length of the longest walk that leads to each node.
ghost use Rattle.std.specs.Prelude.{◌≡◌, ◌<◌, ◌+◌, ◌^◌, IfOk, length, slice_index};
ghost use Rattle.std.specs.List.{All};
ghost use Rattle.graph_check.specs.Walks.{AreNodes, IsOrder};
ghost use Rattle.graph_levels.specs.Filing.{IsJustAbove, AreLevels};

use crate::rows::filed;
use std::alloc::{AllocError, Global};

/// The lowest level above those of these sources.
fn level_above(levels: &[u32], sources: &[u32]) -> u32
    requires inside { All (λ a. a < length levels.now) sources.now }
    requires low { All (λ a. slice_index levels.now a + 1 < 2 ^ 32) sources.now }
    ensures { IsJustAbove levels.now sources.now (length sources.now) result }
{
    let mut level = 0;
    for source in sources {
        level = level.max(levels[*source as usize] + 1);
    }
    level
}

fn no_levels(alloc: Global, nodes: u32) -> Result<Vec<u32>, AllocError>
    ensures { IfOk result (λ levels. length levels.items ≡ nodes) }
{
    Ok(vec![in alloc; 0; nodes as usize]?)
}

/// The levels of all nodes, in one pass along an order in which each edge goes forward.
pub fn levels(
    alloc: Global,
    nodes: u32,
    edges: &[(u32, u32)],
    order: &[u32],
) -> Result<Vec<u32>, AllocError>
    requires nodes { AreNodes nodes edges.now }
    requires ordered { IsOrder nodes edges.now order.now }
    ensures { IfOk result (λ levels. AreLevels nodes edges.now levels.items) }
{
    let sources = filed(alloc, nodes, edges)?;
    let mut levels = no_levels(alloc, nodes)?;
    for node in order {
        let level = level_above(&levels, sources[*node as usize].as_slice());
        levels[*node as usize] = level;
    }
    Ok(levels)
}
