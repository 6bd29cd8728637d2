ghost use Rattle.std.specs.Prelude.{MatchResult};
ghost use Rattle.graph_check.specs.Walks.{AreNodes, IsOrder};
ghost use Rattle.graph_check.specs.Orders.{IsCycleFound};

use crate::faults::GraphFault;
use crate::search::Search;
use flow_model::List;
use std::alloc::Global;

/// The nodes, each once, in an order in which each edge goes forward.
///
/// `Cycle` comes exactly where there is no such order, with a closed walk along edges, and
/// `NoMemory` where memory runs out.
pub fn order(alloc: Global, nodes: u32, edges: &[(u32, u32)]) -> Result<List<u32>, GraphFault>
    requires { AreNodes nodes edges.now }
    ensures { MatchResult result (IsOrder nodes edges.now) (IsCycleFound edges.now) }
{
    let mut search = Search::new(alloc, nodes, edges)?;
    for node in 0..nodes {
        if let Some(walk) = search.visit(alloc, nodes, edges, node)? {
            return Err(GraphFault::Cycle(walk));
        }
    }
    Ok(search.into_order())
}
