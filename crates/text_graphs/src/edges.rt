//! The connectors of a graph as pairs of numbers.
ghost use Rattle.std.specs.Prelude.{◌≡◌, ◌<◌, ◌++◌, ◌∷◌, [], IfOk, OnOk, MatchOption, slice_index_or, slice_set};
ghost use Rattle.std.specs.Prelude.{length, replicate, false, true};
ghost use Rattle.graph_check.specs.Components.{AreComponents};
ghost use Rattle.graph_check.specs.Spreading.{AreReaching};
ghost use Rattle.graph_check.specs.Walks.{AreNodes, IsOrder};
ghost use Rattle.text_graphs.specs.ClosedWalks.{AreClosed, IsCyclic};

use flow_model::List;
use graph_check::{GraphFault, components, cyclic_edges, order, reaching};
use std::alloc::{AllocError, Global};

/// Whether a node is marked.
pub fn is_marked(seen: &[bool], node: u32) -> bool
    ensures { result ≡ slice_index_or seen.now node false }
{
    seen.get(node as usize).copied().unwrap_or(false)
}

fn no_marks(alloc: Global, nodes: u32) -> Result<Vec<bool>, AllocError>
    ensures { IfOk result (λ marks. marks.items ≡ replicate nodes false) }
{
    Ok(vec![in alloc; false; nodes as usize]?)
}

fn mark(closed: &mut Vec<bool>, node: u32)
    requires { node < length closed.old.items }
    ensures { closed.new.items ≡ slice_set closed.old.items node true }
{
    closed[node as usize] = true;
}

/// Edges between so many nodes.
#[derive(Drop)]
pub struct Edges {
    nodes: u32,
    pairs: Vec<(u32, u32)>,
    ghost within: { AreNodes nodes pairs.items },
}

impl Edges {
    /// No edges yet.
    pub fn new(alloc: Global, nodes: u32) -> Edges
        ensures nodes { result.nodes ≡ nodes }
        ensures pairs { result.pairs.items ≡ [] }
    {
        Edges {
            nodes,
            pairs: Vec::new(alloc),
        }
    }

    /// Adds an edge, where both ends are nodes.
    pub fn add(&mut self, from: u32, to: u32) -> Result<(), AllocError>
        ensures nodes { self.new.nodes ≡ self.old.nodes }
        ensures added { OnOk result (from < self.old.nodes → to < self.old.nodes
            → self.new.pairs.items ≡ self.old.pairs.items ++ (from, to) ∷ []) }
    {
        if from < self.nodes && to < self.nodes {
            self.pairs.push((from, to))?;
        }
        Ok(())
    }

    /// The edges in the order in which they were added.
    pub fn pairs(&self) -> &[(u32, u32)] {
        &self.pairs
    }

    /// A number for each node: an edge lies on a closed walk exactly where its ends have one number.
    pub fn components(&self, alloc: Global) -> Result<Vec<u32>, AllocError>
        ensures { IfOk result (λ groups. AreComponents self.now.nodes self.now.pairs.items groups.items) }
    {
        components(alloc, self.nodes, &self.pairs)
    }

    /// The nodes in an order in which each edge goes forward; None where a closed walk is there.
    pub fn order(&self, alloc: Global) -> Result<Option<List<u32>>, AllocError>
        ensures { IfOk result (λ found. MatchOption found (IsCyclic self.now.pairs.items)
            (IsOrder self.now.nodes self.now.pairs.items)) }
    {
        match order(alloc, self.nodes, &self.pairs) {
            Ok(nodes) => Ok(Some(nodes)),
            Err(GraphFault::Cycle(_)) => Ok(None),
            Err(GraphFault::NoMemory) => Err(AllocError),
        }
    }

    /// For each node, whether a walk of at least one edge leads from it to this one.
    pub fn reaching(&self, alloc: Global, to: u32) -> Result<Vec<bool>, AllocError>
        ensures { IfOk result (λ seen. to < self.now.nodes
            → AreReaching self.now.nodes self.now.pairs.items to seen.items) }
    {
        if to < self.nodes {
            reaching(alloc, self.nodes, &self.pairs, to)
        } else {
            Ok(Vec::new(alloc))
        }
    }

    /// For each node, whether it lies on a closed walk.
    pub fn closed_nodes(&self, alloc: Global) -> Result<Vec<bool>, AllocError>
        ensures { IfOk result (λ closed. AreClosed self.now.nodes self.now.pairs.items closed.items) }
    {
        let cyclic = cyclic_edges(alloc, self.nodes, &self.pairs)?;
        let mut closed = no_marks(alloc, self.nodes)?;
        for (i, pair) in self.pairs.iter().enumerate() {
            if cyclic[i] {
                mark(&mut closed, pair.0);
            }
        }
        Ok(closed)
    }
}
