ghost use Rattle.std.specs.Prelude.{◌≡◌, ◌<◌, ◌↔◌, IfOk, OnOk, IsTrue, length, reverse, replicate, false};
ghost use Rattle.graph_check.specs.Walks.{AreNodes, Reaches};
ghost use Rattle.graph_check.specs.Among.{first_of, rest_of};
ghost use Rattle.graph_check.specs.Spreading.{row_of, is_seen, passed, cut, spread_to, IsSpread, Advanced, AreReaching};

use crate::sources::{drop_last, sources};
use std::alloc::{AllocError, Global};
use std::marker::Model;

/// A search back from one node along the edges that lead to it.
#[derive(Drop)]
struct Reach {
    /// For each node the sources of its edges that were not gone along yet.
    sources: Vec<Vec<u32>>,
    /// The nodes from which a walk was found.
    seen: Vec<bool>,
    /// The nodes whose edges are still to be gone along.
    open_nodes: Vec<u32>,
}

impl Model for Reach {
    ghost use Rattle.std.specs.Prelude.{reverse};
    ghost use Rattle.graph_check.specs.Rows.{rows_of};
    ghost use Rattle.graph_check.specs.Spreading.{Spread};

    ghost Value = { Spread };

    ghost view = { λ s. record { sources = rows_of s.sources.items; seen = s.seen.items; open_nodes = reverse s.open_nodes.items } };
}

fn none_seen(alloc: Global, nodes: u32) -> Result<Vec<bool>, AllocError>
    ensures { IfOk result (λ seen. seen.items ≡ replicate nodes false) }
{
    Ok(vec![in alloc; false; nodes as usize]?)
}

impl Reach {
    fn new(alloc: Global, nodes: u32, edges: &[(u32, u32)], to: u32) -> Result<Reach, AllocError>
        requires nodes { AreNodes nodes edges.now }
        requires to { to < nodes }
        ensures { IfOk result (λ reach. IsSpread nodes edges.now to reach) }
    {
        let mut open_nodes = Vec::new(alloc);
        open_nodes.push(to)?;
        Ok(Reach {
            sources: sources(alloc, nodes, edges)?,
            seen: none_seen(alloc, nodes)?,
            open_nodes,
        })
    }

    fn top(&self) -> Option<u32>
        ensures { result ≡ first_of self.now.open_nodes }
    {
        self.open_nodes.last().copied()
    }

    fn next(&self, node: u32) -> Option<u32>
        requires { node < length self.now.sources }
        ensures { result ≡ first_of (row_of self.now node) }
    {
        let row = &self.sources[node as usize];
        row.last().copied()
    }

    fn has_seen(&self, node: u32) -> bool
        requires { node < length self.now.seen }
        ensures { result ≡ is_seen self.now node }
    {
        self.seen[node as usize]
    }

    fn pass(&mut self)
        ensures { self.new ≡ passed self.old (rest_of self.old.open_nodes) }
    {
        let _top = self.open_nodes.pop();
    }

    fn cut_source(&mut self, node: u32)
        requires { node < length self.old.sources }
        ensures { self.new ≡ cut self.old node (rest_of (row_of self.old node)) }
    {
        drop_last(&mut self.sources[node as usize]);
    }

    fn spread(&mut self, node: u32) -> Result<(), AllocError>
        requires { node < length self.old.seen }
        ensures { OnOk result (self.new ≡ spread_to self.old node) }
    {
        self.open_nodes.push(node)?;
        self.seen[node as usize] = true;
        Ok(())
    }

    /// Goes on from the node that was met last. False where none is left.
    fn advance(&mut self, nodes: u32, edges: &[(u32, u32)], to: u32) -> Result<bool, AllocError>
        requires nodes { AreNodes nodes edges.now }
        requires spread { IsSpread nodes edges.now to self.old }
        ensures { IfOk result (λ more. Advanced nodes edges.now to self.old self.new more) }
    {
        let Some(node) = self.top() else {
            return Ok(false);
        };
        let Some(source) = self.next(node) else {
            self.pass();
            return Ok(true);
        };
        self.cut_source(node);
        if !self.has_seen(source) {
            self.spread(source)?;
        }
        Ok(true)
    }

    fn into_seen(self) -> Vec<bool>
        ensures { result.items ≡ self.seen }
    {
        self.seen
    }
}

/// For each node, whether a walk of at least one edge leads from it to `to`.
///
/// Where many pairs are asked for, group them by their end: one call answers for all its sources.
pub fn reaching(
    alloc: Global,
    nodes: u32,
    edges: &[(u32, u32)],
    to: u32,
) -> Result<Vec<bool>, AllocError>
    requires nodes { AreNodes nodes edges.now }
    requires to { to < nodes }
    ensures { IfOk result (λ seen. AreReaching nodes edges.now to seen.items) }
{
    let mut reach = Reach::new(alloc, nodes, edges, to)?;
    'turns: loop {
        if !reach.advance(nodes, edges, to)? {
            return Ok(reach.into_seen());
        }
    }
}

/// Whether a walk of at least one edge leads from `from` to `to`. A node reaches itself only where
/// it lies on a closed walk.
pub fn reaches(
    alloc: Global,
    nodes: u32,
    edges: &[(u32, u32)],
    from: u32,
    to: u32,
) -> Result<bool, AllocError>
    requires nodes { AreNodes nodes edges.now }
    requires from { from < nodes }
    requires to { to < nodes }
    ensures { IfOk result (λ yes. IsTrue yes ↔ Reaches edges.now from to) }
{
    let seen = reaching(alloc, nodes, edges, to)?;
    Ok(seen[from as usize])
}
