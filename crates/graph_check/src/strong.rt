ghost use Rattle.std.specs.Prelude.{◌≡◌, ◌≢◌, ◌<◌, ◌^◌, ◌+◌, ◌≤◌, ℕ, [], IfOk, OnOk, Some, None, MatchBool};
ghost use Rattle.std.specs.Prelude.{length, map, replicate, reverse, slice_set};
ghost use Rattle.graph_check.specs.Among.{first_of, rest_of};
ghost use Rattle.graph_check.specs.Components.{AreComponents, AreCyclic};
ghost use Rattle.graph_check.specs.Grouping.{Advanced, At, Grows, IsGrouped, IsStep, IsTop, IsVisited, entered};
ghost use Rattle.graph_check.specs.Grouping.{left, mark_of, merged, number_of, released, row_of, settled, skipped};
ghost use Rattle.graph_check.specs.Walks.{AreNodes};

use crate::sources::{drop_last, sources};
use std::alloc::{AllocError, Global};
use std::marker::Model;

/// How far the search is with a node.
#[derive(Clone, Copy, Debug, PartialEq, Eq)]
pub enum Standing {
    /// Not met yet.
    New,
    /// Met, at this place among the held nodes; its component is not known yet.
    Held(usize),
    /// In the component of this number.
    Settled(u32),
}

/// A search from each node back along the edges that lead to it, which joins nodes to groups as
/// it finds closed walks.
#[derive(Drop)]
pub struct Grouping {
    /// For each node the sources of its edges that are still to be gone along.
    sources: Vec<Vec<u32>>,
    marks: Vec<Standing>,
    /// The places of the nodes that have sources left, or may have.
    path: Vec<usize>,
    /// The places at which the groups of held nodes begin.
    roots: Vec<usize>,
    /// The nodes that are met and not settled.
    held: Vec<u32>,
    /// How many components are settled.
    count: u32,
}

impl Model for Grouping {
    ghost use Rattle.std.specs.Prelude.{reverse};
    ghost use Rattle.graph_check.specs.Rows.{rows_of};
    ghost use Rattle.graph_check.specs.Grouping.{State};

    ghost Value = { State };

    ghost view = { λ s. record { sources = rows_of s.sources.items; marks = s.marks.items; path = reverse s.path.items; roots = reverse s.roots.items; held = reverse s.held.items; count = s.count } };
}

fn new_marks(alloc: Global, nodes: u32) -> Result<Vec<Standing>, AllocError>
    ensures { IfOk result (λ marks. marks.items ≡ replicate nodes Standing.New) }
{
    Ok(vec![in alloc; Standing::New; nodes as usize]?)
}

fn number(mark: &Standing) -> u32
    ensures { result ≡ number_of mark.now }
{
    match mark {
        Standing::Settled(number) => *number,
        _ => 0,
    }
}

impl Grouping {
    fn new(alloc: Global, nodes: u32, edges: &[(u32, u32)]) -> Result<Grouping, AllocError>
        requires { AreNodes nodes edges.now }
        ensures { IfOk result (λ grouping. IsGrouped nodes edges.now grouping × (grouping.path ≡ [])) }
    {
        Ok(Grouping {
            sources: sources(alloc, nodes, edges)?,
            marks: new_marks(alloc, nodes)?,
            path: Vec::new(alloc),
            roots: Vec::new(alloc),
            held: Vec::new(alloc),
            count: 0,
        })
    }

    /// The place of the node whose sources are gone along.
    fn top(&self) -> Option<usize>
        ensures { result ≡ first_of self.now.path }
    {
        self.path.last().copied()
    }

    fn top_root(&self) -> Option<usize>
        ensures { result ≡ first_of self.now.roots }
    {
        self.roots.last().copied()
    }

    fn node_at(&self, place: usize) -> u32
        requires { place < length self.now.held }
        ensures { At self.now.held place result }
    {
        self.held[place]
    }

    /// The next source of a node.
    fn next(&self, node: u32) -> Option<u32>
        requires { node < length self.now.sources }
        ensures { result ≡ first_of (row_of self.now node) }
    {
        let row = &self.sources[node as usize];
        row.last().copied()
    }

    fn mark(&self, node: u32) -> Standing
        requires { node < length self.now.marks }
        ensures { result ≡ mark_of self.now node }
    {
        self.marks[node as usize]
    }

    /// Holds a node, as the one that was met last and as a group of its own.
    fn enter(&mut self, node: u32) -> Result<(), AllocError>
        requires { node < length self.old.marks }
        ensures { OnOk result (self.new ≡ entered self.old node) }
    {
        let place = self.held.as_slice().len();
        self.held.push(node)?;
        self.path.push(place)?;
        self.roots.push(place)?;
        self.marks[node as usize] = Standing::Held(place);
        Ok(())
    }

    /// Leaves out the next source of a node.
    fn skip(&mut self, node: u32)
        requires { node < length self.old.sources }
        ensures { self.new ≡ skipped self.old node (rest_of (row_of self.old node)) }
    {
        drop_last(&mut self.sources[node as usize]);
    }

    fn pop_root(&mut self)
        ensures { self.new ≡ record self.old { roots = rest_of self.old.roots } }
    {
        let _root = self.roots.pop();
    }

    fn leave(&mut self)
        ensures { self.new ≡ left self.old }
    {
        let _place = self.path.pop();
    }

    /// Joins the groups behind a place to the group that has it.
    fn merge(&mut self, place: usize)
        ensures { self.new ≡ merged self.old place }
    {
        while let Some(root) = self.top_root() {
            if root <= place {
                return;
            }
            self.pop_root();
        }
    }

    fn is_held_from(&self, place: usize) -> bool
        ensures { MatchBool result (place < length self.now.held) (length self.now.held ≤ place) }
    {
        place < self.held.as_slice().len()
    }

    fn pop_held(&mut self) -> Option<u32>
        ensures found { result ≡ first_of self.old.held }
        ensures after { self.new ≡ record self.old { held = rest_of self.old.held } }
    {
        self.held.pop()
    }

    fn set_mark(&mut self, node: u32)
        requires { node < length self.old.marks }
        ensures { self.new ≡ record self.old {
          marks = slice_set self.old.marks node
              (Standing.Settled self.old.count);
        } }
    {
        self.marks[node as usize] = Standing::Settled(self.count);
    }

    /// Takes the held nodes from a place on, and gives them the next component's number.
    fn release(&mut self, place: usize)
        requires { (p a : ℕ) → At self.old.held p a → a < length self.old.marks }
        ensures { self.new ≡ released self.old place }
    {
        while self.is_held_from(place) {
            if let Some(node) = self.pop_held() {
                self.set_mark(node);
            }
        }
    }

    /// Makes a component of the last group, which begins at a place.
    fn settle(&mut self, place: usize)
        requires inside { (p a : ℕ) → At self.old.held p a → a < length self.old.marks }
        requires room { self.old.count + 1 < 2 ^ 32 }
        ensures { self.new ≡ settled self.old place }
    {
        self.release(place);
        self.pop_root();
        self.leave();
        self.count += 1;
    }

    /// Goes along the edge from the next source of the node whose sources are gone along.
    fn go_along(
        &mut self,
        nodes: u32,
        edges: &[(u32, u32)],
        node: u32,
        source: u32,
    ) -> Result<(), AllocError>
        requires nodes { AreNodes nodes edges.now }
        requires grouped { IsGrouped nodes edges.now self.old }
        requires at { IsTop self.old node }
        requires next { Some source ≡ first_of (row_of self.old node) }
        ensures { OnOk result (IsStep nodes edges.now self.old self.new) }
    {
        match self.mark(source) {
            Standing::New => {
                self.enter(source)?;
                Ok(())
            }
            Standing::Held(place) => {
                self.merge(place);
                self.skip(node);
                Ok(())
            }
            Standing::Settled(_) => {
                self.skip(node);
                Ok(())
            }
        }
    }

    /// Ends with a node that has no source left: its group is a component where it begins there.
    fn close(&mut self, nodes: u32, edges: &[(u32, u32)], node: u32, place: usize)
        requires grouped { IsGrouped nodes edges.now self.old }
        requires top { Some place ≡ first_of self.old.path }
        requires at { At self.old.held place node }
        requires closed { None ≡ first_of (row_of self.old node) }
        ensures { IsStep nodes edges.now self.old self.new }
    {
        if self.top_root() == Some(place) {
            self.settle(place);
        } else {
            self.leave();
        }
    }

    /// Goes on from the node that was met last and has sources left. False where there is none.
    fn advance(&mut self, nodes: u32, edges: &[(u32, u32)]) -> Result<bool, AllocError>
        requires nodes { AreNodes nodes edges.now }
        requires grouped { IsGrouped nodes edges.now self.old }
        ensures { IfOk result (λ more. Advanced nodes edges.now self.old self.new more) }
    {
        let Some(place) = self.top() else {
            return Ok(false);
        };
        let node = self.node_at(place);
        let Some(source) = self.next(node) else {
            self.close(nodes, edges, node, place);
            return Ok(true);
        };
        self.go_along(nodes, edges, node, source)?;
        Ok(true)
    }

    /// Goes on until no node has sources left.
    fn run(&mut self, nodes: u32, edges: &[(u32, u32)]) -> Result<(), AllocError>
        requires nodes { AreNodes nodes edges.now }
        requires grouped { IsGrouped nodes edges.now self.old }
        ensures { OnOk result (IsGrouped nodes edges.now self.new × (self.new.path ≡ [])
            × Grows nodes self.old self.new) }
    {
        'turns: loop {
            if !self.advance(nodes, edges)? {
                return Ok(());
            }
        }
    }

    /// Begins a node that is new.
    fn start(&mut self, nodes: u32, edges: &[(u32, u32)], node: u32) -> Result<(), AllocError>
        requires grouped { IsGrouped nodes edges.now self.old }
        requires idle { self.old.path ≡ [] }
        requires inside { node < nodes }
        ensures { OnOk result (IsGrouped nodes edges.now self.new × Grows nodes self.old self.new
            × (mark_of self.new node ≢ Standing.New)) }
    {
        match self.mark(node) {
            Standing::New => {
                self.enter(node)?;
                Ok(())
            }
            Standing::Held(_) => Ok(()),
            Standing::Settled(_) => Ok(()),
        }
    }

    /// Settles a node and all nodes from which it is reached.
    fn visit(&mut self, nodes: u32, edges: &[(u32, u32)], node: u32) -> Result<(), AllocError>
        requires nodes { AreNodes nodes edges.now }
        requires grouped { IsGrouped nodes edges.now self.old }
        requires idle { self.old.path ≡ [] }
        requires inside { node < nodes }
        ensures { OnOk result (IsVisited nodes edges.now self.old self.new node) }
    {
        self.start(nodes, edges, node)?;
        self.run(nodes, edges)?;
        Ok(())
    }

    fn numbers(&self, alloc: Global) -> Result<Vec<u32>, AllocError>
        ensures { IfOk result (λ numbers. numbers.items ≡ map number_of self.now.marks) }
    {
        self.marks.iter().map(|mark| number(mark)).collect(alloc)
    }
}

/// The number of each node's strong component: two nodes have one number exactly where each
/// reaches the other. No edge leads from a node to one of a smaller number.
pub fn components(alloc: Global, nodes: u32, edges: &[(u32, u32)]) -> Result<Vec<u32>, AllocError>
    requires { AreNodes nodes edges.now }
    ensures { IfOk result (λ numbers. AreComponents nodes edges.now numbers.items) }
{
    let mut grouping = Grouping::new(alloc, nodes, edges)?;
    for node in 0..nodes {
        grouping.visit(nodes, edges, node)?;
    }
    let numbers = grouping.numbers(alloc)?;
    Ok(numbers)
}

/// For each edge, whether it lies on a closed walk.
pub fn cyclic_edges(
    alloc: Global,
    nodes: u32,
    edges: &[(u32, u32)],
) -> Result<Vec<bool>, AllocError>
    requires { AreNodes nodes edges.now }
    ensures { IfOk result (λ cyclic. AreCyclic edges.now cyclic.items) }
{
    let numbers = components(alloc, nodes, edges)?;
    let mut cyclic = Vec::new(alloc);
    for edge in edges {
        cyclic.push(numbers[edge.0 as usize] == numbers[edge.1 as usize])?;
    }
    Ok(cyclic)
}
