ghost use Rattle.std.specs.Prelude.{◌≡◌, ◌<◌, [], ◌≢◌, IfOk, OnOk, length, reverse, replicate};
ghost use Rattle.graph_check.specs.Walks.{AreNodes};
ghost use Rattle.graph_check.specs.Among.{first_of, rest_of, through};
ghost use Rattle.graph_check.specs.Searching.{entered, left, skipped, mark_of, sources_of, IsSound, Grows, Turned, Ran};
ghost use Rattle.graph_check.specs.Searching.{Visited};

use crate::sources::{drop_last, sources};
use flow_model::List;
use std::alloc::{AllocError, Global};
use std::marker::Model;

/// How far the search is with a node.
#[derive(Clone, Copy, Debug, PartialEq, Eq)]
pub enum Mark {
    /// Not met yet.
    New,
    /// Begun, and not all of its sources are finished.
    Open,
    /// Finished, and so are all of its sources.
    Done,
}

/// What one turn of the search did.
#[derive(Clone, Copy, Debug, PartialEq, Eq)]
pub enum Turn {
    /// No node was begun, so nothing.
    Emptied,
    /// It began or finished a node, or left out an edge.
    Moved,
    /// It met this open node again, which closes a walk.
    Back(u32),
}

/// A search from each node back along the edges that lead to it.
#[derive(Drop)]
pub struct Search {
    sources: Vec<Vec<u32>>,
    marks: Vec<Mark>,
    begun: Vec<u32>,
    finished: List<u32>,
}

impl Model for Search {
    ghost use Rattle.std.specs.Prelude.{reverse};
    ghost use Rattle.graph_check.specs.Rows.{rows_of};
    ghost use Rattle.graph_check.specs.Searching.{State};

    ghost Value = { State };

    ghost view = { λ s. record { sources = rows_of s.sources.items; marks = s.marks.items; begun = reverse s.begun.items; finished = reverse s.finished } };
}

fn new_marks(alloc: Global, nodes: u32) -> Result<Vec<Mark>, AllocError>
    ensures { IfOk result (λ marks. marks.items ≡ replicate nodes Mark.New) }
{
    Ok(vec![in alloc; Mark::New; nodes as usize]?)
}

impl Search {
    /// The node that was begun last.
    fn top(&self) -> Option<u32>
        ensures { result ≡ first_of self.now.begun }
    {
        self.begun.last().copied()
    }

    /// The next source of a node.
    fn next(&self, node: u32) -> Option<u32>
        requires { node < length self.now.sources }
        ensures { result ≡ first_of (sources_of self.now node) }
    {
        let row = &self.sources[node as usize];
        row.last().copied()
    }

    fn mark(&self, node: u32) -> Mark
        requires { node < length self.now.marks }
        ensures { result ≡ mark_of self.now node }
    {
        self.marks[node as usize]
    }

    fn enter(&mut self, node: u32) -> Result<(), AllocError>
        requires { node < length self.old.marks }
        ensures { OnOk result (self.new ≡ entered self.old node) }
    {
        self.begun.push(node)?;
        self.marks[node as usize] = Mark::Open;
        Ok(())
    }

    fn leave(&mut self, node: u32) -> Result<(), AllocError>
        requires { node < length self.old.marks }
        ensures { OnOk result (self.new ≡ left self.old node (rest_of self.old.begun)) }
    {
        self.finished.push(node)?;
        let _top = self.begun.pop();
        self.marks[node as usize] = Mark::Done;
        Ok(())
    }

    fn skip(&mut self, node: u32)
        requires { node < length self.old.sources }
        ensures { self.new ≡ skipped self.old node (rest_of (sources_of self.old node)) }
    {
        drop_last(&mut self.sources[node as usize]);
    }

    /// A search that has begun no node.
    pub fn new(alloc: Global, nodes: u32, edges: &[(u32, u32)]) -> Result<Search, AllocError>
        requires { AreNodes nodes edges.now }
        ensures { IfOk result (λ search. IsSound nodes edges.now search × (search.begun ≡ [])) }
    {
        Ok(Search {
            sources: sources(alloc, nodes, edges)?,
            marks: new_marks(alloc, nodes)?,
            begun: Vec::new(alloc),
            finished: List::new(alloc),
        })
    }

    /// Goes on from the node that was begun last.
    fn turn(&mut self, nodes: u32, edges: &[(u32, u32)]) -> Result<Turn, AllocError>
        requires nodes { AreNodes nodes edges.now }
        requires sound { IsSound nodes edges.now self.old }
        ensures { IfOk result (λ turn. Turned nodes edges.now self.old self.new turn) }
    {
        let Some(node) = self.top() else {
            return Ok(Turn::Emptied);
        };
        let Some(source) = self.next(node) else {
            self.leave(node)?;
            return Ok(Turn::Moved);
        };
        match self.mark(source) {
            Mark::New => {
                self.enter(source)?;
                Ok(Turn::Moved)
            }
            Mark::Open => Ok(Turn::Back(source)),
            Mark::Done => {
                self.skip(node);
                Ok(Turn::Moved)
            }
        }
    }

    fn pop_top(&mut self) -> Option<u32>
        ensures found { result ≡ first_of self.old.begun }
        ensures after { self.new ≡ record self.old { begun = rest_of self.old.begun } }
    {
        self.begun.pop()
    }

    /// The nodes that were begun last, the last first, through the given one.
    fn walk_through(&mut self, alloc: Global, node: u32) -> Result<List<u32>, AllocError>
        ensures { IfOk result (λ walk. walk ≡ through node self.old.begun) }
    {
        let mut walk = List::new(alloc);
        while let Some(last) = self.pop_top() {
            walk.push(last)?;
            if last == node {
                return Ok(walk);
            }
        }
        Ok(walk)
    }

    /// Goes on until no begun node is left, or a closed walk is found.
    fn run(
        &mut self,
        alloc: Global,
        nodes: u32,
        edges: &[(u32, u32)],
    ) -> Result<Option<List<u32>>, AllocError>
        requires nodes { AreNodes nodes edges.now }
        requires sound { IsSound nodes edges.now self.old }
        ensures { IfOk result (λ found. Ran nodes edges.now self.old self.new found) }
    {
        'turns: loop {
            match self.turn(nodes, edges)? {
                Turn::Emptied => return Ok(None),
                Turn::Moved => {}
                Turn::Back(node) => return Ok(Some(self.walk_through(alloc, node)?)),
            }
        }
    }

    /// Begins a node that is new.
    fn start(&mut self, nodes: u32, edges: &[(u32, u32)], node: u32) -> Result<(), AllocError>
        requires nodes { AreNodes nodes edges.now }
        requires sound { IsSound nodes edges.now self.old }
        requires idle { self.old.begun ≡ [] }
        requires inside { node < nodes }
        ensures { OnOk result (IsSound nodes edges.now self.new × Grows nodes self.old self.new
            × (mark_of self.new node ≢ Mark.New)) }
    {
        match self.mark(node) {
            Mark::New => {
                self.enter(node)?;
                Ok(())
            }
            Mark::Open => Ok(()),
            Mark::Done => Ok(()),
        }
    }

    /// Finishes a node and all nodes from which it is reached, if no closed walk is found.
    pub fn visit(
        &mut self,
        alloc: Global,
        nodes: u32,
        edges: &[(u32, u32)],
        node: u32,
    ) -> Result<Option<List<u32>>, AllocError>
        requires nodes { AreNodes nodes edges.now }
        requires sound { IsSound nodes edges.now self.old }
        requires idle { self.old.begun ≡ [] }
        requires inside { node < nodes }
        ensures { IfOk result (λ found. Visited nodes edges.now self.old self.new node found) }
    {
        self.start(nodes, edges, node)?;
        self.run(alloc, nodes, edges)
    }

    /// The finished nodes, the first first.
    pub fn into_order(self) -> List<u32>
        ensures { reverse result ≡ self.finished }
    {
        self.finished
    }
}
