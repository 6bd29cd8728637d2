//! The leaves of a structure, and the steps of one of them.
ghost use Rattle.std.specs.Prelude.{◌≡◌, ◌∷◌, [], length, slice_get, IfOk, MatchOption, option_map, take, ◌-◌, ◌<◌};
ghost use Rattle.std.specs.Prelude.{◌^◌, List as Seq};
ghost use Rattle.flow_model.specs.LeafLists.{run_of};
ghost use Rattle.flow_model.specs.declared.graphs.Leaf.{Leaf};
ghost use Rattle.flow_model.specs.LeafRows.{place_steps, linked_steps, steps_said};
ghost use Rattle.flow_model.specs.LeafSteps.{step_at};

use crate::graphs::{Kind, Leaves, Step};
use crate::leaf_rows::LeafRows;
use std::alloc::AllocError;
use std::marker::Model;
use std::rc::Rc;

/// A step of a leaf.
#[derive(Clone, Copy)]
pub enum StepAt<'a> {
    Step(&'a Step),
    Place(u32),
}

/// The steps of a leaf that are still to come.
#[derive(Drop)]
pub struct LeafSteps<'a> {
    table: &'a LeafRows,
    /// One more than the place in an array to which the next step leads; 0 where it leads to none.
    place: u32,
    /// One more than the row with the steps behind that; 0 where there are none.
    rest: usize,
}

impl<'a> Model for LeafSteps<'a> {
    ghost use Rattle.std.specs.Prelude.{List, ◌++◌};
    ghost use Rattle.flow_model.specs.declared.graphs.Step.{Step as One};
    ghost use Rattle.flow_model.specs.LeafRows.{place_steps, linked_steps};

    ghost Value = { List One };

    ghost view = { λ it. place_steps it.place ++ linked_steps it.table.now it.rest };
}

/// A link that leads to a row before that of another one; 0 for others.
fn before(link: usize, other: usize) -> usize
    ensures { (leaves : Seq Leaf) → linked_steps leaves result ≡ linked_steps (take (other - 1) leaves) link }
{
    if link < other { link } else { 0 }
}

impl<'a> LeafSteps<'a> {
    /// The next step.
    pub fn next(&mut self) -> Option<StepAt<'a>>
        ensures { MatchOption result (self.old ≡ []) (λ found. self.old ≡ step_at found ∷ self.new) }
    {
        if self.place > 0 {
            let place = self.place - 1;
            self.place = 0;
            return Some(StepAt::Place(place));
        }
        let row = self.table.linked(self.rest)?;
        self.place = u32::from(row.place);
        self.rest = before(row.rest as usize, self.rest);
        Some(StepAt::Step(row.head.as_ref()))
    }
}

impl Leaves {
    /// So many leaves of a table, from a row on, as far as they are there.
    pub fn new(table: Rc<LeafRows>, first: u32, count: u32) -> Leaves
        ensures { result ≡ run_of table.value first count }
    {
        let there = table.len().saturating_sub(first as usize);
        let count = if (count as usize) <= there {
            count
        } else {
            there as u32
        };
        Leaves {
            table,
            first,
            count,
        }
    }

    /// The number of leaves.
    pub fn len(&self) -> usize
        ensures len { result ≡ length self.now.leaves }
        ensures few { length self.now.leaves < 2 ^ 32 }
    {
        self.count as usize
    }

    /// What the leaf at a place holds.
    pub fn kind(&self, place: usize) -> Option<Kind>
        ensures { result ≡ option_map (λ l. l.kind) (slice_get self.now.leaves place) }
    {
        if place >= self.count as usize {
            return None;
        }
        self.table.kind(self.first as usize + place)
    }

    /// The steps of the leaf at a place; none where there is no leaf.
    pub fn steps(&self, place: usize) -> LeafSteps<'_>
        ensures { result ≡ steps_said (slice_get self.now.leaves place) }
    {
        let rest = if place < self.count as usize {
            self.first as usize + place + 1
        } else {
            0
        };
        LeafSteps {
            table: self.table.as_ref(),
            place: 0,
            rest,
        }
    }

    /// Equal leaves, in the same memory.
    pub fn copy(&self) -> Result<Leaves, AllocError>
        ensures { IfOk result (λ leaves. leaves ≡ self.now) }
    {
        Ok(Leaves {
            table: self.table.clone()?,
            first: self.first,
            count: self.count,
        })
    }
}
