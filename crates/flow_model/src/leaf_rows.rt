//! The leaves of all structures of a text, in one table in which leaves share the ends of their names.
ghost use Rattle.std.specs.Prelude.{◌≡◌, ◌++◌, ◌∷◌, [], length, slice_get, MatchOption, OnOk, option_copied};
ghost use Rattle.std.specs.Prelude.{option_map, take, ◌-◌};
ghost use Rattle.flow_model.specs.LeafRows.{place_steps, linked_steps, leaf_of};

use crate::graphs::{Kind, Step};
use std::alloc::{AllocError, Global};
use std::marker::Model;
use std::rc::Rc;

/// A leaf by its first step and by where the others stand.
#[derive(Drop)]
pub struct LeafRow {
    pub head: Rc<Step>,
    /// One more than the row of the leaf whose steps are the last ones of this; 0 where there are none.
    pub rest: u32,
    /// One more than the place in the array that the first step leads to; 0 where it leads to no array.
    pub place: u16,
    pub kind: Kind,
}

/// A table of leaves, in which each row may lead on to one before it.
#[derive(Drop)]
pub struct LeafRows {
    rows: Vec<LeafRow>,
}

impl Model for LeafRows {
    ghost use Rattle.std.specs.Prelude.{List, []};
    ghost use Rattle.flow_model.specs.declared.graphs.Leaf.{Leaf as One};

    ghost Value = { List One };

    ghost use Rattle.flow_model.specs.LeafRows.{leaves_behind};

    ghost view = { λ it. leaves_behind [] it.rows.items };
}

fn row_at(rows: &[LeafRow], place: usize) -> Option<&LeafRow>
    ensures { option_copied result ≡ slice_get rows.now place }
{
    rows.get(place)
}

impl LeafRows {
    /// A table without leaves.
    pub fn new(alloc: Global) -> LeafRows
        ensures { result ≡ [] }
    {
        LeafRows {
            rows: Vec::new(alloc),
        }
    }

    /// The number of leaves.
    pub fn len(&self) -> usize
        ensures { result ≡ length self.now }
    {
        self.rows.len()
    }

    /// What the leaf at a place holds.
    pub fn kind(&self, place: usize) -> Option<Kind>
        ensures { result ≡ option_map (λ l. l.kind) (slice_get self.now place) }
    {
        match row_at(&self.rows, place) {
            None => None,
            Some(row) => Some(row.kind),
        }
    }

    /// The row that a link leads to: one more than its place, or 0.
    pub(crate) fn linked(&self, link: usize) -> Option<&LeafRow>
        ensures { MatchOption result (linked_steps self.now link ≡ [])
            (λ row. linked_steps self.now link ≡ row.now.head.value ∷
            (place_steps row.now.place ++ linked_steps (take (link - 1) self.now) row.now.rest)) }
    {
        if link == 0 {
            return None;
        }
        match row_at(&self.rows, link - 1) {
            None => None,
            Some(row) => Some(row),
        }
    }

    /// Puts a leaf last.
    pub fn push(&mut self, row: LeafRow) -> Result<(), AllocError>
        ensures { OnOk result (self.new ≡ self.old ++ leaf_of self.old row ∷ []) }
    {
        self.rows.push(row)?;
        Ok(())
    }
}
