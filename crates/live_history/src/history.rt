//! The rows of a history, and where those of each root stand.
ghost use Rattle.std.specs.Prelude.{◌≡◌, ℕ, ◌==◌, [], ◌∷◌, ◌++◌, length, if◌then◌else◌};
ghost use Rattle.std.specs.Prelude.{IfOk, OnOk, OnErr, count_by};
ghost use Rattle.live_history.specs.Transactions.{about, is_root, is_turn, without_root};
ghost use Rattle.live_history.specs.Rows.{kept_places, place_if};

use crate::kept_rows::Rows;
use crate::transactions::transaction_root;
use crate::walk::Walk;
use flow_model::{Numbered, Transaction};
use number_map::NumberMap;
use std::alloc::{AllocError, Global};
use std::marker::Model;

/// The live transactions in order. Those of one root are found, and taken away, in a time that goes with their number,
/// however many others there are.
#[derive(Drop)]
pub struct History {
    alloc: Global,
    /// The transactions, each at its place.
    rows: Rows,
    /// For each root the places of the rows about it.
    places: NumberMap<Vec<u32>>,
    /// How many rows were taken away.
    gone: usize,
}

impl Model for History {
    ghost use Rattle.live_history.specs.Histories.{Live};
    ghost use Rattle.live_history.specs.Rows.{present, HasPlaces};

    ghost Value = { Live };

    ghost view = { λ h. record { items = present h.rows } };

    ghost invariant = { λ h. HasPlaces h.rows h.places };
}

/// How many places a root first has room for: a case of four activities has nine transactions.
const FIRST_ROOM: usize = 10;

/// Makes room for one place more: a root has few, so they grow by about a quarter at a time.
fn make_room(kept: &mut Vec<u32>) -> Result<(), AllocError>
    ensures { kept.new.items ≡ kept.old.items }
{
    if kept.len() == kept.capacity() {
        kept.reserve_exact(kept.len() / 4 + 2)?;
    }
    Ok(())
}

/// Adds a place to those of a root; without memory all stay as they were.
fn add_place(
    places: &mut NumberMap<Vec<u32>>,
    alloc: Global,
    root: u64,
    place: u32,
) -> Result<(), AllocError>
    ensures ok { OnOk result ((other : ℕ) → kept_places places.new other
        ≡ (if root == other then kept_places places.old other ++ place ∷ [] else kept_places places.old other)) }
    ensures err { OnErr result ((other : ℕ) → kept_places places.new other ≡ kept_places places.old other) }
{
    if let Some(kept) = places.get_mut(root) {
        make_room(kept)?;
        kept.push(place)?;
        return Ok(());
    }
    let mut first = Vec::with_capacity(alloc, FIRST_ROOM)?;
    first.push(place)?;
    places.insert(root, first)?;
    Ok(())
}

/// Adds a place to those of the root that a row is about, if it is about one; without memory all stay as they were.
fn index_row(
    places: &mut NumberMap<Vec<u32>>,
    alloc: Global,
    about: Option<u64>,
    place: u32,
) -> Result<(), AllocError>
    ensures ok { OnOk result ((root : ℕ) → kept_places places.new root
        ≡ kept_places places.old root ++ place_if (is_root root about) place) }
    ensures err { OnErr result ((root : ℕ) → kept_places places.new root ≡ kept_places places.old root) }
{
    match about {
        None => Ok(()),
        Some(root) => add_place(places, alloc, root, place),
    }
}

/// Takes the places of a root out of the map.
fn take_places(places: &mut NumberMap<Vec<u32>>, alloc: Global, root: u64) -> Vec<u32>
    ensures taken { result.items ≡ kept_places places.old root }
    ensures others { (other : ℕ) → kept_places places.new other
        ≡ (if root == other then [] else kept_places places.old other) }
{
    match places.remove(root) {
        Some(kept) => kept,
        None => Vec::new(alloc),
    }
}

/// The places of a root.
fn places_of(places: &NumberMap<Vec<u32>>, root: u64) -> &[u32]
    ensures { result.now ≡ kept_places places.now root }
{
    match places.get(root) {
        Some(kept) => kept.as_slice(),
        None => &[],
    }
}

impl History {
    /// A history without transactions.
    pub fn new(alloc: Global) -> History
        ensures { result.items ≡ [] }
    {
        History {
            alloc,
            rows: Rows::new(alloc),
            places: NumberMap::new(alloc),
            gone: 0,
        }
    }

    /// A walk over the transactions, the oldest first.
    pub fn walk(&self) -> Walk<'_>
        ensures { result ≡ self.now.items }
    {
        Walk::new(&self.rows)
    }

    /// The number of transactions.
    pub fn len(&self) -> usize
        ensures { result ≡ length self.now.items }
    {
        self.rows.count()
    }

    /// The number of Turns among the transactions. None of them is read whole.
    pub fn turns(&self) -> usize
        ensures { result ≡ count_by (λ n. is_turn n.transaction) self.now.items }
    {
        self.rows.turns()
    }

    /// The transactions about a root, the oldest first.
    pub fn about(&self, root: u64) -> Result<Vec<Numbered>, AllocError>
        ensures { IfOk result (λ found. found.items ≡ about root self.now.items) }
    {
        let mut found = Vec::new(self.alloc);
        for place in places_of(&self.places, root) {
            if let Some(numbered) = self.rows.transaction(*place as usize)? {
                found.push(numbered)?;
            }
        }
        Ok(found)
    }

    /// Adds a transaction.
    fn add(&mut self, number: u64, transaction: &Transaction) -> Result<(), AllocError>
        ensures { OnOk result (self.new.items
            ≡ self.old.items ++ record { number = number; transaction = transaction.now } ∷ []) }
    {
        let about = transaction_root(transaction);
        let place = self.rows.push(number, transaction)?;
        if let Err(fault) = index_row(&mut self.places, self.alloc, about, place) {
            self.rows.clear(place as usize);
            return Err(fault);
        }
        Ok(())
    }

    /// Lets go of the rows that were taken away.
    fn compact(&mut self) -> Result<(), AllocError>
        ensures { OnOk result (self.new.items ≡ self.old.items) }
    {
        let old = std::mem::replace(self, History::new(self.alloc));
        let mut walk = old.walk();
        while let Some(numbered) = walk.next()? {
            self.add(numbered.number, &numbered.transaction)?;
        }
        Ok(())
    }

    /// Adds a transaction behind the others. After want of memory the history isn't used.
    pub fn push(&mut self, number: u64, transaction: &Transaction) -> Result<(), AllocError>
        ensures { OnOk result (self.new.items
            ≡ self.old.items ++ record { number = number; transaction = transaction.now } ∷ []) }
    {
        if self.gone > self.rows.len() / 2 {
            self.compact()?;
        }
        self.add(number, transaction)
    }

    /// Takes the transactions about a root away.
    pub fn remove(&mut self, root: u64)
        ensures { self.new.items ≡ without_root root self.old.items }
    {
        let places = take_places(&mut self.places, self.alloc, root);
        self.rows.clear_all(&places);
        self.gone = self.gone.saturating_add(places.len());
    }
}
