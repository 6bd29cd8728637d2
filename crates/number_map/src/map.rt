//! The map.
ghost use Rattle.std.specs.Prelude.{◌≡◌, ◌==◌, ◌<◌, ℕ, [], Some, None, if◌then◌else◌, option_copied, OnOk, OnErr};
ghost use Rattle.std.specs.Prelude.{length, slice_get, slice_set};
ghost use Rattle.std.specs.Borrow.{sem};
ghost use Rattle.std.specs.List.{filter};
ghost use Rattle.std.specs.List.Sorted.{IsStrictlySortedBy};
ghost use Rattle.std.specs.Map.{keys_of};
ghost use Rattle.std.specs.Option.{option_copied_mut};
ghost use Rattle.std.specs.Ordering.{nat_cmp};
ghost use Rattle.number_map.specs.Entries.{value_under};
ghost use Rattle.number_map.specs.Lends.{lends_get};
ghost use Rattle.number_map.specs.Rows.{has_value};

use crate::iter::Iter;
use crate::place::{Row, place};
use std::alloc::{AllocError, Global};
use std::marker::Model;

/// Values under numbers. Contracts see the numbers that have a value, each with it, by rising number.
#[derive(Drop)]
pub struct NumberMap<V> {
    /// By rising number.
    rows: Vec<Row<V>>,
    /// At least as many as there are rows without a value: a number that gets one again stays counted.
    gone: usize,
}

impl<V> Model for NumberMap<V> {
    ghost use Rattle.number_map.specs.Entries.{NumberMap as Entries, entries_code};
    ghost use Rattle.number_map.specs.Rows.{entries_of, IsRising};

    ghost Value = { Entries V };

    ghost coded = { entries_code V.code };

    ghost view = { λ m. record { entries = entries_of m.rows.items } };

    ghost invariant = { λ m. IsRising m.rows.items };
}

/// Puts a row in the place of another one, and gives that.
fn replace_row<V>(rows: &mut Vec<Row<V>>, place: usize, row: Row<V>) -> Row<V>
    requires { place < length rows.old.items }
    ensures replaced { slice_get rows.old.items place ≡ Some result }
    ensures rows { rows.new.items ≡ slice_set rows.old.items place row }
{
    std::mem::replace(&mut rows[place], row)
}

/// Puts a row in the place of another one.
fn put_row<V: Drop>(rows: &mut Vec<Row<V>>, place: usize, row: Row<V>)
    requires { place < length rows.old.items }
    ensures { rows.new.items ≡ slice_set rows.old.items place row }
{
    let _row = replace_row(rows, place, row);
}

/// Lets go of the rows without a value.
fn keep_valued<V: Drop>(rows: &mut Vec<Row<V>>)
    ensures { rows.new.items ≡ filter has_value rows.old.items }
{
    rows.retain(|row| row.value.is_some());
}

impl<V: Drop> NumberMap<V> {
    /// A map without a value.
    pub fn new(alloc: Global) -> NumberMap<V>
        ensures { result.entries ≡ [] }
    {
        NumberMap {
            rows: Vec::new(alloc),
            gone: 0,
        }
    }

    /// The numbers that have a value, each with it, by rising number.
    pub fn iter(&self) -> Iter<'_, V>
        ensures entries { result ≡ self.now.entries }
        ensures rising { IsStrictlySortedBy nat_cmp (keys_of self.now.entries) }
    {
        Iter::new(&self.rows)
    }

    /// The value under a number, if there is one.
    pub fn get(&self, number: u64) -> Option<&V>
        ensures { option_copied result ≡ value_under number self.now }
    {
        match place(&self.rows, number) {
            Ok(place) => self.rows[place].value.as_ref(),
            Err(_) => None,
        }
    }

    /// The value under a number for writing, if there is one.
    pub fn get_mut(&mut self, number: u64) -> Option<&mut V>
        ensures* writes_back { sem 𝓛 (lends_get V.row self.entry number result) }
        ensures value { option_copied_mut result ≡ value_under number self.old }
    {
        match place(&self.rows, number) {
            Ok(place) => self.rows[place].value_mut(),
            Err(_) => None,
        }
    }

    /// Puts a value under a number, in the place of the one that was there. Without memory nothing changes.
    pub fn insert(&mut self, number: u64, value: V) -> Result<(), AllocError>
        ensures ok { OnOk result ((other : ℕ) → value_under other self.new
            ≡ (if number == other then Some value else value_under other self.old)) }
        ensures err { OnErr result (self.new ≡ self.old) }
    {
        let value = Some(value);
        match place(&self.rows, number) {
            Ok(place) => {
                put_row(&mut self.rows, place, Row { number, value });
                Ok(())
            }
            Err(place) => {
                self.rows.insert(place, Row { number, value })?;
                Ok(())
            }
        }
    }

    /// Lets go of the rows without a value, where they are more than half.
    fn tidy(&mut self)
        ensures { self.new ≡ self.old }
    {
        if self.gone > self.rows.len() / 2 {
            keep_valued(&mut self.rows);
            self.gone = 0;
        }
    }

    /// Takes the value under a number away, if there is one.
    pub fn remove(&mut self, number: u64) -> Option<V>
        ensures value { result ≡ value_under number self.old }
        ensures others { (other : ℕ) → value_under other self.new
            ≡ (if number == other then None else value_under other self.old) }
    {
        let Ok(place) = place(&self.rows, number) else {
            return None;
        };
        let row = Row {
            number,
            value: None,
        };
        let Row { number: _, value } = replace_row(&mut self.rows, place, row);
        self.gone = self.gone.saturating_add(1);
        self.tidy();
        value
    }
}
