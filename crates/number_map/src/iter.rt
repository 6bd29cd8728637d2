//! A walk over a map.
ghost use Rattle.std.specs.Prelude.{◌≡◌};
ghost use Rattle.std.specs.Iterator.{YieldsFirstBy, item_count};
ghost use Rattle.number_map.specs.Rows.{entries_of};

use crate::place::Row;
use std::marker::Model;

/// The numbers that have a value, each with it, by rising number; seen as the list of those that are left.
#[derive(Drop)]
pub struct Iter<'a, V> {
    rows: &'a [Row<V>],
}

impl<'a, V> Model for Iter<'a, V> {
    ghost use Rattle.std.specs.Prelude.{ℕ, List};
    ghost use Rattle.number_map.specs.Rows.{entries_of};

    ghost Value = { List (ℕ × V) };

    ghost view = { λ it. entries_of it.rows.now };
}

impl<'a, V> Iter<'a, V> {
    /// All rows are left.
    pub(crate) fn new(rows: &'a [Row<V>]) -> Iter<'a, V>
        ensures { result ≡ entries_of rows.now }
    {
        Iter { rows }
    }
}

impl<'a, V> Iterator for Iter<'a, V> {
    type Item = (u64, &'a V);

    ghost next_gives = { YieldsFirstBy (λ item. (item.0, item.1.now)) (λ rest. rest) };

    ghost remaining = { item_count (λ rest. rest) };

    fn next(&mut self) -> Option<(u64, &'a V)> {
        while let Some((row, rest)) = self.rows.split_first() {
            self.rows = rest;
            if let Some(value) = &row.value {
                return Some((row.number, value));
            }
        }
        None
    }
}
