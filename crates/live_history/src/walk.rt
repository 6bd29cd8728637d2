//! A walk over the live transactions, the oldest first.
ghost use Rattle.std.specs.Prelude.{◌≡◌, ◌∷◌, [], drop, IfOk, OnErr, MatchOption};
ghost use Rattle.live_history.specs.Rows.{present};
ghost use Rattle.live_history.specs.Kept.{records_of};

use crate::kept_rows::Rows;
use flow_model::Numbered;
use std::alloc::AllocError;
use std::marker::Model;

/// A walk over the live transactions, the oldest first. Contracts see those that are still to come.
#[derive(Drop)]
pub struct Walk<'a> {
    rows: &'a Rows,
    /// The number of the rows that were passed.
    passed: usize,
}

impl<'a> Model for Walk<'a> {
    ghost use Rattle.std.specs.Prelude.{List, drop};
    ghost use Rattle.flow_model.specs.declared.transactions.Numbered.{Numbered};
    ghost use Rattle.live_history.specs.Rows.{present};

    ghost Value = { List Numbered };

    ghost view = { λ w. present (drop w.passed w.rows.now) };
}

impl<'a> Walk<'a> {
    /// A walk over all of these rows.
    pub(crate) fn new(rows: &'a Rows) -> Walk<'a>
        ensures { result ≡ present rows.now }
    {
        Walk { rows, passed: 0 }
    }

    /// The next transaction; None where none is left. Without memory the walk stays where it is.
    pub fn next(&mut self) -> Result<Option<Numbered>, AllocError>
        ensures ok { IfOk result (λ next. MatchOption next (self.old ≡ []) (λ n. self.old ≡ n ∷ self.new)) }
        ensures err { OnErr result (self.new ≡ self.old) }
    {
        'rows: while self.passed < self.rows.len() {
            let found = self.rows.transaction(self.passed)?;
            self.passed += 1;
            if let Some(numbered) = found {
                return Ok(Some(numbered));
            }
        }
        Ok(None)
    }

    /// The record of the next transaction; None where none is left. Without memory the walk stays where it is.
    pub fn next_record(&mut self) -> Result<Option<Vec<u8>>, AllocError>
        ensures ok { IfOk result (λ next. MatchOption next (self.old ≡ [])
            (λ bytes. records_of self.old ≡ bytes.items ∷ records_of self.new)) }
        ensures err { OnErr result (self.new ≡ self.old) }
    {
        'rows: while self.passed < self.rows.len() {
            let found = self.rows.record_of(self.passed)?;
            self.passed += 1;
            if let Some(bytes) = found {
                return Ok(Some(bytes));
            }
        }
        Ok(None)
    }
}
