//! The rows of a history: each a transaction that is live, or nothing where one was taken away.
ghost use Rattle.std.specs.Prelude.{◌≡◌, ◌++◌, ◌∷◌, [], ℕ, true, Some, None, List, IfOk, IfSome, OnOk, OnErr};
ghost use Rattle.std.specs.Prelude.{length, option_map, slice_set};
ghost use Rattle.std.specs.List.{filter};
ghost use Rattle.std.specs.Option.{is_some};
ghost use Rattle.live_history.specs.Rows.{cleared, has_turn, transaction_at};
ghost use Rattle.live_history.specs.declared.kept_rows.Row.TheVariants.{Gone, Record};
ghost use Rattle.live_history.specs.Kept.{record_of, read_from, row_over, shown_rows, bytes_at};
ghost use Rattle.live_history.specs.Kept.{IsKept, AreKept, Extends};

use crate::copies::{copy_of, copy_of_transaction};
use flow_model::{Boxed, Numbered, Transaction};
use flow_txn::{RecordFault, decode, encode, encode_into, fits, is_turn};
use std::alloc::{AllocError, Global};
use std::marker::Model;

/// The greatest place of a row and of a record's first byte, and the greatest length of a record.
const FURTHEST: usize = 4_294_967_295;

/// A place of a history.
#[derive(Drop)]
pub(crate) enum Row {
    /// Its transaction was taken away.
    Gone,
    /// Where the record of its transaction begins in the buffer, and how long that is.
    Record(u32, u32),
    /// Its transaction itself: one that is out of the range of records, or for whose record the buffer has no place.
    Whole(Boxed<Numbered>),
}

/// The transactions of a history, each at its place. Contracts see a list of rows; a transaction in range is kept as
/// its record, which takes a fraction of its memory.
#[derive(Drop)]
pub(crate) struct Rows {
    alloc: Global,
    places: Vec<Row>,
    /// The records, one behind the other. Those of rows that are gone stay.
    records: Vec<u8>,
    /// Where the next record is written, before it is put behind the others.
    draft: Vec<u8>,
}

impl Model for Rows {
    ghost use Rattle.std.specs.Prelude.{List};
    ghost use Rattle.live_history.specs.Rows.{HistoryRow};
    ghost use Rattle.live_history.specs.Kept.{shown_rows, AreKept};

    ghost Value = { List HistoryRow };

    ghost view = { λ r. shown_rows r.records.items r.places.items };

    ghost invariant = { λ r. AreKept r.records.items r.places.items };
}

/// A row that has a copy of the transaction itself.
fn whole_row(alloc: Global, number: u64, transaction: &Transaction) -> Result<Row, AllocError>
    ensures { (records : List ℕ) → IfOk result (λ row. IsKept records row
        × (row_over records row ≡ Some (record { number = number; transaction = transaction.now }))) }
{
    let transaction = copy_of_transaction(alloc, transaction)?;
    let numbered = Numbered {
        number,
        transaction,
    };
    Ok(Row::Whole(Boxed::new(alloc, numbered)?))
}

/// Puts a record behind the others; None where it would begin too far behind or is too long.
fn add_record(records: &mut Vec<u8>, bytes: &[u8]) -> Result<Option<Row>, AllocError>
    requires { is_some (read_from bytes.now) ≡ true }
    ensures kept { IfOk result (λ row. IfSome row (λ r. IsKept records.new.items r
        × (row_over records.new.items r ≡ read_from bytes.now))) }
    ensures others { Extends records.old.items records.new.items }
{
    let start = records.as_slice().len();
    if start > FURTHEST || bytes.len() > FURTHEST {
        return Ok(None);
    }
    records.extend_from_slice(bytes)?;
    Ok(Some(Row::Record(start as u32, bytes.len() as u32)))
}

/// Keeps a transaction: in the buffer where it is in range, else a copy of it. Its record is first written over the
/// draft.
fn keep(
    alloc: Global,
    records: &mut Vec<u8>,
    draft: &mut Vec<u8>,
    number: u64,
    transaction: &Transaction,
) -> Result<Row, AllocError>
    ensures kept { IfOk result (λ row. IsKept records.new.items row
        × (row_over records.new.items row ≡ Some (record { number = number; transaction = transaction.now }))) }
    ensures others { Extends records.old.items records.new.items }
{
    if !fits(number, transaction) {
        return whole_row(alloc, number, transaction);
    }
    encode_into(draft, number, transaction)?;
    match add_record(records, draft)? {
        Some(row) => Ok(row),
        None => whole_row(alloc, number, transaction),
    }
}

/// The transaction of a record.
fn read_record(alloc: Global, bytes: &[u8]) -> Result<Numbered, AllocError>
    requires { is_some (read_from bytes.now) ≡ true }
    ensures { IfOk result (λ n. read_from bytes.now ≡ Some n) }
{
    match decode(alloc, bytes) {
        Ok(numbered) => Ok(numbered),
        Err(RecordFault::NoMemory) => Err(AllocError),
        Err(RecordFault::BadRecord) => unreachable!(),
    }
}

/// The bytes of a record.
fn record_at(records: &[u8], start: u32, size: u32) -> &[u8]
    requires { IsKept records.now (Record start size) }
    ensures { result.now ≡ bytes_at records.now start size }
{
    let start = start as usize;
    &records[start..start + size as usize]
}

/// The transaction of a row, if it has one.
fn read_row(alloc: Global, records: &[u8], row: &Row) -> Result<Option<Numbered>, AllocError>
    requires { IsKept records.now row.now }
    ensures { IfOk result (λ found. found ≡ row_over records.now row.now) }
{
    match row {
        Row::Gone => Ok(None),
        Row::Record(start, size) => {
            let numbered = read_record(alloc, record_at(records, *start, *size))?;
            Ok(Some(numbered))
        }
        Row::Whole(numbered) => Ok(Some(copy_of(alloc, numbered.get())?)),
    }
}

/// The record of the transaction of a row, if it has one.
fn row_record(alloc: Global, records: &[u8], row: &Row) -> Result<Option<Vec<u8>>, AllocError>
    requires { IsKept records.now row.now }
    ensures { IfOk result (λ found. option_map (λ v. v.items) found
        ≡ option_map record_of (row_over records.now row.now)) }
{
    match row {
        Row::Gone => Ok(None),
        Row::Record(start, size) => {
            let bytes = record_at(records, *start, *size);
            Ok(Some(Vec::from_slice(alloc, bytes)?))
        }
        Row::Whole(numbered) => {
            let numbered = numbered.get();
            Ok(Some(encode(alloc, numbered.number, &numbered.transaction)?))
        }
    }
}

/// Whether a row has a transaction.
fn is_present(row: &Row) -> bool
    ensures { (records : List ℕ) → IsKept records row.now → result ≡ is_some (row_over records row.now) }
{
    match row {
        Row::Gone => false,
        Row::Record(_, _) => true,
        Row::Whole(_) => true,
    }
}

/// How many rows have a transaction.
fn count_present(rows: &[Row]) -> usize
    ensures { (records : List ℕ) → AreKept records rows.now
        → result ≡ length (filter is_some (shown_rows records rows.now)) }
{
    let mut count = 0;
    for row in rows {
        if is_present(row) {
            count += 1;
        }
    }
    count
}

/// Whether a row has a Turn. A record tells it by one byte.
fn is_turn_row(records: &[u8], row: &Row) -> bool
    requires { IsKept records.now row.now }
    ensures { result ≡ has_turn (row_over records.now row.now) }
{
    match row {
        Row::Gone => false,
        Row::Record(start, size) => is_turn(record_at(records, *start, *size)),
        Row::Whole(numbered) => matches!(numbered.get().transaction, Transaction::Turn(_, _)),
    }
}

/// How many rows have a Turn.
fn count_turns(records: &[u8], rows: &[Row]) -> usize
    requires { AreKept records.now rows.now }
    ensures { result ≡ length (filter has_turn (shown_rows records.now rows.now)) }
{
    let mut count = 0;
    for row in rows {
        if is_turn_row(records, row) {
            count += 1;
        }
    }
    count
}

/// Takes the transaction at a place away, if one is there.
fn clear_row(rows: &mut Vec<Row>, place: usize)
    ensures { rows.new.items ≡ slice_set rows.old.items place Gone }
{
    if place < rows.len() {
        rows[place] = Row::Gone;
    }
}

impl Rows {
    /// No rows.
    pub(crate) fn new(alloc: Global) -> Rows
        ensures { result ≡ [] }
    {
        Rows {
            alloc,
            places: Vec::new(alloc),
            records: Vec::new(alloc),
            draft: Vec::new(alloc),
        }
    }

    /// The number of rows.
    pub(crate) fn len(&self) -> usize
        ensures { result ≡ length self.now }
    {
        self.places.len()
    }

    /// How many rows have a transaction.
    pub(crate) fn count(&self) -> usize
        ensures { result ≡ length (filter is_some self.now) }
    {
        count_present(&self.places)
    }

    /// How many rows have a Turn.
    pub(crate) fn turns(&self) -> usize
        ensures { result ≡ length (filter has_turn self.now) }
    {
        count_turns(&self.records, &self.places)
    }

    /// The transaction at a place, if one is there.
    pub(crate) fn transaction(&self, place: usize) -> Result<Option<Numbered>, AllocError>
        ensures { IfOk result (λ found. found ≡ transaction_at self.now place) }
    {
        match self.places.get(place) {
            Some(row) => read_row(self.alloc, &self.records, row),
            None => Ok(None),
        }
    }

    /// The record of the transaction at a place, if one is there.
    pub(crate) fn record_of(&self, place: usize) -> Result<Option<Vec<u8>>, AllocError>
        ensures { IfOk result (λ found. option_map (λ v. v.items) found
            ≡ option_map record_of (transaction_at self.now place)) }
    {
        match self.places.get(place) {
            Some(row) => row_record(self.alloc, &self.records, row),
            None => Ok(None),
        }
    }

    /// Adds a row behind the others, and gives its place. There is no memory for more than 2^32 rows.
    pub(crate) fn push(&mut self, number: u64, transaction: &Transaction) -> Result<u32, AllocError>
        ensures place { IfOk result (λ place. place ≡ length self.old) }
        ensures ok { OnOk result (self.new
            ≡ self.old ++ Some (record { number = number; transaction = transaction.now }) ∷ []) }
        ensures err { OnErr result (self.new ≡ self.old) }
    {
        let place = self.places.len();
        if place > FURTHEST {
            return Err(AllocError);
        }
        let row = keep(
            self.alloc,
            &mut self.records,
            &mut self.draft,
            number,
            transaction,
        )?;
        self.places.push(row)?;
        Ok(place as u32)
    }

    /// Takes the transaction at a place away, if one is there.
    pub(crate) fn clear(&mut self, place: usize)
        ensures { self.new ≡ slice_set self.old place None }
    {
        clear_row(&mut self.places, place);
    }

    /// Takes the transactions at these places away.
    pub(crate) fn clear_all(&mut self, places: &[u32])
        ensures { self.new ≡ cleared places.now self.old }
    {
        for place in places {
            self.clear(*place as usize);
        }
    }
}
