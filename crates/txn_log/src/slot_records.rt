//! The records of a slot, in the bytes that were read of it.
ghost use Rattle.std.specs.Prelude.{◌≡◌, ◌+◌, ◌<◌, ◌≤◌, ◌∷◌, [], drop, length, MatchOption, true, false};
ghost use Rattle.txn_log.specs.Stored.{length_at, is_whole};
ghost use Rattle.txn_log.specs.Walks.{HoldsRecords, payloads_from};

use std::marker::Model;

/// A record: the place of its gate in its slot, and its payload.
#[derive(Clone, Copy)]
pub struct Record<'a> {
    pub place: u64,
    pub payload: &'a [u8],
}

/// The records of a slot, in the bytes of the slot: seen as the list of their payloads.
#[derive(Drop)]
pub struct SlotRecords {
    bytes: Vec<u8>,
    count: usize,
}

impl Model for SlotRecords {
    ghost use Rattle.std.specs.Prelude.{ℕ, List};
    ghost use Rattle.txn_log.specs.Walks.{HoldsRecords, payloads_from};

    ghost Value = { List (List ℕ) };

    ghost view = { λ it. payloads_from 42 it.bytes.items };

    ghost invariant = { λ it. HoldsRecords it.bytes.items it.count };
}

/// The records of a slot that are still to come.
#[derive(Drop)]
pub struct RecordsLeft<'a> {
    bytes: &'a [u8],
    place: usize,
}

impl<'a> Model for RecordsLeft<'a> {
    ghost use Rattle.txn_log.specs.Walks.{RecordWalk, IsListedFrom, payloads_from};

    ghost Value = { RecordWalk };

    ghost view = { λ it. record { place = it.place; left = payloads_from it.place it.bytes.now } };

    ghost invariant = { λ it. IsListedFrom it.place it.bytes.now };
}

/// The length that stands in the first four bytes.
fn len_at(rest: &[u8]) -> usize
    requires { 4 ≤ length rest.now }
    ensures { result ≡ length_at rest.now }
{
    u32::from_be_bytes([rest[0], rest[1], rest[2], rest[3]]) as usize
}

/// The length of the whole record behind a gate, or 0.
pub(crate) fn whole_len(rest: &[u8]) -> usize
    ensures some { 0 < result → (is_whole rest.now ≡ true) × (result ≡ length_at rest.now)
        × (4 + result < length rest.now) }
    ensures none { result ≡ 0 → is_whole rest.now ≡ false }
    ensures most { result ≤ 2097152 }
{
    if rest.len() < 4 {
        return 0;
    }
    let size = len_at(rest);
    if size > 2_097_152 {
        return 0;
    }
    if size >= rest.len() - 4 {
        return 0;
    }
    size
}

impl SlotRecords {
    /// The records in the bytes of a good slot that holds this number of them.
    pub(crate) fn new(bytes: Vec<u8>, count: usize) -> SlotRecords
        requires { HoldsRecords bytes.items count }
        ensures { result ≡ payloads_from 42 bytes.items }
    {
        SlotRecords { bytes, count }
    }

    /// The number of the records.
    pub fn len(&self) -> usize
        ensures { result ≡ length self.now }
    {
        self.count
    }

    /// All records, from the first on.
    pub fn walk(&self) -> RecordsLeft<'_>
        ensures { (result.place ≡ 42) × (result.left ≡ self.now) }
    {
        RecordsLeft {
            bytes: &self.bytes,
            place: 42,
        }
    }
}

impl<'a> RecordsLeft<'a> {
    /// The next record.
    pub fn next(&mut self) -> Option<Record<'a>>
        ensures { MatchOption result ((self.old.left ≡ []) × (self.new ≡ self.old)) (λ r. (r.place ≡ self.old.place)
            × (self.old.left ≡ r.payload.now ∷ self.new.left)
            × (self.new.place ≡ self.old.place + 5 + length r.payload.now)) }
    {
        let gate = self.place;
        if gate >= self.bytes.len() || self.bytes[gate] != 1 {
            return None;
        }
        let len = whole_len(&self.bytes[gate + 1..]);
        let payload = &self.bytes[gate + 5..gate + 5 + len];
        self.place = gate + 5 + len;
        Some(Record {
            place: gate as u64,
            payload,
        })
    }

    /// Passes over this number of records, or over all where there are fewer.
    pub fn skip(&mut self, count: usize)
        ensures { self.new.left ≡ drop count self.old.left }
    {
        for _ in 0..count {
            self.next();
        }
    }
}
