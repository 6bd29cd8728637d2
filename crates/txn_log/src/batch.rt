//! Records that are added together.
ghost use Rattle.std.specs.Prelude.{◌≡◌, ℕ, ◌+◌, ◌*◌, ◌<◌, ◌≤◌, ◌^◌, All, [], ◌∷◌, ◌++◌, length, take, drop, OnOk, MatchResult, IsTrue, ◌↔◌};
ghost use Rattle.txn_log.specs.Records.{IsPayload, open_records};

use std::alloc::{AllocError, Global};
use std::marker::Model;

/// Records that are to be added together, seen as the list of their payloads.
#[derive(Debug, Drop)]
pub struct Batch {
    /// The records with open gates, one behind the other.
    bytes: Vec<u8>,
    count: usize,
}

impl Model for Batch {
    ghost use Rattle.std.specs.Prelude.{ℕ, List};
    ghost use Rattle.txn_log.specs.Batches.{AreRecords, payloads_in};

    ghost Value = { List (List ℕ) };

    ghost view = { λ batch. payloads_in batch.bytes.items };

    ghost invariant = { λ batch. AreRecords batch.bytes.items batch.count };
}

/// Appends a record with an open gate; where there is no memory, a part of it at most.
fn put_record(bytes: &mut Vec<u8>, payload: &[u8]) -> Result<(), AllocError>
    requires size { length payload.now ≤ 2097152 }
    ensures put { OnOk result (bytes.new.items ≡ bytes.old.items ++ open_records (payload.now ∷ [])) }
    ensures front { take (length bytes.old.items) bytes.new.items ≡ bytes.old.items }
{
    let [a, b, c, d] = (payload.len() as u32).to_be_bytes();
    bytes.extend_from_slice(&[1, a, b, c, d])?;
    bytes.extend_from_slice(payload)
}

impl Batch {
    /// A batch of no records.
    pub fn new(alloc: Global) -> Batch
        ensures { result ≡ [] }
    {
        Batch {
            bytes: Vec::new(alloc),
            count: 0,
        }
    }

    /// The number of the records.
    pub fn len(&self) -> usize
        ensures { result ≡ length self.now }
    {
        self.count
    }

    /// Whether there are none.
    pub fn is_empty(&self) -> bool
        ensures { IsTrue result ↔ (self.now ≡ []) }
    {
        self.count == 0
    }

    /// The number of the bytes that the records take.
    pub fn size(&self) -> usize
        ensures bytes { result ≡ length (open_records self.now) }
        ensures some { 6 * length self.now ≤ result }
        ensures most { result ≤ 2097157 * length self.now }
        ensures within { result < 2 ^ 63 }
    {
        self.bytes.len()
    }

    /// Puts a record behind the others.
    pub fn push(&mut self, payload: &[u8]) -> Result<(), AllocError>
        requires { IsPayload payload.now }
        ensures { MatchResult result (λ _. self.new ≡ self.old ++ payload.now ∷ []) (λ _. self.new ≡ self.old) }
    {
        let len = self.bytes.len();
        match put_record(&mut self.bytes, payload) {
            Ok(()) => {
                self.count += 1;
                Ok(())
            }
            Err(error) => {
                self.bytes.truncate(len);
                Err(error)
            }
        }
    }

    /// Drops all records.
    pub fn clear(&mut self)
        ensures { self.new ≡ [] }
    {
        self.bytes.clear();
        self.count = 0;
    }

    /// The bytes of the records behind the gate of the first one.
    pub(crate) fn behind_first_gate(&self) -> &[u8]
        requires { 0 < length self.now }
        ensures bytes { result.now ≡ drop 1 (open_records self.now) }
        ensures some { 0 < length result.now }
        ensures allowed { All IsPayload self.now }
    {
        &self.bytes[1..]
    }
}
