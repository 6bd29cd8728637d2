//! The live transactions as the records of a store.
ghost use Rattle.std.specs.Prelude.{◌≡◌, ◌↔◌, length, IfOk, IfSome, IsTrue};
ghost use Rattle.std.specs.List.{All};
ghost use Rattle.txn_log.specs.Records.{IsPayload};
ghost use Rattle.flow_session.specs.Histories.{payloads};

use checkpoint::Payloads;
use live_history::{History, Walk};
use std::alloc::AllocError;
use txn_log::MAX_PAYLOAD;

/// Whether a payload may be appended; every record of the engine may.
pub(crate) fn is_payload(payload: &[u8]) -> bool
    ensures { IsTrue result ↔ IsPayload payload.now }
{
    !payload.is_empty() && payload.len() <= MAX_PAYLOAD
}

/// How many live transactions a history has; None where the record of one is out of range.
pub(crate) fn live_count(history: &History) -> Result<Option<u64>, AllocError>
    ensures count { IfOk result (λ count. IfSome count (λ n. n ≡ length history.now.items)) }
    ensures range { IfOk result (λ count. IfSome count (λ n. All IsPayload (payloads history.now.items))) }
{
    let mut walk = history.walk();
    while let Some(payload) = walk.next_record()? {
        if !is_payload(&payload) {
            return Ok(None);
        }
    }
    Ok(Some(history.len() as u64))
}

/// The payloads of the live transactions, each made when it is asked for.
#[derive(Drop)]
pub(crate) struct LivePayloads<'a> {
    walk: Walk<'a>,
}

impl<'a> LivePayloads<'a> {
    /// Those of a history.
    pub(crate) fn new(history: &'a History) -> LivePayloads<'a>
        ensures { payloads result.walk ≡ payloads history.now.items }
    {
        LivePayloads {
            walk: history.walk(),
        }
    }
}

impl<'a> Payloads for LivePayloads<'a> {
    ghost left = { λ it. payloads it.walk };

    fn next(&mut self) -> Result<Option<Vec<u8>>, AllocError> {
        self.walk.next_record()
    }
}
