//! What is printed where a store isn't opened or made.
ghost use Rattle.std.specs.Prelude.{◌≡◌, ℕ, ◌++◌, ◌∷◌, [], codes, IfOk, MatchResult, option_map, decimal as digits_of};
ghost use Rattle.flow_session.specs.Stopping.{IsOpenCause};
ghost use Rattle.flow_words.specs.Crashes.{IsFailing};
ghost use Rattle.flow_words.specs.Endings.{WordCause};
ghost use Rattle.flow_words.specs.Openings.{slot_letter, store_text, fault_of, RefusesStore};
ghost use Rattle.flow_words.specs.Printed.{Prints};
ghost use Rattle.flow_words.specs.Scripts.{status_of_word};
ghost use Rattle.flow_words.specs.declared.status.Status.TheVariants.{Store as StoreStatus};

use crate::script::print;
use crate::status::Status;
use flow_disk::Slot;
use flow_io::Sink;
use flow_text::decimal;
use std::alloc::{AllocError, Global};
use txn_log::LogStop;

fn slot_name(slot: Slot) -> &'static [u8]
    ensures { result.now ≡ slot_letter slot }
{
    match slot {
        Slot::A => b"A",
        Slot::B => b"B",
    }
}

/// The refusal of a slot that holds something else than a store.
fn foreign_text(alloc: Global, slot: Slot) -> Result<Vec<u8>, AllocError>
    ensures { IfOk result (λ text. text.items ≡ codes "no STORE FOREIGN " ++ slot_letter slot ++ 10 ∷ []) }
{
    let mut text = Vec::from_slice(alloc, b"no STORE FOREIGN ")?;
    text.extend_from_slice(slot_name(slot))?;
    text.push(b'\n')?;
    Ok(text)
}

/// The refusal of a slot that can't be read from a place on.
fn damaged_text(alloc: Global, slot: Slot, place: u64) -> Result<Vec<u8>, AllocError>
    ensures { IfOk result (λ text. text.items ≡ codes "no STORE DAMAGED " ++ slot_letter slot ++ 32 ∷ []
        ++ digits_of place ++ 10 ∷ []) }
{
    let mut text = Vec::from_slice(alloc, b"no STORE DAMAGED ")?;
    text.extend_from_slice(slot_name(slot))?;
    text.push(b' ')?;
    decimal(&mut text, place)?;
    text.push(b'\n')?;
    Ok(text)
}

/// What is printed of a store that isn't opened; None where nothing is.
fn stop_text(alloc: Global, stop: &LogStop) -> Result<Option<Vec<u8>>, AllocError>
    ensures { IfOk result (λ found. option_map (λ text. text.items) found ≡ store_text stop.now) }
{
    match stop {
        LogStop::Unmade => Ok(Some(Vec::from_slice(alloc, b"no STORE UNMADE\n")?)),
        LogStop::Made => Ok(Some(Vec::from_slice(alloc, b"no STORE MADE\n")?)),
        LogStop::Foreign(slot) => Ok(Some(foreign_text(alloc, *slot)?)),
        LogStop::Damaged(slot, place) => Ok(Some(damaged_text(alloc, *slot, *place)?)),
        LogStop::StoreFault => Ok(None),
        LogStop::NoMemory => Ok(None),
    }
}

/// How a word ends where nothing is printed.
fn fault_status(stop: &LogStop) -> Status
    ensures fault { result ≡ fault_of stop.now }
    ensures cause { (read read' put put' store store' : ℕ) → IsOpenCause store store' stop.now
        → WordCause read read' put put' store store' result }
    ensures fails { IsFailing result }
{
    match stop {
        LogStop::StoreFault => Status::StoreFault,
        _ => Status::NoMemory,
    }
}

/// Prints the text of a refusal by the store itself.
#[tactic(auto, using(crate::proofs::EndingLemmas::word_prints))]
fn print_refusal<K: Sink>(out: &mut K, text: &[u8]) -> Result<Status, Status>
    ensures cause { (read read' store store' : ℕ) → WordCause read read' (K.faults out.old)
        (K.faults out.new) store store' (status_of_word result) }
    ensures fails { MatchResult result IsFailing IsFailing }
    ensures prints { Prints text.now StoreStatus (K.held out.old) (K.held out.new) (status_of_word result) }
{
    print(out, text)?;
    Ok(Status::Store)
}

/// Prints why a store isn't opened or made.
pub fn refuse<K: Sink>(alloc: Global, out: &mut K, stop: &LogStop) -> Result<Status, Status>
    ensures fails { MatchResult result IsFailing IsFailing }
    ensures cause { (read read' store store' : ℕ) → IsOpenCause store store' stop.now
        → WordCause read read' (K.faults out.old) (K.faults out.new) store store' (status_of_word result) }
    ensures refused { RefusesStore stop.now (K.held out.old) (K.held out.new) (status_of_word result) }
{
    match stop_text(alloc, stop)? {
        Some(text) => print_refusal(out, &text),
        None => Err(fault_status(stop)),
    }
}
