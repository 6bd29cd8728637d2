//! The transaction of a record.
ghost use Rattle.std.specs.Prelude.{◌≡◌, ◌≢◌, ℕ, IfOk, IsErrOf};
ghost use Rattle.flow_model.specs.declared.transactions.Transaction.{Transaction as Record};
ghost use Rattle.flow_txn.specs.Records.{is_turn as turn_test, record_bytes};
ghost use Rattle.flow_txn.specs.Ranges.{IsInRange};
ghost use Rattle.flow_txn.specs.Reading.{Gives, signal, message_by, who_by, import_text, start, turn, item_name};
ghost use Rattle.flow_txn.specs.Reading.{transfer, taking, done, force, plain_by, item_by, body_by, numbered, whole};

use crate::faults::RecordFault;
use crate::fields::{
    byte_of, counted_of, front_of, item_of, key_of, name_of, path_of, settings_of, truth_of,
    u32_of, u64_of,
};
use flow_model::{Bytes, Message, Name, Numbered, Path, Transaction, Who};
use std::alloc::Global;

/// The place of the byte that says the kind, behind the number.
const KIND: usize = 8;

/// The kind of a Turn.
const TURN: u8 = 3;

#[tactic(auto, unfolding(crate::specs::Reading::signal))]
fn signal_of(alloc: Global, bytes: &[u8]) -> Result<(Message, &[u8]), RecordFault>
    ensures { Gives (λ x. (x.0, x.1.now)) result (signal bytes.now) }
{
    let (scope, rest) = path_of(alloc, bytes)?;
    let (source, rest) = name_of(alloc, rest)?;
    let (target, rest) = name_of(alloc, rest)?;
    let (tag, rest) = byte_of(rest)?;
    let (truth, rest) = truth_of(tag, rest)?;
    Ok((Message::Signal(scope, source, target, truth), rest))
}

#[tactic(auto, unfolding(crate::specs::Reading::message_by))]
fn message_of(alloc: Global, tag: u8, bytes: &[u8]) -> Result<(Message, &[u8]), RecordFault>
    ensures { Gives (λ x. (x.0, x.1.now)) result (message_by tag bytes.now) }
{
    match tag {
        1 => {
            let (scope, rest) = path_of(alloc, bytes)?;
            Ok((Message::Begin(scope), rest))
        }
        2 => signal_of(alloc, bytes),
        3 => {
            let (scope, rest) = path_of(alloc, bytes)?;
            Ok((Message::End(scope), rest))
        }
        _ => Err(RecordFault::BadRecord),
    }
}

#[tactic(auto, unfolding(crate::specs::Reading::who_by))]
fn who_of(alloc: Global, tag: u8, bytes: &[u8]) -> Result<(Who, &[u8]), RecordFault>
    ensures { Gives (λ x. (x.0, x.1.now)) result (who_by tag bytes.now) }
{
    match tag {
        1 => {
            let (name, rest) = name_of(alloc, bytes)?;
            Ok((Who::Person(name), rest))
        }
        2 => {
            let (take, rest) = u64_of(bytes)?;
            Ok((Who::Agent(take), rest))
        }
        _ => Err(RecordFault::BadRecord),
    }
}

/// The text of an import: at most 1,048,576 bytes.
#[tactic(auto, unfolding(crate::specs::Reading::import_text))]
fn import_of(alloc: Global, bytes: &[u8]) -> Result<(Bytes, &[u8]), RecordFault>
    ensures { Gives (λ x. (x.0, x.1.now)) result (import_text bytes.now) }
{
    let (len, rest) = u32_of(bytes)?;
    if len > 1048576 {
        return Err(RecordFault::BadRecord);
    }
    let (text, rest) = front_of(len as usize, rest)?;
    Ok((Bytes::new(alloc, text)?, rest))
}

#[tactic(auto, unfolding(crate::specs::Reading::start))]
fn start_of(alloc: Global, bytes: &[u8]) -> Result<(Transaction, &[u8]), RecordFault>
    ensures { Gives (λ x. (x.0, x.1.now)) result (start bytes.now) }
{
    let (root, rest) = counted_of(bytes)?;
    let (process, rest) = name_of(alloc, rest)?;
    let (version, rest) = u32_of(rest)?;
    let (starter, rest) = name_of(alloc, rest)?;
    let (tag, rest) = byte_of(rest)?;
    let (key, rest) = key_of(alloc, tag, rest)?;
    let (settings, rest) = settings_of(alloc, rest)?;
    Ok((
        Transaction::Start(root, process, version, starter, key, settings),
        rest,
    ))
}

#[tactic(auto, unfolding(crate::specs::Reading::turn))]
fn turn_of(alloc: Global, bytes: &[u8]) -> Result<(Transaction, &[u8]), RecordFault>
    ensures { Gives (λ x. (x.0, x.1.now)) result (turn bytes.now) }
{
    let (queue, rest) = byte_of(bytes)?;
    let (tag, rest) = byte_of(rest)?;
    let (message, rest) = message_of(alloc, tag, rest)?;
    Ok((Transaction::Turn(queue, message), rest))
}

/// An item and a person.
#[tactic(auto, unfolding(crate::specs::Reading::item_name))]
fn item_name_of(alloc: Global, bytes: &[u8]) -> Result<((Path, Name), &[u8]), RecordFault>
    ensures { Gives (λ x. ((x.0.0, x.0.1), x.1.now)) result (item_name bytes.now) }
{
    let (item, rest) = item_of(alloc, bytes)?;
    let (name, rest) = name_of(alloc, rest)?;
    Ok(((item, name), rest))
}

#[tactic(auto, unfolding(crate::specs::Reading::transfer))]
fn transfer_of(alloc: Global, bytes: &[u8]) -> Result<(Transaction, &[u8]), RecordFault>
    ensures { Gives (λ x. (x.0, x.1.now)) result (transfer bytes.now) }
{
    let ((item, who), rest) = item_name_of(alloc, bytes)?;
    let (to, rest) = name_of(alloc, rest)?;
    Ok((Transaction::Transfer(item, who, to), rest))
}

#[tactic(auto, unfolding(crate::specs::Reading::taking))]
fn take_of(alloc: Global, bytes: &[u8]) -> Result<(Transaction, &[u8]), RecordFault>
    ensures { Gives (λ x. (x.0, x.1.now)) result (taking bytes.now) }
{
    let (item, rest) = item_of(alloc, bytes)?;
    let (take, rest) = u64_of(rest)?;
    Ok((Transaction::Take(item, take), rest))
}

#[tactic(auto, unfolding(crate::specs::Reading::done))]
fn done_of(alloc: Global, bytes: &[u8]) -> Result<(Transaction, &[u8]), RecordFault>
    ensures { Gives (λ x. (x.0, x.1.now)) result (done bytes.now) }
{
    let (item, rest) = item_of(alloc, bytes)?;
    let (tag, rest) = byte_of(rest)?;
    let (who, rest) = who_of(alloc, tag, rest)?;
    let (settings, rest) = settings_of(alloc, rest)?;
    Ok((Transaction::Done(item, who, settings), rest))
}

#[tactic(auto, unfolding(crate::specs::Reading::force))]
fn force_of(alloc: Global, bytes: &[u8]) -> Result<(Transaction, &[u8]), RecordFault>
    ensures { Gives (λ x. (x.0, x.1.now)) result (force bytes.now) }
{
    let (item, rest) = item_of(alloc, bytes)?;
    let (settings, rest) = settings_of(alloc, rest)?;
    Ok((Transaction::Force(item, settings), rest))
}

/// A transaction that names no item, by its kind.
#[tactic(auto, unfolding(crate::specs::Reading::plain_by))]
fn plain_of(alloc: Global, kind: u8, bytes: &[u8]) -> Result<(Transaction, &[u8]), RecordFault>
    ensures { Gives (λ x. (x.0, x.1.now)) result (plain_by kind bytes.now) }
{
    match kind {
        1 => {
            let (text, rest) = import_of(alloc, bytes)?;
            Ok((Transaction::Import(text), rest))
        }
        2 => start_of(alloc, bytes),
        3 => turn_of(alloc, bytes),
        11 => {
            let (root, rest) = counted_of(bytes)?;
            Ok((Transaction::Suspend(root), rest))
        }
        12 => {
            let (root, rest) = counted_of(bytes)?;
            Ok((Transaction::Resume(root), rest))
        }
        13 => {
            let (root, rest) = counted_of(bytes)?;
            Ok((Transaction::Terminate(root), rest))
        }
        14 => {
            let (root, rest) = counted_of(bytes)?;
            Ok((Transaction::Delete(root), rest))
        }
        15 => {
            let (minutes, rest) = u64_of(bytes)?;
            Ok((Transaction::Clock(minutes), rest))
        }
        _ => Err(RecordFault::BadRecord),
    }
}

/// A transaction on an item, by its kind.
#[tactic(auto, unfolding(crate::specs::Reading::item_by))]
fn on_item_of(alloc: Global, kind: u8, bytes: &[u8]) -> Result<(Transaction, &[u8]), RecordFault>
    ensures { Gives (λ x. (x.0, x.1.now)) result (item_by kind bytes.now) }
{
    match kind {
        4 => {
            let ((item, who), rest) = item_name_of(alloc, bytes)?;
            Ok((Transaction::Claim(item, who), rest))
        }
        5 => {
            let ((item, who), rest) = item_name_of(alloc, bytes)?;
            Ok((Transaction::Release(item, who), rest))
        }
        6 => transfer_of(alloc, bytes),
        7 => take_of(alloc, bytes),
        8 => done_of(alloc, bytes),
        9 => force_of(alloc, bytes),
        10 => {
            let (item, rest) = item_of(alloc, bytes)?;
            Ok((Transaction::Restart(item), rest))
        }
        _ => Err(RecordFault::BadRecord),
    }
}

#[tactic(auto, unfolding(crate::specs::Reading::body_by))]
fn body_of(alloc: Global, kind: u8, bytes: &[u8]) -> Result<(Transaction, &[u8]), RecordFault>
    ensures { Gives (λ x. (x.0, x.1.now)) result (body_by kind bytes.now) }
{
    if 3 < kind && kind < 11 {
        on_item_of(alloc, kind, bytes)
    } else {
        plain_of(alloc, kind, bytes)
    }
}

#[tactic(auto, unfolding(crate::specs::Reading::numbered))]
fn numbered_of(alloc: Global, bytes: &[u8]) -> Result<((u64, Transaction), &[u8]), RecordFault>
    ensures { Gives (λ x. ((x.0.0, x.0.1), x.1.now)) result (numbered bytes.now) }
{
    let (number, rest) = counted_of(bytes)?;
    let (kind, rest) = byte_of(rest)?;
    let (transaction, rest) = body_of(alloc, kind, rest)?;
    Ok(((number, transaction), rest))
}

/// What all of the bytes are.
#[tactic(auto, unfolding(crate::specs::Reading::whole))]
fn whole_of(alloc: Global, payload: &[u8]) -> Result<Numbered, RecordFault>
    ensures { Gives (λ n. (n.number, n.transaction)) result (whole payload.now) }
{
    let ((number, transaction), rest) = numbered_of(alloc, payload)?;
    if !rest.is_empty() {
        return Err(RecordFault::BadRecord);
    }
    Ok(Numbered {
        number,
        transaction,
    })
}

/// Whether a record is that of a Turn, which the byte behind the number says.
pub fn is_turn(payload: &[u8]) -> bool
    ensures { (number : ℕ) (t : Record) → record_bytes number t ≡ payload.now → result ≡ turn_test t }
{
    payload.len() > KIND && payload[KIND] == TURN
}

/// The transaction whose record the payload is, with its number.
///
/// `BadRecord` comes exactly where no transaction in range has these bytes; without memory it may be `NoMemory`.
pub fn decode(alloc: Global, payload: &[u8]) -> Result<Numbered, RecordFault>
    // What is read is in range, and its record is the payload.
    ensures read { IfOk result (λ n. (record_bytes n.number n.transaction ≡ payload.now)
        × IsInRange n.number n.transaction) }
    // No other transaction in range has this record.
    ensures same { (number : ℕ) (t : Record) → IsInRange number t → record_bytes number t ≡ payload.now
        → IfOk result (λ n. (n.number ≡ number) × (n.transaction ≡ t)) }
    ensures bad { IsErrOf result RecordFault.BadRecord → (number : ℕ) (t : Record) → IsInRange number t
        → record_bytes number t ≢ payload.now }
{
    whole_of(alloc, payload)
}
