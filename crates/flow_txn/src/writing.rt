//! The record of a transaction.
ghost use Rattle.std.specs.Prelude.{◌≡◌, ◌+◌, ◌-◌, ◌^◌, ◌≤◌, ◌++◌, length, min, OnOk, IfOk};
ghost use Rattle.std.specs.Int.{w16, w32, to_be_bytes};
ghost use Rattle.flow_txn.specs.Records.{u64_bytes, short_bytes, import_bytes, part_bytes, path_bytes};
ghost use Rattle.flow_txn.specs.Records.{is_small as small_test, value_bytes, setting_bytes, settings_bytes, key_bytes};
ghost use Rattle.flow_txn.specs.Records.{truth_byte, message_bytes, who_bytes, kind, body, record_bytes, room};
ghost use Rattle.flow_txn.specs.Ranges.{IsInRange};

use flow_model::{Message, Name, Part, Path, Setting, Transaction, Value, Who};
use std::alloc::{AllocError, Global};

/// Room for the bytes of most records.
const COMMON_ROOM: usize = 64;

/// Appends a number in eight bytes.
fn put_u64(out: &mut Vec<u8>, number: u64) -> Result<(), AllocError>
    ensures { OnOk result (out.new.items ≡ out.old.items ++ u64_bytes number) }
{
    out.extend_from_slice(&number.to_be_bytes())
}

/// Appends a count in two bytes.
fn put_count16(out: &mut Vec<u8>, count: usize) -> Result<(), AllocError>
    ensures { OnOk result (out.new.items ≡ out.old.items ++ to_be_bytes w16 (min count (2 ^ 16 - 1))) }
{
    let count = count.min(65535) as u16;
    out.extend_from_slice(&count.to_be_bytes())
}

/// Appends a count in four bytes.
fn put_count32(out: &mut Vec<u8>, count: usize) -> Result<(), AllocError>
    ensures { OnOk result (out.new.items ≡ out.old.items ++ to_be_bytes w32 (min count (2 ^ 32 - 1))) }
{
    let count = count.min(4294967295) as u32;
    out.extend_from_slice(&count.to_be_bytes())
}

/// Appends a length in one byte and that many bytes.
fn put_short(out: &mut Vec<u8>, bytes: &[u8]) -> Result<(), AllocError>
    ensures { OnOk result (out.new.items ≡ out.old.items ++ short_bytes bytes.now) }
{
    out.push(bytes.len().min(255) as u8)?;
    out.extend_from_slice(bytes)
}

/// Appends a length in four bytes and that many bytes.
fn put_import(out: &mut Vec<u8>, text: &[u8]) -> Result<(), AllocError>
    ensures { OnOk result (out.new.items ≡ out.old.items ++ import_bytes text.now) }
{
    put_count32(out, text.len())?;
    out.extend_from_slice(text)
}

fn put_part(out: &mut Vec<u8>, part: &Part) -> Result<(), AllocError>
    ensures { OnOk result (out.new.items ≡ out.old.items ++ part_bytes part.now) }
{
    put_short(out, part.name.as_slice())?;
    put_u64(out, part.attempt)
}

fn put_path(out: &mut Vec<u8>, path: &Path) -> Result<(), AllocError>
    ensures { OnOk result (out.new.items ≡ out.old.items ++ path_bytes path.now) }
{
    put_u64(out, path.root)?;
    out.push(path.parts.len().min(255) as u8)?;
    for part in path.parts.as_slice() {
        put_part(out, part)?;
    }
    Ok(())
}

/// Whether a number has 32 bits.
pub(crate) fn is_small(number: i64) -> bool
    ensures { result ≡ small_test number }
{
    -2147483648 <= number && number <= 2147483647
}

fn put_whole(out: &mut Vec<u8>, number: i64) -> Result<(), AllocError>
    ensures { OnOk result (out.new.items ≡ out.old.items ++ value_bytes (Value.Whole number)) }
{
    if is_small(number) {
        out.push(1)?;
        out.extend_from_slice(&(number as i32).to_be_bytes())
    } else {
        out.push(3)?;
        out.extend_from_slice(&number.to_be_bytes())
    }
}

fn put_value(out: &mut Vec<u8>, value: &Value) -> Result<(), AllocError>
    ensures { OnOk result (out.new.items ≡ out.old.items ++ value_bytes value.now) }
{
    match value {
        Value::Whole(number) => put_whole(out, *number),
        Value::Text(text) => {
            out.push(2)?;
            put_short(out, text.as_slice())
        }
    }
}

fn put_setting(out: &mut Vec<u8>, setting: &Setting) -> Result<(), AllocError>
    ensures { OnOk result (out.new.items ≡ out.old.items ++ setting_bytes setting.now) }
{
    out.extend_from_slice(&setting.leaf.to_be_bytes())?;
    put_value(out, &setting.value)
}

fn put_settings(out: &mut Vec<u8>, settings: &[Setting]) -> Result<(), AllocError>
    ensures { OnOk result (out.new.items ≡ out.old.items ++ settings_bytes settings.now) }
{
    put_count16(out, settings.len())?;
    for setting in settings {
        put_setting(out, setting)?;
    }
    Ok(())
}

fn put_key(out: &mut Vec<u8>, key: &Option<Name>) -> Result<(), AllocError>
    ensures { OnOk result (out.new.items ≡ out.old.items ++ key_bytes key.now) }
{
    match key {
        None => {
            out.push(0)?;
            Ok(())
        }
        Some(key) => {
            out.push(1)?;
            put_short(out, key.as_slice())
        }
    }
}

fn truth_of(truth: bool) -> u8
    ensures { result ≡ truth_byte truth }
{
    if truth { 1 } else { 0 }
}

fn put_message(out: &mut Vec<u8>, message: &Message) -> Result<(), AllocError>
    ensures { OnOk result (out.new.items ≡ out.old.items ++ message_bytes message.now) }
{
    match message {
        Message::Begin(scope) => {
            out.push(1)?;
            put_path(out, scope)
        }
        Message::Signal(scope, source, target, truth) => {
            out.push(2)?;
            put_path(out, scope)?;
            put_short(out, source.as_slice())?;
            put_short(out, target.as_slice())?;
            out.push(truth_of(*truth))?;
            Ok(())
        }
        Message::End(scope) => {
            out.push(3)?;
            put_path(out, scope)
        }
    }
}

fn put_who(out: &mut Vec<u8>, who: &Who) -> Result<(), AllocError>
    ensures { OnOk result (out.new.items ≡ out.old.items ++ who_bytes who.now) }
{
    match who {
        Who::Person(name) => {
            out.push(1)?;
            put_short(out, name.as_slice())
        }
        Who::Agent(take) => {
            out.push(2)?;
            put_u64(out, *take)
        }
    }
}

fn kind_of(t: &Transaction) -> u8
    ensures { result ≡ kind t.now }
{
    match t {
        Transaction::Import(_) => 1,
        Transaction::Start(_, _, _, _, _, _) => 2,
        Transaction::Turn(_, _) => 3,
        Transaction::Claim(_, _) => 4,
        Transaction::Release(_, _) => 5,
        Transaction::Transfer(_, _, _) => 6,
        Transaction::Take(_, _) => 7,
        Transaction::Done(_, _, _) => 8,
        Transaction::Force(_, _) => 9,
        Transaction::Restart(_) => 10,
        Transaction::Suspend(_) => 11,
        Transaction::Resume(_) => 12,
        Transaction::Terminate(_) => 13,
        Transaction::Delete(_) => 14,
        Transaction::Clock(_) => 15,
    }
}

/// Appends what belongs to the kind.
fn put_body(out: &mut Vec<u8>, t: &Transaction) -> Result<(), AllocError>
    ensures { OnOk result (out.new.items ≡ out.old.items ++ body t.now) }
{
    match t {
        Transaction::Import(text) => put_import(out, text.as_slice()),
        Transaction::Start(root, process, version, starter, key, settings) => {
            put_u64(out, *root)?;
            put_short(out, process.as_slice())?;
            out.extend_from_slice(&version.to_be_bytes())?;
            put_short(out, starter.as_slice())?;
            put_key(out, key)?;
            put_settings(out, settings.as_slice())
        }
        Transaction::Turn(queue, message) => {
            out.push(*queue)?;
            put_message(out, message)
        }
        Transaction::Claim(item, who) | Transaction::Release(item, who) => {
            put_path(out, item)?;
            put_short(out, who.as_slice())
        }
        Transaction::Transfer(item, who, to) => {
            put_path(out, item)?;
            put_short(out, who.as_slice())?;
            put_short(out, to.as_slice())
        }
        Transaction::Take(item, take) => {
            put_path(out, item)?;
            put_u64(out, *take)
        }
        Transaction::Done(item, who, settings) => {
            put_path(out, item)?;
            put_who(out, who)?;
            put_settings(out, settings.as_slice())
        }
        Transaction::Force(item, settings) => {
            put_path(out, item)?;
            put_settings(out, settings.as_slice())
        }
        Transaction::Restart(item) => put_path(out, item),
        Transaction::Suspend(root)
        | Transaction::Resume(root)
        | Transaction::Terminate(root)
        | Transaction::Delete(root) => put_u64(out, *root),
        Transaction::Clock(minutes) => put_u64(out, *minutes),
    }
}

/// Writes the record of a transaction with its number over what a buffer had, into its memory. See [`encode`].
pub fn encode_into(out: &mut Vec<u8>, number: u64, t: &Transaction) -> Result<(), AllocError>
    ensures { OnOk result (out.new.items ≡ record_bytes number t.now) }
{
    out.clear();
    put_u64(out, number)?;
    out.push(kind_of(t))?;
    put_body(out, t)
}

/// The bytes of a transaction with its number.
fn record_of(alloc: Global, number: u64, t: &Transaction) -> Result<Vec<u8>, AllocError>
    ensures { IfOk result (λ payload. payload.items ≡ record_bytes number t.now) }
{
    let mut out = Vec::with_capacity(alloc, COMMON_ROOM)?;
    encode_into(&mut out, number, t)?;
    Ok(out)
}

/// The record of a transaction with its number. Where all parts are in range, [`crate::decode`] gives them
/// back; elsewhere a count that is too great for its bytes is written as the greatest one.
pub fn encode(alloc: Global, number: u64, t: &Transaction) -> Result<Vec<u8>, AllocError>
    ensures bytes { IfOk result (λ payload. payload.items ≡ record_bytes number t.now) }
    // How long it may be.
    ensures size { IsInRange number t.now → IfOk result (λ payload. length payload.items ≤ 16384 + room t.now) }
{
    record_of(alloc, number, t)
}
