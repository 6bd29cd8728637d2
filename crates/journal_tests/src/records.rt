//! Records byte by byte, one whose number has a shorter form, and a buffer for two of them.
use flow_model::{List, Message, Name, Path, Setting, Transaction, Value};
use flow_txn::{RecordFault, decode, encode, encode_into, is_turn};
use std::alloc::Global;
use std::test::Fail;

const CLOCK: &[u8] = b"\x00\x00\x00\x00\x00\x00\x00\x01\x0f\x00\x00\x00\x00\x00\x00\x00\x05";

const TURN: &[u8] =
    b"\x00\x00\x00\x00\x00\x00\x00\x03\x03\x02\x03\x00\x00\x00\x00\x00\x00\x00\x01\x00";

const START: &[u8] =
    b"\x00\x00\x00\x00\x00\x00\x00\x02\x02\x00\x00\x00\x00\x00\x00\x00\x01\x01P\x00\x00\x00\x01\x03ann\x00\x00\x01\x00\x00\x03\x00\x00\x00\x01\x00\x00\x00\x00";

const SMALL: &[u8] =
    b"\x00\x00\x00\x00\x00\x00\x00\x02\x02\x00\x00\x00\x00\x00\x00\x00\x01\x01P\x00\x00\x00\x01\x03ann\x00\x00\x01\x00\x00\x03\x00\x00\x00\x00\x00\x00\x00\x32";

/// The record of `START 'P' BY 'ann'` with a number in leaf 0.
fn started(alloc: Global) -> Result<Vec<u8>, Fail> {
    let mut settings = List::new(alloc);
    let value = Value::Whole(4294967296);
    settings.push(Setting { leaf: 0, value })?;
    let process = Name::new(alloc, b"P".as_slice())?;
    let starter = Name::new(alloc, b"ann".as_slice())?;
    let start = Transaction::Start(1, process, 1, starter, None, settings);
    Ok(encode(alloc, 2, &start)?)
}

/// Whether the bytes are those of the transaction that is read from them.
fn is_read_again(alloc: Global, payload: &[u8]) -> Result<bool, RecordFault> {
    let read = decode(alloc, payload)?;
    let again = encode(alloc, read.number, &read.transaction)?;
    Ok(again.as_slice() == payload)
}

#[test]
fn records(rt: HostRuntime) -> Result<(), Fail> {
    let alloc = rt.alloc();
    assert!(rt; started(alloc)?.as_slice() == START);
    assert!(rt; encode(alloc, 1, &Transaction::Clock(5))?.as_slice() == CLOCK);
    assert!(rt; is_read_again(alloc, START)? && is_read_again(alloc, CLOCK)?);
    assert!(rt; matches!(is_read_again(alloc, SMALL), Err(RecordFault::BadRecord)));
    Ok(())
}

#[test]
fn a_record_over_another(rt: HostRuntime) -> Result<(), Fail> {
    let alloc = rt.alloc();
    let parts = List::new(alloc);
    let turn = Transaction::Turn(2, Message::End(Path { root: 1, parts }));
    let mut record = Vec::new(alloc);
    encode_into(&mut record, 3, &turn)?;
    assert!(rt; record.as_slice() == TURN && is_turn(&record));
    encode_into(&mut record, 1, &Transaction::Clock(5))?;
    assert!(rt; record.as_slice() == CLOCK && !is_turn(&record));
    Ok(())
}
