//! Histories of several roots, with deletions and what they leave.
ghost use Rattle.std.specs.Prelude.{◌≤◌};

use flow_model::{List, Message, Path, Transaction};
use flow_txn::encode;
use live_history::History;
use std::alloc::{AllocError, Global};
use std::test::Fail;

/// The numbers of the transactions about a root.
fn about(alloc: Global, history: &History, root: u64) -> Result<Vec<u64>, AllocError> {
    let mut numbers = Vec::new(alloc);
    for numbered in &history.about(root)? {
        numbers.push(numbered.number)?;
    }
    Ok(numbers)
}

/// A history of this many transactions, each the suspension of a root from 1 to 3 in turn.
fn suspensions(alloc: Global, count: u64) -> Result<History, AllocError>
    requires { count ≤ 100 }
{
    let mut history = History::new(alloc);
    for number in 1..count + 1 {
        history.push(number, &Transaction::Suspend(number % 3 + 1))?;
    }
    Ok(history)
}

/// The taking of a message about a root.
fn turn(alloc: Global, root: u64) -> Transaction {
    let parts = List::new(alloc);
    Transaction::Turn(0, Message::End(Path { root, parts }))
}

/// The numbers of the transactions that a walk over a history finds.
fn walked(alloc: Global, history: &History) -> Result<Vec<u64>, AllocError> {
    let mut numbers = Vec::new(alloc);
    let mut walk = history.walk();
    for _ in 0..100 {
        let Some(numbered) = walk.next()? else {
            break;
        };
        numbers.push(numbered.number)?;
    }
    Ok(numbers)
}

/// Whether the first record of a history is the one of the suspension of this root with this number.
fn begins_with(
    history: &History,
    alloc: Global,
    number: u64,
    root: u64,
) -> Result<bool, AllocError> {
    let mut walk = history.walk();
    let Some(first) = walk.next_record()? else {
        return Ok(false);
    };
    let suspension = encode(alloc, number, &Transaction::Suspend(root))?;
    Ok(first.as_slice() == suspension.as_slice())
}

#[test]
fn a_walk_goes_on_behind_what_was_deleted(rt: HostRuntime) -> Result<(), Fail> {
    let alloc = rt.alloc();
    let mut history = suspensions(alloc, 6)?;
    history.remove(2);
    assert_eq!(rt;
        walked(alloc, &history)?.as_slice(),
        [2, 3, 5, 6].as_slice()
    );
    assert!(rt; begins_with(&history, alloc, 2, 3)?);
    Ok(())
}

#[test]
fn transactions_out_of_range_are_kept(rt: HostRuntime) -> Result<(), Fail> {
    let alloc = rt.alloc();
    let mut history = suspensions(alloc, 2)?;
    history.push(0, &Transaction::Suspend(2))?;
    assert_eq!(rt; about(alloc, &history, 2)?.as_slice(), [1, 0].as_slice());
    assert_eq!(rt; walked(alloc, &history)?.as_slice(), [1, 2, 0].as_slice());
    history.remove(3);
    assert!(rt; begins_with(&history, alloc, 1, 2)?);
    Ok(())
}

#[test]
fn transactions_of_a_root_come_in_order(rt: HostRuntime) -> Result<(), Fail> {
    let alloc = rt.alloc();
    let history = suspensions(alloc, 7)?;
    assert_eq!(rt; history.len(), 7);
    assert_eq!(rt; about(alloc, &history, 2)?.as_slice(), [1, 4, 7].as_slice());
    assert_eq!(rt; about(alloc, &history, 1)?.as_slice(), [3, 6].as_slice());
    assert!(rt; history.about(4)?.is_empty());
    Ok(())
}

#[test]
fn a_deletion_takes_those_of_its_root_alone(rt: HostRuntime) -> Result<(), Fail> {
    let alloc = rt.alloc();
    let mut history = suspensions(alloc, 7)?;
    history.push(8, &Transaction::Clock(5))?;
    history.remove(2);
    assert_eq!(rt; history.len(), 5);
    assert!(rt; history.about(2)?.is_empty());
    assert_eq!(rt; about(alloc, &history, 3)?.as_slice(), [2, 5].as_slice());
    history.remove(2);
    assert_eq!(rt; history.len(), 5);
    Ok(())
}

#[test]
fn a_history_goes_on_after_most_was_deleted(rt: HostRuntime) -> Result<(), Fail> {
    let alloc = rt.alloc();
    let mut history = suspensions(alloc, 9)?;
    history.remove(1);
    history.remove(3);
    history.push(10, &Transaction::Suspend(1))?;
    assert_eq!(rt; history.len(), 4);
    assert_eq!(rt; about(alloc, &history, 1)?.as_slice(), [10].as_slice());
    assert_eq!(rt; about(alloc, &history, 2)?.as_slice(), [1, 4, 7].as_slice());
    Ok(())
}

#[test]
fn turns_are_counted_in_records_and_whole(rt: HostRuntime) -> Result<(), Fail> {
    let alloc = rt.alloc();
    let mut history = suspensions(alloc, 3)?;
    assert_eq!(rt; history.turns(), 0);
    history.push(4, &turn(alloc, 1))?;
    history.push(0, &turn(alloc, 2))?;
    assert_eq!(rt; history.turns(), 2);
    history.remove(1);
    assert_eq!(rt; history.turns(), 1);
    Ok(())
}
