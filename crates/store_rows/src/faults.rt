//! What faults leave of a store: of the disk, of the source and of the sink, at each call in turn.
use flow_disk::MemDisk;
use flow_trials::{Outcome, Store, new_store, run_over};
use flow_words::Status;
use std::alloc::Global;
use std::test::Fail;

const SCRIPT: &[u8] = b"IMPORT
STRUCTURE 'E' END 'E'
PERSON 'ann' END 'ann'
PROCESS 'P' ('E','E')
PROGRAM_ACTIVITY 'A' ('E','E') END 'A'
PROGRAM_ACTIVITY 'B' ('E','E') END 'B'
CONTROL FROM 'A' TO 'B'
END 'P'
.
START 'P' BY 'ann'
DRAIN
CHECKPOINT
TAKE '1/A#1'
DONE '1/A#1' TAKE 1
DRAIN
CHECKPOINT
TAKE '1/B#1'
DONE '1/B#1' TAKE 1
CLOCK 5
";

/// What the script answers.
const ANSWERS: &[u8] = b"ok 1 IMPORT 1
ok 2 ROOT 1
ok TURNS 1
ok CHECKPOINT 3
ok 4 TAKE 1
ok 5 FINISHED 1
ok TURNS 1
ok CHECKPOINT 6
ok 7 TAKE 1
ok 8 FINISHED 1
ok 9 CLOCK 5
";

/// The number of transactions behind this many of the answers.
const COUNTS: [u64; 12] = [0, 1, 2, 3, 3, 4, 5, 6, 6, 7, 8, 9];

/// Runs `run` over a script and a disk.
fn ran(alloc: Global, script: &[u8], disk: MemDisk) -> Result<Outcome, Fail> {
    Ok(run_over(alloc, &["run", "a", "b"], script, (&[], &[]), disk)?)
}

/// The number of transactions that these answers name; None where they aren't the first ones of the script.
fn answered(text: &[u8]) -> Option<u64> {
    if !ANSWERS.starts_with(text) {
        return None;
    }
    COUNTS
        .get(text.iter().filter(|byte| **byte == b'\n').count())
        .copied()
}

/// Whether a command answers with this transaction.
fn is_next(alloc: Global, text: &[u8], number: u64) -> Result<bool, Fail> {
    let line = format!(in alloc; "ok {number} CLOCK 9\n")?;
    Ok(text == line.as_bytes())
}

/// Whether a store holds this many transactions, or one more.
fn holds(alloc: Global, disk: MemDisk, count: u64) -> Result<bool, Fail> {
    let outcome = ran(alloc, b"CLOCK 9\n", disk)?;
    Ok(
        is_next(alloc, &outcome.text, count.saturating_add(1))?
            || is_next(alloc, &outcome.text, count.saturating_add(2))?,
    )
}

/// Whether a crash, by each choice, leaves all that was answered and at most one transaction more.
fn keeps(alloc: Global, outcome: &Outcome) -> Result<bool, Fail> {
    let Some(count) = answered(&outcome.text) else {
        return Ok(false);
    };
    for choice in [0, 1, 215, 221] {
        if !holds(alloc, outcome.disk.crash(choice)?, count)? {
            return Ok(false);
        }
    }
    Ok(true)
}

/// Whether a run of the script ends so, and loses nothing that was answered.
fn ends(
    alloc: Global,
    failing: (&[u64], &[u64]),
    disk: MemDisk,
    status: Status,
) -> Result<bool, Fail> {
    let outcome = run_over(alloc, &["run", "a", "b"], SCRIPT, failing, disk)?;
    Ok(outcome.status == status && keeps(alloc, &outcome)?)
}

/// Whether the disk may stop at this call.
fn may_stop(alloc: Global, store: &Store, call: u64) -> Result<bool, Fail> {
    let disk = MemDisk::stopping(alloc, &store.a, &store.b, call)?;
    ends(alloc, (&[], &[]), disk, Status::StoreFault)
}

/// Whether this call of the disk may fail.
fn may_fail(alloc: Global, store: &Store, call: u64) -> Result<bool, Fail> {
    let disk = MemDisk::with(alloc, &store.a, &store.b, &[call])?;
    ends(alloc, (&[], &[]), disk, Status::StoreFault)
}

#[test]
fn script_without_a_fault(rt: HostRuntime) -> Result<(), Fail> {
    let disk = new_store(rt.alloc())?.disk(rt.alloc())?;
    let outcome = ran(rt.alloc(), SCRIPT, disk)?;
    assert!(rt; outcome.status == Status::Done && outcome.text.as_slice() == ANSWERS);
    assert_eq!(rt; outcome.disk.calls(), 95);
    Ok(())
}

#[test]
fn stops_of_the_disk(rt: HostRuntime) -> Result<(), Fail> {
    let store = new_store(rt.alloc())?;
    for call in 1..96 {
        assert!(rt; may_stop(rt.alloc(), &store, call)?, "call {call}");
    }
    Ok(())
}

#[test]
fn faults_of_the_disk(rt: HostRuntime) -> Result<(), Fail> {
    let store = new_store(rt.alloc())?;
    for call in 1..96 {
        assert!(rt; may_fail(rt.alloc(), &store, call)?, "call {call}");
    }
    Ok(())
}

#[test]
fn faults_of_the_source(rt: HostRuntime) -> Result<(), Fail> {
    let store = new_store(rt.alloc())?;
    for call in 1..3 {
        let disk = store.disk(rt.alloc())?;
        assert!(rt;
            ends(rt.alloc(), (&[call], &[]), disk, Status::ReadFault)?,
            "read {call}"
        );
    }
    Ok(())
}

#[test]
fn faults_of_the_sink(rt: HostRuntime) -> Result<(), Fail> {
    let store = new_store(rt.alloc())?;
    for call in 1..12 {
        let disk = store.disk(rt.alloc())?;
        assert!(rt;
            ends(rt.alloc(), (&[], &[call]), disk, Status::WriteFault)?,
            "write {call}"
        );
    }
    Ok(())
}

/// Whether a store may be cut to these slots: it is refused, or it holds all of the script or what stood before its
/// last checkpoint.
fn may_be_cut(alloc: Global, a: &[u8], b: &[u8]) -> Result<bool, Fail> {
    let outcome = ran(alloc, b"CLOCK 9\n", MemDisk::with(alloc, a, b, &[])?)?;
    Ok(
        outcome.status == Status::Store
            || is_next(alloc, &outcome.text, 7)?
            || is_next(alloc, &outcome.text, 10)?,
    )
}

/// The store behind the whole script.
fn full_store(alloc: Global) -> Result<Store, Fail> {
    let disk = new_store(alloc)?.disk(alloc)?;
    Ok(ran(alloc, SCRIPT, disk)?.store(alloc)?)
}

#[test]
fn cuts_of_slot_a(rt: HostRuntime) -> Result<(), Fail> {
    let store = full_store(rt.alloc())?;
    for n in 0..store.a.len() {
        let a = store.a.get(..n).unwrap_or(&[]);
        assert!(rt; may_be_cut(rt.alloc(), a, &store.b)?, "at {n}");
    }
    Ok(())
}

#[test]
fn cuts_of_slot_b(rt: HostRuntime) -> Result<(), Fail> {
    let store = full_store(rt.alloc())?;
    for n in 0..store.b.len() {
        let b = store.b.get(..n).unwrap_or(&[]);
        assert!(rt; may_be_cut(rt.alloc(), &store.a, b)?, "at {n}");
    }
    Ok(())
}
