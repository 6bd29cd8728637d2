//! A store byte by byte, what a stop at each call leaves, and stores that are cut or altered.
ghost use Rattle.std.specs.Prelude.{◌<◌, length};

use flow_disk::{Disk, MemDisk, Slot};
use std::test::Fail;
use txn_log::{Batch, Log, LogStop};

const MADE: [u8; 43] = [
    1, 0x46, 0x4c, 0x4f, 0x57, 0x53, 0x54, 0x52, 0x32, 0, 0, 0, 0, 0, 0, 0, 1, 1, 0, 0, 0, 0, 0,
    0x0f, 0x42, 0x40, 0, 0, 0, 0, 0, 0, 0, 0, 0, 0, 0, 0, 0, 0, 0, 0, 0,
];

const CLOCK: [u8; 17] = [0, 0, 0, 0, 0, 0, 0, 1, 0x0f, 0, 0, 0, 0, 0, 0, 0, 5];

fn records_of(rt: &HostRuntime, disk: &mut MemDisk) -> Result<usize, Fail> {
    Ok(Log::reopen(rt.alloc(), disk)?.records.len())
}

fn with_a(rt: &HostRuntime, bytes: &[u8]) -> Result<MemDisk, Fail> {
    Ok(MemDisk::with(rt.alloc(), bytes, &[], &[])?)
}

fn stop_of(rt: &HostRuntime, bytes: &[u8]) -> Result<Option<LogStop>, Fail> {
    let mut disk = with_a(rt, bytes)?;
    Ok(Log::reopen(rt.alloc(), &mut disk).err())
}

fn clocked(rt: &HostRuntime) -> Result<MemDisk, Fail> {
    let alloc = rt.alloc();
    let mut disk = MemDisk::new(alloc, &[])?;
    let mut log = Log::make(alloc, &mut disk, 1, 1_000_000)?;
    log.append(&mut disk, &CLOCK)?;
    Ok(disk)
}

#[test]
fn a_new_store_byte_by_byte(rt: HostRuntime) -> Result<(), Fail> {
    let mut disk = MemDisk::new(rt.alloc(), &[])?;
    let _log = Log::make(rt.alloc(), &mut disk, 1, 1_000_000)?;
    assert_eq!(rt; disk.bytes(Slot::A), MADE.as_slice());
    assert_eq!(rt; disk.bytes(Slot::B).len(), 0);
    Ok(())
}

#[test]
fn a_record_byte_by_byte(rt: HostRuntime) -> Result<(), Fail> {
    let disk = clocked(&rt)?;
    let bytes = disk.bytes(Slot::A);
    assert_eq!(rt; bytes.len(), 65);
    assert_eq!(rt; &bytes[42..47], [1, 0, 0, 0, 0x11].as_slice());
    assert_eq!(rt; &bytes[47..64], CLOCK.as_slice());
    assert_eq!(rt; bytes[64], 0);
    Ok(())
}

#[test]
fn an_append_takes_six_calls(rt: HostRuntime) -> Result<(), Fail> {
    let mut disk = MemDisk::new(rt.alloc(), &[])?;
    let mut log = Log::make(rt.alloc(), &mut disk, 1, 1_000_000)?;
    let before = disk.calls();
    log.append(&mut disk, &CLOCK)?;
    assert_eq!(rt; disk.calls().checked_sub(before), Some(6));
    assert_eq!(rt; disk.starved(), 0);
    Ok(())
}

#[test]
fn a_store_is_opened_again(rt: HostRuntime) -> Result<(), Fail> {
    let opened = Log::reopen(rt.alloc(), &mut clocked(&rt)?)?;
    assert_eq!(rt; opened.header.limit, 1_000_000);
    assert_eq!(rt; opened.records.len(), 1);
    let Some(record) = opened.records.walk().next() else {
        return Err(Fail::new("no record"));
    };
    assert_eq!(rt; record.place, 42);
    assert_eq!(rt; record.payload, CLOCK.as_slice());
    Ok(())
}

/// How many calls it takes to reopen a store without records.
fn reopening(rt: &HostRuntime) -> Result<u64, Fail> {
    let mut made = with_a(rt, &MADE)?;
    let opened = Log::reopen(rt.alloc(), &mut made)?;
    if opened.records.len() > 0 {
        return Err(Fail::new("a store without records has one"));
    }
    Ok(made.calls())
}

/// How many records a stop at a call of an append leaves, and whether the append was done.
fn left_of_one(rt: &HostRuntime, stop: u64, choice: u64) -> Result<(usize, bool), Fail> {
    let mut disk = MemDisk::stopping(rt.alloc(), &MADE, &[], stop)?;
    let opened = Log::reopen(rt.alloc(), &mut disk)?;
    if opened.records.len() > 0 {
        return Err(Fail::new("a store without records has one"));
    }
    let mut log = opened.log;
    let is_done = log.append(&mut disk, &CLOCK).is_ok();
    let mut left = disk.crash(choice)?;
    Ok((records_of(rt, &mut left)?, is_done))
}

#[test]
fn a_stop_at_each_call_of_an_append(rt: HostRuntime) -> Result<(), Fail> {
    let reopening = reopening(&rt)?;
    for stop in 1..8_u64 {
        for choice in [0, 1, 215, 221] {
            let from = reopening.saturating_add(stop);
            let (records, is_done) = left_of_one(&rt, from, choice)?;
            assert_eq!(rt; is_done, stop > 6);
            let has_one = stop > 6 || stop == 6 && (choice == 1 || choice == 215);
            assert_eq!(rt; records == 1, has_one);
        }
    }
    Ok(())
}

/// A batch of two transactions that set the clock.
fn two_clocks(rt: &HostRuntime) -> Result<Batch, Fail> {
    let mut batch = Batch::new(rt.alloc());
    batch.push(&CLOCK)?;
    batch.push(&CLOCK)?;
    Ok(batch)
}

/// A store with three records, each added by itself.
fn three_singly(rt: &HostRuntime) -> Result<MemDisk, Fail> {
    let mut disk = MemDisk::new(rt.alloc(), &[])?;
    let mut log = Log::make(rt.alloc(), &mut disk, 1, 1_000_000)?;
    log.append(&mut disk, &CLOCK)?;
    log.append(&mut disk, &CLOCK)?;
    log.append(&mut disk, &CLOCK)?;
    Ok(disk)
}

/// A store to which two records are added together, and then one; and how many calls the two took.
fn two_and_one(rt: &HostRuntime, batch: &Batch) -> Result<(MemDisk, u64), Fail>
    requires some { 0 < length batch.now }
    requires few { length batch.now < 1000 }
{
    let mut disk = MemDisk::new(rt.alloc(), &[])?;
    let mut log = Log::make(rt.alloc(), &mut disk, 1, 1_000_000)?;
    let before = disk.calls();
    log.append_all(&mut disk, batch)?;
    let calls = disk.calls().saturating_sub(before);
    log.append(&mut disk, &CLOCK)?;
    Ok((disk, calls))
}

// Three writes and two syncs; the records stand as single ones do.
#[test]
fn a_batch_byte_by_byte(rt: HostRuntime) -> Result<(), Fail> {
    let batch = two_clocks(&rt)?;
    assert_eq!(rt; batch.len(), 2);
    assert_eq!(rt; batch.size(), 44);
    let single = three_singly(&rt)?;
    let (mut disk, calls) = two_and_one(&rt, &batch)?;
    assert_eq!(rt; calls, 5);
    assert_eq!(rt; disk.bytes(Slot::A), single.bytes(Slot::A));
    assert_eq!(rt; records_of(&rt, &mut disk)?, 3);
    Ok(())
}

/// How many records a stop at a call of an append of two leaves, and whether the append was done.
fn left_of_two(rt: &HostRuntime, stop: u64, choice: u64) -> Result<(usize, bool), Fail> {
    let mut disk = MemDisk::stopping(rt.alloc(), &MADE, &[], stop)?;
    let opened = Log::reopen(rt.alloc(), &mut disk)?;
    let mut log = opened.log;
    let batch = two_clocks(rt)?;
    if log.has_failed() || log.records() > 0 || batch.len() == 0 {
        return Ok((0, false));
    }
    let is_done = log.append_all(&mut disk, &batch).is_ok();
    let mut left = disk.crash(choice)?;
    Ok((records_of(rt, &mut left)?, is_done))
}

// Of two records that are added together a crash leaves both or none: both where the gate was written.
#[test]
fn a_stop_at_each_call_of_a_batch(rt: HostRuntime) -> Result<(), Fail> {
    let reopening = reopening(&rt)?;
    for stop in 1..7_u64 {
        for choice in [0, 1, 215, 221] {
            let from = reopening.saturating_add(stop);
            let (records, is_done) = left_of_two(&rt, from, choice)?;
            assert_eq!(rt; is_done, stop > 5);
            let has_both = stop > 5 || stop == 5 && (choice == 1 || choice == 215);
            assert_eq!(rt; records, if has_both { 2 } else { 0 });
        }
    }
    Ok(())
}

#[test]
fn unmade_and_foreign_files_are_refused(rt: HostRuntime) -> Result<(), Fail> {
    assert_eq!(rt; stop_of(&rt, &[])?, Some(LogStop::Unmade));
    assert_eq!(rt;
        stop_of(&rt, b"hello".as_slice())?,
        Some(LogStop::Foreign(Slot::A))
    );
    Ok(())
}

#[test]
fn no_store_is_made_twice(rt: HostRuntime) -> Result<(), Fail> {
    let mut again = clocked(&rt)?;
    assert_eq!(rt;
        Log::make(rt.alloc(), &mut again, 1, 1_000_000).err(),
        Some(LogStop::Made)
    );
    Ok(())
}

#[test]
fn two_slots_of_one_generation_are_refused(rt: HostRuntime) -> Result<(), Fail> {
    let alloc = rt.alloc();
    let mut equal = MemDisk::with(alloc, &MADE, &MADE, &[])?;
    let both = Some(LogStop::Damaged(Slot::B, 9));
    assert_eq!(rt; Log::reopen(alloc, &mut equal).err(), both);
    assert_eq!(rt; Log::make(alloc, &mut equal, 1, 1_000_000).err(), both);
    Ok(())
}

/// A slot without records, of a generation below 256.
fn made(rt: &HostRuntime, generation: u8) -> Result<Vec<u8>, Fail> {
    let mut bytes = MADE.to_vec(rt.alloc())?;
    if let Some(last) = bytes.get_mut(16) {
        *last = generation;
    }
    Ok(bytes)
}

/// Which slot counts, and how many calls it takes to find it.
fn found(rt: &HostRuntime, a: &[u8], b: &[u8]) -> Result<(Result<Slot, LogStop>, u64), Fail> {
    let mut disk = MemDisk::with(rt.alloc(), a, b, &[])?;
    let found = match Log::reopen(rt.alloc(), &mut disk) {
        Ok(opened) => Ok(opened.log.slot()),
        Err(stop) => Err(stop),
    };
    Ok((found, disk.calls()))
}

// Of both slots the fronts are read, then all of each until nothing comes, and no slot again.
#[test]
fn two_slots(rt: HostRuntime) -> Result<(), Fail> {
    let (older, newer) = (made(&rt, 1)?, made(&rt, 2)?);
    assert_eq!(rt; found(&rt, &older, &newer)?, (Ok(Slot::B), 7));
    assert_eq!(rt; found(&rt, &newer, &older)?, (Ok(Slot::A), 7));
    assert_eq!(rt; found(&rt, &older, &[])?, (Ok(Slot::A), 6));
    assert_eq!(rt; found(&rt, &[], &older)?, (Ok(Slot::B), 6));
    let cut = LogStop::Damaged(Slot::A, 42);
    assert_eq!(rt; found(&rt, &MADE[..42], &newer)?, (Err(cut), 7));
    let other = LogStop::Foreign(Slot::B);
    assert_eq!(rt;
        found(&rt, &MADE[..42], b"hello".as_slice())?,
        (Err(other), 7)
    );
    Ok(())
}

/// Why a store is refused of which this many bytes are left.
fn stop_of_cut(left: usize) -> LogStop {
    match left {
        0..=1 => LogStop::Unmade,
        2..=8 => LogStop::Foreign(Slot::A),
        9..=16 => LogStop::Damaged(Slot::A, 9),
        17 => LogStop::Damaged(Slot::A, 17),
        18..=25 => LogStop::Damaged(Slot::A, 18),
        26..=33 => LogStop::Damaged(Slot::A, 26),
        34..=41 => LogStop::Damaged(Slot::A, 34),
        _ => LogStop::Damaged(Slot::A, 42),
    }
}

#[test]
fn cut_stores_are_refused(rt: HostRuntime) -> Result<(), Fail> {
    let made = clocked(&rt)?;
    assert_eq!(rt; made.bytes(Slot::A).len(), 65);
    for left in 0..65_usize {
        assert_eq!(rt;
            stop_of(&rt, &made.bytes(Slot::A)[..left])?,
            Some(stop_of_cut(left))
        );
    }
    Ok(())
}

/// A store with one record in which the byte at a place is another.
fn altered(rt: &HostRuntime, at: usize, byte: u8) -> Result<Vec<u8>, Fail> {
    let mut bytes = clocked(rt)?.bytes(Slot::A).to_vec(rt.alloc())?;
    match bytes.get_mut(at) {
        Some(place) => *place = byte,
        None => return Err(Fail::new("no byte is there")),
    }
    Ok(bytes)
}

#[test]
fn altered_stores_are_refused(rt: HostRuntime) -> Result<(), Fail> {
    for (at, byte, place) in [
        (9, 128, 9),
        (17, 0, 17),
        (18, 1, 18),
        (41, 1, 34),
        (46, 0, 42),
    ] {
        let bytes = altered(&rt, at, byte)?;
        assert_eq!(rt;
            stop_of(&rt, &bytes)?,
            Some(LogStop::Damaged(Slot::A, place))
        );
    }
    Ok(())
}

#[test]
fn a_gate_that_is_not_open_ends_the_records(rt: HostRuntime) -> Result<(), Fail> {
    for (at, byte, wanted) in [(42, 7, 0), (46, 16, 1)] {
        let bytes = altered(&rt, at, byte)?;
        assert_eq!(rt; records_of(&rt, &mut with_a(&rt, &bytes)?)?, wanted);
    }
    Ok(())
}

/// A slot whose gate is neither 0 nor 1, over the magic of the older format.
fn older(rt: &HostRuntime) -> Result<Vec<u8>, Fail> {
    let mut old = MADE.to_vec(rt.alloc())?;
    if let [gate, _, _, _, _, _, _, _, last, ..] = old.as_mut_slice() {
        *gate = 7;
        *last = 0x31;
    }
    Ok(old)
}

/// Whether a stop at a call of making a store over an older slot leaves it made, or unmade where it wasn't done.
fn is_left_whole(rt: &HostRuntime, old: &[u8], stop: u64, choice: u64) -> Result<bool, Fail> {
    let mut stopped = MemDisk::stopping(rt.alloc(), old, &[], stop)?;
    let is_made = Log::make(rt.alloc(), &mut stopped, 1, 1_000_000).is_ok();
    let mut left = stopped.crash(choice)?;
    let found = Log::reopen(rt.alloc(), &mut left);
    Ok(found.is_ok() || !is_made && found.err() == Some(LogStop::Unmade))
}

// The slot is written from byte 8 on.
#[test]
fn an_older_slot_is_made(rt: HostRuntime) -> Result<(), Fail> {
    let mut disk = with_a(&rt, &older(&rt)?)?;
    let _log = Log::make(rt.alloc(), &mut disk, 1, 1_000_000)?;
    assert_eq!(rt; disk.bytes(Slot::A), MADE.as_slice());
    Ok(())
}

#[test]
fn a_stop_at_each_call_of_making_over_an_older_slot(rt: HostRuntime) -> Result<(), Fail> {
    let old = older(&rt)?;
    for stop in 1..20 {
        for choice in [0, 1, 215, 221] {
            assert!(rt; is_left_whole(&rt, &old, stop, choice)?);
        }
    }
    Ok(())
}
