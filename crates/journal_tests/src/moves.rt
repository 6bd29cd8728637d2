//! A store moved to its other slot byte by byte, and what a stop at each call leaves.
ghost use Rattle.std.specs.Prelude.{◌≡◌, ◌≤◌, ◌<◌, ◌^◌, replicate, All};
ghost use Rattle.txn_log.specs.Records.{IsPayload};
ghost use Rattle.txn_log.specs.Stored.{InRange};

use checkpoint::{MoveStop, Payloads, compact};
use flow_disk::{MemDisk, Slot};
use std::alloc::{AllocError, Global};
use std::test::Fail;
use txn_log::{Header, Log};

const CLOCK: [u8; 17] = [0, 0, 0, 0, 0, 0, 0, 1, 0x0f, 0, 0, 0, 0, 0, 0, 0, 5];

const SECOND: [u8; 65] = [
    1, 0x46, 0x4c, 0x4f, 0x57, 0x53, 0x54, 0x52, 0x32, 0, 0, 0, 0, 0, 0, 0, 2, 1, 0, 0, 0, 0, 0,
    0x0f, 0x42, 0x40, 0, 0, 0, 0, 0, 0, 0, 1, 0, 0, 0, 0, 0, 0, 0, 0, 1, 0, 0, 0, 0x11, 0, 0, 0, 0,
    0, 0, 0, 1, 0x0f, 0, 0, 0, 0, 0, 0, 0, 5, 0,
];

fn header(generation: u64) -> Header
    requires { (1 ≤ generation) × (generation ≤ 2 ^ 62) }
    ensures { InRange result × (result.generation ≡ generation) }
{
    Header {
        generation,
        queues: 1,
        limit: 1_000_000,
        transactions: 1,
        roots: 0,
    }
}

/// So many copies of one payload; there is no memory for the one with `starved` behind it.
#[derive(Drop)]
struct Copies<'a> {
    alloc: Global,
    payload: &'a [u8],
    left: usize,
    starved: usize,
}

impl<'a> Payloads for Copies<'a> {
    ghost left = { λ it. replicate it.left it.payload.now };

    fn next(&mut self) -> Result<Option<Vec<u8>>, AllocError> {
        if self.left == 0 {
            return Ok(None);
        }
        if self.left == self.starved {
            return Err(AllocError);
        }
        let payload = self.payload.to_vec(self.alloc)?;
        self.left -= 1;
        Ok(Some(payload))
    }
}

fn clocks(rt: &HostRuntime, count: u8) -> Copies<'static>
    ensures { All IsPayload (replicate result.left result.payload.now) × (result.left ≡ count) }
{
    Copies {
        alloc: rt.alloc(),
        payload: &CLOCK,
        left: count as usize,
        starved: 0,
    }
}

/// Reopens a store and moves it, and answers whether both was done.
fn moves(rt: &HostRuntime, disk: &mut MemDisk, count: u8) -> Result<bool, Fail> {
    let mut kept = clocks(rt, count);
    match Log::reopen(rt.alloc(), disk) {
        Ok(opened) => {
            let mut log = opened.log;
            let generation = opened.header.generation;
            if generation > 100 {
                return Ok(false);
            }
            Ok(compact(&mut log, disk, &header(generation + 1), &mut kept).is_ok())
        }
        Err(_) => Ok(false),
    }
}

/// The slot that counts when a store is opened, and how many records it has.
fn found(alloc: Global, disk: &mut MemDisk) -> Result<(Slot, usize), Fail> {
    let opened = Log::reopen(alloc, disk)?;
    Ok((opened.log.slot(), opened.records.len()))
}

/// A store with one record, moved once.
fn moved(rt: &HostRuntime) -> Result<MemDisk, Fail> {
    let mut disk = MemDisk::new(rt.alloc(), &[])?;
    let mut log = Log::make(rt.alloc(), &mut disk, 1, 1_000_000)?;
    log.append(&mut disk, &CLOCK)?;
    compact(&mut log, &mut disk, &header(2), &mut clocks(rt, 1))?;
    Ok(disk)
}

#[test]
fn a_move_byte_by_byte(rt: HostRuntime) -> Result<(), Fail> {
    let mut disk = moved(&rt)?;
    assert_eq!(rt; disk.bytes(Slot::B), SECOND.as_slice());
    assert_eq!(rt; Log::reopen(rt.alloc(), &mut disk)?.header, header(2));
    assert_eq!(rt; found(rt.alloc(), &mut disk)?, (Slot::B, 1));
    Ok(())
}

#[test]
fn a_log_goes_on_after_a_move(rt: HostRuntime) -> Result<(), Fail> {
    let mut disk = MemDisk::new(rt.alloc(), &[])?;
    let mut log = Log::make(rt.alloc(), &mut disk, 1, 1_000_000)?;
    log.append(&mut disk, &CLOCK)?;
    compact(&mut log, &mut disk, &header(2), &mut clocks(&rt, 1))?;
    assert_eq!(rt; log.slot(), Slot::B);
    log.append(&mut disk, &CLOCK)?;
    assert_eq!(rt; found(rt.alloc(), &mut disk)?, (Slot::B, 2));
    Ok(())
}

#[test]
fn a_store_is_moved_back(rt: HostRuntime) -> Result<(), Fail> {
    let mut disk = moved(&rt)?;
    assert_eq!(rt; moves(&rt, &mut disk, 2)?, true);
    assert_eq!(rt; found(rt.alloc(), &mut disk)?, (Slot::A, 2));
    Ok(())
}

/// A store with one record after a move for which there is no memory at the second of three records.
fn starved(rt: &HostRuntime) -> Result<MemDisk, Fail> {
    let mut disk = MemDisk::new(rt.alloc(), &[])?;
    let mut log = Log::make(rt.alloc(), &mut disk, 1, 1_000_000)?;
    log.append(&mut disk, &CLOCK)?;
    let mut kept = clocks(rt, 3);
    kept.starved = 2;
    let moved = compact(&mut log, &mut disk, &header(2), &mut kept);
    if moved != Err(MoveStop::NoMemory) || log.slot() != Slot::A {
        return Err(Fail::new("the move did not stop for want of memory"));
    }
    Ok(disk)
}

#[test]
fn a_starved_move_leaves_the_store_where_it_stood(rt: HostRuntime) -> Result<(), Fail> {
    let disk = starved(&rt)?;
    for choice in [0, 1, 215, 221] {
        assert_eq!(rt; found(rt.alloc(), &mut disk.crash(choice)?)?, (Slot::A, 1));
    }
    Ok(())
}

#[test]
fn a_store_goes_on_after_a_starved_move(rt: HostRuntime) -> Result<(), Fail> {
    let mut disk = starved(&rt)?;
    let mut opened = Log::reopen(rt.alloc(), &mut disk)?;
    assert_eq!(rt; opened.records.len(), 1);
    opened.log.append(&mut disk, &CLOCK)?;
    assert_eq!(rt; moves(&rt, &mut disk, 2)?, true);
    assert_eq!(rt; found(rt.alloc(), &mut disk)?, (Slot::B, 2));
    Ok(())
}

/// A slot of an older generation.
fn older(alloc: Global) -> Result<Vec<u8>, Fail> {
    let mut older = SECOND.to_vec(alloc)?;
    if let Some(generation) = older.get_mut(16) {
        *generation = 1;
    }
    Ok(older)
}

/// A slot of the older format behind a gate that is neither 0 nor 1.
fn strange(alloc: Global) -> Result<Vec<u8>, Fail> {
    let mut strange = SECOND.to_vec(alloc)?;
    if let [gate, _, _, _, _, _, _, _, last, ..] = strange.as_mut_slice() {
        *gate = 7;
        *last = 0x31;
    }
    Ok(strange)
}

/// Whether a stop at a call of a move over a slot leaves the one record, and the moved store where the move was done.
fn is_left_whole(rt: &HostRuntime, before: &[u8], stop: u64, choice: u64) -> Result<bool, Fail> {
    let mut disk = MemDisk::stopping(rt.alloc(), before, &SECOND, stop)?;
    let is_done = moves(rt, &mut disk, 1)?;
    if is_done != (stop > disk.calls()) {
        return Ok(false);
    }
    let mut left = disk.crash(choice)?;
    let opened = Log::reopen(rt.alloc(), &mut left)?;
    Ok(opened.records.len() == 1 && (!is_done || opened.header == header(3)))
}

#[test]
fn a_stop_at_each_call(rt: HostRuntime) -> Result<(), Fail> {
    let empty = Vec::new(rt.alloc());
    let (older, strange) = (older(rt.alloc())?, strange(rt.alloc())?);
    for before in [&empty, &older, &strange] {
        for stop in 1..30 {
            for choice in [0, 1, 215, 221] {
                assert!(rt; is_left_whole(&rt, before, stop, choice)?);
            }
        }
    }
    Ok(())
}
