//! A disk in memory, which fails at the calls that are listed and tells everything.
ghost use Rattle.std.specs.Prelude.{◌≡◌, ◌<◌, ◌≤◌, [], length, IfOk, OnOk, OnErr, Some, None};
ghost use Rattle.flow_disk.specs.Calls.{Serves, ServesOrStarves};
ghost use Rattle.flow_disk.specs.Causes.{HasCause};
ghost use Rattle.flow_disk.specs.Contents.{image_of};
ghost use Rattle.flow_disk.specs.Images.{bytes_in, with_written, TornIn, Reads};
ghost use Rattle.flow_disk.specs.Moments.{Follows, Only, Passes, Within};
ghost use Rattle.flow_disk.specs.InMemory.{IsFresh, Keeps, LeftBy, LeftSinceBy, calls_of, crashed_by, moment_of};
ghost use Rattle.flow_disk.specs.InMemory.{seen_by, synced_by};
ghost use Rattle.flow_disk.specs.Laws.{honest_now, now_counts, now_only};

use crate::counts::Counts;
use crate::disk::{Disk, Failed, Slot};
use crate::kept::Kept;
use std::alloc::{AllocError, Global};

/// Two slots in memory. A call fails exactly where it is listed, stands at or behind the stop, or
/// finds no memory, which `starved` tells; calls are counted from 1.
#[derive(Drop)]
pub struct MemDisk {
    kept: Kept,
    counts: Counts,
}

impl MemDisk {
    /// A disk with both slots empty, which fails at the calls that `failing` lists.
    pub fn new(alloc: Global, failing: &[u64]) -> Result<MemDisk, AllocError>
        ensures { IfOk result (IsFresh (record { a = []; b = [] }) failing.now None) }
    {
        let disk = MemDisk::with(alloc, &[], &[], failing)?;
        Ok(disk)
    }

    /// A disk with these contents, both synced, which fails at the calls that `failing` lists.
    pub fn with(alloc: Global, a: &[u8], b: &[u8], failing: &[u64]) -> Result<MemDisk, AllocError>
        ensures { IfOk result (IsFresh (record { a = a.now; b = b.now }) failing.now None) }
    {
        Ok(MemDisk {
            kept: Kept::new(alloc, a, b)?,
            counts: Counts::new(alloc, failing, None)?,
        })
    }

    /// A disk with these contents, both synced, of which call `from` and all later ones fail.
    pub fn stopping(alloc: Global, a: &[u8], b: &[u8], from: u64) -> Result<MemDisk, AllocError>
        ensures { IfOk result (IsFresh (record { a = a.now; b = b.now }) [] (Some from)) }
    {
        Ok(MemDisk {
            kept: Kept::new(alloc, a, b)?,
            counts: Counts::new(alloc, &[], Some(from))?,
        })
    }

    /// One image of a crash, as a new disk without faults: by choice 0 the content at the last
    /// sync, by choice 1 the content as read, by a greater one the same, but each byte that was
    /// written since the last sync is the choice plus its place, modulo 256.
    pub fn crash(&self, choice: u64) -> Result<MemDisk, AllocError>
        ensures image { IfOk result (λ disk. LeftBy self.now (seen_by disk)) }
        ensures synced { IfOk result (λ disk. choice ≡ 0 → seen_by disk ≡ synced_by self.now) }
        ensures read { IfOk result (λ disk. choice ≡ 1 → seen_by disk ≡ seen_by self.now) }
        ensures fresh { IfOk result (IsFresh (crashed_by choice self.now) [] None) }
    {
        let left = self.kept.crash(choice)?;
        let disk = MemDisk::with(self.kept.alloc, &left.a, &left.b, &[])?;
        Ok(disk)
    }

    /// What a read of the slot gives.
    pub fn bytes(&self, slot: Slot) -> &[u8]
        ensures { result.now ≡ bytes_in (seen_by self.now) slot }
    {
        self.kept.bytes(slot)
    }

    /// The number of calls so far.
    pub fn calls(&self) -> u64
        ensures { result ≡ (calls_of self.now).made }
    {
        self.counts.made()
    }

    /// The number of calls that failed for want of memory.
    pub fn starved(&self) -> u64
        ensures { result ≡ (calls_of self.now).starved }
    {
        self.counts.starved()
    }
}

/// Copies the bytes from a place on to the front of a buffer.
fn copy_from(bytes: &[u8], at: u64, buf: &mut [u8]) -> usize
    ensures bound { result ≤ length buf.new }
    ensures bytes { Reads bytes.now at result buf.new }
{
    if at >= bytes.len() as u64 {
        return 0;
    }
    let from = at as usize;
    let count = buf.len().min(bytes.len() - from);
    buf[..count].copy_from_slice(&bytes[from..from + count]);
    count
}

impl Disk for MemDisk {
    ghost tells = { Unit {0} };

    ghost seen = { seen_by };

    ghost images = { LeftBy };

    ghost moment = { moment_of };

    ghost left_since = { LeftSinceBy };

    ghost faults = { λ disk. (calls_of disk).failed };

    ghost honest = { λ disk told. honest_now (image_of disk.kept.first) disk.kept.changes.items };

    ghost counts_now = { λ disk t c le now. now_counts (image_of disk.kept.first) disk.kept.changes.items t c le now };

    ghost only_now = { λ disk c left. now_only (image_of disk.kept.first) disk.kept.changes.items c left };

    fn size(&mut self, slot: Slot) -> Result<u64, Failed>
        ensures bytes { IfOk result (λ n. Unit {0} → n ≡ length (bytes_in (seen_by self.old) slot)) }
        ensures seen { seen_by self.new ≡ seen_by self.old }
        ensures crash { Within (LeftBy self.old) (LeftBy self.new) }
        ensures time { Passes moment_of LeftSinceBy LeftBy self.old self.new }
        ensures cause { HasCause (calls_of self.old).failed (calls_of self.new).failed result }
        ensures serves { Serves (calls_of self.old) (calls_of self.new) result }
        ensures keeps { Keeps self.old self.new }
    {
        self.counts.begin()?;
        Ok(self.kept.bytes(slot).len() as u64)
    }

    fn read_at(&mut self, slot: Slot, at: u64, buf: &mut [u8]) -> Result<usize, Failed>
        ensures bound { IfOk result (λ n. n ≤ length buf.new) }
        ensures bytes { IfOk result (λ n. Unit {0} → Reads (bytes_in (seen_by self.old) slot) at n buf.new) }
        ensures seen { seen_by self.new ≡ seen_by self.old }
        ensures crash { Within (LeftBy self.old) (LeftBy self.new) }
        ensures time { Passes moment_of LeftSinceBy LeftBy self.old self.new }
        ensures cause { HasCause (calls_of self.old).failed (calls_of self.new).failed result }
        ensures serves { Serves (calls_of self.old) (calls_of self.new) result }
        ensures keeps { Keeps self.old self.new }
    {
        self.counts.begin()?;
        Ok(copy_from(self.kept.bytes(slot), at, buf))
    }

    fn write_at(&mut self, slot: Slot, at: u64, bytes: &[u8]) -> Result<(), Failed>
        requires some { 0 < length bytes.now }
        requires no_gap { Unit {0} → at ≤ length (bytes_in (seen_by self.old) slot) }
        ensures written { OnOk result (Unit {0} → seen_by self.new
            ≡ with_written (seen_by self.old) slot at bytes.now) }
        ensures torn { Unit {0} → TornIn slot at (length bytes.now) (seen_by self.old) (seen_by self.new) }
        ensures crash { Follows (TornIn slot at (length bytes.now)) (LeftBy self.old) (LeftBy self.new) }
        ensures time { Passes moment_of LeftSinceBy LeftBy self.old self.new }
        ensures cause { HasCause (calls_of self.old).failed (calls_of self.new).failed result }
        ensures serves { ServesOrStarves (calls_of self.old) (calls_of self.new) result }
        ensures keeps { OnErr result (Keeps self.old self.new) }
    {
        self.counts.begin()?;
        match self.kept.write(slot, at, bytes) {
            Ok(()) => Ok(()),
            Err(AllocError) => Err(self.counts.starve()),
        }
    }

    fn sync(&mut self) -> Result<(), Failed>
        ensures durable { OnOk result (Only (seen_by self.old) (LeftBy self.new)) }
        ensures seen { OnOk result (seen_by self.new ≡ seen_by self.old) }
        ensures crash { Within (LeftBy self.old) (LeftBy self.new) }
        ensures time { Passes moment_of LeftSinceBy LeftBy self.old self.new }
        ensures cause { HasCause (calls_of self.old).failed (calls_of self.new).failed result }
        ensures serves { ServesOrStarves (calls_of self.old) (calls_of self.new) result }
        ensures keeps { OnErr result (Keeps self.old self.new) }
    {
        self.counts.begin()?;
        match self.kept.sync() {
            Ok(()) => Ok(()),
            Err(AllocError) => Err(self.counts.starve()),
        }
    }
}
