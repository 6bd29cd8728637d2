//! A log on one of two slots.
ghost use Rattle.std.specs.Prelude.{◌≡◌, ◌+◌, ◌*◌, ◌<◌, ◌≤◌, ◌^◌, length, OnOk, IsErr, IsTrue, true, false, ◌↔◌};
ghost use Rattle.flow_disk.specs.Causes.{HasCause};
ghost use Rattle.flow_disk.specs.Images.{Image, opposite};
ghost use Rattle.flow_disk.specs.Moments.{LeavesOnly, Only};

use crate::batch::Batch;
use crate::header::Header;
use crate::steps::{add, add_all, other_slot};
use crate::stops::StoreFault;
use flow_disk::{Disk, Slot};

/// A log: the slot that it stands on, its generation, the number of its records and the place of
/// its closed gate. After a fault of the disk it isn't used.
#[derive(Debug, Drop)]
pub struct Log {
    slot: Slot,
    generation: u64,
    records: u64,
    end: u64,
    failed: bool,
    ghost bounded: { end ≤ 42 + 2097157 * records },
}

impl Log {
    ghost use Rattle.txn_log.specs.Standing.{IsAt, StandsOn, HasRecord, MayHaveRecord, HasRecords, MayHaveRecords, HasTakenOver};

    /// A log on a slot with this number of records, which end at the closed gate `end`.
    pub(crate) fn on(slot: Slot, generation: u64, records: u64, end: u64) -> Log
        requires { end ≤ 42 + 2097157 * records }
        ensures { IsAt slot generation records end result }
    {
        Log {
            slot,
            generation,
            records,
            end,
            failed: false,
        }
    }

    /// Adds a record behind the others.
    ///
    /// At every moment of the call a crash leaves the records before, with the new one or without.
    /// At Ok a crash leaves it. `StoreFault` comes exactly where the disk's count of faults rose;
    /// then the log has failed and isn't used.
    pub fn append<D: Disk>(&mut self, disk: &mut D, payload: &[u8]) -> Result<(), StoreFault>
        requires some { 0 < length payload.now }
        requires size { length payload.now ≤ 2097152 }
        requires alive { self.old.failed ≡ false }
        requires room { self.old.records < 2 ^ 32 }
        requires stands { D.tells → StandsOn self.old (D.seen disk.old) }
        ensures stands { OnOk result (D.tells → StandsOn self.new (D.seen disk.new)) }
        ensures added { OnOk result (D.tells → HasRecord payload.now (D.seen disk.old) (D.seen disk.new)) }
        ensures durable { OnOk result (Only (D.seen disk.new) (D.images disk.new)) }
        ensures any_moment { D.tells → Only (D.seen disk.old) (D.images disk.old)
            → LeavesOnly D.moment D.left_since disk.old disk.new (MayHaveRecord payload.now (D.seen disk.old)) }
        ensures read { D.tells → Only (D.seen disk.old) (D.images disk.old)
            → MayHaveRecord payload.now (D.seen disk.old) (D.seen disk.new) }
        ensures cause { HasCause (D.faults disk.old) (D.faults disk.new) result }
        ensures failed { IsTrue self.new.failed ↔ IsErr result }
        ensures same { (self.new.slot ≡ self.old.slot) × (self.new.generation ≡ self.old.generation) }
        ensures count { OnOk result (self.new.records ≡ self.old.records + 1) }
    {
        match add(disk, self.slot, self.end, payload) {
            Ok(()) => {
                self.records += 1;
                self.end += 5 + payload.len() as u64;
                Ok(())
            }
            Err(_) => {
                self.failed = true;
                Err(StoreFault)
            }
        }
    }

    /// Adds the records of a batch behind the others.
    ///
    /// At every moment of the call a crash leaves the records before, with all of the new ones or with none.
    /// At Ok a crash leaves all. `StoreFault` comes exactly where the disk's count of faults rose; then the
    /// log has failed and isn't used.
    pub fn append_all<D: Disk>(&mut self, disk: &mut D, batch: &Batch) -> Result<(), StoreFault>
        requires some { 0 < length batch.now }
        requires alive { self.old.failed ≡ false }
        requires room { self.old.records < 2 ^ 32 }
        requires stands { D.tells → StandsOn self.old (D.seen disk.old) }
        ensures stands { OnOk result (D.tells → StandsOn self.new (D.seen disk.new)) }
        ensures added { OnOk result (D.tells → HasRecords batch.now (D.seen disk.old) (D.seen disk.new)) }
        ensures durable { OnOk result (Only (D.seen disk.new) (D.images disk.new)) }
        ensures any_moment { D.tells → Only (D.seen disk.old) (D.images disk.old)
            → LeavesOnly D.moment D.left_since disk.old disk.new (MayHaveRecords batch.now (D.seen disk.old)) }
        ensures read { D.tells → Only (D.seen disk.old) (D.images disk.old)
            → MayHaveRecords batch.now (D.seen disk.old) (D.seen disk.new) }
        ensures cause { HasCause (D.faults disk.old) (D.faults disk.new) result }
        ensures failed { IsTrue self.new.failed ↔ IsErr result }
        ensures same { (self.new.slot ≡ self.old.slot) × (self.new.generation ≡ self.old.generation) }
        ensures count { OnOk result (self.new.records ≡ self.old.records + length batch.now) }
    {
        match add_all(disk, self.slot, self.end, batch) {
            Ok(()) => {
                self.end += batch.size() as u64;
                self.records += batch.len() as u64;
                Ok(())
            }
            Err(_) => {
                self.failed = true;
                Err(StoreFault)
            }
        }
    }

    /// The slot that the log stands on.
    pub fn slot(&self) -> Slot
        ensures { result ≡ self.now.slot }
    {
        self.slot
    }

    /// The generation of the slot.
    pub fn generation(&self) -> u64
        ensures { result ≡ self.now.generation }
    {
        self.generation
    }

    /// The number of records.
    pub fn records(&self) -> u64
        ensures { result ≡ self.now.records }
    {
        self.records
    }

    /// Whether the disk failed under the log, which isn't used then.
    pub fn has_failed(&self) -> bool
        ensures { result ≡ self.now.failed }
    {
        self.failed
    }

    /// Marks the log as one that isn't used any more, since the disk failed.
    pub fn fail(&mut self)
        ensures failed { self.new.failed ≡ true }
        ensures same { (self.new.slot ≡ self.old.slot) × (self.new.generation ≡ self.old.generation)
            × (self.new.records ≡ self.old.records) × (self.new.end ≡ self.old.end) }
    {
        self.failed = true;
    }

    /// Lets the log stand on the other slot, which counts on this disk with this header, this number of
    /// records, and its closed gate at `end`.
    pub fn take_over<D: Disk>(&mut self, disk: &D, header: &Header, records: u64, end: u64)
        requires alive { self.old.failed ≡ false }
        requires end { end ≤ 42 + 2097157 * records }
        requires later { self.old.generation < header.now.generation }
        requires counts { D.tells → (c : Image) → D.images disk.now c → HasTakenOver self.old header.now records end c }
        ensures log { IsAt (opposite self.old.slot) header.now.generation records end self.new }
        ensures stands { D.tells → StandsOn self.new (D.seen disk.now) }
    {
        let _disk = disk;
        self.slot = other_slot(self.slot);
        self.generation = header.generation;
        self.records = records;
        self.end = end;
    }
}
