//! Two files as a disk. What they hold, and what a crash leaves of them, is not told.
ghost use Rattle.std.specs.Prelude.{◌≡◌, ◌⊎◌, ◌≤◌, [], length, true, false, IsErr, IfOk, OnOk, OnErr, Ok};
ghost use Rattle.flow_disk.specs.Causes.{HasCause};
ghost use Rattle.flow_disk.specs.declared.disk.Slot.{Slot as SlotOf};
ghost use Rattle.flow_files.specs.Known.{Goes, SameSyncs, is_synced, unsynced};
ghost use Rattle.flow_files.specs.declared.access.Access.TheVariants.{Look};

use crate::access::Access;
use crate::opening::open_both;
use crate::slot_file::SlotFile;
use flow_disk::{Disk, Failed, Slot};
use std::fs::{File, Files};
use std::io;
use std::marker::Model;

/// Two files by their paths, of which a contract knows how many calls have failed, what the disk
/// may do, and which file needs no sync. The number of faults stays at `u64::MAX`.
///
/// The first call opens both files and locks them until the end: making and serving for itself
/// alone, looking with others that look. A lock that somebody holds is a fault of that call, and so
/// are one file under two names, something that is no regular file, and exactly one file that is
/// absent (but for `Make` beside an empty one, which an interrupted making left). Where both are
/// absent, `Make` makes them, and for the others both slots are empty: a sync succeeds, and a write
/// is a fault. `Look` opens without the right to write, and each write is a fault.
///
/// After a fault each later call is one. Where a sync failed, the system may hold bytes that the
/// device doesn't have, and give them to whoever reads. So an empty file is left beside the slot
/// then (its path and `.unsynced`), as far as the device lets it, and while one is there, opening
/// is a fault.
///
/// A sync covers both files, but passes over one that wasn't written since its last successful
/// sync. Writes that follow one another go to the file in one call; one that fails is a fault of
/// the call that puts it out. Behind the end of a file of more than 65,536 bytes zeros are written
/// ahead, up to the next multiple of 131,072, so that most syncs change no size.
///
/// A signal that interrupts a call doesn't end it. A write past the process's limit on the size of
/// a file (`RLIMIT_FSIZE`) is a fault only where the process was started with `SIGXFSZ` ignored:
/// else that signal ends it, as there is no call here to ignore it.
#[derive(Drop)]
pub struct FileDisk<'a, R: Files<File = File> + AllocGlobal> {
    rt: &'a R,
    access: Access,
    a: SlotFile,
    b: SlotFile,
    is_open: bool,
    has_failed: bool,
    faults: u64,
}

impl<'a, R: Files<File = File> + AllocGlobal> Model for FileDisk<'a, R> {
    ghost use Rattle.flow_files.specs.Known.{Known};

    ghost Value = { Known };

    ghost view = { λ d. record { faults = d.faults; failed = d.has_failed; access = d.access; a_synced = d.a.is_synced; b_synced = d.b.is_synced } };
}

impl<'a, R: Files<File = File> + AllocGlobal> FileDisk<'a, R> {
    /// It keeps the runtime that `main` lends, opens no file yet, and has no faults so far.
    pub fn new(rt: &'a R, a: String, b: String, access: Access) -> FileDisk<'a, R>
        ensures { result ≡ record { faults = 0; failed = false; access = access; a_synced = false; b_synced = false } }
    {
        FileDisk {
            rt,
            access,
            a: SlotFile::new(rt.alloc(), a),
            b: SlotFile::new(rt.alloc(), b),
            is_open: false,
            has_failed: false,
            faults: 0,
        }
    }

    /// Opens both files at the first call. A disk that has failed fails.
    fn ready(&mut self) -> io::Result<()>
        ensures same { self.new ≡ self.old }
        ensures alive { OnOk result (self.old.failed ≡ false) }
    {
        if self.has_failed {
            return Err(io::Error::from(io::ErrorKind::Other));
        }
        if !self.is_open {
            open_both(self.rt, self.access, &mut self.a, &mut self.b)?;
            self.is_open = true;
        }
        Ok(())
    }

    /// Counts a fault, after which each call fails.
    fn counted<T: Drop>(&mut self, outcome: io::Result<T>) -> Result<T, Failed>
        ensures cause { HasCause self.old.faults self.new.faults result }
        ensures value { IfOk result (λ value. outcome ≡ Ok value) }
        ensures refused { OnErr result (IsErr outcome) }
        ensures err { OnErr result (self.new ≡ record self.old { faults = self.new.faults; failed = true }) }
        ensures ok { OnOk result (self.new ≡ self.old) }
    {
        match outcome {
            Ok(value) => Ok(value),
            Err(_) => {
                self.faults = self.faults.saturating_add(1);
                self.has_failed = true;
                Err(Failed)
            }
        }
    }

    fn try_size(&mut self, slot: Slot) -> io::Result<u64>
        ensures same { self.new ≡ self.old }
        ensures alive { OnOk result (self.old.failed ≡ false) }
    {
        self.ready()?;
        match slot {
            Slot::A => self.a.size(),
            Slot::B => self.b.size(),
        }
    }

    fn try_read(&mut self, slot: Slot, at: u64, buf: &mut [u8]) -> io::Result<usize>
        ensures bound { IfOk result (λ n. n ≤ length buf.new) }
        ensures same { self.new ≡ self.old }
        ensures alive { OnOk result (self.old.failed ≡ false) }
    {
        self.ready()?;
        match slot {
            Slot::A => self.a.read(at, buf),
            Slot::B => self.b.read(at, buf),
        }
    }

    fn try_write(&mut self, slot: Slot, at: u64, bytes: &[u8]) -> io::Result<()>
        ensures ok { OnOk result (self.new ≡ unsynced self.old slot) }
        ensures alive { OnOk result (self.old.failed ≡ false) }
        ensures looks { self.old.access ≡ Look → IsErr result }
        ensures err { OnErr result ((self.new ≡ self.old) ⊎ (self.new ≡ unsynced self.old slot)) }
    {
        if self.access == Access::Look {
            return Err(io::Error::from(io::ErrorKind::PermissionDenied));
        }
        self.ready()?;
        match slot {
            Slot::A => self.a.write(at, bytes),
            Slot::B => self.b.write(at, bytes),
        }
    }

    fn try_sync(&mut self) -> io::Result<()>
        ensures both { OnOk result ((slot : SlotOf) → is_synced self.new slot ≡ true) }
        ensures rises { OnErr result ((slot : SlotOf) → is_synced self.old slot ≡ true
            → is_synced self.new slot ≡ true) }
        ensures same { self.new ≡ record self.old { a_synced = self.new.a_synced; b_synced = self.new.b_synced } }
        ensures alive { OnOk result (self.old.failed ≡ false) }
    {
        self.ready()?;
        self.a.sync(self.rt)?;
        self.b.sync(self.rt)
    }

    fn size_now(&mut self, slot: Slot) -> Result<u64, Failed>
        ensures goes { Goes self.old self.new result }
        ensures synced { SameSyncs self.old self.new }
    {
        let outcome = self.try_size(slot);
        self.counted(outcome)
    }

    fn read_now(&mut self, slot: Slot, at: u64, buf: &mut [u8]) -> Result<usize, Failed>
        ensures bound { IfOk result (λ n. n ≤ length buf.new) }
        ensures goes { Goes self.old self.new result }
        ensures synced { SameSyncs self.old self.new }
    {
        let outcome = self.try_read(slot, at, buf);
        self.counted(outcome)
    }

    /// Writes to one file, which needs a sync from then on. Where the disk only looks, it is a
    /// fault.
    fn write_now(&mut self, slot: Slot, at: u64, bytes: &[u8]) -> Result<(), Failed>
        ensures goes { Goes self.old self.new result }
        ensures ok { OnOk result (self.new ≡ unsynced self.old slot) }
        ensures looks { self.old.access ≡ Look → IsErr result }
    {
        let outcome = self.try_write(slot, at, bytes);
        self.counted(outcome)
    }

    /// Syncs each file that was written since its last successful sync.
    fn sync_now(&mut self) -> Result<(), Failed>
        ensures goes { Goes self.old self.new result }
        ensures both { OnOk result ((slot : SlotOf) → is_synced self.new slot ≡ true) }
        ensures rises { OnErr result ((slot : SlotOf) → is_synced self.old slot ≡ true
            → is_synced self.new slot ≡ true) }
    {
        let outcome = self.try_sync();
        self.counted(outcome)
    }
}

impl<'a, R: Files<File = File> + AllocGlobal> Disk for FileDisk<'a, R> {
    ghost tells = { ⊥ };

    ghost seen = { λ _. record { a = []; b = [] } };

    ghost images = { λ _ _. ⊥ };

    ghost moment = { λ _. 0 };

    ghost left_since = { λ _ _ _. ⊥ };

    ghost faults = { λ known. known.faults };

    ghost honest = { λ _ none. absurd none };

    ghost counts_now = { λ _ _ _ _ none. none };

    ghost only_now = { λ _ _ none. none };

    fn size(&mut self, slot: Slot) -> Result<u64, Failed> {
        self.size_now(slot)
    }

    fn read_at(&mut self, slot: Slot, at: u64, buf: &mut [u8]) -> Result<usize, Failed> {
        self.read_now(slot, at, buf)
    }

    fn write_at(&mut self, slot: Slot, at: u64, bytes: &[u8]) -> Result<(), Failed> {
        self.write_now(slot, at, bytes)
    }

    fn sync(&mut self) -> Result<(), Failed> {
        self.sync_now()
    }
}
