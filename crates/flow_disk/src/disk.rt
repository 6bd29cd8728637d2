//! Two slots of bytes, as one device with one clock.
ghost use Rattle.std.specs.Prelude.{◌≡◌, ℕ, ◌<◌, ◌≤◌, length, IfOk, OnOk};
ghost use Rattle.flow_disk.specs.Causes.{HasCause};
ghost use Rattle.flow_disk.specs.Images.{Image, bytes_in, with_written, TornIn, Reads};
ghost use Rattle.flow_disk.specs.Moments.{Follows, Within, Only, Passes};

use thiserror::Error;

/// One of the two parts of a disk.
#[derive(Clone, Copy, Debug, PartialEq, Eq)]
pub enum Slot {
    A,
    B,
}

/// The disk failed, and counted it.
#[derive(Clone, Copy, Debug, PartialEq, Eq, Error)]
#[error("the disk failed")]
pub struct Failed;

/// Two slots of bytes, of which a crash may come at any moment, within a call too.
///
/// A disk may tell what its slots hold, what a crash may leave of them, and what it might have
/// left at the moments since a time. Of one that doesn't, only the bound of a read and the cause
/// of a fault are known. A call fails only where the count of faults rises.
pub trait Disk {
    /// Whether it tells what the slots hold.
    ghost tells: { Type 0 };

    /// What a read gives.
    ghost seen: { Self → Image };

    /// What a crash at this moment may leave.
    ghost images: { Self → Image → Type 0 };

    /// The moment, as a number that doesn't fall.
    ghost moment: { Self → ℕ };

    /// What a crash at some moment from that one on might have left, during a call or between two.
    ghost left_since: { Self → ℕ → Image → Type 0 };

    /// How often it has failed.
    ghost faults: { Self → ℕ };

    /// Gives the number of bytes in a slot.
    fn size(&mut self, slot: Slot) -> Result<u64, Failed>
        ensures bytes { IfOk result (λ n. tells → n ≡ length (bytes_in (seen self.old) slot)) }
        ensures seen { seen self.new ≡ seen self.old }
        ensures crash { Within (images self.old) (images self.new) }
        ensures time { Passes moment left_since images self.old self.new }
        ensures cause { HasCause (faults self.old) (faults self.new) result };

    /// Fills a front part of `buf` with the slot's bytes from this place on, and gives its length,
    /// which is 0 only where the place is at or behind the end, or `buf` is empty.
    fn read_at(&mut self, slot: Slot, at: u64, buf: &mut [u8]) -> Result<usize, Failed>
        ensures bound { IfOk result (λ n. n ≤ length buf.new) }
        ensures bytes { IfOk result (λ n. tells → Reads (bytes_in (seen self.old) slot) at n buf.new) }
        ensures seen { seen self.new ≡ seen self.old }
        ensures crash { Within (images self.old) (images self.new) }
        ensures time { Passes moment left_since images self.old self.new }
        ensures cause { HasCause (faults self.old) (faults self.new) result };

    /// Writes over what is there, and past the end. Until the next sync a crash may leave any bytes
    /// in the range, and after a fault a read may give any there.
    fn write_at(&mut self, slot: Slot, at: u64, bytes: &[u8]) -> Result<(), Failed>
        requires some { 0 < length bytes.now }
        requires no_gap { tells → at ≤ length (bytes_in (seen self.old) slot) }
        ensures written { OnOk result (tells → seen self.new ≡ with_written (seen self.old) slot at bytes.now) }
        ensures torn { tells → TornIn slot at (length bytes.now) (seen self.old) (seen self.new) }
        ensures crash { Follows (TornIn slot at (length bytes.now)) (images self.old) (images self.new) }
        ensures time { Passes moment left_since images self.old self.new }
        ensures cause { HasCause (faults self.old) (faults self.new) result };

    /// Makes both slots stable: after it a crash leaves what a read gives, and nothing else. A sync
    /// that failed makes nothing stable, and what a read gives after it is one of the images from
    /// before it.
    fn sync(&mut self) -> Result<(), Failed>
        ensures durable { OnOk result (Only (seen self.old) (images self.new)) }
        ensures seen { OnOk result (seen self.new ≡ seen self.old) }
        ensures crash { Within (images self.old) (images self.new) }
        ensures time { Passes moment left_since images self.old self.new }
        ensures cause { HasCause (faults self.old) (faults self.new) result };

    /// What a read gives is one of the images.
    ghost honest: { (disk : Self) → tells → images disk (seen disk) };

    /// This moment is one of those since an earlier one.
    ghost counts_now: { (disk : Self) (t : ℕ) (c : Image) → t ≤ moment disk → images disk c → left_since disk t c };

    /// Since this moment there is no other.
    ghost only_now: { (disk : Self) (c : Image) → left_since disk (moment disk) c → images disk c };
}
