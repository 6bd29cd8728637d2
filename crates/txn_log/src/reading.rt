//! The bytes of a slot, read whole.
ghost use Rattle.std.specs.Prelude.{◌≡◌, ◌<◌, length, IfOk, IfErr, vec_len};
ghost use Rattle.flow_disk.specs.Images.{bytes_in};
ghost use Rattle.flow_disk.specs.Moments.{Within, Elapses};
ghost use Rattle.txn_log.specs.Causes.{IsCause, IsOutside};

use crate::stops::LogStop;
use flow_disk::{Disk, Slot};
use std::alloc::{AllocError, Global};

/// How many bytes are read at once.
const BLOCK: usize = 65536;

/// Room for the bytes that are read at once.
fn new_block(alloc: Global) -> Result<Vec<u8>, AllocError>
    ensures { IfOk result (λ block. 0 < vec_len block) }
{
    vec![in alloc; 0; BLOCK]
}

/// All bytes of a slot.
pub fn read_slot<D: Disk>(alloc: Global, disk: &mut D, slot: Slot) -> Result<Vec<u8>, LogStop>
    ensures outside { IfErr result IsOutside }
    ensures bytes { IfOk result (λ v. D.tells → v.items ≡ bytes_in (D.seen disk.old) slot) }
    ensures seen { D.seen disk.new ≡ D.seen disk.old }
    ensures crash { Within (D.images disk.old) (D.images disk.new) }
    ensures time { Elapses (D.moment disk.old) (D.moment disk.new) (D.left_since disk.old) (D.left_since disk.new)
        (D.images disk.old) }
    ensures cause { IsCause (D.faults disk.old) (D.faults disk.new) result }
{
    let mut block = new_block(alloc)?;
    read_by(alloc, disk, slot, &mut block)
}

/// All bytes of a slot, read by way of a block.
fn read_by<D: Disk>(
    alloc: Global,
    disk: &mut D,
    slot: Slot,
    block: &mut [u8],
) -> Result<Vec<u8>, LogStop>
    requires { 0 < length block.old }
    ensures outside { IfErr result IsOutside }
    ensures bytes { IfOk result (λ v. D.tells → v.items ≡ bytes_in (D.seen disk.old) slot) }
    ensures seen { D.seen disk.new ≡ D.seen disk.old }
    ensures crash { Within (D.images disk.old) (D.images disk.new) }
    ensures time { Elapses (D.moment disk.old) (D.moment disk.new) (D.left_since disk.old) (D.left_since disk.new)
        (D.images disk.old) }
    ensures cause { IsCause (D.faults disk.old) (D.faults disk.new) result }
{
    let mut bytes = Vec::new(alloc);
    'blocks_left: loop {
        let count = disk.read_at(slot, bytes.len() as u64, block)?;
        if count == 0 {
            return Ok(bytes);
        }
        bytes.extend_from_slice(&block[..count])?;
    }
}
