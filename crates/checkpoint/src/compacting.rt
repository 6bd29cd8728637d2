//! The live part of a store, moved to the other slot.
ghost use Rattle.std.specs.Prelude.{◌≡◌, ◌+◌, ◌<◌, ◌^◌, ◌↔◌, length, false, Err, IfOk, IsTrue, OnOk, All};
ghost use Rattle.flow_disk.specs.Images.{bytes_in, opposite};
ghost use Rattle.flow_disk.specs.Moments.{LeavesOnly, Only};
ghost use Rattle.txn_log.specs.Records.{IsPayload, reach};
ghost use Rattle.txn_log.specs.Standing.{IsAt, StandsOn};
ghost use Rattle.txn_log.specs.Steps.{IsOurs, Stands};
ghost use Rattle.txn_log.specs.Stored.{Good, InRange, Unmade, slot_state};
ghost use Rattle.checkpoint.specs.Compacting.{IsCompacted, MayBeCompacted, StaysPut, Turns};
ghost use Rattle.checkpoint.specs.Stops.{IfNoMemory, IsMoveCause};
ghost use Rattle.checkpoint.specs.Writing.{IsWritten};
ghost use Rattle.checkpoint.specs.declared.stops.MoveStop.TheVariants.{StoreFault as Fault};

use crate::payloads::Payloads;
use crate::stops::MoveStop;
use crate::writing::{Written, write_body};
use flow_disk::{Disk, Slot};
use txn_log::{Header, Log, open_body, other_slot, shut};

/// Writes a new generation into a slot. Where there is no memory for a record, the slot is left without a store.
fn write_generation<D: Disk, P: Payloads>(
    disk: &mut D,
    slot: Slot,
    header: &Header,
    kept: &mut P,
) -> Result<Written, MoveStop>
    requires count { length (P.left kept.old) < 2 ^ 32 }
    requires kept { All IsPayload (P.left kept.old) }
    requires range { InRange header.now }
    requires ours { D.tells → IsOurs (slot_state (bytes_in (D.seen disk.old) slot)) }
    ensures written { IfOk result (IsWritten (P.left kept.old)) }
    ensures made { OnOk result (D.tells
        → Stands slot (Good header.now (P.left kept.old) (reach 42 (P.left kept.old)))
        (bytes_in (D.seen disk.old) (opposite slot)) (D.seen disk.new)) }
    ensures durable { OnOk result (Only (D.seen disk.new) (D.images disk.new)) }
    ensures settled { IfNoMemory result (Only (D.seen disk.new) (D.images disk.new)) }
    ensures unmade { D.tells → Only (D.seen disk.old) (D.images disk.old) → IfNoMemory result
        (Stands slot Unmade (bytes_in (D.seen disk.old) (opposite slot)) (D.seen disk.new)) }
    ensures any_moment { D.tells → Only (D.seen disk.old) (D.images disk.old)
        → LeavesOnly D.moment D.left_since disk.old disk.new
        (Turns slot (slot_state (bytes_in (D.seen disk.old) slot))
        (Good header.now (P.left kept.old) (reach 42 (P.left kept.old)))
        (bytes_in (D.seen disk.old) (opposite slot))) }
    ensures cause { IsMoveCause (D.faults disk.old) (D.faults disk.new) result }
{
    let from = shut(disk, slot)?;
    let written = write_body(disk, slot, from, header, kept)?;
    open_body(disk, slot, header)?;
    Ok(written)
}

/// Moves a store to the other slot of the disk, with this header and these records alone.
///
/// At every moment of the call a crash leaves the records from before, or the kept ones under the
/// new header. At Ok it leaves the latter, and the log stands on the other slot. `StoreFault` comes
/// exactly where the disk's count of faults rose; then the log has failed and isn't used. `NoMemory`
/// comes where a payload couldn't be made; then the store stands where it stood, and the log goes on.
pub fn compact<D: Disk, P: Payloads>(
    log: &mut Log,
    disk: &mut D,
    header: &Header,
    kept: &mut P,
) -> Result<(), MoveStop>
    requires count { length (P.left kept.old) < 2 ^ 32 }
    requires kept { All IsPayload (P.left kept.old) }
    requires alive { log.old.failed ≡ false }
    requires range { InRange header.now }
    requires next { header.now.generation ≡ log.old.generation + 1 }
    requires stands { D.tells → StandsOn log.old (D.seen disk.old) }
    ensures stands { OnOk result (D.tells → StandsOn log.new (D.seen disk.new)) }
    ensures compacted { OnOk result (D.tells → IsCompacted (opposite log.old.slot) header.now (P.left kept.old)
        (D.seen disk.new)) }
    ensures durable { OnOk result (Only (D.seen disk.new) (D.images disk.new)) }
    ensures stays { D.tells → Only (D.seen disk.old) (D.images disk.old)
        → IfNoMemory result (StaysPut D.seen D.images log.old log.new disk.old disk.new) }
    ensures any_moment { D.tells → Only (D.seen disk.old) (D.images disk.old)
        → LeavesOnly D.moment D.left_since disk.old disk.new
        (MayBeCompacted (opposite log.old.slot) header.now (P.left kept.old) (D.seen disk.old)) }
    ensures read { D.tells → Only (D.seen disk.old) (D.images disk.old)
        → MayBeCompacted (opposite log.old.slot) header.now (P.left kept.old) (D.seen disk.old) (D.seen disk.new) }
    ensures cause { IsMoveCause (D.faults disk.old) (D.faults disk.new) result }
    ensures failed { IsTrue log.new.failed ↔ (result ≡ Err Fault) }
    ensures log { OnOk result (IsAt (opposite log.old.slot) header.now.generation (length (P.left kept.old))
        (reach 42 (P.left kept.old)) log.new) }
{
    match write_generation(disk, other_slot(log.slot()), header, kept) {
        Ok(written) => {
            log.take_over(disk, header, written.records, written.end);
            Ok(())
        }
        Err(MoveStop::NoMemory) => Err(MoveStop::NoMemory),
        Err(MoveStop::StoreFault) => {
            log.fail();
            Err(MoveStop::StoreFault)
        }
    }
}
