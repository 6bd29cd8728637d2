//! The body of a slot behind its closed gate: its header, its records and the gate that ends them.
ghost use Rattle.std.specs.Prelude.{◌≡◌, ◌⊎◌, ◌-◌, ◌<◌, ◌≤◌, ◌^◌, drop, length, IfOk, OnOk, All};
ghost use Rattle.flow_disk.specs.Causes.{HasCause};
ghost use Rattle.flow_disk.specs.Images.{bytes_in, opposite};
ghost use Rattle.flow_disk.specs.Moments.{LeavesOnly, Only};
ghost use Rattle.txn_log.specs.Records.{IsPayload, reach};
ghost use Rattle.txn_log.specs.Steps.{HasBody, IsShut, Stands};
ghost use Rattle.txn_log.specs.Stored.{Unmade, header_text};
ghost use Rattle.checkpoint.specs.Stops.{IsMoveCause, IfNoMemory};
ghost use Rattle.checkpoint.specs.Writing.{Adds, IsWritten, KeepsShut, record_text, spelled};

use crate::payloads::Payloads;
use crate::stops::MoveStop;
use flow_disk::{Disk, Failed, Slot};
use txn_log::{Header, header_bytes};

/// Writes the header, from one of its first bytes on.
fn write_header<D: Disk>(disk: &mut D, slot: Slot, from: u64, header: &Header) -> Result<(), Failed>
    requires from { (from ≡ 1) ⊎ (from ≡ 8) }
    requires within { D.tells → from ≤ length (bytes_in (D.seen disk.old) slot) }
    ensures adds { OnOk result (D.tells → Adds slot from (drop (from - 1) (header_text header.now)) (D.seen disk.old)
        (D.seen disk.new)) }
    ensures keeps { KeepsShut D.moment D.left_since D.images slot from disk.old disk.new }
    ensures cause { HasCause (D.faults disk.old) (D.faults disk.new) result }
{
    let text = header_bytes(header);
    disk.write_at(slot, from, &text[from as usize - 1..])?;
    Ok(())
}

/// Writes a record with an open gate.
fn write_record<D: Disk>(disk: &mut D, slot: Slot, at: u64, payload: &[u8]) -> Result<(), Failed>
    requires payload { IsPayload payload.now }
    requires place { at < 2 ^ 60 }
    requires within { D.tells → at ≤ length (bytes_in (D.seen disk.old) slot) }
    ensures adds { OnOk result (D.tells → Adds slot at (record_text payload.now) (D.seen disk.old) (D.seen disk.new)) }
    ensures keeps { KeepsShut D.moment D.left_since D.images slot at disk.old disk.new }
    ensures cause { HasCause (D.faults disk.old) (D.faults disk.new) result }
{
    let [a, b, c, d] = (payload.len() as u32).to_be_bytes();
    disk.write_at(slot, at, &[1, a, b, c, d])?;
    disk.write_at(slot, at + 5, payload)?;
    Ok(())
}

/// What stands in a slot behind its header: so many records, and the place behind them.
#[derive(Clone, Copy, Debug, PartialEq, Eq)]
pub struct Written {
    pub records: u64,
    pub end: u64,
}

/// Writes records with open gates. `NoMemory` comes where there was none for a record; then those before it are
/// written.
fn write_records<D: Disk, P: Payloads>(
    disk: &mut D,
    slot: Slot,
    kept: &mut P,
) -> Result<Written, MoveStop>
    requires count { length (P.left kept.old) < 2 ^ 32 }
    requires kept { All IsPayload (P.left kept.old) }
    requires within { D.tells → 42 ≤ length (bytes_in (D.seen disk.old) slot) }
    ensures written { IfOk result (IsWritten (P.left kept.old)) }
    ensures within { IfOk result (λ made. D.tells → made.end ≤ length (bytes_in (D.seen disk.new) slot)) }
    ensures adds { OnOk result (D.tells → Adds slot 42 (spelled (P.left kept.old)) (D.seen disk.old)
        (D.seen disk.new)) }
    ensures keeps { KeepsShut D.moment D.left_since D.images slot 42 disk.old disk.new }
    ensures cause { IsMoveCause (D.faults disk.old) (D.faults disk.new) result }
{
    let mut records = 0;
    let mut end = 42;
    'payloads: while let Some(payload) = kept.next()? {
        write_record(disk, slot, end, &payload)?;
        end += 5 + payload.len() as u64;
        records += 1;
    }
    Ok(Written { records, end })
}

/// Writes records as [`write_records`] does, and syncs where there was no memory for one, so that a crash leaves the
/// closed gate that a read gives.
fn write_or_settle<D: Disk, P: Payloads>(
    disk: &mut D,
    slot: Slot,
    kept: &mut P,
) -> Result<Written, MoveStop>
    requires count { length (P.left kept.old) < 2 ^ 32 }
    requires kept { All IsPayload (P.left kept.old) }
    requires within { D.tells → 42 ≤ length (bytes_in (D.seen disk.old) slot) }
    ensures written { IfOk result (IsWritten (P.left kept.old)) }
    ensures within { IfOk result (λ made. D.tells → made.end ≤ length (bytes_in (D.seen disk.new) slot)) }
    ensures adds { OnOk result (D.tells → Adds slot 42 (spelled (P.left kept.old)) (D.seen disk.old)
        (D.seen disk.new)) }
    ensures keeps { KeepsShut D.moment D.left_since D.images slot 42 disk.old disk.new }
    ensures settled { IfNoMemory result (Only (D.seen disk.new) (D.images disk.new)) }
    ensures cause { IsMoveCause (D.faults disk.old) (D.faults disk.new) result }
{
    match write_records(disk, slot, kept) {
        Ok(written) => Ok(written),
        Err(MoveStop::StoreFault) => Err(MoveStop::StoreFault),
        Err(MoveStop::NoMemory) => {
            disk.sync()?;
            Err(MoveStop::NoMemory)
        }
    }
}

/// Writes the header and the records behind a closed gate, and a closed gate behind them, and
/// syncs. Where there is no memory for a record, the gate of the slot stays closed.
pub fn write_body<D: Disk, P: Payloads>(
    disk: &mut D,
    slot: Slot,
    from: u64,
    header: &Header,
    kept: &mut P,
) -> Result<Written, MoveStop>
    requires from { (from ≡ 1) ⊎ (from ≡ 8) }
    requires count { length (P.left kept.old) < 2 ^ 32 }
    requires kept { All IsPayload (P.left kept.old) }
    requires shut { D.tells → IsShut slot from (D.seen disk.old) }
    ensures written { IfOk result (IsWritten (P.left kept.old)) }
    ensures body { OnOk result (D.tells → HasBody slot header.now (P.left kept.old) (reach 42 (P.left kept.old))
        (D.seen disk.new)) }
    ensures other { OnOk result (D.tells → bytes_in (D.seen disk.new) (opposite slot)
        ≡ bytes_in (D.seen disk.old) (opposite slot)) }
    ensures durable { OnOk result (Only (D.seen disk.new) (D.images disk.new)) }
    ensures settled { IfNoMemory result (Only (D.seen disk.new) (D.images disk.new)) }
    ensures any_moment { D.tells → Only (D.seen disk.old) (D.images disk.old)
        → LeavesOnly D.moment D.left_since disk.old disk.new
        (Stands slot Unmade (bytes_in (D.seen disk.old) (opposite slot))) }
    ensures cause { IsMoveCause (D.faults disk.old) (D.faults disk.new) result }
{
    write_header(disk, slot, from, header)?;
    let written = write_or_settle(disk, slot, kept)?;
    disk.write_at(slot, written.end, &[0])?;
    disk.sync()?;
    Ok(written)
}
