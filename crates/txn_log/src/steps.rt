//! The steps in which a slot is written, of a few device calls each.
ghost use Rattle.std.specs.Prelude.{◌≢◌, MatchOption, IfOk, slice_index, ◌≡◌, ◌⊎◌, ℕ, ◌+◌, ◌<◌, ◌≤◌, ◌^◌, List, [], ◌∷◌, ◌++◌, length, take, OnOk};
ghost use Rattle.flow_disk.specs.Causes.{HasCause};
ghost use Rattle.flow_disk.specs.Images.{bytes_in, put_in, opposite, spliced};
ghost use Rattle.flow_disk.specs.Moments.{Only, LeavesOnly, Within};
ghost use Rattle.txn_log.specs.Steps.{Begins, IsStaged, record_bytes, GateDiffers, WithOrWithout, With, IsGoodTo, IsShut, HasBody, Stands, StandsOrUnmade, IsOurs};
ghost use Rattle.txn_log.specs.Stored.{Unmade, Good, InRange, slot_state};

use crate::batch::Batch;
use crate::header::{Header, header_bytes};
use flow_disk::{Disk, Failed, Slot};

/// The greatest length of a payload.
pub const MAX_PAYLOAD: usize = 2_097_152;

/// Writes a record behind a closed gate, and a closed gate behind it, and syncs.
pub fn stage<D: Disk>(disk: &mut D, slot: Slot, gate: u64, payload: &[u8]) -> Result<(), Failed>
    requires some { 0 < length payload.now }
    requires size { length payload.now ≤ 2097152 }
    requires place { gate < 2 ^ 60 }
    requires within { D.tells → gate < length (bytes_in (D.seen disk.old) slot) }
    ensures staged { OnOk result (D.tells
        → IsStaged slot gate (record_bytes payload.now) (D.seen disk.old) (D.seen disk.new)) }
    ensures durable { OnOk result (Only (D.seen disk.new) (D.images disk.new)) }
    ensures any_moment { D.tells → Only (D.seen disk.old) (D.images disk.old)
        → LeavesOnly D.moment D.left_since disk.old disk.new
        (Begins slot (take (gate + 1) (bytes_in (D.seen disk.old) slot)) (bytes_in (D.seen disk.old) (opposite slot))) }
    ensures cause { HasCause (D.faults disk.old) (D.faults disk.new) result }
{
    let size = (payload.len() as u32).to_be_bytes();
    disk.write_at(slot, gate + 1, &size)?;
    disk.write_at(slot, gate + 5, payload)?;
    disk.write_at(slot, gate + 5 + payload.len() as u64, &[0])?;
    disk.sync()
}

/// Opens a gate, and syncs.
pub fn open_gate<D: Disk>(disk: &mut D, slot: Slot, gate: u64) -> Result<(), Failed>
    requires within { D.tells → gate < length (bytes_in (D.seen disk.old) slot) }
    ensures opened { OnOk result (D.tells
        → D.seen disk.new ≡ put_in (D.seen disk.old) slot (spliced (bytes_in (D.seen disk.old) slot) gate (1 ∷ []))) }
    ensures durable { OnOk result (Only (D.seen disk.new) (D.images disk.new)) }
    ensures any_moment { D.tells → Only (D.seen disk.old) (D.images disk.old)
        → LeavesOnly D.moment D.left_since disk.old disk.new (GateDiffers slot gate (D.seen disk.old)) }
    ensures cause { HasCause (D.faults disk.old) (D.faults disk.new) result }
{
    disk.write_at(slot, gate, &[1])?;
    disk.sync()
}

/// Adds a record in place of a closed gate that ends the records of a slot.
pub fn add<D: Disk>(disk: &mut D, slot: Slot, gate: u64, payload: &[u8]) -> Result<(), Failed>
    requires some { 0 < length payload.now }
    requires size { length payload.now ≤ 2097152 }
    requires place { gate < 2 ^ 60 }
    requires stands { D.tells → IsGoodTo slot gate (D.seen disk.old) }
    ensures added { OnOk result (D.tells → With slot (payload.now ∷ []) (D.seen disk.old) (D.seen disk.new)) }
    ensures durable { OnOk result (Only (D.seen disk.new) (D.images disk.new)) }
    ensures any_moment { D.tells → Only (D.seen disk.old) (D.images disk.old)
        → LeavesOnly D.moment D.left_since disk.old disk.new (WithOrWithout slot (payload.now ∷ []) (D.seen disk.old)) }
    ensures cause { HasCause (D.faults disk.old) (D.faults disk.new) result }
{
    stage(disk, slot, gate, payload)?;
    open_gate(disk, slot, gate)
}

/// Writes records behind a closed gate but for the gate of the first one, and a closed gate behind them, and syncs.
pub fn stage_all<D: Disk>(disk: &mut D, slot: Slot, gate: u64, records: &[u8]) -> Result<(), Failed>
    requires some { 0 < length records.now }
    requires place { gate < 2 ^ 60 }
    requires within { D.tells → gate < length (bytes_in (D.seen disk.old) slot) }
    ensures staged { OnOk result (D.tells
        → IsStaged slot gate (records.now ++ 0 ∷ []) (D.seen disk.old) (D.seen disk.new)) }
    ensures durable { OnOk result (Only (D.seen disk.new) (D.images disk.new)) }
    ensures any_moment { D.tells → Only (D.seen disk.old) (D.images disk.old)
        → LeavesOnly D.moment D.left_since disk.old disk.new
        (Begins slot (take (gate + 1) (bytes_in (D.seen disk.old) slot)) (bytes_in (D.seen disk.old) (opposite slot))) }
    ensures cause { HasCause (D.faults disk.old) (D.faults disk.new) result }
{
    disk.write_at(slot, gate + 1, records)?;
    disk.write_at(slot, gate + 1 + records.len() as u64, &[0])?;
    disk.sync()
}

/// Adds the records of a batch in place of a closed gate that ends the records of a slot.
pub fn add_all<D: Disk>(disk: &mut D, slot: Slot, gate: u64, batch: &Batch) -> Result<(), Failed>
    requires some { 0 < length batch.now }
    requires place { gate < 2 ^ 60 }
    requires stands { D.tells → IsGoodTo slot gate (D.seen disk.old) }
    ensures added { OnOk result (D.tells → With slot batch.now (D.seen disk.old) (D.seen disk.new)) }
    ensures durable { OnOk result (Only (D.seen disk.new) (D.images disk.new)) }
    ensures any_moment { D.tells → Only (D.seen disk.old) (D.images disk.old)
        → LeavesOnly D.moment D.left_since disk.old disk.new (WithOrWithout slot batch.now (D.seen disk.old)) }
    ensures cause { HasCause (D.faults disk.old) (D.faults disk.new) result }
{
    stage_all(disk, slot, gate, batch.behind_first_gate())?;
    open_gate(disk, slot, gate)
}

/// Writes a header with no record behind a closed gate, from one of its first bytes on, and syncs.
pub fn write_body<D: Disk>(
    disk: &mut D,
    slot: Slot,
    from: u64,
    header: &Header,
) -> Result<(), Failed>
    requires from { (from ≡ 1) ⊎ (from ≡ 8) }
    requires shut { D.tells → IsShut slot from (D.seen disk.old) }
    ensures body { OnOk result (D.tells → HasBody slot header.now [] 42 (D.seen disk.new)) }
    ensures other { OnOk result (D.tells
        → bytes_in (D.seen disk.new) (opposite slot) ≡ bytes_in (D.seen disk.old) (opposite slot)) }
    ensures durable { OnOk result (Only (D.seen disk.new) (D.images disk.new)) }
    ensures any_moment { D.tells → Only (D.seen disk.old) (D.images disk.old)
        → LeavesOnly D.moment D.left_since disk.old disk.new
        (Stands slot Unmade (bytes_in (D.seen disk.old) (opposite slot))) }
    ensures cause { HasCause (D.faults disk.old) (D.faults disk.new) result }
{
    let text = header_bytes(header);
    disk.write_at(slot, from, &text[from as usize - 1..])?;
    disk.write_at(slot, 42, &[0])?;
    disk.sync()?;
    Ok(())
}

/// Opens the gate of a whole body, and syncs.
pub fn open_body<D: Disk>(disk: &mut D, slot: Slot, header: &Header) -> Result<(), Failed>
    requires range { InRange header.now }
    requires within { D.tells → 0 < length (bytes_in (D.seen disk.old) slot) }
    ensures made { OnOk result (D.tells → (ps : List (List ℕ)) (end : ℕ)
        → HasBody slot header.now ps end (D.seen disk.old)
        → Stands slot (Good header.now ps end) (bytes_in (D.seen disk.old) (opposite slot)) (D.seen disk.new)) }
    ensures durable { OnOk result (Only (D.seen disk.new) (D.images disk.new)) }
    ensures any_moment { D.tells → Only (D.seen disk.old) (D.images disk.old)
        → (ps : List (List ℕ)) (end : ℕ) → HasBody slot header.now ps end (D.seen disk.old)
        → LeavesOnly D.moment D.left_since disk.old disk.new
        (StandsOrUnmade slot (Good header.now ps end) (bytes_in (D.seen disk.old) (opposite slot))) }
    ensures cause { HasCause (D.faults disk.old) (D.faults disk.new) result }
{
    open_gate(disk, slot, 0)?;
    Ok(())
}

/// Makes a slot whose gate is closed into a slot of this header with no record.
pub fn fill<D: Disk>(disk: &mut D, slot: Slot, from: u64, header: &Header) -> Result<(), Failed>
    requires from { (from ≡ 1) ⊎ (from ≡ 8) }
    requires range { InRange header.now }
    requires shut { D.tells → IsShut slot from (D.seen disk.old) }
    ensures made { OnOk result (D.tells
        → Stands slot (Good header.now [] 42) (bytes_in (D.seen disk.old) (opposite slot)) (D.seen disk.new)) }
    ensures durable { OnOk result (Only (D.seen disk.new) (D.images disk.new)) }
    ensures any_moment { D.tells → Only (D.seen disk.old) (D.images disk.old)
        → LeavesOnly D.moment D.left_since disk.old disk.new
        (StandsOrUnmade slot (Good header.now [] 42) (bytes_in (D.seen disk.old) (opposite slot))) }
    ensures cause { HasCause (D.faults disk.old) (D.faults disk.new) result }
{
    write_body(disk, slot, from, header)?;
    open_body(disk, slot, header)?;
    Ok(())
}

// From which byte on a slot is written whose gate can be used as it stands.
fn as_it_stands(size: u64, first: u8) -> Option<u64>
    ensures { MatchOption result ((size ≤ 1) ⊎ (first ≡ 1))
        (λ from. (1 < size) × (((from ≡ 1) × (first ≡ 0)) ⊎ ((from ≡ 8) × (first ≢ 0) × (first ≢ 1)))) }
{
    if size <= 1 {
        return None;
    }
    match first {
        0 => Some(1),
        1 => None,
        _ => Some(8),
    }
}

/// Closes the gate of a slot by its size and first byte, or leaves it as it stands, and answers from which byte on the slot is to be written.
fn shut_gate<D: Disk>(disk: &mut D, slot: Slot, size: u64, first: u8) -> Result<u64, Failed>
    requires size { D.tells → size ≡ length (bytes_in (D.seen disk.old) slot) }
    requires first { D.tells → 1 < size → first ≡ slice_index (bytes_in (D.seen disk.old) slot) 0 }
    requires ours { D.tells → IsOurs (slot_state (bytes_in (D.seen disk.old) slot)) }
    ensures shut { IfOk result (λ from. D.tells → IsShut slot from (D.seen disk.new)) }
    ensures from { IfOk result (λ from. (from ≡ 1) ⊎ (from ≡ 8)) }
    ensures other { OnOk result (D.tells
        → bytes_in (D.seen disk.new) (opposite slot) ≡ bytes_in (D.seen disk.old) (opposite slot)) }
    ensures durable { OnOk result (Only (D.seen disk.old) (D.images disk.old)
        → Only (D.seen disk.new) (D.images disk.new)) }
    ensures any_moment { D.tells → Only (D.seen disk.old) (D.images disk.old)
        → LeavesOnly D.moment D.left_since disk.old disk.new
        (StandsOrUnmade slot (slot_state (bytes_in (D.seen disk.old) slot))
        (bytes_in (D.seen disk.old) (opposite slot))) }
    ensures cause { HasCause (D.faults disk.old) (D.faults disk.new) result }
{
    if let Some(from) = as_it_stands(size, first) {
        return Ok(from);
    }
    disk.write_at(slot, 0, &[0])?;
    disk.sync()?;
    Ok(1)
}

/// The other slot.
pub fn other_slot(slot: Slot) -> Slot
    ensures { result ≡ opposite slot }
{
    match slot {
        Slot::A => Slot::B,
        Slot::B => Slot::A,
    }
}

/// The size of a slot, and its first byte where it has more than one.
fn front<D: Disk>(disk: &mut D, slot: Slot) -> Result<(u64, u8), Failed>
    ensures size { IfOk result (λ front. D.tells → front.0 ≡ length (bytes_in (D.seen disk.old) slot)) }
    ensures first { IfOk result (λ front. D.tells → 1 < front.0
        → front.1 ≡ slice_index (bytes_in (D.seen disk.old) slot) 0) }
    ensures seen { D.seen disk.new ≡ D.seen disk.old }
    ensures crash { Within (D.images disk.old) (D.images disk.new) }
    ensures any_moment { LeavesOnly D.moment D.left_since disk.old disk.new (D.images disk.old) }
    ensures cause { HasCause (D.faults disk.old) (D.faults disk.new) result }
{
    let size = disk.size(slot)?;
    let mut first = [0];
    if size <= 1 {
        return Ok((size, 0));
    }
    disk.read_at(slot, 0, &mut first)?;
    Ok((size, first[0]))
}

/// Closes the gate of a slot that is unmade or good, or leaves it as it stands where it can be
/// used so, and answers from which byte on the slot is to be written. Call it where a sync was the
/// last that was done to the slot.
pub fn shut<D: Disk>(disk: &mut D, slot: Slot) -> Result<u64, Failed>
    requires ours { D.tells → IsOurs (slot_state (bytes_in (D.seen disk.old) slot)) }
    ensures shut { IfOk result (λ from. D.tells → IsShut slot from (D.seen disk.new)) }
    ensures from { IfOk result (λ from. (from ≡ 1) ⊎ (from ≡ 8)) }
    ensures other { OnOk result (D.tells
        → bytes_in (D.seen disk.new) (opposite slot) ≡ bytes_in (D.seen disk.old) (opposite slot)) }
    ensures durable { OnOk result (Only (D.seen disk.old) (D.images disk.old)
        → Only (D.seen disk.new) (D.images disk.new)) }
    ensures any_moment { D.tells → Only (D.seen disk.old) (D.images disk.old)
        → LeavesOnly D.moment D.left_since disk.old disk.new
        (StandsOrUnmade slot (slot_state (bytes_in (D.seen disk.old) slot))
        (bytes_in (D.seen disk.old) (opposite slot))) }
    ensures cause { HasCause (D.faults disk.old) (D.faults disk.new) result }
{
    let (size, first) = front(disk, slot)?;
    let from = shut_gate(disk, slot, size, first)?;
    Ok(from)
}
