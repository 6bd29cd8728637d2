//! A store opened and made.
ghost use Rattle.std.specs.Prelude.{◌≡◌, ◌<◌, ◌≤◌, [], OnOk, IfOk, IfErr, Ok, Err, length, ◌^◌, true};
ghost use Rattle.flow_disk.specs.Causes.{HasCause};
ghost use Rattle.flow_disk.specs.Images.{bytes_in};
ghost use Rattle.flow_disk.specs.Moments.{LeavesOnly, Only, Within};
ghost use Rattle.txn_log.specs.Causes.{IsCause, IsOutside, UnlessFault};
ghost use Rattle.txn_log.specs.Opening.{HasRecords, IsChosen, IsMakeRefusal, IsOpened, IsRefusal, IsStanding, MayBeMade, MayBeNew, first_header};
ghost use Rattle.txn_log.specs.Outlines.{outline_of};
ghost use Rattle.txn_log.specs.Standing.{IsAt, StandsOn};
ghost use Rattle.txn_log.specs.Steps.{Stands, StandsOrUnmade};
ghost use Rattle.txn_log.specs.Stored.{Good, InRange, IsGoodState, Unmade, slot_state};
ghost use Rattle.txn_log.specs.Stores.{Counts, NoStore, store_of};
ghost use Rattle.txn_log.specs.declared.stops.LogStop.TheVariants.{StoreFault};

use crate::choosing::choose_by;
use crate::chosen::Chosen;
use crate::header::Header;
use crate::judged::Body;
use crate::judging::{open_generation, outline};
use crate::log::Log;
use crate::outline::Outline;
use crate::reading::read_slot;
use crate::slot_records::SlotRecords;
use crate::steps::{fill, other_slot, shut};
use crate::stops::LogStop;
use flow_disk::{Disk, Failed, Slot};
use std::alloc::Global;

/// A store that is opened: its log, the header of the slot that counts, and its records in order.
#[derive(Drop)]
pub struct Opened {
    pub log: Log,
    pub header: Header,
    pub records: SlotRecords,
}

/// How the front of a slot ranks: by its generation where its gate is open, else last.
fn rank<D: Disk>(disk: &mut D, slot: Slot) -> Result<u64, Failed>
    ensures seen { D.seen disk.new ≡ D.seen disk.old }
    ensures crash { Within (D.images disk.old) (D.images disk.new) }
    ensures any_moment { LeavesOnly D.moment D.left_since disk.old disk.new (D.images disk.old) }
    ensures cause { HasCause (D.faults disk.old) (D.faults disk.new) result }
{
    let mut head = [0; 42];
    disk.read_at(slot, 0, &mut head)?;
    Ok(open_generation(&head))
}

/// The slot that counts, if one does, by the fronts of both. It says only which one is to be read
/// last, so that its bytes are still there when its records are wanted.
fn likely<D: Disk>(disk: &mut D) -> Result<Slot, Failed>
    ensures seen { D.seen disk.new ≡ D.seen disk.old }
    ensures crash { Within (D.images disk.old) (D.images disk.new) }
    ensures any_moment { LeavesOnly D.moment D.left_since disk.old disk.new (D.images disk.old) }
    ensures cause { HasCause (D.faults disk.old) (D.faults disk.new) result }
{
    let a = rank(disk, Slot::A)?;
    let b = rank(disk, Slot::B)?;
    Ok(if b > a { Slot::B } else { Slot::A })
}

/// The outline of a slot, as read; the bytes that were read are dropped.
fn outline_slot<D: Disk>(alloc: Global, disk: &mut D, slot: Slot) -> Result<Outline, LogStop>
    ensures outside { IfErr result IsOutside }
    ensures outline { IfOk result (λ outline. D.tells
        → outline ≡ outline_of (slot_state (bytes_in (D.seen disk.old) slot))) }
    ensures seen { D.seen disk.new ≡ D.seen disk.old }
    ensures crash { Within (D.images disk.old) (D.images disk.new) }
    ensures any_moment { LeavesOnly D.moment D.left_since disk.old disk.new (D.images disk.old) }
    ensures cause { IsCause (D.faults disk.old) (D.faults disk.new) result }
{
    let bytes = read_slot(alloc, disk, slot)?;
    Ok(outline(&bytes))
}

/// What stands in a slot that is good by its bytes. Of a disk that doesn't tell, they may have
/// changed since it was judged.
fn body_of(slot: Slot, bytes: Vec<u8>) -> Result<Body, LogStop>
    requires { length bytes.items < 2 ^ 63 }
    ensures good { IfErr result (λ stop. IsGoodState (slot_state bytes.items) → ⊥) }
    ensures inside { IfErr result (λ stop. stop ≡ StoreFault → ⊥) }
    ensures body { IfOk result (λ body. slot_state bytes.items ≡ Good body.header body.records body.end) }
{
    match outline(&bytes) {
        Outline::Good(frame) => Ok(Body {
            header: frame.header,
            records: SlotRecords::new(bytes, frame.records as usize),
            end: frame.end,
        }),
        Outline::Damaged(place) => Err(LogStop::Damaged(slot, place)),
        Outline::Foreign => Err(LogStop::Foreign(slot)),
        Outline::Unmade => Err(LogStop::Unmade),
    }
}

/// Whether both are the same slot.
fn is_same(a: Slot, b: Slot) -> bool
    ensures { result ≡ true → a ≡ b }
{
    a == b
}

/// What stands in a good slot, by these bytes of the slot `read`, or as read again if it is the
/// other one.
fn body_in<D: Disk>(
    alloc: Global,
    disk: &mut D,
    slot: Slot,
    read: Slot,
    bytes: Vec<u8>,
) -> Result<Body, LogStop>
    requires bytes { D.tells → bytes.items ≡ bytes_in (D.seen disk.old) read }
    requires good { D.tells → IsGoodState (slot_state (bytes_in (D.seen disk.old) slot)) }
    ensures outside { IfErr result (λ stop. D.tells → IsOutside stop) }
    ensures body { IfOk result (λ body. D.tells → slot_state (bytes_in (D.seen disk.old) slot)
        ≡ Good body.header body.records body.end) }
    ensures seen { D.seen disk.new ≡ D.seen disk.old }
    ensures crash { Within (D.images disk.old) (D.images disk.new) }
    ensures any_moment { LeavesOnly D.moment D.left_since disk.old disk.new (D.images disk.old) }
    ensures cause { IsCause (D.faults disk.old) (D.faults disk.new) result }
{
    if is_same(slot, read) {
        return body_of(slot, bytes);
    }
    drop(bytes);
    let again = read_slot(alloc, disk, slot)?;
    body_of(slot, again)
}

/// The slot that counts, as read: both are judged before any record is kept.
fn chosen<D: Disk>(alloc: Global, disk: &mut D) -> Result<Chosen, LogStop>
    ensures chosen { IfOk result (λ chosen. D.tells → IsChosen chosen (store_of (D.seen disk.old))) }
    ensures refused { IfErr result (λ stop. D.tells → IsRefusal stop (store_of (D.seen disk.old))) }
    ensures seen { D.seen disk.new ≡ D.seen disk.old }
    ensures crash { Within (D.images disk.old) (D.images disk.new) }
    ensures any_moment { LeavesOnly D.moment D.left_since disk.old disk.new (D.images disk.old) }
    ensures cause { IsCause (D.faults disk.old) (D.faults disk.new) result }
{
    let last = likely(disk)?;
    let beside = outline_slot(alloc, disk, other_slot(last))?;
    let bytes = read_slot(alloc, disk, last)?;
    let slot = choose_by(last, outline(&bytes), beside)?;
    let body = body_in(alloc, disk, slot, last, bytes)?;
    Ok(Chosen { slot, body })
}

/// How the store stands before one is made.
fn standing<D: Disk>(alloc: Global, disk: &mut D) -> LogStop
    ensures stands { D.tells → IsStanding result (store_of (D.seen disk.new)) }
    ensures seen { UnlessFault {T = Unit {0}} (Err result) (D.seen disk.new ≡ D.seen disk.old) }
    ensures durable { UnlessFault {T = Unit {0}} (Err result) (Only (D.seen disk.new) (D.images disk.new)) }
    ensures any_moment { LeavesOnly D.moment D.left_since disk.old disk.new (D.images disk.old) }
    ensures cause { IsCause {T = Unit {0}} (D.faults disk.old) (D.faults disk.new) (Err result) }
{
    match Log::reopen(alloc, disk) {
        Ok(_) => LogStop::Made,
        Err(stop) => stop,
    }
}

/// Makes slot A, which is unmade, into a store without records.
fn fill_a<D: Disk>(disk: &mut D, header: &Header) -> Result<(), Failed>
    requires range { InRange header.now }
    requires unmade { D.tells → slot_state (D.seen disk.old).a ≡ Unmade }
    ensures made { OnOk result (D.tells → Stands Slot.A (Good header.now [] 42) (D.seen disk.old).b (D.seen disk.new)) }
    ensures durable { OnOk result (Only (D.seen disk.new) (D.images disk.new)) }
    ensures any_moment { D.tells → Only (D.seen disk.old) (D.images disk.old)
        → LeavesOnly D.moment D.left_since disk.old disk.new
        (StandsOrUnmade Slot.A (Good header.now [] 42) (D.seen disk.old).b) }
    ensures cause { HasCause (D.faults disk.old) (D.faults disk.new) result }
{
    let from = shut(disk, Slot::A)?;
    fill(disk, Slot::A, from, header)?;
    Ok(())
}

/// Makes a store where there is none.
fn make_new<D: Disk>(disk: &mut D, queues: u8, limit: u64) -> Result<Log, LogStop>
    requires queues { (1 ≤ queues) × (queues ≤ 16) }
    requires limit { (1 ≤ limit) × (limit ≤ 10000000) }
    requires none { D.tells → store_of (D.seen disk.old) ≡ NoStore }
    ensures made { IfOk result (λ log. D.tells
        → store_of (D.seen disk.new) ≡ Counts Slot.A (first_header queues limit) [] 42) }
    ensures stands { IfOk result (λ log. D.tells → StandsOn log (D.seen disk.new)) }
    ensures log { IfOk result (IsAt Slot.A 1 0 42) }
    ensures only_fault { IfErr result (λ stop. stop ≡ StoreFault) }
    ensures durable { OnOk result (Only (D.seen disk.new) (D.images disk.new)) }
    ensures any_moment { D.tells → Only (D.seen disk.old) (D.images disk.old)
        → LeavesOnly D.moment D.left_since disk.old disk.new (MayBeNew queues limit) }
    ensures cause { IsCause (D.faults disk.old) (D.faults disk.new) result }
{
    let header = Header {
        generation: 1,
        queues,
        limit,
        transactions: 0,
        roots: 0,
    };
    fill_a(disk, &header)?;
    Ok(Log::on(Slot::A, 1, 0, 42))
}

impl Log {
    /// Opens a store that a crash may have left, after a sync, and answers the slot that counts.
    ///
    /// `Unmade`, `Foreign` and `Damaged` come exactly where both slots say so, `Made` never,
    /// `StoreFault` exactly where the disk's count of faults rose, and `NoMemory` for want of
    /// memory. The disk isn't written. Both slots are judged before any record is kept, and then
    /// those of the slot that counts are, of no other.
    pub fn reopen<D: Disk>(alloc: Global, disk: &mut D) -> Result<Opened, LogStop>
        ensures opened { IfOk result (λ opened. D.tells → IsOpened (D.seen disk.new) opened) }
        ensures stands { IfOk result (λ opened. D.tells → StandsOn opened.log (D.seen disk.new)) }
        ensures records { IfOk result HasRecords }
        ensures refused { IfErr result (λ stop. D.tells → IsRefusal stop (store_of (D.seen disk.new))) }
        ensures seen { UnlessFault result (D.seen disk.new ≡ D.seen disk.old) }
        ensures durable { UnlessFault result (Only (D.seen disk.new) (D.images disk.new)) }
        ensures any_moment { LeavesOnly D.moment D.left_since disk.old disk.new (D.images disk.old) }
        ensures cause { IsCause (D.faults disk.old) (D.faults disk.new) result }
    {
        disk.sync()?;
        let Chosen { slot, body } = chosen(alloc, disk)?;
        let records = body.records.len() as u64;
        let log = Log::on(slot, body.header.generation, records, body.end);
        Ok(Opened {
            log,
            header: body.header,
            records: body.records,
        })
    }

    /// Makes a store where both slots are unmade, after a sync.
    ///
    /// `Made` comes exactly where a slot counts, `Foreign` and `Damaged` where both slots say so,
    /// `Unmade` never, `StoreFault` exactly where the disk's count of faults rose, and `NoMemory`
    /// for want of memory. Where a store stands or the slots are damaged, the disk isn't written.
    pub fn make<D: Disk>(
        alloc: Global,
        disk: &mut D,
        queues: u8,
        limit: u64,
    ) -> Result<Log, LogStop>
        requires queues { (1 ≤ queues) × (queues ≤ 16) }
        requires limit { (1 ≤ limit) × (limit ≤ 10000000) }
        ensures stands { IfOk result (λ log. D.tells → StandsOn log (D.seen disk.new)) }
        ensures was { OnOk result (D.tells → store_of (D.seen disk.old) ≡ NoStore) }
        ensures made { IfOk result (λ log. D.tells
            → store_of (D.seen disk.new) ≡ Counts Slot.A (first_header queues limit) [] 42) }
        ensures log { IfOk result (IsAt Slot.A 1 0 42) }
        ensures refused { IfErr result (λ stop. D.tells → IsMakeRefusal stop (store_of (D.seen disk.old))) }
        ensures durable { OnOk result (Only (D.seen disk.new) (D.images disk.new)) }
        ensures any_moment { D.tells → Only (D.seen disk.old) (D.images disk.old)
            → LeavesOnly D.moment D.left_since disk.old disk.new (MayBeMade queues limit (D.seen disk.old)) }
        ensures cause { IsCause (D.faults disk.old) (D.faults disk.new) result }
    {
        match standing(alloc, disk) {
            LogStop::Unmade => make_new(disk, queues, limit),
            stop => Err(stop),
        }
    }
}
