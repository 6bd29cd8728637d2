//! The transactions of a store as a stream.
ghost use Rattle.std.specs.Prelude.{◌≡◌, ◌++◌, ◌⊎◌, ℕ, List, IfErr, MatchResult, OnOk};
ghost use Rattle.std.specs.Io.KnownBytes.{Appends, Keeps};
ghost use Rattle.flow_disk.specs.Moments.{Only};
ghost use Rattle.flow_session.specs.Runs.{KeepsStore};
ghost use Rattle.standby.specs.Endings.{PutEnd, ShipEnd, ShipDiskEnd};
ghost use Rattle.standby.specs.Streams.{frame_bytes, end_bytes, stream_bytes, PutsPart, IsUnderWay};
ghost use Rattle.flow_session.specs.Refusing.{IsUnopened as IsRefusedStore};
ghost use Rattle.standby.specs.Shipped.{last, Ships, ShipsOpened, IsUnopened};

use crate::frames::{Front, write_end, write_frame, write_front};
use crate::stops::ShipStop;
use flow_disk::Disk;
use flow_io::{Sink, put_all};
use flow_session::open;
use std::alloc::Global;
use txn_log::{Opened, RecordsLeft, SlotRecords};

/// The number of bytes that are put at once, and at most one frame more.
const BLOCK: usize = 65536;

/// Puts a piece.
fn put<K: Sink>(out: &mut K, piece: &[u8]) -> Result<(), ShipStop>
    ensures cause { MatchResult result (λ _. K.faults out.new ≡ K.faults out.old)
        (PutEnd (K.faults out.old) (K.faults out.new)) }
    ensures whole { OnOk result (Appends (K.held out.old) (K.held out.new) piece.now) }
    ensures part { IfErr result (λ _. PutsPart (K.held out.old) (K.held out.new) piece.now) }
{
    match put_all(out, piece) {
        Ok(()) => Ok(()),
        Err(_) => Err(ShipStop::WriteFault),
    }
}

/// Appends a frame to the piece, and puts that where it has a block.
fn put_frame<K: Sink>(out: &mut K, piece: &mut Vec<u8>, payload: &[u8]) -> Result<(), ShipStop>
    ensures cause { MatchResult result (λ _. K.faults out.new ≡ K.faults out.old)
        (PutEnd (K.faults out.old) (K.faults out.new)) }
    ensures under_way { OnOk result ((left : List ℕ)
        → IsUnderWay (K.held out.old) (K.held out.new) piece.new.items left
        (piece.old.items ++ frame_bytes payload.now ++ left)) }
    ensures part { IfErr result (λ _. PutsPart (K.held out.old) (K.held out.new)
        (piece.old.items ++ frame_bytes payload.now)) }
{
    write_frame(piece, payload)?;
    if piece.len() < BLOCK {
        return Ok(());
    }
    put(out, piece)?;
    piece.clear();
    Ok(())
}

/// Puts the last piece, with the end of the stream behind it.
fn put_end<K: Sink>(out: &mut K, piece: &mut Vec<u8>) -> Result<(), ShipStop>
    ensures cause { MatchResult result (λ _. K.faults out.new ≡ K.faults out.old)
        (PutEnd (K.faults out.old) (K.faults out.new)) }
    ensures whole { OnOk result (Appends (K.held out.old) (K.held out.new) (piece.old.items ++ end_bytes)) }
    ensures part { IfErr result (λ _. PutsPart (K.held out.old) (K.held out.new) (piece.old.items ++ end_bytes)) }
{
    write_end(piece)?;
    put(out, piece)
}

/// Puts a stream of the records that are left of a walk.
fn put_stream<K: Sink>(
    alloc: Global,
    out: &mut K,
    front: Front,
    mut records: RecordsLeft<'_>,
) -> Result<(), ShipStop>
    ensures cause { MatchResult result (λ _. K.faults out.new ≡ K.faults out.old)
        (PutEnd (K.faults out.old) (K.faults out.new)) }
    ensures whole { OnOk result (Appends (K.held out.old) (K.held out.new)
        (stream_bytes front records.entry.left)) }
    ensures part { IfErr result (λ _. PutsPart (K.held out.old) (K.held out.new)
        (stream_bytes front records.entry.left)) }
{
    let mut piece = Vec::new(alloc);
    write_front(&mut piece, front)?;
    while let Some(record) = records.next() {
        match put_frame(out, &mut piece, record.payload) {
            Ok(()) => {}
            Err(stop) => return Err(stop),
        }
    }
    put_end(out, &mut piece)
}

/// The last `count` records; all where there are fewer.
fn last_of(records: &SlotRecords, count: u64) -> RecordsLeft<'_>
    ensures { result.left ≡ last count records.now }
{
    let count = usize::try_from(count).unwrap_or(usize::MAX);
    let mut left = records.walk();
    left.skip(records.len().saturating_sub(count));
    left
}

/// Puts the transactions of an opened store above a number, and answers how many they are; `number` is that of the
/// store's last transaction.
fn ship_opened<K: Sink>(
    alloc: Global,
    opened: &Opened,
    number: u64,
    from: u64,
    out: &mut K,
) -> Result<u64, ShipStop>
    ensures cause { MatchResult result (λ _. K.faults out.new ≡ K.faults out.old)
        (ShipEnd from (K.faults out.old) (K.faults out.new)) }
    ensures ships { Ships opened.now number from (K.held out.old) (K.held out.new) result }
{
    if from < opened.header.transactions {
        return Err(ShipStop::Gone(opened.header.transactions));
    }
    let Some(count) = number.checked_sub(from) else {
        return Err(ShipStop::Ahead(number));
    };
    let front = Front {
        queues: opened.header.queues,
        limit: opened.header.limit,
        from,
    };
    // Behind the transactions of the header each record is the next transaction.
    match put_stream(alloc, out, front, last_of(&opened.records, count)) {
        Ok(()) => Ok(count),
        Err(stop) => Err(stop),
    }
}

/// Puts the transactions of a store above a number as a stream, and answers how many they are.
///
/// `Store` comes where the store isn't opened, `Gone` where the number is below that of the transactions
/// before the first record that the store keeps whole, and `Ahead` where it is above that of the
/// transactions; then nothing is put. `WriteFault` and `NoMemory` leave a front part of the stream put.
pub fn ship<K: Sink, D: Disk>(
    alloc: Global,
    disk: &mut D,
    from: u64,
    out: &mut K,
) -> Result<u64, ShipStop>
    ensures kept { D.tells → Only (D.seen disk.old) (D.images disk.old)
        → KeepsStore D.moment D.left_since D.seen disk.old disk.new }
    ensures cause { MatchResult result (λ _. K.faults out.new ≡ K.faults out.old)
        (ShipEnd from (K.faults out.old) (K.faults out.new)) }
    ensures disk { MatchResult result (λ _. D.faults disk.new ≡ D.faults disk.old)
        (ShipDiskEnd (D.faults disk.old) (D.faults disk.new)) }
    ensures ships { MatchResult result (λ _. ⊥) (IsUnopened (λ stop. D.tells → IsRefusedStore (D.seen disk.old) stop))
        × Keeps (K.held out.old) (K.held out.new)
        ⊎ ShipsOpened D.tells (D.seen disk.old) from (K.held out.old) (K.held out.new) result }
{
    match open(alloc, disk) {
        Err(stop) => Err(ShipStop::from(stop)),
        Ok((core, opened)) => ship_opened(alloc, &opened, core.number(), from, out),
    }
}
