//! The journal of a store: its log and its disk.
ghost use Rattle.std.specs.Prelude.{◌≡◌, ◌+◌, ◌<◌, List, false, length, IfErr, IfSome, MatchResult, OnOk};
ghost use Rattle.std.specs.List.{All};
ghost use Rattle.flow_disk.specs.Images.{opposite};
ghost use Rattle.flow_disk.specs.Moments.{LeavesOnly, Only};
ghost use Rattle.txn_log.specs.Records.{IsPayload};
ghost use Rattle.txn_log.specs.Standing.{HasRecord, HasRecords, MayHaveRecord, MayHaveRecords, StandsOn};
ghost use Rattle.txn_log.specs.Stored.{InRange};
ghost use Rattle.checkpoint.specs.Compacting.{IsCompacted, MayBeCompacted, StaysPut};
ghost use Rattle.flow_core.specs.Summaries.{Summary, summary};
ghost use Rattle.flow_model.specs.declared.transactions.Transaction.{Transaction as TransactionOf};
ghost use Rattle.flow_session.specs.Checkpoints.{IsCheckpointed};
ghost use Rattle.flow_session.specs.Fitting.{AreFitFrom, AreFitNow, HasFitRecords};
ghost use Rattle.flow_session.specs.Histories.{AreInRangeBehind, IsHeaderOf, after, payloads as payloads_of, payloads_behind};
ghost use Rattle.flow_session.specs.Keeping.{IsOpen, rests};
ghost use Rattle.flow_session.specs.Serving.{AllOrNone};
ghost use Rattle.flow_session.specs.Stopping.{IsStopCause};
ghost use Rattle.flow_session.specs.declared.serving.Stop.TheVariants.{NoMemory};

use crate::journal::Journal;
use crate::live_payloads::{LivePayloads, is_payload, live_count};
use crate::serving::Stop;
use checkpoint::{MoveStop, compact};
use flow_core::Core;
use flow_disk::Disk;
use flow_model::Transaction;
use flow_txn::{encode, fits};
use live_history::History;
use std::alloc::Global;
use txn_log::{Batch, Header, Log};

/// A log has fewer records.
const MOST_RECORDS: u64 = 1 << 32;

/// A store has generations up to this one; then no CHECKPOINT moves it.
const LAST_GENERATION: u64 = 1 << 62;

/// The journal of a store.
#[derive(Drop)]
pub struct Stored<D: Disk + Drop> {
    alloc: Global,
    log: Log,
    disk: D,
}

/// The header of the next generation; None where it has none.
fn next_header(log: &Log, core: &Core) -> Option<Header>
    ensures { IfSome result (λ header. InRange header × (header.generation ≡ log.now.generation + 1)
        × IsHeaderOf header (summary core.now)) }
{
    let generation = log.generation();
    let (queues, limit) = (core.queue_count(), core.limit());
    let (transactions, roots) = (core.number(), core.roots());
    if generation >= LAST_GENERATION || queues < 1 || queues > 16 {
        return None;
    }
    if limit < 1 || limit > 10_000_000 || transactions > limit || roots > transactions {
        return None;
    }
    Some(Header {
        generation: generation + 1,
        queues,
        limit,
        transactions,
        roots,
    })
}

impl<D: Disk + Drop> Stored<D> {
    /// The journal of an opened log, which keeps its disk from now on.
    pub fn new(alloc: Global, log: Log, disk: D) -> Stored<D>
        ensures { (result.log ≡ log) × (result.disk ≡ disk) }
    {
        Stored { alloc, log, disk }
    }

    /// The disk, which is the caller's again.
    pub fn into_disk(self) -> D
        ensures { result ≡ self.disk }
    {
        let Stored {
            alloc: _,
            log: _,
            disk,
        } = self;
        disk
    }

    /// Keeps the payloads of a batch, those of the next transactions one after the other, behind one gate; of none,
    /// nothing is done.
    ///
    /// `StoreFault` comes exactly where the disk failed, so that they may not be kept; then a crash leaves the history
    /// with all of them or with none. `NoMemory` comes where nothing was tried: the log has failed before, or it is
    /// full, to neither of which a store of the program comes.
    pub fn keep_all(&mut self, batch: &Batch) -> Result<(), Stop>
        requires open { D.tells → (s : Summary) × IsOpen D.seen D.images self.old.log self.old.disk s }
        ensures kept { (s : Summary) (ts : List TransactionOf) → D.tells
            → IsOpen D.seen D.images self.old.log self.old.disk s → batch.now ≡ payloads_behind s.transactions ts
            → AreInRangeBehind s.transactions ts
            → OnOk result (IsOpen D.seen D.images self.new.log self.new.disk (after s ts)) }
        ensures any_moment { (s : Summary) (ts : List TransactionOf) → D.tells
            → IsOpen D.seen D.images self.old.log self.old.disk s → batch.now ≡ payloads_behind s.transactions ts
            → AreInRangeBehind s.transactions ts
            → LeavesOnly D.moment D.left_since self.old.disk self.new.disk (AllOrNone ts s) }
        ensures fit { (s : Summary) (ts : List TransactionOf) → D.tells
            → IsOpen D.seen D.images self.old.log self.old.disk s → batch.now ≡ payloads_behind s.transactions ts
            → AreInRangeBehind s.transactions ts → AreFitNow D.moment D.left_since self.old.disk → AreFitFrom s ts
            → LeavesOnly D.moment D.left_since self.old.disk self.new.disk HasFitRecords }
        ensures place { (self.new.log.slot ≡ self.old.log.slot)
            × (self.new.log.generation ≡ self.old.log.generation) }
        ensures undone { IfErr result (λ stop. stop ≡ NoMemory → self.new ≡ self.old) }
        ensures cause { MatchResult result (λ _. D.faults self.new.disk ≡ D.faults self.old.disk)
            (IsStopCause (D.faults self.old.disk) (D.faults self.new.disk)) }
    {
        if batch.is_empty() {
            return Ok(());
        }
        append_all(&mut self.log, &mut self.disk, batch)?;
        Ok(())
    }
}

/// Appends a payload to a log.
///
/// `StoreFault` comes exactly where the disk failed. `NoMemory` comes where nothing was tried: the log has failed
/// before, it is full, or the payload is longer than a record, to none of which a store of the program comes.
fn append<D: Disk>(log: &mut Log, disk: &mut D, payload: &[u8]) -> Result<(), Stop>
    requires stands { D.tells → StandsOn log.old (D.seen disk.old) }
    ensures stands { OnOk result (D.tells → StandsOn log.new (D.seen disk.new)) }
    ensures added { OnOk result (D.tells → HasRecord payload.now (D.seen disk.old) (D.seen disk.new)) }
    ensures durable { OnOk result (Only (D.seen disk.new) (D.images disk.new)) }
    ensures alive { OnOk result (log.new.failed ≡ false) }
    ensures same { (log.new.slot ≡ log.old.slot) × (log.new.generation ≡ log.old.generation) }
    ensures cause { MatchResult result (λ _. D.faults disk.new ≡ D.faults disk.old)
        (IsStopCause (D.faults disk.old) (D.faults disk.new)) }
    ensures undone { IfErr result (λ stop. stop ≡ NoMemory → (log.new ≡ log.old) × (disk.new ≡ disk.old)) }
    ensures any_moment { D.tells → Only (D.seen disk.old) (D.images disk.old)
        → LeavesOnly D.moment D.left_since disk.old disk.new (MayHaveRecord payload.now (D.seen disk.old)) }
{
    if !is_payload(payload) || log.has_failed() || log.records() >= MOST_RECORDS {
        return Err(Stop::NoMemory);
    }
    match log.append(disk, payload) {
        Ok(()) => Ok(()),
        Err(_) => Err(Stop::StoreFault),
    }
}

/// Appends the records of a batch to a log.
///
/// `StoreFault` comes exactly where the disk failed. `NoMemory` comes where nothing was tried: the log has failed
/// before, or it is full, to neither of which a store of the program comes.
fn append_all<D: Disk>(log: &mut Log, disk: &mut D, batch: &Batch) -> Result<(), Stop>
    requires some { 0 < length batch.now }
    requires stands { D.tells → StandsOn log.old (D.seen disk.old) }
    ensures stands { OnOk result (D.tells → StandsOn log.new (D.seen disk.new)) }
    ensures added { OnOk result (D.tells → HasRecords batch.now (D.seen disk.old) (D.seen disk.new)) }
    ensures durable { OnOk result (Only (D.seen disk.new) (D.images disk.new)) }
    ensures alive { OnOk result (log.new.failed ≡ false) }
    ensures same { (log.new.slot ≡ log.old.slot) × (log.new.generation ≡ log.old.generation) }
    ensures cause { MatchResult result (λ _. D.faults disk.new ≡ D.faults disk.old)
        (IsStopCause (D.faults disk.old) (D.faults disk.new)) }
    ensures undone { IfErr result (λ stop. stop ≡ NoMemory → (log.new ≡ log.old) × (disk.new ≡ disk.old)) }
    ensures any_moment { D.tells → Only (D.seen disk.old) (D.images disk.old)
        → LeavesOnly D.moment D.left_since disk.old disk.new (MayHaveRecords batch.now (D.seen disk.old)) }
{
    if log.has_failed() || log.records() >= MOST_RECORDS {
        return Err(Stop::NoMemory);
    }
    match log.append_all(disk, batch) {
        Ok(()) => Ok(()),
        Err(_) => Err(Stop::StoreFault),
    }
}

/// Moves a log to its other slot, with the payloads of the live transactions alone.
///
/// `StoreFault` comes exactly where the disk failed. `NoMemory` comes where there was none for a payload; then the log
/// stands where it stood. It comes too where nothing was tried, as for [`append`].
fn move_log<D: Disk>(
    log: &mut Log,
    disk: &mut D,
    header: &Header,
    history: &History,
    count: u64,
) -> Result<(), Stop>
    requires count { count ≡ length history.now.items }
    requires kept { All IsPayload (payloads_of history.now.items) }
    requires range { InRange header.now }
    requires next { header.now.generation ≡ log.old.generation + 1 }
    requires stands { D.tells → StandsOn log.old (D.seen disk.old) }
    ensures stands { OnOk result (D.tells → StandsOn log.new (D.seen disk.new)) }
    ensures compacted { OnOk result (D.tells
        → IsCompacted (opposite log.old.slot) header.now (payloads_of history.now.items) (D.seen disk.new)) }
    ensures durable { OnOk result (Only (D.seen disk.new) (D.images disk.new)) }
    ensures alive { OnOk result (log.new.failed ≡ false) }
    ensures log { OnOk result ((log.new.slot ≡ opposite log.old.slot)
        × (log.new.generation ≡ header.now.generation)) }
    ensures cause { MatchResult result (λ _. D.faults disk.new ≡ D.faults disk.old)
        (IsStopCause (D.faults disk.old) (D.faults disk.new)) }
    ensures stays { D.tells → Only (D.seen disk.old) (D.images disk.old) → IfErr result (λ stop. stop ≡ NoMemory
        → StaysPut D.seen D.images log.old log.new disk.old disk.new) }
    ensures any_moment { D.tells → Only (D.seen disk.old) (D.images disk.old)
        → LeavesOnly D.moment D.left_since disk.old disk.new
        (MayBeCompacted (opposite log.old.slot) header.now (payloads_of history.now.items) (D.seen disk.old)) }
{
    if log.has_failed() || count >= MOST_RECORDS {
        return Err(Stop::NoMemory);
    }
    let mut kept = LivePayloads::new(history);
    match compact(log, disk, header, &mut kept) {
        Ok(()) => Ok(()),
        Err(MoveStop::StoreFault) => Err(Stop::StoreFault),
        Err(MoveStop::NoMemory) => Err(Stop::NoMemory),
    }
}

impl<D: Disk + Drop> Journal for Stored<D> {
    ghost tells = { D.tells };

    ghost holds = { λ journal s. IsOpen D.seen D.images journal.log journal.disk s };

    ghost moment = { λ journal. D.moment journal.disk };

    ghost faults = { λ journal. D.faults journal.disk };

    ghost left_since = { λ journal. D.left_since journal.disk };

    ghost place = { λ journal. (journal.log.slot, journal.log.generation) };

    ghost moved = { λ old new s. IsCheckpointed D.tells D.seen D.images old.log new.log new.disk s };

    ghost at_rest = { λ journal s c told is left. rests D.seen D.images journal.log journal.disk s c is
        (D.only_now journal.disk c left) };

    ghost counts_now = { λ journal t c earlier left. D.counts_now journal.disk t c earlier
        (D.only_now journal.disk c left) };

    fn payload(&self, number: u64, t: &Transaction) -> Result<Vec<u8>, Stop> {
        if !fits(number, t) {
            return Err(Stop::NoMemory);
        }
        Ok(encode(self.alloc, number, t)?)
    }

    fn keep(&mut self, payload: &[u8]) -> Result<(), Stop> {
        append(&mut self.log, &mut self.disk, payload)?;
        Ok(())
    }

    /// Moves the store to its other slot, which then holds the live transactions alone.
    ///
    /// `StoreFault` comes exactly where the disk failed. `NoMemory` comes where there is no memory; then the store
    /// stands where it stood. It comes too where the log has failed before, the store is at its last generation, or the
    /// counts or a live transaction are out of the range of records, to none of which a store of the program comes.
    fn checkpoint(&mut self, core: &Core) -> Result<(), Stop> {
        let Some(header) = next_header(&self.log, core) else {
            return Err(Stop::NoMemory);
        };
        let history = core.live();
        let Some(count) = live_count(history)? else {
            return Err(Stop::NoMemory);
        };
        move_log(&mut self.log, &mut self.disk, &header, history, count)?;
        Ok(())
    }
}
