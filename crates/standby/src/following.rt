//! A stream taken into a store.
ghost use Rattle.std.specs.Prelude.{◌≡◌, ◌⊎◌, ℕ, Option, List, ◌+◌, ◌-◌, ◌^◌, ◌<◌, ◌≤◌, IfErr, IfOk, IsOk};
ghost use Rattle.std.specs.Prelude.{MatchResult, OnErr, OnOk};
ghost use Rattle.std.specs.Io.KnownBytes.{Keeps};
ghost use Rattle.flow_disk.specs.Images.{Image};
ghost use Rattle.flow_disk.specs.Moments.{LeavesOnly, Only};
ghost use Rattle.flow_txn.specs.Ranges.{IsInRange};
ghost use Rattle.flow_txn.specs.Records.{record_bytes};
ghost use Rattle.txn_log.specs.Records.{IsPayload};
ghost use Rattle.flow_model.specs.declared.transactions.Transaction.{Transaction as TransactionOf};
ghost use Rattle.flow_core.specs.Admitting.{IsAdmitted};
ghost use Rattle.flow_core.specs.Summaries.{summary};
ghost use Rattle.flow_core.specs.declared.state.Core.{Core as CoreOf};
ghost use Rattle.core_laws.specs.RightStates.{IsRightCore};
ghost use Rattle.flow_session.specs.Histories.{StandsFor, after};
ghost use Rattle.flow_session.specs.Keeping.{IsOpen};
ghost use Rattle.flow_session.specs.Runs.{KeepsOrServes, KeepsStore};
ghost use Rattle.flow_session.specs.Serving.{Makes};
ghost use Rattle.flow_session.specs.Stopping.{IsStopCause};
ghost use Rattle.standby.specs.Adopting.{AdoptsAll, MakesTaken};
ghost use Rattle.standby.specs.Endings.{FollowEnd};
ghost use Rattle.flow_session.specs.Refusing.{IsUnopened};
ghost use Rattle.standby.specs.Followed.{FollowsOpened, IsAtStage, IsNotOpened, StandsBehind, StandsForEither};
ghost use Rattle.standby.specs.Fronts.{FrontJudged};
ghost use Rattle.standby.specs.Stages.{FollowsHeld, FollowsSource, Reaches, StopsPayload, StopsTaking, Takes};
ghost use Rattle.standby.specs.Stages.{TakesPayload, stage};
ghost use Rattle.standby.specs.Waiting.{IsKeptBy, IsUnchanged, IsUnkept, StandsUpTo, TakesOn, TakesUpTo, WaitsAt};
ghost use Rattle.standby.specs.Waiting.{WaitsBehind};
ghost use Rattle.standby.specs.declared.stops.FollowStop.TheVariants as stop;

use crate::blocks::Blocks;
use crate::frames::{FRONT, Front, agrees, front_of};
use crate::reading::{at_end, read_frame};
use crate::stops::FollowStop;
use flow_core::{AdoptFault, Core};
use flow_disk::Disk;
use flow_io::Source;
use flow_model::Numbered;
use flow_session::{Stop, Stored, open};
use flow_txn::{RecordFault, decode};
use std::alloc::Global;
use txn_log::{Batch, Log, LogStop};

/// The greatest number of records that are kept behind one gate.
const BATCH: usize = 1000;

/// A batch with this number of bytes gets no more records.
const BATCH_BYTES: usize = 1_048_576;

/// The result of following: the number of the store's transactions, and how many of them were taken.
#[derive(Clone, Copy, Debug, PartialEq, Eq)]
pub struct Followed {
    pub number: u64,
    pub taken: u64,
}

/// The store that follows.
#[derive(Drop)]
struct Standby<D: Disk + Drop> {
    alloc: Global,
    core: Core,
    journal: Stored<D>,
    taken: u64,
}

/// Takes a stream into an opened store, and gives the disk back.
fn follow_from<S: Source, D: Disk + Drop>(
    alloc: Global,
    core: Core,
    log: Log,
    src: &mut S,
    disk: D,
) -> (Result<Followed, FollowStop>, D)
    requires open { D.tells → IsOpen D.seen D.images log disk (summary core) }
    ensures makes { Makes D.tells D.moment D.left_since disk result.1 (summary core) (λ ts. IsOk result.0
        → D.tells → (c : Image) → D.images result.1 c → StandsFor (after (summary core) ts) c) }
    ensures adopts { IsRightCore core → Makes D.tells D.moment D.left_since disk result.1 (summary core)
        (λ ts. (last : CoreOf) × AdoptsAll core ts last) }
    ensures stages { IsRightCore core → D.tells → LeavesOnly D.moment D.left_since disk result.1
        (IsAtStage core (S.left src.old)) }
    ensures cause { MatchResult result.0 (λ _. (S.faults src.new ≡ S.faults src.old)
        × (D.faults result.1 ≡ D.faults disk))
        (FollowEnd (S.faults src.old) (S.faults src.new) (D.faults disk) (D.faults result.1)) }
    ensures follows { IsRightCore core → FollowsSource (λ core'. D.tells
        → (c : Image) → D.images result.1 c → StandsFor (summary core') c)
        (StandsForEither D.tells (D.images result.1)) core (S.left src.old) (S.left src.new) result.0 }
{
    let mut standby = Standby {
        alloc,
        core,
        journal: Stored::new(alloc, log, disk),
        taken: 0,
    };
    let followed = standby.take_stream(src);
    let Standby {
        alloc: _,
        core: _,
        journal,
        taken: _,
    } = standby;
    (followed, journal.into_disk())
}

/// Why following ends where the journal keeps no record.
fn unkept(stop: Stop) -> FollowStop
    ensures cause { (source disk disk' : ℕ) → IsStopCause disk disk' stop → FollowEnd source source disk disk' result }
    ensures stops { (core : CoreOf) (number : ℕ) (t : TransactionOf) → core.number < number
        → IsAdmitted core number t → StopsTaking core number t result }
    ensures is { IsUnkept stop result }
{
    match stop {
        Stop::StoreFault => FollowStop::Store(LogStop::StoreFault),
        Stop::NoMemory => FollowStop::NoMemory,
    }
}

/// What ends gathering: where there is no memory, so does following; for any other cause it ends at the frame that is
/// read next.
fn gathered(last: u64, cause: FollowStop) -> Result<u64, FollowStop>
    ensures last { IfOk result (λ number. number ≡ last) }
    ensures unchanged { OnOk result ((c c' : CoreOf) (taken taken' : ℕ) → IsUnchanged cause c taken c' taken'
        → (c' ≡ c) × (taken' ≡ taken)) }
    ensures memory { IfErr result (λ end. end ≡ stop.NoMemory) }
{
    match cause {
        FollowStop::NoMemory => Err(FollowStop::NoMemory),
        FollowStop::Store(_) => Ok(last),
        FollowStop::Frame(_) => Ok(last),
        FollowStop::Cut(_) => Ok(last),
        FollowStop::Other => Ok(last),
        FollowStop::Gap(_) => Ok(last),
        FollowStop::NotAllowed(_) => Ok(last),
        FollowStop::ReadFault => Ok(last),
        FollowStop::TooLong => Ok(last),
    }
}

impl<D: Disk + Drop> Standby<D> {
    /// Takes a transaction: it is passed over where the store has it, else it is adopted, and its payload waits in the
    /// batch.
    fn take(
        &mut self,
        numbered: Numbered,
        payload: &[u8],
        batch: &mut Batch,
    ) -> Result<(), FollowStop>
        requires allowed { IsPayload payload.now }
        requires spelled { record_bytes numbered.number numbered.transaction ≡ payload.now }
        requires range { IsInRange numbered.number numbered.transaction }
        requires room { self.old.taken < 2 ^ 64 - 1 }
        ensures journal { self.new.journal ≡ self.old.journal }
        ensures waits { WaitsBehind self.old.core batch.old self.new.core batch.new result }
        ensures passed { numbered.number ≤ self.old.core.number → batch.new ≡ batch.old }
        ensures batch { OnErr result (batch.new ≡ batch.old) }
        ensures count { OnOk result (self.new.taken ≤ self.old.taken + 1) }
        ensures takes { IsRightCore self.old.core → OnOk result (Takes numbered.number numbered.transaction
            self.old.core self.old.taken self.new.core self.new.taken) }
        ensures stops { IsRightCore self.old.core
            → IfErr result (StopsTaking self.old.core numbered.number numbered.transaction) }
        ensures unchanged { IfErr result (λ stop. IsUnchanged stop self.old.core self.old.taken
            self.new.core self.new.taken) }
        ensures cause { IfErr result (λ stop. (source disk : ℕ) → FollowEnd source source disk disk stop) }
    {
        let Numbered {
            number,
            transaction,
        } = numbered;
        if number <= self.core.number() {
            return Ok(());
        }
        match self.core.adopt(number, transaction) {
            Ok(()) => {}
            Err(AdoptFault::NotAllowed) => return Err(FollowStop::NotAllowed(number)),
            Err(AdoptFault::NoMemory) => return Err(FollowStop::NoMemory),
        }
        match batch.push(payload) {
            Ok(()) => {}
            Err(_) => return Err(FollowStop::NoMemory),
        }
        self.taken = self.taken.saturating_add(1);
        Ok(())
    }

    /// Takes the payload of the frame at a place, which has to be the record of this number.
    fn take_payload(
        &mut self,
        place: u64,
        number: u64,
        payload: &[u8],
        batch: &mut Batch,
    ) -> Result<(), FollowStop>
        requires allowed { IsPayload payload.now }
        requires room { self.old.taken < 2 ^ 64 - 1 }
        ensures journal { self.new.journal ≡ self.old.journal }
        ensures waits { WaitsBehind self.old.core batch.old self.new.core batch.new result }
        ensures passed { number ≤ self.old.core.number → batch.new ≡ batch.old }
        ensures batch { OnErr result (batch.new ≡ batch.old) }
        ensures count { OnOk result (self.new.taken ≤ self.old.taken + 1) }
        ensures takes { IsRightCore self.old.core → OnOk result (TakesPayload number payload.now
            self.old.core self.old.taken self.new.core self.new.taken) }
        ensures stops { IsRightCore self.old.core
            → IfErr result (StopsPayload place number payload.now self.old.core) }
        ensures unchanged { IfErr result (λ stop. IsUnchanged stop self.old.core self.old.taken
            self.new.core self.new.taken) }
        ensures cause { IfErr result (λ stop. (source disk : ℕ) → FollowEnd source source disk disk stop) }
    {
        match decode(self.alloc, payload) {
            Ok(numbered) if numbered.number == number => self.take(numbered, payload, batch),
            Ok(_) => Err(FollowStop::Frame(place)),
            Err(RecordFault::BadRecord) => Err(FollowStop::Frame(place)),
            Err(RecordFault::NoMemory) => Err(FollowStop::NoMemory),
        }
    }

    /// Takes the frames behind the last one that are held whole, up to a full batch, or to one that isn't taken;
    /// answers the number of the last one then. The source isn't read.
    fn gather(
        &mut self,
        last: u64,
        blocks: &mut Blocks,
        batch: &mut Batch,
    ) -> Result<u64, FollowStop>
        requires counted { self.old.taken ≤ blocks.old.place }
        ensures journal { self.new.journal ≡ self.old.journal }
        ensures waits { WaitsBehind self.old.core batch.old self.new.core batch.new result }
        ensures counted { OnOk result (self.new.taken ≤ blocks.new.place) }
        ensures on { OnOk result (blocks.old.place ≤ blocks.new.place) }
        ensures reaches { IsRightCore self.old.core → IfOk result (λ number. (left : Option (List ℕ))
            → Reaches (stage self.old.core self.old.taken last blocks.old left)
            (stage self.new.core self.new.taken number blocks.new left)) }
        ensures waiting { WaitsAt last blocks.old self.old.core self.old.taken batch.old blocks.new batch.new }
        ensures memory { IfErr result (λ end. end ≡ stop.NoMemory) }
    {
        let mut number = last;
        'held: while batch.len() < BATCH && batch.size() < BATCH_BYTES {
            let Some(payload) = blocks.held_frame() else {
                return Ok(number);
            };
            let Some(next) = number.checked_add(1) else {
                return Ok(number);
            };
            match self.take_payload(blocks.place(), next, payload, batch) {
                Ok(()) => {}
                Err(stop) => return gathered(number, stop),
            }
            let count = 5 + payload.len();
            blocks.skip(count);
            number = next;
        }
        Ok(number)
    }

    /// Takes the payload of the frame at a place, which has to be the record of the number behind the last one, and
    /// where it is new, the frames behind it that are held whole; keeps all of them behind one gate, and answers the
    /// number of the last one. Nothing waits where the source is read or a frame is refused.
    fn take_next(
        &mut self,
        place: u64,
        last: u64,
        payload: &[u8],
        blocks: &mut Blocks,
    ) -> Result<u64, FollowStop>
        requires open { D.tells
            → IsOpen D.seen D.images self.old.journal.log self.old.journal.disk (summary self.old.core) }
        requires allowed { IsPayload payload.now }
        requires counted { self.old.taken ≤ place }
        requires within { place ≤ 268435456 }
        requires further { place < blocks.old.place }
        ensures kept { OnOk result (D.tells
            → IsOpen D.seen D.images self.new.journal.log self.new.journal.disk (summary self.new.core)) }
        ensures left { IsRightCore self.old.core → IfErr result (λ stop. (self.new.journal ≡ self.old.journal)
            ⊎ TakesUpTo last payload.now blocks.old self.old.core self.old.taken (IsKeptBy stop
            (λ core. D.tells → IsOpen D.seen D.images self.new.journal.log self.new.journal.disk (summary core))
            (StandsForEither D.tells (D.images self.new.journal.disk) self.old.core))) }
        ensures makes { MakesTaken D.tells D.moment D.left_since self.old.journal.disk self.new.journal.disk
            self.old.core self.new.core result }
        ensures stages { IsRightCore self.old.core → D.tells → LeavesOnly D.moment D.left_since self.old.journal.disk
            self.new.journal.disk
            (StandsUpTo last payload.now blocks.old self.old.core self.old.taken) }
        ensures cause { MatchResult result (λ _. D.faults self.new.journal.disk ≡ D.faults self.old.journal.disk)
            (λ stop. (source : ℕ) → FollowEnd source source
            (D.faults self.old.journal.disk) (D.faults self.new.journal.disk) stop) }
        ensures counted { OnOk result (self.new.taken ≤ blocks.new.place) }
        ensures on { OnOk result (blocks.old.place ≤ blocks.new.place) }
        ensures takes { IsRightCore self.old.core → IfOk result (λ number. TakesOn last payload.now
            blocks.old self.old.core self.old.taken number blocks.new self.new.core self.new.taken) }
        ensures stops { IsRightCore self.old.core
            → IfErr result (StopsPayload place (last + 1) payload.now self.old.core) }
    {
        let Some(number) = last.checked_add(1) else {
            return Err(FollowStop::Frame(place));
        };
        let mut batch = Batch::new(self.alloc);
        match self.take_payload(place, number, payload, &mut batch) {
            Ok(()) => {}
            Err(stop) => return Err(stop),
        }
        if batch.is_empty() {
            return Ok(number);
        }
        let end = self.gather(number, blocks, &mut batch);
        match self.journal.keep_all(&batch) {
            Ok(()) => end,
            Err(stop) => Err(unkept(stop)),
        }
    }

    /// Judges the front of a stream.
    fn judge_front(&self, bytes: &[u8]) -> Result<Front, FollowStop>
        ensures judged { FrontJudged (summary self.now.core) bytes.now result }
        ensures cause { IfErr result (λ stop. (source disk : ℕ) → FollowEnd source source disk disk stop) }
    {
        if !agrees(bytes) {
            return Err(FollowStop::Frame(0));
        }
        let Some(front) = front_of(bytes) else {
            return Err(FollowStop::Cut(self.core.number()));
        };
        if front.queues != self.core.queue_count() || front.limit != self.core.limit() {
            return Err(FollowStop::Other);
        }
        if front.from > self.core.number() {
            return Err(FollowStop::Gap(self.core.number()));
        }
        Ok(front)
    }

    /// Takes all frames of a stream.
    fn take_frames<S: Source>(
        &mut self,
        src: &mut S,
        blocks: &mut Blocks,
        from: u64,
    ) -> Result<(), FollowStop>
        requires open { D.tells
            → IsOpen D.seen D.images self.old.journal.log self.old.journal.disk (summary self.old.core) }
        requires counted { self.old.taken ≤ blocks.old.place }
        ensures kept { OnOk result (D.tells
            → IsOpen D.seen D.images self.new.journal.log self.new.journal.disk (summary self.new.core)) }
        ensures makes { MakesTaken D.tells D.moment D.left_since self.old.journal.disk self.new.journal.disk
            self.old.core self.new.core result }
        ensures stages { IsRightCore self.old.core → D.tells → LeavesOnly D.moment D.left_since self.old.journal.disk
            self.new.journal.disk
            (StandsBehind (stage self.old.core self.old.taken from blocks.old (S.left src.old))) }
        ensures cause { MatchResult result (λ _. (S.faults src.new ≡ S.faults src.old)
            × (D.faults self.new.journal.disk ≡ D.faults self.old.journal.disk))
            (FollowEnd (S.faults src.old) (S.faults src.new)
            (D.faults self.old.journal.disk) (D.faults self.new.journal.disk)) }
        ensures follows { IsRightCore self.old.core → FollowsHeld (λ core. D.tells
            → IsOpen D.seen D.images self.new.journal.log self.new.journal.disk (summary core))
            (StandsForEither D.tells (D.images self.new.journal.disk))
            (stage self.old.core self.old.taken from blocks.old (S.left src.old))
            (S.left src.new) self.new.core self.new.taken result }
    {
        let mut payload = Vec::new(self.alloc);
        let mut number = from;
        'frames: loop {
            let place = blocks.place();
            if !read_frame(src, blocks, self.core.number(), &mut payload)? {
                return at_end(src, blocks);
            }
            number = self.take_next(place, number, &payload, blocks)?;
        }
    }

    /// Takes a stream.
    fn take_stream<S: Source>(&mut self, src: &mut S) -> Result<Followed, FollowStop>
        requires open { D.tells
            → IsOpen D.seen D.images self.old.journal.log self.old.journal.disk (summary self.old.core) }
        requires none { self.old.taken ≡ 0 }
        ensures kept { OnOk result (D.tells
            → IsOpen D.seen D.images self.new.journal.log self.new.journal.disk (summary self.new.core)) }
        ensures makes { MakesTaken D.tells D.moment D.left_since self.old.journal.disk self.new.journal.disk
            self.old.core self.new.core result }
        ensures stages { IsRightCore self.old.core → D.tells → LeavesOnly D.moment D.left_since self.old.journal.disk
            self.new.journal.disk (IsAtStage self.old.core (S.left src.old)) }
        ensures cause { MatchResult result (λ _. (S.faults src.new ≡ S.faults src.old)
            × (D.faults self.new.journal.disk ≡ D.faults self.old.journal.disk))
            (FollowEnd (S.faults src.old) (S.faults src.new)
            (D.faults self.old.journal.disk) (D.faults self.new.journal.disk)) }
        ensures follows { IsRightCore self.old.core → FollowsSource (λ core. D.tells
            → IsOpen D.seen D.images self.new.journal.log self.new.journal.disk (summary core))
            (StandsForEither D.tells (D.images self.new.journal.disk))
            self.old.core (S.left src.old) (S.left src.new) result }
    {
        let mut blocks = Blocks::new(self.alloc)?;
        let mut bytes = Vec::new(self.alloc);
        let _ = blocks.read(src, FRONT, &mut bytes)?;
        let front = self.judge_front(&bytes)?;
        self.take_frames(src, &mut blocks, front.from)?;
        Ok(Followed {
            number: self.core.number(),
            taken: self.taken,
        })
    }
}

/// Takes a stream into a store, and gives the disk back.
///
/// The store is opened first. Up to 1,000 transactions are kept behind one gate: one, and those behind it whose
/// frames were read with it; a crash leaves all of them or none. All that was taken is kept before the source is read
/// again and before anything is answered. A refusal comes at the first place of the stream where one holds, and what
/// was taken before it stays. In the front of the stream they are judged in the order `Frame`, `Cut`, `Other`,
/// `Gap`; of a frame its first byte and its length are judged before `Cut`, and its payload where it is whole.
/// `Store` with `StoreFault` comes where the disk failed, `ReadFault` where the source did.
pub fn follow<S: Source, D: Disk + Drop>(
    alloc: Global,
    src: &mut S,
    disk: D,
) -> (Result<Followed, FollowStop>, D)
    ensures kept { D.tells → Only (D.seen disk) (D.images disk)
        → KeepsOrServes D.tells D.moment D.left_since D.seen D.images disk result.1 (IsOk result.0) }
    ensures cause { MatchResult result.0 (λ _. (S.faults src.new ≡ S.faults src.old)
        × (D.faults result.1 ≡ D.faults disk))
        (FollowEnd (S.faults src.old) (S.faults src.new) (D.faults disk) (D.faults result.1)) }
    ensures follows { (MatchResult result.0 (λ _. ⊥) (IsNotOpened (λ stop. D.tells → IsUnopened (D.seen disk) stop))
        × Keeps (S.left src.old) (S.left src.new)
        × (D.tells → Only (D.seen disk) (D.images disk) → KeepsStore D.moment D.left_since D.seen disk result.1))
        ⊎ FollowsOpened D.tells D.moment D.left_since D.seen D.images disk result.1 (S.left src.old) (S.left src.new)
        result.0 }
{
    let mut disk = disk;
    match open(alloc, &mut disk) {
        Err(stop) => (Err(FollowStop::from(stop)), disk),
        Ok((core, opened)) => follow_from(alloc, core, opened.log, src, disk),
    }
}
