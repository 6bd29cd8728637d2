//! How a store is opened: the state that its records give.
ghost use Rattle.std.specs.Prelude.{None, ◌≡◌, ◌≤◌, ℕ, IfErr, IfOk, MatchResult, OnOk};
ghost use Rattle.flow_disk.specs.Moments.{LeavesOnly};
ghost use Rattle.flow_model.specs.declared.transactions.Numbered.{Numbered as NumberedOf};
ghost use Rattle.flow_txn.specs.Ranges.{IsInRange};
ghost use Rattle.flow_txn.specs.Records.{record_bytes};
ghost use Rattle.txn_log.specs.Opening.{IsOpened};
ghost use Rattle.worklist_laws.specs.Shelved.{IsRightAndListed};
ghost use Rattle.flow_core.specs.Summaries.{summary, taken_up, Follows};
ghost use Rattle.flow_session.specs.Inputs.{unended};
ghost use Rattle.flow_session.specs.Keeping.{IsOpen, ComesTo};
ghost use Rattle.flow_session.specs.Refusing.{AdmitsOne, IsOpenedTo, IsUnopened, LeadsTo, StopsAt, StopsIn};
ghost use Rattle.flow_session.specs.Replaying.{Replays};
ghost use Rattle.flow_session.specs.Stopping.{IsOpenCause};

use crate::serving::Session;
use flow_core::{AdoptFault, Core};
use flow_disk::{Disk, Slot};
use flow_model::Numbered;
use flow_txn::{RecordFault, decode};
use std::alloc::Global;
use txn_log::{Log, LogStop, Opened};

/// Adopts a record; else the store is damaged at its gate.
fn adopt(
    alloc: Global,
    core: &mut Core,
    slot: Slot,
    place: u64,
    payload: &[u8],
) -> Result<(), LogStop>
    ensures taken { OnOk result ((n : NumberedOf) × (record_bytes n.number n.transaction ≡ payload.now)
        × IsInRange n.number n.transaction × Follows core.old.kept (summary core.old) n
        × (summary core.new ≡ taken_up core.old.kept n (summary core.old))) }
    ensures kept { OnOk result (core.new.kept ≡ core.old.kept) }
    ensures right { IsRightAndListed core.old → OnOk result (IsRightAndListed core.new) }
    ensures admitted { OnOk result (AdmitsOne core.old payload.now core.new) }
    ensures refused { IfErr result (StopsAt slot place core.old payload.now) }
    ensures silent { IfErr result (λ stop. (count : ℕ) → IsOpenCause count count stop) }
{
    let Numbered {
        number,
        transaction,
    } = match decode(alloc, payload) {
        Ok(numbered) => numbered,
        Err(RecordFault::BadRecord) => return Err(LogStop::Damaged(slot, place)),
        Err(RecordFault::NoMemory) => return Err(LogStop::NoMemory),
    };
    match core.adopt(number, transaction) {
        Ok(()) => Ok(()),
        Err(AdoptFault::NotAllowed) => Err(LogStop::Damaged(slot, place)),
        Err(AdoptFault::NoMemory) => Err(LogStop::NoMemory),
    }
}

/// The state that the records of an opened store give.
fn state_of(alloc: Global, opened: &Opened) -> Result<Core, LogStop>
    ensures comes { IfOk result (λ core. ComesTo opened.now (summary core)) }
    ensures right { IfOk result (λ core. 1 ≤ (summary core).queues → IsRightAndListed core) }
    ensures admitted { IfOk result (LeadsTo opened.now.header opened.now.records) }
    ensures refused { IfErr result (StopsIn opened.now.log.slot opened.now.header opened.now.records) }
    ensures silent { IfErr result (λ stop. (count : ℕ) → IsOpenCause count count stop) }
{
    let header = &opened.header;
    let mut core = Core::resume(
        alloc,
        header.queues,
        header.limit,
        header.transactions,
        header.roots,
    )?;
    let mut records = opened.records.walk();
    while let Some(record) = records.next() {
        adopt(
            alloc,
            &mut core,
            opened.log.slot(),
            record.place,
            record.payload,
        )?;
    }
    Ok(core)
}

/// Opens a store: the state that its records give, and what its slot that counts holds.
///
/// `Unmade`, `Foreign` and `Damaged` come by the slots, and `Damaged` at the gate of the first record that isn't in
/// the grammar of records or isn't admitted there, as `specs/Refusing.antt` says. The disk isn't written. `StoreFault`
/// comes only where its count of faults rose. The state is the one that the records give by the steps of the machine,
/// as `specs/Replaying.antt` says.
pub fn open<D: Disk>(alloc: Global, disk: &mut D) -> Result<(Core, Opened), LogStop>
    ensures open { IfOk result (λ r. D.tells → IsOpen D.seen D.images r.1.log disk.new (summary r.0)) }
    ensures right { IfOk result (λ r. 1 ≤ (summary r.0).queues → IsRightAndListed r.0) }
    ensures opened { IfOk result (λ r. D.tells → IsOpened (D.seen disk.new) r.1) }
    ensures comes { IfOk result (λ r. ComesTo r.1 (summary r.0)) }
    ensures admitted { IfOk result (λ r. LeadsTo r.1.header r.1.records r.0) }
    ensures state { IfOk result (λ r. D.tells → Replays (D.seen disk.old) r.0) }
    ensures reached { IfOk result (λ r. D.tells → IsOpenedTo (D.seen disk.old) r.0) }
    ensures refused { IfErr result (λ stop. D.tells → IsUnopened (D.seen disk.old) stop) }
    ensures seen { OnOk result (D.seen disk.new ≡ D.seen disk.old) }
    ensures any_moment { LeavesOnly D.moment D.left_since disk.old disk.new (D.images disk.old) }
    ensures cause { MatchResult result (λ _. D.faults disk.new ≡ D.faults disk.old)
        (IsOpenCause (D.faults disk.old) (D.faults disk.new)) }
{
    let opened = Log::reopen(alloc, disk)?;
    let core = state_of(alloc, &opened)?;
    Ok((core, opened))
}

/// Opens a store as [`open`] does: a session over its state, and its log.
pub fn reopen<D: Disk>(alloc: Global, disk: &mut D) -> Result<(Session, Log), LogStop>
    ensures open { IfOk result (λ r. D.tells → IsOpen D.seen D.images r.1 disk.new (summary r.0.core)) }
    ensures right { IfOk result (λ r. 1 ≤ (summary r.0.core).queues → IsRightAndListed r.0.core) }
    ensures outside { IfOk result (λ r. unended r.0 ≡ None) }
    ensures state { IfOk result (λ r. D.tells → Replays (D.seen disk.old) r.0.core) }
    ensures reached { IfOk result (λ r. D.tells → IsOpenedTo (D.seen disk.old) r.0.core) }
    ensures refused { IfErr result (λ stop. D.tells → IsUnopened (D.seen disk.old) stop) }
    ensures seen { OnOk result (D.seen disk.new ≡ D.seen disk.old) }
    ensures any_moment { LeavesOnly D.moment D.left_since disk.old disk.new (D.images disk.old) }
    ensures cause { MatchResult result (λ _. D.faults disk.new ≡ D.faults disk.old)
        (IsOpenCause (D.faults disk.old) (D.faults disk.new)) }
{
    let (core, opened) = open(alloc, disk)?;
    let Opened {
        log,
        header: _,
        records: _,
    } = opened;
    Ok((Session::over(alloc, core), log))
}
