//! Where transactions are kept.
ghost use Rattle.std.specs.Prelude.{◌≡◌, ℕ, ◌+◌, ◌≤◌, IfOk, IfErr, OnOk, MatchResult};
ghost use Rattle.flow_disk.specs.Images.{Image};
ghost use Rattle.flow_disk.specs.declared.disk.Slot.{Slot};
ghost use Rattle.flow_disk.specs.declared.disk.Slot.TheVariants.{A};
ghost use Rattle.flow_disk.specs.Moments.{LeavesOnly};
ghost use Rattle.flow_model.specs.declared.transactions.Transaction.{Transaction as TransactionOf};
ghost use Rattle.flow_txn.specs.Ranges.{IsInRange};
ghost use Rattle.flow_txn.specs.Records.{record_bytes};
ghost use Rattle.flow_core.specs.Summaries.{Summary, summary, next};
ghost use Rattle.flow_session.specs.Fitting.{AreFitAlone, AreFitNow, HasFitRecords, IsFitNext};
ghost use Rattle.flow_session.specs.Histories.{StandsFor};
ghost use Rattle.flow_session.specs.Serving.{WithOrWithout};
ghost use Rattle.flow_session.specs.Stopping.{IsStopCause};
ghost use Rattle.flow_session.specs.declared.serving.Stop.TheVariants.{NoMemory};

use crate::serving::Stop;
use flow_core::Core;
use flow_model::Transaction;
use std::alloc::Global;

/// What keeps the transactions of a session.
///
/// A journal may tell what a crash leaves of it. Of one that doesn't nothing is known.
pub trait Journal {
    /// Whether it tells what a crash leaves of it.
    ghost tells: { Type 0 };

    /// It is open, and all that a crash may leave now stands for this summary of a history.
    ghost holds: { Self → Summary → Type 0 };

    /// The moment, as a number that doesn't fall.
    ghost moment: { Self → ℕ };

    /// The number of its faults so far.
    ghost faults: { Self → ℕ };

    /// What a crash at some moment from that one on might have left.
    ghost left_since: { Self → ℕ → Image → Type 0 };

    /// The slot where it keeps, and the generation of that slot.
    ghost place: { Self → Slot × ℕ };

    /// From the first one to the second one it moved, and keeps the live transactions of this summary alone.
    ghost moved: { Self → Self → Summary → Type 0 };

    /// The payload of a transaction under a number; a journal that keeps nothing needs none. `NoMemory` comes
    /// where there is no memory, and where the transaction is out of the range of records, to which no session of the
    /// program comes: what couldn't be read back isn't kept.
    fn payload(&self, number: u64, t: &Transaction) -> Result<Vec<u8>, Stop>
        ensures spelled { IfOk result (λ bytes. tells → bytes.items ≡ record_bytes number t.now) }
        ensures range { IfOk result (λ bytes. tells → IsInRange number t.now) }
        ensures silent { IfErr result (λ stop. stop ≡ NoMemory) };

    /// Keeps a payload: that of the next transaction. `StoreFault` comes where its count of faults rose, so that it
    /// may not be kept; then a crash leaves the history with or without it. `NoMemory` comes where it can take no
    /// more; then nothing was done.
    fn keep(&mut self, payload: &[u8]) -> Result<(), Stop>
        requires open { tells → (s : Summary) × holds self.old s }
        ensures kept { (s : Summary) (t : TransactionOf) → tells → holds self.old s
            → payload.now ≡ record_bytes (s.transactions + 1) t → IsInRange (s.transactions + 1) t
            → OnOk result (holds self.new (next t s)) }
        ensures any_moment { (s : Summary) (t : TransactionOf) → tells → holds self.old s
            → payload.now ≡ record_bytes (s.transactions + 1) t → IsInRange (s.transactions + 1) t
            → LeavesOnly moment left_since self.old self.new (WithOrWithout t s) }
        ensures fit { (s : Summary) (t : TransactionOf) → tells → holds self.old s
            → payload.now ≡ record_bytes (s.transactions + 1) t → IsInRange (s.transactions + 1) t
            → AreFitNow moment left_since self.old → IsFitNext s t
            → LeavesOnly moment left_since self.old self.new HasFitRecords }
        ensures place { place self.new ≡ place self.old }
        ensures undone { IfErr result (λ stop. stop ≡ NoMemory → self.new ≡ self.old) }
        ensures cause { MatchResult result (λ _. faults self.new ≡ faults self.old)
            (IsStopCause (faults self.old) (faults self.new)) };

    /// Keeps the live transactions alone from now on. `StoreFault` comes where its count of faults rose; then a
    /// crash leaves the same history. `NoMemory` comes where there is no memory, and where it can't move; then it
    /// keeps what it kept, where it kept it.
    fn checkpoint(&mut self, core: &Core) -> Result<(), Stop>
        requires open { tells → holds self.old (summary core.now) }
        ensures kept { tells → OnOk result (holds self.new (summary core.now)) }
        ensures moved { OnOk result (moved self.old self.new (summary core.now)) }
        ensures any_moment { tells → LeavesOnly moment left_since self.old self.new (StandsFor (summary core.now)) }
        ensures fit { tells → AreFitNow moment left_since self.old → AreFitAlone (summary core.now)
            → LeavesOnly moment left_since self.old self.new HasFitRecords }
        ensures stays { IfErr result (λ stop. stop ≡ NoMemory → tells
            → (place self.new ≡ place self.old) × holds self.new (summary core.now)) }
        ensures cause { MatchResult result (λ _. faults self.new ≡ faults self.old)
            (IsStopCause (faults self.old) (faults self.new)) };

    /// At one moment a crash leaves what it may leave then.
    ghost at_rest: { (journal : Self) (s : Summary) (c : Image) → tells → holds journal s
        → left_since journal (moment journal) c → StandsFor s c };

    /// This moment is one of those since an earlier one.
    ghost counts_now: { (journal : Self) (t : ℕ) (c : Image) → t ≤ moment journal
        → left_since journal (moment journal) c → left_since journal t c };
}

/// Keeps nothing: a history in memory.
#[derive(Clone, Copy, Debug, PartialEq, Eq)]
pub struct NoJournal {
    alloc: Global,
}

impl NoJournal {
    /// A journal that keeps nothing.
    pub fn new(alloc: Global) -> NoJournal {
        NoJournal { alloc }
    }
}

impl Journal for NoJournal {
    ghost tells = { ⊥ };

    ghost holds = { λ _ _. ⊥ };

    ghost moment = { λ _. 0 };

    ghost faults = { λ _. 0 };

    ghost left_since = { λ _ _ _. ⊥ };

    ghost place = { λ _. (A, 0) };

    ghost moved = { λ _ _ _. Unit {0} };

    ghost at_rest = { λ _ _ _ none. absurd none };

    ghost counts_now = { λ _ _ _ _ none. none };

    fn payload(&self, _number: u64, _t: &Transaction) -> Result<Vec<u8>, Stop> {
        Ok(Vec::new(self.alloc))
    }

    fn keep(&mut self, _payload: &[u8]) -> Result<(), Stop> {
        Ok(())
    }

    fn checkpoint(&mut self, _core: &Core) -> Result<(), Stop> {
        Ok(())
    }
}
