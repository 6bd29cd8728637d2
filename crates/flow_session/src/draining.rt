//! A DRAIN: the queues are served in turn, until all are empty or the limit is met.
ghost use Rattle.std.specs.Prelude.{◌≡◌, ℕ, ◌<◌, ◌≤◌, true, false, if◌then◌else◌, None, length, IfOk, IfErr, IfSome};
ghost use Rattle.std.specs.Prelude.{OnOk, MatchResult};
ghost use Rattle.worklist_laws.specs.Shelved.{IsRightAndListed};
ghost use Rattle.recover_queue.specs.Queues.{is_quiet};
ghost use Rattle.flow_core.specs.Answers.{has_message};
ghost use Rattle.flow_model.specs.declared.commands.Command.TheVariants.{Drain as DrainOf, Turn as TurnOf};
ghost use Rattle.flow_core.specs.Summaries.{summary};
ghost use Rattle.flow_session.specs.Asking.{Asks, IsTurnOf};
ghost use Rattle.flow_session.specs.Draining.{IsNextQueue, IsDrained, queue_behind, turns_text, full_text};
ghost use Rattle.flow_session.specs.Leading.{MakesAsked};
ghost use Rattle.flow_session.specs.Stopping.{IsStopCause};
ghost use Rattle.flow_session.specs.declared.serving.Stop.TheVariants.{NoMemory};

use crate::journal::Journal;
use crate::serving::{Session, Stop, begun_reply, numbered};
use flow_core::Verdict;
use flow_model::Command;
use flow_text::decimal;

impl Session {
    /// Whether a queue has a message.
    fn waits(&self, queue: u64) -> bool
        ensures { result ≡ has_message self.now.core queue }
    {
        queue <= u64::from(self.core.queue_count()) && self.core.has_message(queue as u8)
    }

    /// The first queue with a message, from one up to before another one.
    fn queue_within(&self, from: u64, to: u64) -> Option<u64>
        ensures some { IfSome result (λ queue. (from ≤ queue) × (queue < to)
            × (has_message self.now.core queue ≡ true)) }
        ensures first { IfSome result (λ queue. (other : ℕ) → from ≤ other → other < queue
            → has_message self.now.core other ≡ false) }
        ensures none { result ≡ None
            → (other : ℕ) → from ≤ other → other < to → has_message self.now.core other ≡ false }
    {
        for queue in from..to {
            if self.waits(queue) {
                return Some(queue);
            }
        }
        None
    }

    /// The first queue with a message in turn from this one on; None exactly where all are empty.
    fn next_queue(&self, from: u64) -> Option<u64>
        requires { 1 ≤ from }
        ensures some { IfSome result (IsNextQueue self.now.core from) }
        ensures none { result ≡ None → is_quiet self.now.core.queues ≡ true }
    {
        let end = u64::from(self.core.queue_count()) + 1;
        match self.queue_within(from, end) {
            Some(queue) => Some(queue),
            None => self.queue_within(1, from),
        }
    }

    /// The queue behind this one, in turn.
    fn behind(&self, queue: u64) -> u64
        ensures { result ≡ queue_behind (length self.now.core.queues) queue }
    {
        if queue < u64::from(self.core.queue_count()) {
            queue + 1
        } else {
            1
        }
    }

    /// Takes the message at the front of a queue, without a reply.
    fn turn<J: Journal>(&mut self, journal: &mut J, queue: u64) -> Result<(), Stop>
        requires open { J.tells → J.holds journal.old (summary self.old.core) }
        requires room { self.old.core.number < self.old.core.limit }
        requires has { has_message self.old.core queue ≡ true }
        ensures kept { J.tells → OnOk result (J.holds journal.new (summary self.new.core)) }
        ensures cause { MatchResult result (λ _. J.faults journal.new ≡ J.faults journal.old)
            (IsStopCause (J.faults journal.old) (J.faults journal.new)) }
        ensures place { J.place journal.new ≡ J.place journal.old }
        ensures makes { MakesAsked J.tells J.holds J.moment J.left_since journal.old journal.new
            self.old.core self.new.core (λ ts. Asks self.old.core (TurnOf queue) ts
            × OnOk result (IsTurnOf self.old.core self.new.core queue ts)) result }
        ensures right { IsRightAndListed self.old.core → OnOk result (IsRightAndListed self.new.core) }
        ensures gathers { OnOk result (self.new.gathered ≡ self.old.gathered) }
    {
        match self.core.judge(&Command::Turn(queue)) {
            Ok(Verdict::Do(t)) => {
                let prepared = self.prepare(journal, t)?;
                journal.keep(&prepared.payload)
            }
            Ok(Verdict::Same(_)) => unreachable!(),
            Ok(Verdict::Refused(_)) => unreachable!(),
            Err(_) => Err(Stop::NoMemory),
        }
    }

    /// The reply of a DRAIN that made this number of turns.
    fn drained(&self, turns: u64) -> Result<Vec<u8>, Stop>
        ensures said { IfOk result (λ reply. reply.items ≡ (if is_quiet self.now.core.queues
            then turns_text turns else full_text self.now.core.limit turns)) }
        ensures silent { IfErr result (λ stop. stop ≡ NoMemory) }
    {
        if self.core.is_quiet() {
            return numbered(self.alloc, b"ok TURNS ", turns);
        }
        let mut out = begun_reply(self.alloc)?;
        out.extend_from_slice(b"no FULL ")?;
        decimal(&mut out, self.core.limit())?;
        out.extend_from_slice(b" TURNS ")?;
        decimal(&mut out, turns)?;
        out.push(b'\n')?;
        Ok(out)
    }

    /// Takes messages from the queues in turn, until all are empty or the limit is met.
    pub(crate) fn drain<J: Journal>(&mut self, journal: &mut J) -> Result<Vec<u8>, Stop>
        requires { J.tells → J.holds journal.old (summary self.old.core) }
        ensures kept { J.tells → OnOk result (J.holds journal.new (summary self.new.core)) }
        ensures cause { MatchResult result (λ _. J.faults journal.new ≡ J.faults journal.old)
            (IsStopCause (J.faults journal.old) (J.faults journal.new)) }
        ensures place { J.place journal.new ≡ J.place journal.old }
        ensures makes { MakesAsked J.tells J.holds J.moment J.left_since journal.old journal.new
            self.old.core self.new.core (Asks self.old.core DrainOf) result }
        ensures right { IsRightAndListed self.old.core → OnOk result (IsRightAndListed self.new.core) }
        ensures gathers { OnOk result (self.new.gathered ≡ self.old.gathered) }
        ensures replied { IfOk result (λ reply. IsDrained self.old.core self.new.core reply.items) }
    {
        let mut turns = 0u64;
        let mut queue = 1u64;
        while !self.core.is_full() {
            let Some(next) = self.next_queue(queue) else {
                return self.drained(turns);
            };
            queue = self.behind(next);
            self.turn(journal, next)?;
            turns = turns.saturating_add(1);
        }
        self.drained(turns)
    }
}
