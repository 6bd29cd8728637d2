//! A session: the state, and the text of an IMPORT that isn't ended yet.
ghost use Rattle.std.specs.Prelude.{◌≡◌, ◌<◌, ◌≤◌, ◌+◌, ◌++◌, ◌∷◌, [], Some, None, length, IfOk, IfErr, OnOk};
ghost use Rattle.std.specs.Prelude.{MatchResult};
ghost use Rattle.std.specs.Fmt.{decimal as digits_of};
ghost use Rattle.flow_disk.specs.Moments.{LeavesOnly};
ghost use Rattle.flow_model.specs.declared.commands.Command.TheVariants.{Checkpoint};
ghost use Rattle.flow_core.specs.declared.applying.Note.{Note as NoteOf};
ghost use Rattle.worklist_laws.specs.Asking.{AsksOpen};
ghost use Rattle.machine_laws.specs.Keyed.{AreKeyed};
ghost use Rattle.worklist_laws.specs.Shelved.{IsRightAndListed};
ghost use Rattle.flow_txn.specs.Ranges.{IsInRange};
ghost use Rattle.flow_txn.specs.Records.{record_bytes};
ghost use Rattle.flow_core.specs.Allowing.{IsAllowed, CountsRoot};
ghost use Rattle.flow_core.specs.Replies.{applied_text, refusal_text};
ghost use Rattle.flow_core.specs.Summaries.{summary};
ghost use Rattle.flow_core.specs.Verdicts.{IsNoteOf};
ghost use Rattle.flow_core.specs.Queries.{IsAnswer};
ghost use Rattle.machine.specs.States.{blank};
ghost use Rattle.machine_laws.specs.Applied.{Applied};
ghost use Rattle.machine_laws.specs.Viewed.{view};
ghost use Rattle.flow_session.specs.Inputs.{given, Line, SaysCheckpoint, AsksCheckpoint, unended_in, is_end};
ghost use Rattle.flow_session.specs.Inputs.{with_line, unended, IsCommanded, ServesLine};
ghost use Rattle.flow_session.specs.Inputs.{ServesText, ServesInside, IsServed};
ghost use Rattle.flow_session.specs.Replying.{IsObeyed, checkpoint_text};
ghost use Rattle.flow_session.specs.Asking.{Asks, AsksSaid, AsksOutside, AsksText, AsksInside, AsksOf};
ghost use Rattle.flow_session.specs.Leading.{MakesAsked};
ghost use Rattle.flow_session.specs.Fitting.{AreFitNow, HasFitRecords, IsFitNext};
ghost use Rattle.flow_session.specs.Serving.{WithOrWithout};
ghost use Rattle.flow_session.specs.Stopping.{IsStopCause};
ghost use Rattle.flow_session.specs.declared.serving.Stop.TheVariants.{NoMemory};

use crate::journal::Journal;
use command_lang::{CommandFault, Reader};
use flow_core::{Core, Refusal, Verdict, write_applied, write_refusal};
use flow_model::{Bytes, Command, Query, Transaction};
use flow_text::decimal;
use std::alloc::{AllocError, AllocFailed, Global};
use thiserror::Error;

/// The greatest number of bytes of a text that is judged; a longer one breaks the same rule, however it goes on.
const MOST_TEXT: usize = 1_048_576;

/// The greatest number of bytes in a line.
const MOST_LINE: usize = 65_536;

/// The number of bytes for which a reply begins with room: with it a usual reply isn't moved while it grows.
const USUAL_REPLY: usize = 64;

/// One input of a session.
#[derive(Clone, Copy)]
pub enum Input<'a> {
    /// A line of at most 65,536 bytes, without its line feed.
    Text(&'a [u8]),
    TooLong,
    Ended,
}

/// Why a session stops. It isn't used any more then.
#[derive(Clone, Copy, Debug, PartialEq, Eq, Drop, Error)]
pub enum Stop {
    /// The disk failed: its count of faults rose.
    #[error("StoreFault")]
    StoreFault,
    /// There was no memory.
    #[error("NoMemory")]
    NoMemory,
}

impl From<AllocError> for Stop {
    ghost from_gives = { λ _ e. e ≡ NoMemory };

    fn from(_fault: AllocError) -> Stop {
        Stop::NoMemory
    }
}

impl<T: Drop> From<AllocFailed<T>> for Stop {
    ghost from_gives = { λ _ e. e ≡ NoMemory };

    fn from(_fault: AllocFailed<T>) -> Stop {
        Stop::NoMemory
    }
}

/// The lines of an IMPORT so far.
#[derive(Drop)]
struct Gathered {
    text: Vec<u8>,
    has_long: bool,
}

/// A state that is served.
#[derive(Drop)]
pub struct Session {
    pub(crate) alloc: Global,
    pub(crate) core: Core,
    reader: Reader,
    gathered: Option<Gathered>,
}

/// A transaction that is applied, and only has to be kept.
#[derive(Drop)]
pub(crate) struct Prepared {
    pub(crate) payload: Vec<u8>,
    applied: flow_core::Applied,
}

/// A reply to be written: empty, with room for a usual one.
pub(crate) fn begun_reply(alloc: Global) -> Result<Vec<u8>, Stop>
    ensures empty { IfOk result (λ out. out.items ≡ []) }
    ensures silent { IfErr result (λ stop. stop ≡ NoMemory) }
{
    Ok(Vec::with_capacity(alloc, USUAL_REPLY)?)
}

/// A reply of words alone.
fn words(alloc: Global, text: &[u8]) -> Result<Vec<u8>, Stop>
    ensures said { IfOk result (λ out. out.items ≡ text.now) }
    ensures silent { IfErr result (λ stop. stop ≡ NoMemory) }
{
    Ok(Vec::from_slice(alloc, text)?)
}

/// A reply of words, a number and a line feed.
pub(crate) fn numbered(alloc: Global, text: &[u8], number: u64) -> Result<Vec<u8>, Stop>
    ensures said { IfOk result (λ out. out.items ≡ text.now ++ digits_of number ++ 10 ∷ []) }
    ensures silent { IfErr result (λ stop. stop ≡ NoMemory) }
{
    let mut out = begun_reply(alloc)?;
    out.extend_from_slice(text)?;
    decimal(&mut out, number)?;
    out.push(b'\n')?;
    Ok(out)
}

/// The reply of a refusal.
fn refused(alloc: Global, refusal: &Refusal) -> Result<Vec<u8>, Stop>
    ensures said { IfOk result (λ out. out.items ≡ refusal_text refusal.now) }
    ensures silent { IfErr result (λ stop. stop ≡ NoMemory) }
{
    let mut out = begun_reply(alloc)?;
    write_refusal(&mut out, refusal)?;
    Ok(out)
}

/// Whether a line ends an IMPORT: `.`, or `.` and a carriage return.
fn ends_import(line: &[u8]) -> bool
    ensures { result ≡ is_end line.now }
{
    line == b".".as_slice() || line == b".\r".as_slice()
}

impl Gathered {
    /// Adds a line, as far as the text is judged.
    fn add(&mut self, line: &[u8]) -> Result<(), AllocError>
        ensures { OnOk result (unended_in self.new
            ≡ record (unended_in self.old) { text = with_line self.old.text.items line.now }) }
    {
        if self.text.len() <= MOST_TEXT {
            self.text.extend_from_slice(line)?;
            self.text.push(b'\n')?;
        }
        Ok(())
    }
}

impl Session {
    /// A session over the empty history.
    pub fn fresh(alloc: Global, queues: u8, limit: u64) -> Result<Session, AllocError>
        ensures begins { IfOk result (λ session. summary session.core
            ≡ record { queues = queues; limit = limit; transactions = 0; roots = 0; live = [] }) }
        ensures state { IfOk result (λ session. view session.core ≡ blank queues limit) }
        ensures keyed { IfOk result (λ session. AreKeyed session.core) }
        ensures right { 1 ≤ queues → IfOk result (λ session. IsRightAndListed session.core) }
        ensures outside { IfOk result (λ session. unended session ≡ None) }
    {
        Ok(Session {
            alloc,
            core: Core::new(alloc, queues, limit)?,
            reader: Reader::new(alloc),
            gathered: None,
        })
    }

    /// A session over a state.
    pub fn over(alloc: Global, core: Core) -> Session
        ensures core { result.core ≡ core }
        ensures outside { unended result ≡ None }
    {
        Session {
            alloc,
            core,
            reader: Reader::new(alloc),
            gathered: None,
        }
    }

    /// The state.
    pub fn core(&self) -> &Core
        ensures { result.now ≡ self.now.core }
    {
        &self.core
    }

    /// The payload of a transaction under the next number, with the transaction applied. It is kept next: nothing but
    /// its reply may want memory in between.
    pub(crate) fn prepare<J: Journal>(
        &mut self,
        journal: &J,
        t: Transaction,
    ) -> Result<Prepared, Stop>
        requires room { self.old.core.number < self.old.core.limit }
        requires allowed { IsAllowed self.old.core t }
        ensures applied { OnOk result (Applied self.old.core t self.new.core) }
        ensures counts { OnOk result (CountsRoot self.old.core t self.new.core) }
        ensures right { AsksOpen self.old.core t → IsRightAndListed self.old.core
            → OnOk result (IsRightAndListed self.new.core) }
        ensures gathers { OnOk result (self.new.gathered ≡ self.old.gathered) }
        ensures number { IfOk result (λ prepared. prepared.applied.number ≡ self.old.core.number + 1) }
        ensures note { IfOk result (λ prepared. IsNoteOf self.old.core t self.new.core prepared.applied.note) }
        ensures spelled { IfOk result (λ prepared. J.tells
            → prepared.payload.items ≡ record_bytes (self.old.core.number + 1) t) }
        ensures range { J.tells → OnOk result (IsInRange (self.old.core.number + 1) t) }
        ensures silent { IfErr result (λ stop. stop ≡ NoMemory) }
    {
        let payload = journal.payload(self.core.next_number(), &t)?;
        let applied = self.core.apply(t)?;
        Ok(Prepared { payload, applied })
    }

    /// Makes a transaction: all that may want memory is done first, and then it is kept, before anything is
    /// answered.
    fn make<J: Journal>(
        &mut self,
        journal: &mut J,
        t: Transaction,
        out: &mut Vec<u8>,
    ) -> Result<(), Stop>
        requires room { self.old.core.number < self.old.core.limit }
        requires open { J.tells → J.holds journal.old (summary self.old.core) }
        requires allowed { IsAllowed self.old.core t }
        ensures applied { OnOk result (Applied self.old.core t self.new.core) }
        ensures counts { OnOk result (CountsRoot self.old.core t self.new.core) }
        ensures right { AsksOpen self.old.core t → IsRightAndListed self.old.core
            → OnOk result (IsRightAndListed self.new.core) }
        ensures gathers { OnOk result (self.new.gathered ≡ self.old.gathered) }
        ensures told { OnOk result ((note : NoteOf) × IsNoteOf self.old.core t self.new.core note
            × (out.new.items
            ≡ out.old.items ++ applied_text (record { number = self.old.core.number + 1; note = note }))) }
        ensures kept { J.tells → OnOk result (J.holds journal.new (summary self.new.core)) }
        ensures cause { MatchResult result (λ _. J.faults journal.new ≡ J.faults journal.old)
            (IsStopCause (J.faults journal.old) (J.faults journal.new)) }
        ensures place { J.place journal.new ≡ J.place journal.old }
        ensures undone { IfErr result (λ stop. stop ≡ NoMemory → journal.new ≡ journal.old) }
        ensures any_moment { J.tells → LeavesOnly J.moment J.left_since journal.old journal.new
            (WithOrWithout t (summary self.old.core)) }
        ensures fit { J.tells → AreFitNow J.moment J.left_since journal.old → IsFitNext (summary self.old.core) t
            → LeavesOnly J.moment J.left_since journal.old journal.new HasFitRecords }
    {
        let prepared = self.prepare(journal, t)?;
        write_applied(out, &prepared.applied)?;
        journal.keep(&prepared.payload)
    }

    /// Judges a command, and makes its transaction where it is allowed.
    fn obey<J: Journal>(&mut self, journal: &mut J, command: &Command) -> Result<Vec<u8>, Stop>
        requires { J.tells → J.holds journal.old (summary self.old.core) }
        ensures kept { J.tells → OnOk result (J.holds journal.new (summary self.new.core)) }
        ensures cause { MatchResult result (λ _. J.faults journal.new ≡ J.faults journal.old)
            (IsStopCause (J.faults journal.old) (J.faults journal.new)) }
        ensures place { J.place journal.new ≡ J.place journal.old }
        ensures makes { MakesAsked J.tells J.holds J.moment J.left_since journal.old journal.new
            self.old.core self.new.core (Asks self.old.core command.now) result }
        ensures right { IsRightAndListed self.old.core → OnOk result (IsRightAndListed self.new.core) }
        ensures gathers { OnOk result (self.new.gathered ≡ self.old.gathered) }
        ensures replied { IfOk result (λ reply.
            IsObeyed self.old.core self.new.core command.now reply.items) }
    {
        match self.core.judge(command) {
            Ok(Verdict::Do(t)) => {
                let mut out = begun_reply(self.alloc)?;
                self.make(journal, t, &mut out)?;
                Ok(out)
            }
            Ok(Verdict::Same(root)) => numbered(self.alloc, b"ok SAME ", root),
            Ok(Verdict::Refused(refusal)) => refused(self.alloc, &refusal),
            Err(_) => Err(Stop::NoMemory),
        }
    }

    /// Moves the journal, which then keeps the live transactions alone.
    fn checkpoint<J: Journal>(&mut self, journal: &mut J) -> Result<Vec<u8>, Stop>
        requires { J.tells → J.holds journal.old (summary self.old.core) }
        ensures kept { J.tells → OnOk result (J.holds journal.new (summary self.new.core)) }
        ensures cause { MatchResult result (λ _. J.faults journal.new ≡ J.faults journal.old)
            (IsStopCause (J.faults journal.old) (J.faults journal.new)) }
        ensures makes { MakesAsked J.tells J.holds J.moment J.left_since journal.old journal.new
            self.old.core self.new.core (λ ts. ts ≡ []) result }
        ensures right { IsRightAndListed self.old.core → OnOk result (IsRightAndListed self.new.core) }
        ensures gathers { OnOk result (self.new.gathered ≡ self.old.gathered) }
        ensures same { self.new.core ≡ self.old.core }
        ensures moved { OnOk result (J.moved journal.old journal.new (summary self.old.core)) }
        ensures replied { IfOk result (λ reply. reply.items ≡ checkpoint_text (length self.old.core.live.items)) }
    {
        journal.checkpoint(&self.core)?;
        numbered(self.alloc, b"ok CHECKPOINT ", self.core.live().len() as u64)
    }

    /// The reply to a query.
    fn answer(&self, query: &Query) -> Result<Vec<u8>, Stop>
        ensures answers { IfOk result (λ reply. IsAnswer self.now.core query.now reply.items) }
        ensures silent { IfErr result (λ stop. stop ≡ NoMemory) }
    {
        Ok(self.core.answer(query)?)
    }

    /// The reply to a command.
    fn command<J: Journal>(&mut self, journal: &mut J, command: &Command) -> Result<Vec<u8>, Stop>
        requires open { J.tells → J.holds journal.old (summary self.old.core) }
        requires outside { self.old.gathered ≡ None }
        ensures kept { J.tells → OnOk result (J.holds journal.new (summary self.new.core)) }
        ensures cause { MatchResult result (λ _. J.faults journal.new ≡ J.faults journal.old)
            (IsStopCause (J.faults journal.old) (J.faults journal.new)) }
        ensures place { (command.now ≡ Checkpoint → ⊥) → J.place journal.new ≡ J.place journal.old }
        ensures makes { MakesAsked J.tells J.holds J.moment J.left_since journal.old journal.new
            self.old.core self.new.core (AsksSaid self.old.core command.now) result }
        ensures right { IsRightAndListed self.old.core → OnOk result (IsRightAndListed self.new.core) }
        ensures moved { command.now ≡ Checkpoint
            → OnOk result (J.moved journal.old journal.new (summary self.old.core)) }
        ensures served { IfOk result (λ reply.
            IsCommanded self.old.core self.new.core command.now (unended self.new) reply.items) }
    {
        match command {
            Command::Import(_) => {
                self.gathered = Some(Gathered {
                    text: Vec::new(self.alloc),
                    has_long: false,
                });
                Ok(Vec::new(self.alloc))
            }
            Command::Drain => self.drain(journal),
            Command::Checkpoint => self.checkpoint(journal),
            Command::Ask(query) => self.answer(query),
            _ => self.obey(journal, command),
        }
    }

    /// The reply to a line outside an IMPORT.
    fn line<J: Journal>(&mut self, journal: &mut J, line: &[u8]) -> Result<Vec<u8>, Stop>
        requires open { J.tells → J.holds journal.old (summary self.old.core) }
        requires outside { self.old.gathered ≡ None }
        ensures kept { J.tells → OnOk result (J.holds journal.new (summary self.new.core)) }
        ensures cause { MatchResult result (λ _. J.faults journal.new ≡ J.faults journal.old)
            (IsStopCause (J.faults journal.old) (J.faults journal.new)) }
        ensures place { (SaysCheckpoint (Line line.now) → ⊥) → J.place journal.new ≡ J.place journal.old }
        ensures makes { MakesAsked J.tells J.holds J.moment J.left_since journal.old journal.new
            self.old.core self.new.core (AsksOutside self.old.core (Line line.now)) result }
        ensures right { IsRightAndListed self.old.core → OnOk result (IsRightAndListed self.new.core) }
        ensures moved { SaysCheckpoint (Line line.now)
            → OnOk result (J.moved journal.old journal.new (summary self.old.core)) }
        ensures served { IfOk result (λ reply.
            ServesLine line.now self.old.core self.new.core (unended self.new) reply.items) }
    {
        if line.len() > MOST_LINE {
            return words(self.alloc, b"no LINE\n");
        }
        match self.reader.command(line) {
            Ok(None) => Ok(Vec::new(self.alloc)),
            Ok(Some(command)) => self.command(journal, &command),
            Err(CommandFault::Word(place)) => {
                numbered(self.alloc, b"no WORD ", u64::from(place))
            }
            Err(CommandFault::NoMemory) => Err(Stop::NoMemory),
        }
    }

    /// The reply to an IMPORT that is ended.
    fn imported<J: Journal>(&mut self, journal: &mut J, gathered: Gathered) -> Result<Vec<u8>, Stop>
        requires open { J.tells → J.holds journal.old (summary self.old.core) }
        requires outside { self.old.gathered ≡ None }
        ensures kept { J.tells → OnOk result (J.holds journal.new (summary self.new.core)) }
        ensures cause { MatchResult result (λ _. J.faults journal.new ≡ J.faults journal.old)
            (IsStopCause (J.faults journal.old) (J.faults journal.new)) }
        ensures place { J.place journal.new ≡ J.place journal.old }
        ensures makes { MakesAsked J.tells J.holds J.moment J.left_since journal.old journal.new
            self.old.core self.new.core (AsksText self.old.core (unended_in gathered)) result }
        ensures right { IsRightAndListed self.old.core → OnOk result (IsRightAndListed self.new.core) }
        ensures served { IfOk result (λ reply. ServesText gathered.has_long gathered.text.items
            self.old.core self.new.core (unended self.new) reply.items) }
    {
        let Gathered { text, has_long } = gathered;
        if has_long {
            return words(self.alloc, b"no LINE\n");
        }
        let command = Command::Import(Bytes::from_vec(text));
        self.obey(journal, &command)
    }

    /// The reply to an input inside an IMPORT; it is empty until the IMPORT is ended.
    fn gather<J: Journal>(
        &mut self,
        journal: &mut J,
        gathered: Gathered,
        input: Input<'_>,
    ) -> Result<Vec<u8>, Stop>
        requires open { J.tells → J.holds journal.old (summary self.old.core) }
        requires outside { self.old.gathered ≡ None }
        ensures kept { J.tells → OnOk result (J.holds journal.new (summary self.new.core)) }
        ensures cause { MatchResult result (λ _. J.faults journal.new ≡ J.faults journal.old)
            (IsStopCause (J.faults journal.old) (J.faults journal.new)) }
        ensures place { J.place journal.new ≡ J.place journal.old }
        ensures makes { MakesAsked J.tells J.holds J.moment J.left_since journal.old journal.new
            self.old.core self.new.core (AsksInside self.old.core (unended_in gathered) (given input.entry)) result }
        ensures right { IsRightAndListed self.old.core → OnOk result (IsRightAndListed self.new.core) }
        ensures served { IfOk result (λ reply. ServesInside (unended_in gathered) (given input.entry)
            self.old.core self.new.core (unended self.new) reply.items) }
    {
        let mut gathered = gathered;
        match input {
            Input::Text(line) if ends_import(line) => return self.imported(journal, gathered),
            Input::Text(line) => gathered.add(line)?,
            Input::TooLong => gathered.has_long = true,
            Input::Ended => {
                return if gathered.has_long {
                    words(self.alloc, b"no LINE\n")
                } else {
                    words(self.alloc, b"no UNENDED\n")
                };
            }
        }
        self.gathered = Some(gathered);
        Ok(Vec::new(self.alloc))
    }

    /// The reply to an input: empty for a line of blanks and comments, inside an IMPORT, and at the end.
    ///
    /// A line that can't be read and a command that isn't allowed have their refusal as the reply. `NoMemory` comes
    /// where there is no memory or the journal can't take a transaction or a checkpoint, `StoreFault` where it may not
    /// have kept one; then nothing is replied. Also then the call made only transactions for which the input asks:
    /// under `NoMemory` the journal holds exactly those, under `StoreFault` a crash leaves all of them or all but the
    /// last.
    pub fn serve<J: Journal>(&mut self, journal: &mut J, input: Input<'_>) -> Result<Vec<u8>, Stop>
        requires { J.tells → J.holds journal.old (summary self.old.core) }
        ensures kept { J.tells → OnOk result (J.holds journal.new (summary self.new.core)) }
        ensures cause { MatchResult result (λ _. J.faults journal.new ≡ J.faults journal.old)
            (IsStopCause (J.faults journal.old) (J.faults journal.new)) }
        ensures place { (AsksCheckpoint self.old (given input.entry) → ⊥) → J.place journal.new ≡ J.place journal.old }
        ensures makes { MakesAsked J.tells J.holds J.moment J.left_since journal.old journal.new
            self.old.core self.new.core (AsksOf self.old (given input.entry)) result }
        ensures right { IsRightAndListed self.old.core → OnOk result (IsRightAndListed self.new.core) }
        ensures moved { AsksCheckpoint self.old (given input.entry)
            → OnOk result (J.moved journal.old journal.new (summary self.old.core)) }
        ensures served { IfOk result (λ reply. IsServed self.old self.new (given input.entry) reply.items) }
    {
        if let Some(gathered) = self.gathered.take() {
            return self.gather(journal, gathered, input);
        }
        match input {
            Input::Text(line) => self.line(journal, line),
            Input::TooLong => words(self.alloc, b"no LINE\n"),
            Input::Ended => Ok(Vec::new(self.alloc)),
        }
    }
}
