//! The top call, and the two words that make and serve a store in two files: `new` and `run`.
ghost use Rattle.std.specs.Prelude.{◌≡◌, ℕ, Some, List, [], ◌∷◌, ◌++◌, map, string_bytes, IfErr, IsOk};
ghost use Rattle.flow_disk.specs.Images.{Image};
ghost use Rattle.flow_core.specs.Summaries.{summary};
ghost use Rattle.flow_session.specs.Histories.{StandsFor, after};
ghost use Rattle.flow_session.specs.Keeping.{IsOpen};
ghost use Rattle.flow_session.specs.Serving.{Makes};
ghost use Rattle.flow_words.specs.Correct.{RunIsCorrect, PrintsWord, LeavesSource};
ghost use Rattle.flow_words.specs.Crashes.{IsFailing, EndsDone, MakesStore, ServesFiles, LeavesAtCrash, LeavesDisk};
ghost use Rattle.flow_words.specs.Endings.{RunCause, StopsScript, WordCause, IsCaused};
ghost use Rattle.flow_words.specs.Making.{PrintsMade};
ghost use Rattle.flow_words.specs.Numbers.{AreQueues, IsLimit};
ghost use Rattle.flow_words.specs.Outside.{channels, files, IfSettled};
ghost use Rattle.flow_words.specs.Said.{Say};
ghost use Rattle.flow_words.specs.Scripts.{status_of_word, ServesOver, RunsStore};

use crate::following::{follow_into, ship_from};
use crate::looking::{explain_in, overdue_in, print_answer, print_usage, verify_in};
use crate::numbers::Settings;
use crate::pure::{answer_check, answer_fate, print_load, serve_script};
use crate::refusing::refuse;
use crate::script::serve_all;
use crate::status::Status;
use crate::word::{Word, word_of};
use flow_disk::Disk;
use flow_io::{Sink, Source};
use flow_session::{Session, Stored, reopen};
use std::alloc::Global;
use txn_log::Log;

/// The bytes of the last word, where there is one.
fn last_word(words: &[String]) -> &[u8]
    ensures { (front : List (List ℕ)) (last : List ℕ) → map string_bytes words.now ≡ front ++ last ∷ []
        → result.now ≡ last }
{
    match words.last() {
        Some(word) => word.as_bytes(),
        None => &[],
    }
}

/// Makes a store.
fn make<K: Sink, D: Disk>(
    alloc: Global,
    settings: Settings,
    out: &mut K,
    disk: &mut D,
) -> Result<Status, Status>
    requires queues { AreQueues settings.queues }
    requires limit { IsLimit settings.limit }
    ensures store { IfSettled (files D.Disk disk.old disk.new)
        (MakesStore settings.queues settings.limit (files D.Disk disk.old disk.new) (EndsDone result)) }
    ensures cause { (read read' : ℕ) → WordCause read read' (K.faults out.old) (K.faults out.new) (D.faults disk.old)
        (D.faults disk.new) (status_of_word result) }
    ensures prints { PrintsMade settings.queues settings.limit (files D.Disk disk.old disk.new) (K.held out.old)
        (K.held out.new) (status_of_word result) }
{
    match Log::make(alloc, disk, settings.queues, settings.limit) {
        Err(stop) => refuse(alloc, out, &stop),
        Ok(_log) => print_answer(out, b"ok NEW\n", false),
    }
}

/// Serves a script over an opened store, and gives the disk back.
fn serve_store<S: Source, K: Sink, D: Disk + Drop>(
    alloc: Global,
    session: Session,
    log: Log,
    src: &mut S,
    out: &mut K,
    disk: D,
) -> (Result<(), Status>, D)
    requires open { D.tells → IsOpen D.seen D.images log disk (summary session.core) }
    ensures makes { Makes D.tells D.moment D.left_since disk result.1 (summary session.core) (λ ts. IsOk result.0
        → D.tells → (c : Image) → D.images result.1 c → StandsFor (after (summary session.core) ts) c) }
    ensures fails { IfErr result.0 IsFailing }
    ensures stops { IfErr result.0 StopsScript }
    ensures cause { IfErr result.0 (RunCause (S.faults src.old) (S.faults src.new) (K.faults out.old) (K.faults out.new)
        (D.faults disk) (D.faults result.1)) }
    ensures serves { ServesOver (channels S.Source K.Sink src.old src.new out.old out.new)
        (files D.Disk disk result.1) session log result.0 }
{
    let mut session = session;
    let mut journal = Stored::new(alloc, log, disk);
    let served = serve_all(alloc, &mut session, &mut journal, src, out);
    (served, journal.into_disk())
}

/// Opens a store, serves a script over it, and gives the disk back.
fn run_script<S: Source, K: Sink, D: Disk + Drop>(
    alloc: Global,
    src: &mut S,
    out: &mut K,
    disk: D,
) -> (Result<Status, Status>, D)
    ensures store { IfSettled (files D.Disk disk result.1)
        (ServesFiles (files D.Disk disk result.1) (EndsDone result.0)) }
    ensures cause { WordCause (S.faults src.old) (S.faults src.new) (K.faults out.old) (K.faults out.new)
        (D.faults disk) (D.faults result.1) (status_of_word result.0) }
    ensures runs { RunsStore (channels S.Source K.Sink src.old src.new out.old out.new)
        (files D.Disk disk result.1) (status_of_word result.0) }
{
    let mut disk = disk;
    match reopen(alloc, &mut disk) {
        Err(stop) => (refuse(alloc, out, &stop), disk),
        Ok((session, log)) => match serve_store(alloc, session, log, src, out, disk) {
            (Ok(()), disk) => (Ok(Status::Done), disk),
            (Err(status), disk) => (Err(status), disk),
        },
    }
}

/// Does what a word says that the words say, and gives the disk back.
fn obey<S: Source, K: Sink, D: Disk + Drop>(
    alloc: Global,
    word: Word,
    words: &[String],
    src: &mut S,
    out: &mut K,
    disk: D,
) -> (Result<Status, Status>, D)
    requires { Say (map string_bytes words.now) word }
    ensures prints { PrintsWord (map string_bytes words.now) (Some word)
        (channels S.Source K.Sink src.old src.new out.old out.new) (files D.Disk disk result.1)
        (status_of_word result.0) }
    ensures causes { IsCaused (Some word) (channels S.Source K.Sink src.old src.new out.old out.new)
        (files D.Disk disk result.1) (status_of_word result.0) }
    ensures crash { IfSettled (files D.Disk disk result.1)
        (LeavesAtCrash (Some word) (files D.Disk disk result.1) (EndsDone result.0)) }
    ensures source { LeavesSource (Some word) (channels S.Source K.Sink src.old src.new out.old out.new) }
    ensures untouched { LeavesDisk (Some word) (files D.Disk disk result.1) }
{
    let mut disk = disk;
    match word {
        Word::Check => (Ok(answer_check(alloc, src, out)), disk),
        Word::Fate => (Ok(answer_fate(alloc, src, out)), disk),
        Word::Try(settings) => (Ok(serve_script(alloc, settings, src, out)), disk),
        Word::Load { seed, roots } => (Ok(print_load(alloc, seed, roots, out)), disk),
        Word::New(settings) => (make(alloc, settings, out, &mut disk), disk),
        Word::Run => run_script(alloc, src, out, disk),
        Word::Follow => follow_into(alloc, src, out, disk),
        Word::Explain => (explain_in(alloc, last_word(words), out, &mut disk), disk),
        Word::Verify => (verify_in(alloc, src, out, &mut disk), disk),
        Word::Overdue => (overdue_in(alloc, out, &mut disk), disk),
        Word::Ship(number) => (ship_from(alloc, number, out, &mut disk), disk),
    }
}

/// The status of a word that ended so.
fn ended(end: Result<Status, Status>) -> Status
    ensures { result ≡ status_of_word end }
{
    match end {
        Ok(status) => status,
        Err(status) => status,
    }
}

/// Does what the words say: all that the program does. The disk is given back.
///
/// One word of the program is said, as `specs/Said.antt` says, or none, and then `no USAGE` is printed. What a word
/// prints stands in `specs/Correct.antt`, a line a word, and for each in a file of its own: an answer to a text
/// (`Printed`), a script that is served (`Scripts`, `Loading`), a store that is made (`Making`) or looked into
/// (`Looking`), a stream that is shipped or followed (`Shipping`, `Following`), or why a store isn't opened
/// (`Openings`).
///
/// Of a disk on which nothing is unsynced, a crash at any moment of the call leaves what was there; or, under
/// `new`, where no store was there, none or the one with the settings that the words name; or, under `run` and
/// `follow`, a store that stands for the history before with some of the transactions that the call makes, from the
/// first on. Where the status is `Done`, it leaves the new store, or the history with all of them.
///
/// `ReadFault`, `WriteFault` and `StoreFault` come only where the count of faults of the source, the sink and the disk
/// rose. Words that need no store leave the disk as it was, and those that read nothing the source.
pub fn run<S: Source, K: Sink, D: Disk + Drop>(
    alloc: Global,
    words: &[String],
    src: &mut S,
    out: &mut K,
    disk: D,
) -> (Status, D)
    ensures correct { RunIsCorrect (map string_bytes words.now)
        (channels S.Source K.Sink src.old src.new out.old out.new) (files D.Disk disk result.1) result.0 }
{
    let Some(word) = word_of(words) else {
        return (ended(print_usage(out)), disk);
    };
    let (end, disk) = obey(alloc, word, words, src, out, disk);
    (ended(end), disk)
}
