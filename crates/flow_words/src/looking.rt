//! The words that only look into a store: `explain`, `verify` and `overdue`.
ghost use Rattle.std.specs.Prelude.{◌≡◌, ℕ, codes, MatchResult, if◌then◌else◌};
ghost use Rattle.flow_words.specs.Crashes.{IsFailing};
ghost use Rattle.flow_words.specs.Endings.{WordCause};
ghost use Rattle.flow_words.specs.Looking.{PrintsExplained, PrintsOverdue, PrintsVerdict, PrintsVerified};
ghost use Rattle.flow_words.specs.Outside.{channels, files, IfSettled, KeepsFiles};
ghost use Rattle.flow_words.specs.Printed.{Prints};
ghost use Rattle.flow_words.specs.Scripts.{status_of_word};
ghost use Rattle.flow_words.specs.declared.status.Status.TheVariants.{Done as DoneStatus, Usage as UsageStatus};
ghost use Rattle.flow_words.specs.declared.status.Status.TheVariants.{Refused as RefusedStatus};

use crate::refusing::refuse;
use crate::script::{line_status, print};
use crate::status::Status;
use certificates::named_activity;
use deadlines::overdue_text;
use explain::{explain_word, verify_lines};
use flow_core::Core;
use flow_disk::Disk;
use flow_io::{Sink, Source};
use flow_session::reopen;
use std::alloc::Global;
use text_words::all_lines;

/// Prints an answer, and says whether it is a refusal.
#[tactic(auto, using(crate::proofs::EndingLemmas::word_prints))]
pub fn print_answer<K: Sink>(out: &mut K, text: &[u8], is_refused: bool) -> Result<Status, Status>
    ensures cause { (read read' store store' : ℕ) → WordCause read read' (K.faults out.old)
        (K.faults out.new) store store' (status_of_word result) }
    ensures ended { MatchResult result (λ status. status ≡ (if is_refused then RefusedStatus else DoneStatus))
        IsFailing }
    ensures prints { Prints text.now (if is_refused then RefusedStatus else DoneStatus) (K.held out.old)
        (K.held out.new) (status_of_word result) }
{
    print(out, text)?;
    Ok(if is_refused {
        Status::Refused
    } else {
        Status::Done
    })
}

/// Prints that the words are none that the program knows.
#[tactic(auto, using(crate::proofs::EndingLemmas::word_prints))]
pub fn print_usage<K: Sink>(out: &mut K) -> Result<Status, Status>
    ensures cause { (read read' store store' : ℕ) → WordCause read read' (K.faults out.old)
        (K.faults out.new) store store' (status_of_word result) }
    ensures prints { Prints (codes "no USAGE\n") UsageStatus (K.held out.old) (K.held out.new) (status_of_word result) }
{
    print(out, b"no USAGE\n")?;
    Ok(Status::Usage)
}

/// Prints why an activity is dead or finished. The word is judged before the store is opened.
pub fn explain_in<K: Sink, D: Disk>(
    alloc: Global,
    activity: &[u8],
    out: &mut K,
    disk: &mut D,
) -> Result<Status, Status>
    ensures keeps { IfSettled (files D.Disk disk.old disk.new) (KeepsFiles (files D.Disk disk.old disk.new)) }
    ensures cause { (read read' : ℕ) → WordCause read read' (K.faults out.old) (K.faults out.new) (D.faults disk.old)
        (D.faults disk.new) (status_of_word result) }
    ensures prints { PrintsExplained activity.now (files D.Disk disk.old disk.new) (K.held out.old) (K.held out.new)
        (status_of_word result) }
{
    if named_activity(alloc, activity)?.is_none() {
        return print_usage(out);
    }
    match reopen(alloc, disk) {
        Err(stop) => refuse(alloc, out, &stop),
        Ok((session, _log)) => match explain_word(alloc, session.core(), activity)? {
            None => print_usage(out),
            Some((text, is_refused)) => print_answer(out, &text, is_refused),
        },
    }
}

/// Reads a certificate to its end, and prints whether it holds over a state.
#[tactic(auto, using(crate::proofs::EndingLemmas::word_stops))]
fn verify_over<S: Source, K: Sink>(
    alloc: Global,
    core: &Core,
    src: &mut S,
    out: &mut K,
) -> Result<Status, Status>
    ensures cause { (store : ℕ) → WordCause (S.faults src.old) (S.faults src.new) (K.faults out.old)
        (K.faults out.new) store store (status_of_word result) }
    ensures prints { PrintsVerdict (S.left src.old) (K.held out.old) (K.held out.new) (status_of_word result) core.now }
{
    match all_lines(alloc, src) {
        Err(stop) => Err(line_status(stop)),
        Ok(lines) => {
            let (text, is_refused) = verify_lines(alloc, core, &lines)?;
            print_answer(out, &text, is_refused)
        }
    }
}

/// Prints whether the certificate that is read holds over a store.
pub fn verify_in<S: Source, K: Sink, D: Disk>(
    alloc: Global,
    src: &mut S,
    out: &mut K,
    disk: &mut D,
) -> Result<Status, Status>
    ensures keeps { IfSettled (files D.Disk disk.old disk.new) (KeepsFiles (files D.Disk disk.old disk.new)) }
    ensures cause { WordCause (S.faults src.old) (S.faults src.new) (K.faults out.old) (K.faults out.new)
        (D.faults disk.old) (D.faults disk.new) (status_of_word result) }
    ensures prints { PrintsVerified (channels S.Source K.Sink src.old src.new out.old out.new)
        (files D.Disk disk.old disk.new) (status_of_word result) }
{
    match reopen(alloc, disk) {
        Err(stop) => refuse(alloc, out, &stop),
        Ok((session, _log)) => verify_over(alloc, session.core(), src, out),
    }
}

/// Prints the items of a store that have been open for too long.
pub fn overdue_in<K: Sink, D: Disk>(
    alloc: Global,
    out: &mut K,
    disk: &mut D,
) -> Result<Status, Status>
    ensures keeps { IfSettled (files D.Disk disk.old disk.new) (KeepsFiles (files D.Disk disk.old disk.new)) }
    ensures cause { (read read' : ℕ) → WordCause read read' (K.faults out.old) (K.faults out.new) (D.faults disk.old)
        (D.faults disk.new) (status_of_word result) }
    ensures prints { PrintsOverdue (files D.Disk disk.old disk.new) (K.held out.old) (K.held out.new)
        (status_of_word result) }
{
    match reopen(alloc, disk) {
        Err(stop) => refuse(alloc, out, &stop),
        Ok((session, _log)) => {
            let text = overdue_text(alloc, session.core())?;
            print_answer(out, &text, false)
        }
    }
}
