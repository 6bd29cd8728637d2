//! The words that need no store: `check`, `fate`, `try` and `load`.
ghost use Rattle.std.specs.Prelude.{◌≡◌, ℕ, MatchResult};
ghost use Rattle.std.specs.Io.KnownBytes.{Keeps};
ghost use Rattle.flow_words.specs.Endings.{PrintCause, EndCause};
ghost use Rattle.flow_words.specs.Loading.{PrintsLoaded};
ghost use Rattle.flow_words.specs.Numbers.{AreQueues};
ghost use Rattle.flow_words.specs.Printed.{Prints, PrintsAnswer, IsCheckOf, IsFateOf, answer_status};
ghost use Rattle.flow_words.specs.Scripts.{TriesScript};
ghost use Rattle.flow_words.specs.declared.status.Status.TheVariants.{NoMemory as NoMemoryStatus};

use crate::load::load;
use crate::numbers::Settings;
use crate::script::{line_status, print, try_script};
use crate::status::Status;
use flow_io::{Sink, Source};
use std::alloc::{AllocError, Global};
use text_words::{Answer, Input, checked, fated};

/// Prints a text, and ends with this status where that goes well.
fn print_and_end<K: Sink>(out: &mut K, text: &[u8], status: Status) -> Status
    requires { (before now : ℕ) → PrintCause before now status }
    ensures cause { PrintCause (K.faults out.old) (K.faults out.new) result }
    ensures prints { Prints text.now status (K.held out.old) (K.held out.new) result }
{
    match print(out, text) {
        Ok(()) => status,
        Err(status) => status,
    }
}

/// Prints an answer.
fn end_with<K: Sink>(out: &mut K, answer: Result<Answer, AllocError>) -> Status
    ensures cause { PrintCause (K.faults out.old) (K.faults out.new) result }
    ensures prints { MatchResult answer (λ answer. Prints answer.text.items (answer_status answer) (K.held out.old)
        (K.held out.new) result) (λ _. (result ≡ NoMemoryStatus) × Keeps (K.held out.old) (K.held out.new)) }
{
    match answer {
        Err(_) => Status::NoMemory,
        Ok(answer) => {
            if answer.is_refused {
                print_and_end(out, &answer.text, Status::Refused)
            } else {
                print_and_end(out, &answer.text, Status::Done)
            }
        }
    }
}

/// The word `check`: reads an input, and prints what is answered to it.
#[tactic(auto, using(crate::proofs::EndingLemmas::ends_stops, crate::proofs::EndingLemmas::ends_print))]
pub fn answer_check<S: Source, K: Sink>(alloc: Global, src: &mut S, out: &mut K) -> Status
    ensures cause { EndCause (S.faults src.old) (S.faults src.new) (K.faults out.old) (K.faults out.new) result }
    ensures prints { PrintsAnswer (S.left src.old) (IsCheckOf (S.left src.old)) (K.held out.old) (K.held out.new)
        result }
{
    match Input::read(alloc, src, false) {
        Err(stop) => line_status(stop),
        Ok(input) => end_with(out, checked(alloc, &input)),
    }
}

/// The word `fate`: reads an input, and prints what is answered to it.
#[tactic(auto, using(crate::proofs::EndingLemmas::ends_stops, crate::proofs::EndingLemmas::ends_print))]
pub fn answer_fate<S: Source, K: Sink>(alloc: Global, src: &mut S, out: &mut K) -> Status
    ensures cause { EndCause (S.faults src.old) (S.faults src.new) (K.faults out.old) (K.faults out.new) result }
    ensures prints { PrintsAnswer (S.left src.old) (IsFateOf (S.left src.old)) (K.held out.old) (K.held out.new)
        result }
{
    match Input::read(alloc, src, true) {
        Err(stop) => line_status(stop),
        Ok(input) => end_with(out, fated(alloc, &input)),
    }
}

/// The word `try`: serves a script in memory.
#[tactic(auto, using(crate::proofs::EndingLemmas::ends_run))]
pub fn serve_script<S: Source, K: Sink>(
    alloc: Global,
    settings: Settings,
    src: &mut S,
    out: &mut K,
) -> Status
    requires { AreQueues settings.queues }
    ensures cause { EndCause (S.faults src.old) (S.faults src.new) (K.faults out.old) (K.faults out.new) result }
    ensures tries { TriesScript settings.queues settings.limit (S.left src.old) (K.held out.old)
        (K.held out.new) result }
{
    match try_script(alloc, settings, src, out) {
        Ok(()) => Status::Done,
        Err(status) => status,
    }
}

/// The word `load`: prints the line of a load.
#[tactic(auto, using(crate::proofs::EndingLemmas::ends_print))]
pub fn print_load<K: Sink>(alloc: Global, seed: u64, roots: u64, out: &mut K) -> Status
    ensures cause { (read : ℕ) → EndCause read read (K.faults out.old) (K.faults out.new) result }
    ensures prints { PrintsLoaded seed roots (K.held out.old) (K.held out.new) result }
{
    match load(alloc, seed, roots) {
        Err(_) => Status::NoMemory,
        Ok(text) => print_and_end(out, &text, Status::Done),
    }
}
