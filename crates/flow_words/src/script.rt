//! A script served line by line, each reply printed before the next line is read.
ghost use Rattle.std.specs.Prelude.{◌≡◌, MatchResult, IfErr, OnOk};
ghost use Rattle.std.specs.Io.KnownBytes.{Appends};
ghost use Rattle.flow_core.specs.Summaries.{summary};
ghost use Rattle.flow_session.specs.Inputs.{given};
ghost use Rattle.flow_session.specs.Leading.{MakesSteps};
ghost use Rattle.flow_words.specs.Crashes.{IsFailing};
ghost use Rattle.flow_words.specs.Endings.{PrintCause, ServeCause, RunCause, StopsScript, status_of, status_of_stop};
ghost use Rattle.flow_words.specs.Numbers.{AreQueues};
ghost use Rattle.flow_words.specs.Printed.{PrintsPart};
ghost use Rattle.flow_words.specs.Scripts.{input_of as given_of, ServesAndPrints, ServesScript, IsTried};
ghost use Rattle.text_words.specs.Gathered.{found_input};
ghost use Rattle.flow_words.specs.declared.status.Status.TheVariants.{WriteFault as WriteFaultStatus};

use crate::numbers::Settings;
use crate::status::Status;
use flow_io::{IoStop, Line, Lines, Sink, Source, put_all};
use flow_session::{Input, Journal, NoJournal, Session, Stop};
use std::alloc::Global;
use text_words::MOST_BYTES;

/// Prints a text.
pub fn print<K: Sink>(out: &mut K, text: &[u8]) -> Result<(), Status>
    ensures cause { MatchResult result (λ _. K.faults out.new ≡ K.faults out.old)
        (PrintCause (K.faults out.old) (K.faults out.new)) }
    ensures fails { IfErr result IsFailing }
    ensures stops { IfErr result StopsScript }
    ensures whole { OnOk result (Appends (K.held out.old) (K.held out.new) text.now) }
    ensures part { IfErr result (λ status. (status ≡ WriteFaultStatus)
        × PrintsPart (K.held out.old) (K.held out.new) text.now) }
{
    match put_all(out, text) {
        Ok(()) => Ok(()),
        Err(_) => Err(Status::WriteFault),
    }
}

/// The status of a session that stops.
pub fn stop_status(stop: Stop) -> Status
    ensures status { result ≡ status_of_stop stop }
    ensures fails { IsFailing result }
    ensures stops { StopsScript result }
{
    match stop {
        Stop::StoreFault => Status::StoreFault,
        Stop::NoMemory => Status::NoMemory,
    }
}

/// The status of a reader of lines that stops.
pub fn line_status(stop: IoStop) -> Status
    ensures status { result ≡ status_of stop }
    ensures fails { IsFailing result }
    ensures stops { StopsScript result }
{
    match stop {
        IoStop::ReadFault => Status::ReadFault,
        IoStop::ScriptTooLong => Status::ScriptTooLong,
        IoStop::NoMemory => Status::NoMemory,
    }
}

/// What a session is given of what a reader found.
fn input_of(found: Line, text: &[u8]) -> Input<'_>
    ensures { given result ≡ given_of (found_input found text.now) }
{
    match found {
        Line::Text => Input::Text(text),
        Line::TooLong => Input::TooLong,
        Line::Ended => Input::Ended,
    }
}

/// Serves one input and prints the reply.
fn serve_one<J: Journal, K: Sink>(
    session: &mut Session,
    journal: &mut J,
    out: &mut K,
    input: Input<'_>,
) -> Result<(), Status>
    requires open { J.tells → J.holds journal.old (summary session.old.core) }
    ensures kept { J.tells → OnOk result (J.holds journal.new (summary session.new.core)) }
    ensures makes { MakesSteps J.tells J.moment J.left_since journal.old journal.new
        session.old.core session.new.core result }
    ensures fails { IfErr result IsFailing }
    ensures stops { IfErr result StopsScript }
    ensures cause { MatchResult result (λ _. (K.faults out.new ≡ K.faults out.old)
        × (J.faults journal.new ≡ J.faults journal.old))
        (ServeCause (K.faults out.old) (K.faults out.new) (J.faults journal.old) (J.faults journal.new)) }
    ensures served { ServesAndPrints J.tells J.holds J.moment J.left_since J.place J.moved
        (K.held out.old) (K.held out.new) (given input.entry)
        session.old session.new journal.old journal.new result }
{
    match session.serve(journal, input) {
        Err(stop) => Err(stop_status(stop)),
        Ok(reply) => {
            if reply.is_empty() {
                return Ok(());
            }
            print(out, &reply)
        }
    }
}

/// Serves a script to its end.
#[tactic(auto, using(crate::proofs::EndingLemmas::run_stops, crate::proofs::EndingLemmas::run_serves))]
pub fn serve_all<S: Source, K: Sink, J: Journal>(
    alloc: Global,
    session: &mut Session,
    journal: &mut J,
    src: &mut S,
    out: &mut K,
) -> Result<(), Status>
    requires open { J.tells → J.holds journal.old (summary session.old.core) }
    ensures kept { J.tells → OnOk result (J.holds journal.new (summary session.new.core)) }
    ensures makes { MakesSteps J.tells J.moment J.left_since journal.old journal.new
        session.old.core session.new.core result }
    ensures fails { IfErr result IsFailing }
    ensures stops { IfErr result StopsScript }
    ensures cause { IfErr result (RunCause (S.faults src.old) (S.faults src.new)
        (K.faults out.old) (K.faults out.new) (J.faults journal.old) (J.faults journal.new)) }
    ensures serves { ServesScript J.tells J.holds J.moment J.left_since J.place J.moved
        (S.left src.old) (K.held out.old) (K.held out.new)
        session.old session.new journal.old journal.new result }
{
    let mut lines = match Lines::new(alloc, MOST_BYTES) {
        Ok(lines) => lines,
        Err(_) => return Err(Status::NoMemory),
    };
    'inputs: loop {
        let found = match lines.next(src) {
            Ok(found) => found,
            Err(stop) => return Err(line_status(stop)),
        };
        let input = input_of(found, lines.text());
        serve_one(session, journal, out, input)?;
        if found == Line::Ended {
            return Ok(());
        }
    }
}

/// The word `try`: serves a script over a history in memory.
pub fn try_script<S: Source, K: Sink>(
    alloc: Global,
    settings: Settings,
    src: &mut S,
    out: &mut K,
) -> Result<(), Status>
    requires { AreQueues settings.queues }
    ensures cause { IfErr result (RunCause (S.faults src.old) (S.faults src.new)
        (K.faults out.old) (K.faults out.new) 0 0) }
    ensures stops { IfErr result StopsScript }
    ensures tries { IsTried settings.queues settings.limit
        (S.left src.old) (K.held out.old) (K.held out.new) result }
{
    match Session::fresh(alloc, settings.queues, settings.limit) {
        Err(_) => Err(Status::NoMemory),
        Ok(session) => {
            let mut session = session;
            serve_all(alloc, &mut session, &mut NoJournal::new(alloc), src, out)
        }
    }
}
