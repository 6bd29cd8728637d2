//! The words of a standby store: `ship` and `follow`.
ghost use Rattle.std.specs.Prelude.{ℕ, Err, IfErr, IsOk, MatchResult};
ghost use Rattle.standby.specs.Endings.{FollowEnd};
ghost use Rattle.flow_words.specs.Crashes.{EndsDone, IsFailing, ServesFiles};
ghost use Rattle.flow_words.specs.Endings.{WordCause};
ghost use Rattle.flow_words.specs.Following.{PrintsFollowed, PrintsResult};
ghost use Rattle.flow_words.specs.Outside.{channels, files, IfSettled, KeepsFiles};
ghost use Rattle.flow_words.specs.Scripts.{status_of_word};
ghost use Rattle.flow_words.specs.Shipping.{PrintsShipped};

use crate::looking::print_answer;
use crate::refusing::refuse;
use crate::status::Status;
use flow_disk::Disk;
use flow_io::{Sink, Source};
use standby::{
    FollowStop, Followed, ShipStop, follow, follow_refusal, followed_text, ship, ship_refusal,
};
use std::alloc::Global;

/// Prints the transactions of a store above a number, as a stream.
pub fn ship_from<K: Sink, D: Disk>(
    alloc: Global,
    from: u64,
    out: &mut K,
    disk: &mut D,
) -> Result<Status, Status>
    ensures keeps { IfSettled (files D.Disk disk.old disk.new) (KeepsFiles (files D.Disk disk.old disk.new)) }
    ensures cause { (read read' : ℕ) → WordCause read read' (K.faults out.old) (K.faults out.new)
        (D.faults disk.old) (D.faults disk.new) (status_of_word result) }
    ensures ships { PrintsShipped from (files D.Disk disk.old disk.new) (K.held out.old) (K.held out.new)
        (status_of_word result) }
{
    match ship(alloc, disk, from, out) {
        Ok(_count) => Ok(Status::Done),
        Err(ShipStop::Store(stop)) => refuse(alloc, out, &stop),
        Err(ShipStop::WriteFault) => Err(Status::WriteFault),
        Err(ShipStop::NoMemory) => Err(Status::NoMemory),
        Err(stop) => print_answer(out, &ship_refusal(alloc, stop)?, true),
    }
}

/// Prints why a stream isn't followed, or no further.
fn print_unfollowed<K: Sink>(alloc: Global, stop: FollowStop, out: &mut K) -> Result<Status, Status>
    ensures fails { MatchResult result IsFailing IsFailing }
    ensures prints { PrintsResult (Err stop) (K.held out.old) (K.held out.new) (status_of_word result) }
    ensures cause { (read read' store store' : ℕ) → FollowEnd read read' store store' stop
        → WordCause read read' (K.faults out.old) (K.faults out.new) store store' (status_of_word result) }
{
    match stop {
        FollowStop::Store(stop) => refuse(alloc, out, &stop),
        FollowStop::ReadFault => Err(Status::ReadFault),
        FollowStop::TooLong => Err(Status::ScriptTooLong),
        FollowStop::NoMemory => Err(Status::NoMemory),
        stop => print_answer(out, &follow_refusal(alloc, stop)?, true),
    }
}

/// Prints how far a store is that followed a stream, or why it stopped.
fn print_followed<K: Sink>(
    alloc: Global,
    followed: Result<Followed, FollowStop>,
    out: &mut K,
) -> Result<Status, Status>
    ensures done { EndsDone result → IsOk followed }
    ensures prints { PrintsResult followed (K.held out.old) (K.held out.new) (status_of_word result) }
    ensures cause { (read read' store store' : ℕ) → IfErr followed (FollowEnd read read' store store')
        → WordCause read read' (K.faults out.old) (K.faults out.new) store store' (status_of_word result) }
{
    match followed {
        Ok(followed) => print_answer(out, &followed_text(alloc, followed)?, false),
        Err(stop) => print_unfollowed(alloc, stop, out),
    }
}

/// Reads a stream into a store, prints how far the store is now, and gives the disk back.
pub fn follow_into<S: Source, K: Sink, D: Disk + Drop>(
    alloc: Global,
    src: &mut S,
    out: &mut K,
    disk: D,
) -> (Result<Status, Status>, D)
    ensures store { IfSettled (files D.Disk disk result.1)
        (ServesFiles (files D.Disk disk result.1) (EndsDone result.0)) }
    ensures cause { WordCause (S.faults src.old) (S.faults src.new) (K.faults out.old) (K.faults out.new)
        (D.faults disk) (D.faults result.1) (status_of_word result.0) }
    ensures follows { PrintsFollowed (channels S.Source K.Sink src.old src.new out.old out.new)
        (files D.Disk disk result.1) (status_of_word result.0) }
{
    let (followed, disk) = follow(alloc, src, disk);
    (print_followed(alloc, followed, out), disk)
}
