//! Which slot counts, by the outlines of both.
ghost use Rattle.std.specs.Prelude.{◌≡◌, [], IfErr};
ghost use Rattle.flow_disk.specs.Images.{Image, bytes_in, opposite};
ghost use Rattle.txn_log.specs.Opening.{IsChoice, IsVerdict};
ghost use Rattle.txn_log.specs.Outlines.{bare_state, outline_of};
ghost use Rattle.txn_log.specs.Stored.{Unmade, Damaged, Good, slot_state};
ghost use Rattle.txn_log.specs.Stores.{judged_store, store_of};
ghost use Rattle.txn_log.specs.declared.stops.LogStop.TheVariants.{StoreFault};

use crate::outline::{Frame, Outline};
use crate::stops::LogStop;
use flow_disk::Slot;

/// What the outlines of both slots give: the slot that counts, or why the store isn't opened.
pub fn choose(a: Outline, b: Outline) -> Result<Slot, LogStop>
    ensures { IsChoice result (judged_store (bare_state a) (bare_state b)) }
{
    match a {
        Outline::Foreign => Err(LogStop::Foreign(Slot::A)),
        Outline::Damaged(place) => Err(beside_damage(place, b)),
        Outline::Unmade => only_b(b),
        Outline::Good(frame) => beside_good(frame, b),
    }
}

/// What the outlines of a slot and of the other one give.
pub fn choose_by(slot: Slot, here: Outline, beside: Outline) -> Result<Slot, LogStop>
    ensures choice { (image : Image) → here ≡ outline_of (slot_state (bytes_in image slot))
        → beside ≡ outline_of (slot_state (bytes_in image (opposite slot))) → IsChoice result (store_of image) }
    ensures inside { IfErr result (λ stop. stop ≡ StoreFault → ⊥) }
{
    match slot {
        Slot::A => choose(here, beside),
        Slot::B => choose(beside, here),
    }
}

/// Why the store isn't opened where slot A is damaged.
fn beside_damage(place: u64, b: Outline) -> LogStop
    ensures { IsVerdict result (judged_store (Damaged place) (bare_state b)) }
{
    match b {
        Outline::Foreign => LogStop::Foreign(Slot::B),
        Outline::Damaged(_) => LogStop::Damaged(Slot::A, place),
        Outline::Unmade => LogStop::Damaged(Slot::A, place),
        Outline::Good(_) => LogStop::Damaged(Slot::A, place),
    }
}

/// The store where slot A is unmade.
fn only_b(b: Outline) -> Result<Slot, LogStop>
    ensures { IsChoice result (judged_store Unmade (bare_state b)) }
{
    match b {
        Outline::Foreign => Err(LogStop::Foreign(Slot::B)),
        Outline::Damaged(place) => Err(LogStop::Damaged(Slot::B, place)),
        Outline::Unmade => Err(LogStop::Unmade),
        Outline::Good(_) => Ok(Slot::B),
    }
}

/// The store where slot A is good.
fn beside_good(a: Frame, b: Outline) -> Result<Slot, LogStop>
    ensures { IsChoice result (judged_store (Good a.header [] a.end) (bare_state b)) }
{
    match b {
        Outline::Foreign => Err(LogStop::Foreign(Slot::B)),
        Outline::Damaged(place) => Err(LogStop::Damaged(Slot::B, place)),
        Outline::Unmade => Ok(Slot::A),
        Outline::Good(b) => newer(a, b),
    }
}

/// The one of two good slots that has the greater generation.
fn newer(a: Frame, b: Frame) -> Result<Slot, LogStop>
    ensures { IsChoice result (judged_store (Good a.header [] a.end) (Good b.header [] b.end)) }
{
    if a.header.generation == b.header.generation {
        return Err(LogStop::Damaged(Slot::B, 9));
    }
    if a.header.generation > b.header.generation {
        return Ok(Slot::A);
    }
    Ok(Slot::B)
}
