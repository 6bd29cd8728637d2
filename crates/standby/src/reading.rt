//! The frames of a stream, read one by one.
ghost use Rattle.std.specs.Prelude.{◌≡◌, ◌∷◌, [], ◌+◌, ◌<◌, ℕ, List, length, Option, IfErr, IfOk, IsTrue, false};
ghost use Rattle.std.specs.Prelude.{OnOk, MatchResult};
ghost use Rattle.standby.specs.Endings.{FollowEnd};
ghost use Rattle.standby.specs.Frames.{EndsThere, IsLength, ReadsFirst, ReadsFrame, StopsFrame, head_bytes};
ghost use Rattle.standby.specs.Readers.{Gives, HoldsBlock, ahead};
ghost use Rattle.standby.specs.Streams.{frame_bytes};
ghost use Rattle.standby.specs.declared.stops.FollowStop.TheVariants as stop;

use crate::blocks::Blocks;
use crate::frames::{END, FRAME, length_of};
use crate::stops::FollowStop;
use flow_io::Source;
use txn_log::MAX_PAYLOAD;

/// Reads the byte that begins a frame; answers false at the end byte instead.
fn read_first<S: Source>(
    src: &mut S,
    blocks: &mut Blocks,
    number: u64,
    bytes: &mut Vec<u8>,
) -> Result<bool, FollowStop>
    ensures cause { MatchResult result (λ _. S.faults src.new ≡ S.faults src.old)
        (λ stop. (disk : ℕ) → FollowEnd (S.faults src.old) (S.faults src.new) disk disk stop) }
    ensures reads { ReadsFirst blocks.old.place number (ahead blocks.old (S.left src.old))
        (ahead blocks.new (S.left src.new)) result }
    ensures dry { IfErr result (λ e. e ≡ stop.ReadFault → blocks.new.held ≡ []) }
    ensures block { HoldsBlock blocks.old → HoldsBlock blocks.new }
    ensures place { OnOk result (blocks.new.place ≡ blocks.old.place + 1) }
{
    let place = blocks.place();
    let _ = blocks.read(src, 1, bytes)?;
    match bytes.first() {
        None => Err(FollowStop::Cut(number)),
        Some(&END) => Ok(false),
        Some(&FRAME) => Ok(true),
        Some(_) => Err(FollowStop::Frame(place)),
    }
}

/// Reads the length of the frame that begins at a place.
fn read_length<S: Source>(
    src: &mut S,
    blocks: &mut Blocks,
    place: u64,
    number: u64,
    bytes: &mut Vec<u8>,
) -> Result<usize, FollowStop>
    requires { blocks.old.place ≡ place + 1 }
    ensures cause { MatchResult result (λ _. S.faults src.new ≡ S.faults src.old)
        (λ stop. (disk : ℕ) → FollowEnd (S.faults src.old) (S.faults src.new) disk disk stop) }
    ensures reads { (before : Option (List ℕ)) → Gives place before (ahead blocks.old (S.left src.old)) (1 ∷ [])
        → MatchResult result (λ len. Gives place before (ahead blocks.new (S.left src.new)) (head_bytes len))
        (StopsFrame place number before (ahead blocks.new (S.left src.new))) }
    ensures allowed { IfOk result IsLength }
    ensures dry { IfErr result (λ e. e ≡ stop.ReadFault → blocks.new.held ≡ []) }
    ensures block { HoldsBlock blocks.old → HoldsBlock blocks.new }
    ensures place { OnOk result (blocks.new.place ≡ place + 5) }
{
    let _ = blocks.read(src, 4, bytes)?;
    let Some(len) = length_of(bytes) else {
        return Err(FollowStop::Cut(number));
    };
    let len = len as usize;
    if len < 1 || len > MAX_PAYLOAD {
        return Err(FollowStop::Frame(place));
    }
    Ok(len)
}

/// Reads a payload of this length, of the frame that begins at a place.
fn read_payload<S: Source>(
    src: &mut S,
    blocks: &mut Blocks,
    number: u64,
    len: usize,
    payload: &mut Vec<u8>,
) -> Result<(), FollowStop>
    requires { IsLength len }
    ensures cause { MatchResult result (λ _. S.faults src.new ≡ S.faults src.old)
        (λ stop. (disk : ℕ) → FollowEnd (S.faults src.old) (S.faults src.new) disk disk stop) }
    ensures reads { (before : Option (List ℕ)) (place : ℕ)
        → Gives place before (ahead blocks.old (S.left src.old)) (head_bytes len) → blocks.old.place ≡ place + 5
        → MatchResult result
        (λ _. Gives place before (ahead blocks.new (S.left src.new)) (frame_bytes payload.new.items))
        (StopsFrame place number before (ahead blocks.new (S.left src.new))) }
    ensures whole { OnOk result (length payload.new.items ≡ len) }
    ensures dry { IfErr result (λ e. e ≡ stop.ReadFault → blocks.new.held ≡ []) }
    ensures block { HoldsBlock blocks.old → HoldsBlock blocks.new }
    ensures place { OnOk result (blocks.new.place ≡ blocks.old.place + len) }
{
    if !blocks.read(src, len, payload)? {
        return Err(FollowStop::Cut(number));
    }
    Ok(())
}

/// Reads the payload of the frame that begins here; answers false at the end byte instead. `Cut` has this number.
pub fn read_frame<S: Source>(
    src: &mut S,
    blocks: &mut Blocks,
    number: u64,
    payload: &mut Vec<u8>,
) -> Result<bool, FollowStop>
    ensures cause { MatchResult result (λ _. S.faults src.new ≡ S.faults src.old)
        (λ stop. (disk : ℕ) → FollowEnd (S.faults src.old) (S.faults src.new) disk disk stop) }
    ensures reads { ReadsFrame blocks.old.place number (ahead blocks.old (S.left src.old))
        (ahead blocks.new (S.left src.new)) payload.new.items result }
    ensures dry { IfErr result (λ e. e ≡ stop.ReadFault → blocks.new.held ≡ []) }
    ensures block { HoldsBlock blocks.new }
    ensures place { IfOk result (λ more. IsTrue more
        → blocks.new.place ≡ blocks.old.place + length (frame_bytes payload.new.items)) }
    ensures end { IfOk result (λ more. more ≡ false → blocks.new.place ≡ blocks.old.place + 1) }
{
    let place = blocks.place();
    if !read_first(src, blocks, number, payload)? {
        return Ok(false);
    }
    let len = read_length(src, blocks, place, number, payload)?;
    read_payload(src, blocks, number, len, payload)?;
    Ok(true)
}

/// Behind the end byte there is nothing.
pub fn at_end<S: Source>(src: &mut S, blocks: &mut Blocks) -> Result<(), FollowStop>
    ensures cause { MatchResult result (λ _. S.faults src.new ≡ S.faults src.old)
        (λ stop. (disk : ℕ) → FollowEnd (S.faults src.old) (S.faults src.new) disk disk stop) }
    ensures ends { EndsThere blocks.old.place (ahead blocks.old (S.left src.old))
        (ahead blocks.new (S.left src.new)) result }
    ensures dry { IfErr result (λ e. e ≡ stop.ReadFault → blocks.new.held ≡ []) }
    ensures block { HoldsBlock blocks.new }
{
    if blocks.has_more(src)? {
        return Err(FollowStop::Frame(blocks.place()));
    }
    Ok(())
}
