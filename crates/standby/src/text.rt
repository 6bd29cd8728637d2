//! The text of the result of following, and of refusals.
ghost use Rattle.std.specs.Prelude.{◌≡◌, IfOk};
ghost use Rattle.standby.specs.Texts.{numbered_line, ship_refusal_line, follow_refusal_line, followed_line};

use crate::following::Followed;
use crate::stops::{FollowStop, ShipStop};
use flow_text::decimal;
use std::alloc::{AllocError, Global};

/// A line of a word and a number.
fn numbered(alloc: Global, word: &[u8], number: u64) -> Result<Vec<u8>, AllocError>
    ensures { IfOk result (λ text. text.items ≡ numbered_line word.now number) }
{
    let mut text = Vec::from_slice(alloc, word)?;
    text.push(b' ')?;
    decimal(&mut text, number)?;
    text.push(b'\n')?;
    Ok(text)
}

/// The line of a refusal to ship; empty where the stop is no refusal of a stream's own.
pub fn ship_refusal(alloc: Global, stop: ShipStop) -> Result<Vec<u8>, AllocError>
    ensures { IfOk result (λ text. text.items ≡ ship_refusal_line stop) }
{
    match stop {
        ShipStop::Gone(number) => numbered(alloc, b"no GONE", number),
        ShipStop::Ahead(number) => numbered(alloc, b"no AHEAD", number),
        ShipStop::Store(_) => Ok(Vec::new(alloc)),
        ShipStop::WriteFault => Ok(Vec::new(alloc)),
        ShipStop::NoMemory => Ok(Vec::new(alloc)),
    }
}

/// The line of a refusal to follow; empty where the stop is no refusal of a stream's own.
pub fn follow_refusal(alloc: Global, stop: FollowStop) -> Result<Vec<u8>, AllocError>
    ensures { IfOk result (λ text. text.items ≡ follow_refusal_line stop) }
{
    match stop {
        FollowStop::Frame(place) => numbered(alloc, b"no FRAME", place),
        FollowStop::Cut(number) => numbered(alloc, b"no CUT", number),
        FollowStop::Other => Vec::from_slice(alloc, b"no OTHER\n"),
        FollowStop::Gap(number) => numbered(alloc, b"no GAP", number),
        FollowStop::NotAllowed(number) => numbered(alloc, b"no NOTALLOWED", number),
        FollowStop::Store(_) => Ok(Vec::new(alloc)),
        FollowStop::ReadFault => Ok(Vec::new(alloc)),
        FollowStop::TooLong => Ok(Vec::new(alloc)),
        FollowStop::NoMemory => Ok(Vec::new(alloc)),
    }
}

/// The line of the result of following: the number of the transactions, and how many were taken.
pub fn followed_text(alloc: Global, followed: Followed) -> Result<Vec<u8>, AllocError>
    ensures { IfOk result (λ text. text.items ≡ followed_line followed) }
{
    let mut text = Vec::from_slice(alloc, b"ok FOLLOW ")?;
    decimal(&mut text, followed.number)?;
    text.push(b' ')?;
    decimal(&mut text, followed.taken)?;
    text.push(b'\n')?;
    Ok(text)
}
