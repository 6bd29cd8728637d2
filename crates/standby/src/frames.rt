//! The front and the frames of a stream as bytes.
ghost use Rattle.std.specs.Prelude.{◌≡◌, ◌<◌, ◌^◌, ◌∷◌, ◌++◌, length, drop, OnOk, IfSome, MatchOption, IsTrue, ◌↔◌};
ghost use Rattle.std.specs.Int.{w32, w64, to_be_bytes};
ghost use Rattle.standby.specs.Frames.{BeginsWithFrame};
ghost use Rattle.standby.specs.Fronts.{Agrees};
ghost use Rattle.standby.specs.Streams.{front_bytes, frame_bytes, end_bytes};

use std::alloc::AllocError;
use txn_log::MAX_PAYLOAD;

/// The bytes with which each stream begins.
pub const MAGIC: &[u8] = b"FLOWSHP1";

/// The number of the bytes before the first frame.
pub const FRONT: usize = 25;

/// The byte that begins a frame.
pub const FRAME: u8 = 1;

/// The byte that ends a stream.
pub const END: u8 = 0;

/// What stands at the front of a stream: the queues and the limit of its store, and the number from which it
/// was shipped.
#[derive(Clone, Copy, Debug, PartialEq, Eq)]
pub struct Front {
    pub queues: u8,
    pub limit: u64,
    pub from: u64,
}

/// The number that eight bytes write.
fn number_of(bytes: &[u8]) -> u64
    requires { length bytes.now ≡ 8 }
    ensures { to_be_bytes w64 result ≡ bytes.now }
{
    u64::from_be_bytes([
        bytes[0], bytes[1], bytes[2], bytes[3], bytes[4], bytes[5], bytes[6], bytes[7],
    ])
}

/// The number that four bytes write; None where there are fewer or more.
pub fn length_of(bytes: &[u8]) -> Option<u32>
    ensures { MatchOption result (length bytes.now ≡ 4 → ⊥)
        (λ len. (len < 2 ^ 32) × (to_be_bytes w32 len ≡ bytes.now)) }
{
    match bytes {
        [a, b, c, d] => Some(u32::from_be_bytes([*a, *b, *c, *d])),
        _ => None,
    }
}

/// Whether bytes begin as the magic does, or are the front of it.
pub fn agrees(bytes: &[u8]) -> bool
    ensures { IsTrue result ↔ Agrees bytes.now }
{
    bytes.starts_with(MAGIC) || MAGIC.starts_with(bytes)
}

/// What the front of a stream says behind its magic; None where it isn't whole.
pub fn front_of(bytes: &[u8]) -> Option<Front>
    ensures { MatchOption result (length bytes.now ≡ 25 → ⊥)
        (λ front. drop 8 bytes.now ≡ front.queues ∷ to_be_bytes w64 front.limit ++ to_be_bytes w64 front.from) }
{
    if bytes.len() != FRONT {
        return None;
    }
    Some(Front {
        queues: bytes[8],
        limit: number_of(&bytes[9..17]),
        from: number_of(&bytes[17..25]),
    })
}

/// The payload of the frame with which bytes begin, where that frame is whole.
pub fn framed(bytes: &[u8]) -> Option<&[u8]>
    ensures { IfSome result (λ payload. BeginsWithFrame bytes.now payload.now) }
{
    if bytes.len() < 5 || bytes[0] != FRAME {
        return None;
    }
    let len = length_of(&bytes[1..5])? as usize;
    if len < 1 || len > MAX_PAYLOAD || len > bytes.len() - 5 {
        return None;
    }
    Some(&bytes[5..5 + len])
}

/// Appends the front of a stream.
pub fn write_front(out: &mut Vec<u8>, front: Front) -> Result<(), AllocError>
    ensures { OnOk result (out.new.items ≡ out.old.items ++ front_bytes front) }
{
    out.extend_from_slice(MAGIC)?;
    out.push(front.queues)?;
    out.extend_from_slice(&front.limit.to_be_bytes())?;
    out.extend_from_slice(&front.from.to_be_bytes())
}

/// Appends the frame of a payload.
pub fn write_frame(out: &mut Vec<u8>, payload: &[u8]) -> Result<(), AllocError>
    ensures { OnOk result (out.new.items ≡ out.old.items ++ frame_bytes payload.now) }
{
    let len = u32::try_from(payload.len()).unwrap_or(u32::MAX);
    out.push(FRAME)?;
    out.extend_from_slice(&len.to_be_bytes())?;
    out.extend_from_slice(payload)
}

/// Appends the byte that ends a stream.
pub fn write_end(out: &mut Vec<u8>) -> Result<(), AllocError>
    ensures { OnOk result (out.new.items ≡ out.old.items ++ end_bytes) }
{
    out.push(END)?;
    Ok(())
}
