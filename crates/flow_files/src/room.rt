//! Room that is written ahead, so that the syncs of the next records change no size.
ghost use Rattle.std.specs.Prelude.{◌≡◌, ◌+◌, ◌<◌, ◌≤◌, ◌%◌};

/// Files that end before it have no room ahead: they hold the bytes of the format alone.
const FROM: u64 = 65_536;

/// The step of the sizes with room.
const STEP: u64 = 131_072;

/// How many zeros are to be written behind so many bytes at this place of a file of this size:
/// none where the bytes end within the file, or before byte 65,536.
pub fn room_behind(at: u64, count: usize, size: u64) -> usize
    ensures within { at + count ≤ size → result ≡ 0 }
    ensures small { at + count < 65536 → result ≡ 0 }
    ensures bound { result ≤ 131072 }
    ensures step { 0 < result → at + count + result < 18446744073709551615 → (at + count + result) % 131072 ≡ 0 }
{
    let end = at.saturating_add(count as u64);
    if end <= size || end < FROM {
        return 0;
    }
    (STEP - end % STEP) as usize
}
