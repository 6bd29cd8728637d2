//! Numbers in decimal digits.
ghost use Rattle.std.specs.Prelude.{◌≡◌, ◌++◌, OnOk, OnErr};
ghost use Rattle.std.specs.Fmt.{decimal as digits_of, signed_decimal};

use itoa::Buffer;
use std::alloc::AllocError;

/// Appends the decimal digits of `n`, without a leading zero. Without memory `out` stays as it was.
pub fn decimal(out: &mut Vec<u8>, n: u64) -> Result<(), AllocError>
    ensures ok { OnOk result (out.new.items ≡ out.old.items ++ digits_of n) }
    ensures err { OnErr result (out.new.items ≡ out.old.items) }
{
    let mut digits = Buffer::new();
    out.extend_from_slice(digits.format(n).as_bytes())
}

/// Appends the decimal digits of `n`, behind `-` where it is negative. Without memory `out` stays
/// as it was.
pub fn signed(out: &mut Vec<u8>, n: i64) -> Result<(), AllocError>
    ensures ok { OnOk result (out.new.items ≡ out.old.items ++ signed_decimal n) }
    ensures err { OnErr result (out.new.items ≡ out.old.items) }
{
    let mut spelled = Buffer::new();
    out.extend_from_slice(spelled.format(n).as_bytes())
}
