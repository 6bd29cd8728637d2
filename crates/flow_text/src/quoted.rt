//! Names in single quotes, and texts in double quotes.
ghost use Rattle.std.specs.Prelude.{◌≡◌, ◌++◌, take, OnOk, OnErr};
ghost use Rattle.std.specs.Io.{StartsWith};
ghost use Rattle.flow_text.specs.Spelling.{name_in_quotes, text_in_quotes, doubled, doubled_byte};

use std::alloc::AllocError;

/// Appends the name in single quotes. Without memory `out` stays as it was.
pub fn quoted_name(out: &mut Vec<u8>, name: &[u8]) -> Result<(), AllocError>
    ensures ok { OnOk result (out.new.items ≡ out.old.items ++ name_in_quotes name.now) }
    ensures err { OnErr result (out.new.items ≡ out.old.items) }
{
    let start = out.len();
    let done = put_name(out, name);
    whole_or_nothing(out, start, done)
}

/// Appends the text in double quotes, each quote within it doubled. Without memory `out` stays as
/// it was.
pub fn quoted_text(out: &mut Vec<u8>, text: &[u8]) -> Result<(), AllocError>
    ensures ok { OnOk result (out.new.items ≡ out.old.items ++ text_in_quotes text.now) }
    ensures err { OnErr result (out.new.items ≡ out.old.items) }
{
    let start = out.len();
    let done = put_text(out, text);
    whole_or_nothing(out, start, done)
}

/// Takes back what stands behind `start` where memory ran out.
fn whole_or_nothing(
    out: &mut Vec<u8>,
    start: usize,
    done: Result<(), AllocError>,
) -> Result<(), AllocError>
    ensures handed { result ≡ done }
    ensures ok { OnOk done (out.new.items ≡ out.old.items) }
    ensures err { OnErr done (out.new.items ≡ take start out.old.items) }
{
    if done.is_err() {
        out.truncate(start);
    }
    done
}

/// The work of `quoted_name`, which may leave a part where memory runs out.
fn put_name(out: &mut Vec<u8>, name: &[u8]) -> Result<(), AllocError>
    ensures ok { OnOk result (out.new.items ≡ out.old.items ++ name_in_quotes name.now) }
    ensures kept { StartsWith out.new.items out.old.items }
{
    out.push(b'\'')?;
    out.extend_from_slice(name)?;
    out.push(b'\'')?;
    Ok(())
}

/// The work of `quoted_text`, which may leave a part where memory runs out.
fn put_text(out: &mut Vec<u8>, text: &[u8]) -> Result<(), AllocError>
    ensures ok { OnOk result (out.new.items ≡ out.old.items ++ text_in_quotes text.now) }
    ensures kept { StartsWith out.new.items out.old.items }
{
    out.push(b'"')?;
    put_doubled(out, text)?;
    out.push(b'"')?;
    Ok(())
}

/// Appends the text, each quote doubled.
fn put_doubled(out: &mut Vec<u8>, text: &[u8]) -> Result<(), AllocError>
    ensures ok { OnOk result (out.new.items ≡ out.old.items ++ doubled text.now) }
    ensures kept { StartsWith out.new.items out.old.items }
{
    for byte in text {
        put_byte(out, *byte)?;
    }
    Ok(())
}

/// Appends the byte, twice where it is a quote.
fn put_byte(out: &mut Vec<u8>, byte: u8) -> Result<(), AllocError>
    ensures ok { OnOk result (out.new.items ≡ out.old.items ++ doubled_byte byte) }
    ensures kept { StartsWith out.new.items out.old.items }
{
    if byte == b'"' {
        out.push(b'"')?;
    }
    out.push(byte)?;
    Ok(())
}
