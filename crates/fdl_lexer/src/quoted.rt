//! Tokens in quotes.
ghost use Rattle.std.specs.Prelude.{◌≡◌, true, List, ℕ, slice_index, IfOk};
ghost use Rattle.std.specs.Char.{is_ascii_digit, is_ascii_alphabetic};
ghost use Rattle.fdl_lexer.specs.Bytes.{double_quoted, next_len, written_len};
ghost use Rattle.fdl_lexer.specs.Tokens.{FindsToken};

use crate::What;
use crate::bytes::{is_text_byte, item_len, name_len};
use std::alloc::{AllocError, Global};

/// The byte at this place, or 0 past the end.
pub fn byte_at(bytes: &[u8], at: usize) -> u8
    ensures { result ≡ slice_index bytes.now at }
{
    bytes.get(at).copied().unwrap_or(0)
}

/// The name that begins these bytes.
fn name(bytes: &[u8]) -> Option<(What, usize)>
    requires quote { slice_index bytes.now 0 ≡ 39 }
    requires letter { is_ascii_alphabetic (slice_index bytes.now 1) ≡ true }
    ensures { FindsToken bytes.now result }
{
    let len = name_len(&bytes[1..]);
    if len <= 32 && byte_at(bytes, len + 1) == b'\'' {
        Some((What::Name, len + 2))
    } else {
        None
    }
}

/// The item that begins these bytes.
fn item(bytes: &[u8]) -> Option<(What, usize)>
    requires quote { slice_index bytes.now 0 ≡ 39 }
    requires digit { is_ascii_digit (slice_index bytes.now 1) ≡ true }
    ensures { FindsToken bytes.now result }
{
    let len = item_len(&bytes[1..]);
    if len <= 1024 && byte_at(bytes, len + 1) == b'\'' {
        Some((What::Item, len + 2))
    } else {
        None
    }
}

/// The token in single quotes that begins these bytes.
pub fn single(bytes: &[u8]) -> Option<(What, usize)>
    requires { slice_index bytes.now 0 ≡ 39 }
    ensures { FindsToken bytes.now result }
{
    let second = byte_at(bytes, 1);
    if second.is_ascii_alphabetic() {
        name(bytes)
    } else if second.is_ascii_digit() {
        item(bytes)
    } else if bytes.starts_with(b"'_RC'") {
        Some((What::Rc, 5))
    } else {
        None
    }
}

/// How many bytes write a text's next byte, by the first two of them: none where the text ends.
fn next_len(first: u8, second: u8) -> usize
    ensures { result ≡ next_len first second }
{
    if first == b'"' {
        if second == b'"' { 2 } else { 0 }
    } else if is_text_byte(first) {
        1
    } else {
        0
    }
}

/// The text in double quotes that begins these bytes.
pub fn double(bytes: &[u8]) -> Option<(What, usize)>
    requires { slice_index bytes.now 0 ≡ 34 }
    ensures { FindsToken bytes.now result }
{
    let mut at = 1;
    let mut size = 0usize;
    'text: loop {
        let len = next_len(byte_at(bytes, at), byte_at(bytes, at + 1));
        if len == 0 {
            break;
        }
        at += len;
        size += 1;
    }
    if size <= 255 && byte_at(bytes, at) == b'"' {
        Some((What::Text, at + 1))
    } else {
        None
    }
}

/// How many bytes write a byte of a text.
fn written_len(byte: u8) -> usize
    ensures { result ≡ written_len byte }
{
    if byte == b'"' { 2 } else { 1 }
}

/// What a text token's bytes, quotes included, say: each doubled quote is read as one.
pub fn text_value(alloc: Global, bytes: &[u8]) -> Result<Vec<u8>, AllocError>
    ensures { IfOk result (λ read. (value : List ℕ) → bytes.now ≡ double_quoted value → read.items ≡ value) }
{
    let mut value = Vec::new(alloc);
    let mut at = 1;
    while at + 1 < bytes.len() {
        value.push(bytes[at])?;
        at += written_len(bytes[at]);
    }
    Ok(value)
}
