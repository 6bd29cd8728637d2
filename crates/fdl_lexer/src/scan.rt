//! The token that begins here.
ghost use Rattle.std.specs.Prelude.{◌≡◌, ◌≢◌, ◌<◌, ◌-◌, ◌^◌, min, true, false, length, slice_index};
ghost use Rattle.std.specs.Char.{is_ascii_digit, is_ascii_alphabetic};
ghost use Rattle.std.specs.List.{prefix_len};
ghost use Rattle.std.specs.Str.Parse.{digits_value};
ghost use Rattle.fdl_lexer.specs.Tokens.{FindsToken, mark_of};

use crate::bytes::{digits_len, run_len};
use crate::quoted::{byte_at, double, single};
use crate::{Mark, What};
use flow_table::Keyword;

/// What the digits write, or the greatest number.
fn value(digits: &[u8]) -> u64
    requires { prefix_len is_ascii_digit digits.now ≡ length digits.now }
    ensures { result ≡ min (digits_value 10 digits.now) (2 ^ 64 - 1) }
{
    let mut value = 0u64;
    for digit in digits {
        value = value
            .saturating_mul(10)
            .saturating_add(u64::from(*digit - b'0'));
    }
    value
}

/// The word that begins these bytes.
fn word(bytes: &[u8]) -> Option<(What, usize)>
    requires { is_ascii_alphabetic (slice_index bytes.now 0) ≡ true }
    ensures { FindsToken bytes.now result }
{
    let len = run_len(bytes);
    let keyword = Keyword::from_word(&bytes[..len])?;
    Some((What::Word(keyword), len))
}

/// The number that begins these bytes.
fn number(bytes: &[u8]) -> Option<(What, usize)>
    requires some { 0 < length bytes.now }
    requires digit { is_ascii_digit (slice_index bytes.now 0) ≡ true }
    ensures { FindsToken bytes.now result }
{
    let len = digits_len(bytes);
    if run_len(bytes) != len || bytes[0] == b'0' && len != 1 {
        return None;
    }
    Some((What::Number(value(&bytes[..len])), len))
}

/// The mark that two bytes begin with, and its length.
fn mark_of(first: u8, second: u8) -> Option<(Mark, usize)>
    ensures { result ≡ mark_of first second }
{
    match (first, second) {
        (b'(', _) => Some((Mark::Open, 1)),
        (b')', _) => Some((Mark::Close, 1)),
        (b',', _) => Some((Mark::Comma, 1)),
        (b';', _) => Some((Mark::Semicolon, 1)),
        (b':', _) => Some((Mark::Colon, 1)),
        (b'.', _) => Some((Mark::Dot, 1)),
        (b'[', _) => Some((Mark::OpenBracket, 1)),
        (b']', _) => Some((Mark::CloseBracket, 1)),
        (b'=', _) => Some((Mark::Equal, 1)),
        (b'<', b'>') => Some((Mark::NotEqual, 2)),
        (b'<', b'=') => Some((Mark::AtMost, 2)),
        (b'<', _) => Some((Mark::Less, 1)),
        (b'>', b'=') => Some((Mark::AtLeast, 2)),
        (b'>', _) => Some((Mark::Greater, 1)),
        (b'+', _) => Some((Mark::Plus, 1)),
        (b'-', _) => Some((Mark::Minus, 1)),
        _ => None,
    }
}

/// The mark that begins these bytes.
fn mark(bytes: &[u8]) -> Option<(What, usize)>
    requires some { 0 < length bytes.now }
    requires letter { is_ascii_alphabetic (slice_index bytes.now 0) ≡ false }
    requires digit { is_ascii_digit (slice_index bytes.now 0) ≡ false }
    requires single { slice_index bytes.now 0 ≢ 39 }
    requires double { slice_index bytes.now 0 ≢ 34 }
    ensures { FindsToken bytes.now result }
{
    let second = byte_at(bytes, 1);
    let (mark, len) = mark_of(bytes[0], second)?;
    Some((What::Mark(mark), len))
}

/// The token that begins these bytes, and its length.
pub fn first_token(bytes: &[u8]) -> Option<(What, usize)>
    requires { 0 < length bytes.now }
    ensures { FindsToken bytes.now result }
{
    let first = bytes[0];
    if first.is_ascii_alphabetic() {
        word(bytes)
    } else if first.is_ascii_digit() {
        number(bytes)
    } else if first == b'\'' {
        single(bytes)
    } else if first == b'"' {
        double(bytes)
    } else {
        mark(bytes)
    }
}
