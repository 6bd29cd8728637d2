//! What the bytes of a slot are: of no store, of another, damaged, or a header with records.
ghost use Rattle.std.specs.Prelude.{◌≡◌, ◌<◌, ◌≤◌, ◌^◌, length, take, drop, slice_index, ◌==◌, if◌then◌else◌, None};
ghost use Rattle.txn_log.specs.Outlines.{outline_of};
ghost use Rattle.txn_log.specs.Stored.{has_magic as magic_test, header_fault as fault_of, header_of as spelled_header, is_field as field_test, is_unmade as unmade_test, listed, with_header, number_at as spelled_number, slot_state};

use crate::header::Header;
use crate::outline::{Frame, Outline};
use crate::slot_records::whole_len;

#[tactic(auto, unfolding(crate::specs::Stored::is_unmade))]
fn is_unmade(head: &[u8]) -> bool
    ensures { result ≡ unmade_test head.now }
{
    head.len() <= 1 || head[0] == 0 || head[1..].starts_with(b"FLOWSTR".as_slice()) && head[0] != 1
}

#[tactic(auto, unfolding(crate::specs::Stored::has_magic))]
fn has_magic(head: &[u8]) -> bool
    requires { 1 ≤ length head.now }
    ensures { result ≡ magic_test head.now }
{
    let rest = &head[1..];
    rest.starts_with(b"FLOWSTR1".as_slice()) || rest.starts_with(b"FLOWSTR2".as_slice())
}

/// The byte at a place, or 0 behind the end.
fn byte_at(head: &[u8], at: usize) -> u8
    ensures { result ≡ slice_index head.now at }
{
    if at < head.len() { head[at] } else { 0 }
}

/// The eight bytes from a place on as a number, with 0 for each that isn't there.
fn number_at(head: &[u8], at: usize) -> u64
    requires { at < 1000 }
    ensures { result ≡ spelled_number head.now at }
{
    u64::from_be_bytes([
        byte_at(head, at),
        byte_at(head, at + 1),
        byte_at(head, at + 2),
        byte_at(head, at + 3),
        byte_at(head, at + 4),
        byte_at(head, at + 5),
        byte_at(head, at + 6),
        byte_at(head, at + 7),
    ])
}

#[tactic(auto, unfolding(crate::specs::Stored::header_of))]
fn header_of(head: &[u8]) -> Header
    ensures { result ≡ spelled_header head.now }
{
    Header {
        generation: number_at(head, 9),
        queues: byte_at(head, 17),
        limit: number_at(head, 18),
        transactions: number_at(head, 26),
        roots: number_at(head, 34),
    }
}

/// The generation that a slot with this front has, or 0 where its gate isn't open.
pub fn open_generation(head: &[u8]) -> u64
    ensures { result ≡ if slice_index head.now 0 == 1 then spelled_number head.now 9 else 0 }
{
    if byte_at(head, 0) == 1 {
        number_at(head, 9)
    } else {
        0
    }
}

/// Whether a field that ends at `end` is whole, and its number in its range.
fn is_field(size: usize, end: usize, low: u64, number: u64, high: u64) -> bool
    ensures { result ≡ field_test size end low number high }
{
    end <= size && low <= number && number <= high
}

/// The place of the first field that isn't whole or isn't in its range.
#[tactic(auto, unfolding(crate::specs::Stored::header_fault))]
fn header_fault(size: usize, header: &Header) -> Option<u64>
    ensures { result ≡ fault_of size header.now }
{
    if !is_field(size, 17, 1, header.generation, 1 << 62) {
        Some(9)
    } else if !is_field(size, 18, 1, header.queues as u64, 16) {
        Some(17)
    } else if !is_field(size, 26, 1, header.limit, 10_000_000) {
        Some(18)
    } else if !is_field(size, 34, 0, header.transactions, header.limit) {
        Some(26)
    } else if !is_field(size, 42, 0, header.roots, header.transactions) {
        Some(34)
    } else {
        None
    }
}

/// The outline of a slot with this header, by the gates of its records.
fn outline_with(header: Header, bytes: &[u8]) -> Outline
    requires { length bytes.now < 2 ^ 63 }
    ensures { result ≡ outline_of (with_header None header (listed 0 42 (drop 42 bytes.now))) }
{
    let mut records = 0;
    let mut at = 42;
    'gates: while at < bytes.len() {
        if bytes[at] != 1 {
            return Outline::Good(Frame {
                header,
                records,
                end: at as u64,
            });
        }
        let len = whole_len(&bytes[at + 1..]);
        if len == 0 {
            return Outline::Damaged(at as u64);
        }
        records += 1;
        at += 5 + len;
    }
    Outline::Damaged(at as u64)
}

/// The first 42 bytes.
fn head_of(bytes: &[u8]) -> &[u8]
    ensures { result.now ≡ take 42 bytes.now }
{
    if bytes.len() < 42 {
        bytes
    } else {
        &bytes[..42]
    }
}

/// The judgement of a slot by its bytes, without its records. Takes no memory.
pub fn outline(bytes: &[u8]) -> Outline
    requires { length bytes.now < 2 ^ 63 }
    ensures { result ≡ outline_of (slot_state bytes.now) }
{
    let head = head_of(bytes);
    if is_unmade(head) {
        return Outline::Unmade;
    }
    if !has_magic(head) {
        return Outline::Foreign;
    }
    let header = header_of(head);
    if let Some(place) = header_fault(head.len(), &header) {
        return Outline::Damaged(place);
    }
    outline_with(header, bytes)
}
