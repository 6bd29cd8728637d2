//! The fields of a record, read from the front of its bytes: each function gives a value and the bytes after it.
ghost use Rattle.std.specs.Int.{w16, w32, w64};
ghost use Rattle.flow_txn.specs.Reading.{Gives, byte, front, number, many, counted, short, name, text, part, parts};
ghost use Rattle.flow_txn.specs.Reading.{path, item, large, value_by, setting, settings, key_by, truth_by};

use crate::faults::RecordFault;
use crate::writing::is_small;
use flow_model::{List, Name, Part, Path, Setting, Txt, Value};
use std::alloc::Global;

/// The first byte.
pub(crate) fn byte_of(bytes: &[u8]) -> Result<(u8, &[u8]), RecordFault>
    ensures { Gives (λ x. (x.0, x.1.now)) result (byte bytes.now) }
{
    match bytes {
        [] => Err(RecordFault::BadRecord),
        [first, rest @ ..] => Ok((*first, rest)),
    }
}

/// So many bytes.
pub(crate) fn front_of(len: usize, bytes: &[u8]) -> Result<(&[u8], &[u8]), RecordFault>
    ensures { Gives (λ x. (x.0.now, x.1.now)) result (front len bytes.now) }
{
    if bytes.len() < len {
        return Err(RecordFault::BadRecord);
    }
    Ok(bytes.split_at(len))
}

/// A number of two bytes.
fn u16_of(bytes: &[u8]) -> Result<(u16, &[u8]), RecordFault>
    ensures { Gives (λ x. (x.0, x.1.now)) result (number w16 bytes.now) }
{
    if bytes.len() < 2 {
        return Err(RecordFault::BadRecord);
    }
    let (front, rest) = bytes.split_at(2);
    Ok((u16::from_be_bytes([front[0], front[1]]), rest))
}

/// A number of four bytes.
pub(crate) fn u32_of(bytes: &[u8]) -> Result<(u32, &[u8]), RecordFault>
    ensures { Gives (λ x. (x.0, x.1.now)) result (number w32 bytes.now) }
{
    if bytes.len() < 4 {
        return Err(RecordFault::BadRecord);
    }
    let (front, rest) = bytes.split_at(4);
    let number = u32::from_be_bytes([front[0], front[1], front[2], front[3]]);
    Ok((number, rest))
}

/// A number of eight bytes.
pub(crate) fn u64_of(bytes: &[u8]) -> Result<(u64, &[u8]), RecordFault>
    ensures { Gives (λ x. (x.0, x.1.now)) result (number w64 bytes.now) }
{
    if bytes.len() < 8 {
        return Err(RecordFault::BadRecord);
    }
    let (front, rest) = bytes.split_at(8);
    let number = u64::from_be_bytes([
        front[0], front[1], front[2], front[3], front[4], front[5], front[6], front[7],
    ]);
    Ok((number, rest))
}

/// A number from 1 on.
#[tactic(auto, unfolding(crate::specs::Reading::counted))]
pub(crate) fn counted_of(bytes: &[u8]) -> Result<(u64, &[u8]), RecordFault>
    ensures { Gives (λ x. (x.0, x.1.now)) result (counted bytes.now) }
{
    let (number, rest) = u64_of(bytes)?;
    if number == 0 {
        return Err(RecordFault::BadRecord);
    }
    Ok((number, rest))
}

/// A length in one byte and that many bytes.
#[tactic(auto, unfolding(crate::specs::Reading::short))]
fn short_of(bytes: &[u8]) -> Result<(&[u8], &[u8]), RecordFault>
    ensures { Gives (λ x. (x.0.now, x.1.now)) result (short bytes.now) }
{
    let (len, rest) = byte_of(bytes)?;
    front_of(len as usize, rest)
}

#[tactic(auto, unfolding(crate::specs::Reading::name))]
pub(crate) fn name_of(alloc: Global, bytes: &[u8]) -> Result<(Name, &[u8]), RecordFault>
    ensures { Gives (λ x. (x.0, x.1.now)) result (name bytes.now) }
{
    let (front, rest) = short_of(bytes)?;
    Ok((Name::new(alloc, front)?, rest))
}

#[tactic(auto, unfolding(crate::specs::Reading::text))]
fn text_of(alloc: Global, bytes: &[u8]) -> Result<(Txt, &[u8]), RecordFault>
    ensures { Gives (λ x. (x.0, x.1.now)) result (text bytes.now) }
{
    let (front, rest) = short_of(bytes)?;
    Ok((Txt::new(alloc, front)?, rest))
}

#[tactic(auto, unfolding(crate::specs::Reading::part))]
fn part_of(alloc: Global, bytes: &[u8]) -> Result<(Part, &[u8]), RecordFault>
    ensures { Gives (λ x. (x.0, x.1.now)) result (part bytes.now) }
{
    let (name, rest) = name_of(alloc, bytes)?;
    let (attempt, rest) = counted_of(rest)?;
    Ok((Part { name, attempt }, rest))
}

/// So many parts.
fn many_parts(alloc: Global, count: u8, bytes: &[u8]) -> Result<(List<Part>, &[u8]), RecordFault>
    ensures { Gives (λ x. (x.0, x.1.now)) result (many part count bytes.now) }
{
    let mut parts = List::new(alloc);
    let mut rest = bytes;
    for _ in 0..count {
        let (part, after) = part_of(alloc, rest)?;
        parts.push(part)?;
        rest = after;
    }
    Ok((parts, rest))
}

#[tactic(auto, unfolding(crate::specs::Reading::parts))]
fn parts_of(alloc: Global, bytes: &[u8]) -> Result<(List<Part>, &[u8]), RecordFault>
    ensures { Gives (λ x. (x.0, x.1.now)) result (parts bytes.now) }
{
    let (count, rest) = byte_of(bytes)?;
    many_parts(alloc, count, rest)
}

#[tactic(auto, unfolding(crate::specs::Reading::path))]
pub(crate) fn path_of(alloc: Global, bytes: &[u8]) -> Result<(Path, &[u8]), RecordFault>
    ensures { Gives (λ x. (x.0, x.1.now)) result (path bytes.now) }
{
    let (root, rest) = counted_of(bytes)?;
    let (parts, rest) = parts_of(alloc, rest)?;
    Ok((Path { root, parts }, rest))
}

/// The path of an item, which has a part.
#[tactic(auto, unfolding(crate::specs::Reading::item))]
pub(crate) fn item_of(alloc: Global, bytes: &[u8]) -> Result<(Path, &[u8]), RecordFault>
    ensures { Gives (λ x. (x.0, x.1.now)) result (item bytes.now) }
{
    let (path, rest) = path_of(alloc, bytes)?;
    if path.parts.is_empty() {
        return Err(RecordFault::BadRecord);
    }
    Ok((path, rest))
}

/// A number of 64 bits that hasn't 32.
#[tactic(auto, unfolding(crate::specs::Reading::large))]
fn large_of(bytes: &[u8]) -> Result<(Value, &[u8]), RecordFault>
    ensures { Gives (λ x. (x.0, x.1.now)) result (large bytes.now) }
{
    let (bits, rest) = u64_of(bytes)?;
    let number = bits.cast_signed();
    if is_small(number) {
        return Err(RecordFault::BadRecord);
    }
    Ok((Value::Whole(number), rest))
}

#[tactic(auto, unfolding(crate::specs::Reading::value_by))]
fn value_of(alloc: Global, tag: u8, bytes: &[u8]) -> Result<(Value, &[u8]), RecordFault>
    ensures { Gives (λ x. (x.0, x.1.now)) result (value_by tag bytes.now) }
{
    match tag {
        1 => {
            let (bits, rest) = u32_of(bytes)?;
            Ok((Value::Whole(i64::from(bits.cast_signed())), rest))
        }
        2 => {
            let (text, rest) = text_of(alloc, bytes)?;
            Ok((Value::Text(text), rest))
        }
        3 => large_of(bytes),
        _ => Err(RecordFault::BadRecord),
    }
}

#[tactic(auto, unfolding(crate::specs::Reading::setting))]
fn setting_of(alloc: Global, bytes: &[u8]) -> Result<(Setting, &[u8]), RecordFault>
    ensures { Gives (λ x. (x.0, x.1.now)) result (setting bytes.now) }
{
    let (leaf, rest) = u16_of(bytes)?;
    let (tag, rest) = byte_of(rest)?;
    let (value, rest) = value_of(alloc, tag, rest)?;
    Ok((Setting { leaf, value }, rest))
}

/// So many settings.
fn many_settings(
    alloc: Global,
    count: u16,
    bytes: &[u8],
) -> Result<(List<Setting>, &[u8]), RecordFault>
    ensures { Gives (λ x. (x.0, x.1.now)) result (many setting count bytes.now) }
{
    let mut settings = List::new(alloc);
    let mut rest = bytes;
    for _ in 0..count {
        let (setting, after) = setting_of(alloc, rest)?;
        settings.push(setting)?;
        rest = after;
    }
    Ok((settings, rest))
}

#[tactic(auto, unfolding(crate::specs::Reading::settings))]
pub(crate) fn settings_of(
    alloc: Global,
    bytes: &[u8],
) -> Result<(List<Setting>, &[u8]), RecordFault>
    ensures { Gives (λ x. (x.0, x.1.now)) result (settings bytes.now) }
{
    let (count, rest) = u16_of(bytes)?;
    many_settings(alloc, count, rest)
}

#[tactic(auto, unfolding(crate::specs::Reading::key_by))]
pub(crate) fn key_of(
    alloc: Global,
    tag: u8,
    bytes: &[u8],
) -> Result<(Option<Name>, &[u8]), RecordFault>
    ensures { Gives (λ x. (x.0, x.1.now)) result (key_by tag bytes.now) }
{
    match tag {
        0 => Ok((None, bytes)),
        1 => {
            let (name, rest) = name_of(alloc, bytes)?;
            Ok((Some(name), rest))
        }
        _ => Err(RecordFault::BadRecord),
    }
}

#[tactic(auto, unfolding(crate::specs::Reading::truth_by))]
pub(crate) fn truth_of(tag: u8, bytes: &[u8]) -> Result<(bool, &[u8]), RecordFault>
    ensures { Gives (λ x. (x.0, x.1.now)) result (truth_by tag bytes.now) }
{
    match tag {
        0 => Ok((false, bytes)),
        1 => Ok((true, bytes)),
        _ => Err(RecordFault::BadRecord),
    }
}
