//! Which path a text spells: it is cut at its `/` and `#`, and each number is read as it is written.
ghost use Rattle.std.specs.Prelude.{◌≡◌, ◌≤◌, ◌<◌, ◌^◌, ◌==◌, ℕ, Some, List as ListOf, ◌∷◌, ◌++◌, length};
ghost use Rattle.std.specs.Prelude.{decimal, IfOk, IfSome, IsErrOf};
ghost use Rattle.std.specs.List.{All, position, position_or_len};
ghost use Rattle.std.specs.Option.{option_copied};
ghost use Rattle.std.specs.Str.Parse.{AllDigits, digits_value};
ghost use Rattle.flow_model.specs.Paths.{part_spelling, parts_spelling, IsStep, Spells};
ghost use Rattle.flow_model.specs.Paths.{SpellsNoOther, SpellsNoPath};
ghost use Rattle.flow_model.specs.declared.instances.Part.{Part as Down};
ghost use Rattle.flow_model.specs.declared.instances.Path.{Path as Way};

use crate::instances::{Part, Path};
use crate::lists::List;
use crate::names::{Name, NameFault};
use crate::paths::PathFault;
use std::alloc::{AllocError, Global};

/// The place of the first byte of this kind.
fn place_of(bytes: &[u8], mark: u8) -> Option<usize>
    ensures { result ≡ position (λ b. b == mark) bytes.now }
{
    bytes.iter().position(|byte| *byte == mark)
}

/// How many bytes stand before the first of this kind.
fn front_len(bytes: &[u8], mark: u8) -> usize
    ensures within { result ≤ length bytes.now }
    ensures front { result ≡ position_or_len (λ b. b == mark) bytes.now }
{
    match place_of(bytes, mark) {
        Some(place) => place,
        None => bytes.len(),
    }
}

/// What stands behind the first byte, if it is this one.
fn behind(bytes: &[u8], mark: u8) -> Option<&[u8]>
    ensures found { (rest : ListOf ℕ) → bytes.now ≡ mark ∷ rest → option_copied result ≡ Some rest }
    ensures sure { IfSome result (λ rest. bytes.now ≡ mark ∷ rest.now) }
{
    match bytes.split_first() {
        Some((first, rest)) => { if *first == mark { Some(rest) } else { None } }
        None => None,
    }
}

/// The number that these digits write; None where a byte is no digit, or it has more than 64 bits.
fn number_of(digits: &[u8]) -> Option<u64>
    ensures small { IfSome result (λ n. n < 2 ^ 64) }
    ensures sure { IfSome result (λ n. AllDigits 10 digits.now × (digits_value 10 digits.now ≡ n)) }
    ensures found { AllDigits 10 digits.now → digits_value 10 digits.now < 2 ^ 64
        → result ≡ Some (digits_value 10 digits.now) }
{
    let mut number = 0u64;
    for digit in digits {
        if !digit.is_ascii_digit() {
            return None;
        }
        number = number
            .checked_mul(10)?
            .checked_add(u64::from(*digit - b'0'))?;
    }
    Some(number)
}

/// The number from 1 on that these digits write, with no zero in front.
fn count_of(digits: &[u8]) -> Option<u64>
    ensures counted { IfSome result (λ n. 1 ≤ n) }
    ensures small { IfSome result (λ n. n < 2 ^ 64) }
    ensures sure { IfSome result (λ n. digits.now ≡ decimal n) }
    ensures found { (n : ℕ) → 1 ≤ n → n < 2 ^ 64 → digits.now ≡ decimal n → result ≡ Some n }
{
    if digits.is_empty() || digits[0] == b'0' {
        return None;
    }
    number_of(digits)
}

/// The step of this name and attempt.
fn step_of(alloc: Global, name: &[u8], attempt: &[u8]) -> Result<Option<Part>, AllocError>
    ensures is { IfOk result (λ step. IfSome step IsStep) }
    ensures sure { IfOk result (λ step. IfSome step (λ q. (name.now ≡ q.name) × (attempt.now ≡ decimal q.attempt))) }
    ensures found { IfOk result (λ step. (q : Down) → IsStep q → name.now ≡ q.name → attempt.now ≡ decimal q.attempt
        → step ≡ Some q) }
{
    let Some(attempt) = count_of(attempt) else {
        return Ok(None);
    };
    match Name::new(alloc, name) {
        Ok(name) => Ok(Some(Part { name, attempt })),
        Err(NameFault::Bad) => Ok(None),
        Err(NameFault::NoMemory) => Err(AllocError),
    }
}

/// The step that these bytes write.
fn step_in(alloc: Global, bytes: &[u8]) -> Result<Option<Part>, AllocError>
    ensures is { IfOk result (λ step. IfSome step IsStep) }
    ensures sure { IfOk result (λ step. IfSome step (λ q. bytes.now ≡ part_spelling q)) }
    ensures found { IfOk result (λ step. (q : Down) → IsStep q → bytes.now ≡ part_spelling q → step ≡ Some q) }
{
    let Some(written) = behind(bytes, b'/') else {
        return Ok(None);
    };
    let (name, marked) = written.split_at(front_len(written, b'#'));
    match behind(marked, b'#') {
        Some(attempt) => step_of(alloc, name, attempt),
        None => Ok(None),
    }
}

/// How many bytes the first step takes.
fn step_len(bytes: &[u8]) -> usize
    ensures within { result ≤ length bytes.now }
    ensures some { 0 < length bytes.now → 0 < result }
    ensures found { (q : Down) (more : ListOf Down) → IsStep q → bytes.now ≡ part_spelling q ++ parts_spelling more
        → result ≡ length (part_spelling q) }
{
    match bytes.split_first() {
        Some((_, written)) => 1 + front_len(written, b'/'),
        None => 0,
    }
}

/// The steps that these bytes write one behind the other.
fn steps_in(alloc: Global, bytes: &[u8]) -> Result<Option<List<Part>>, AllocError>
    ensures are { IfOk result (λ steps. IfSome steps (All IsStep)) }
    ensures sure { IfOk result (λ steps. IfSome steps (λ qs. bytes.now ≡ parts_spelling qs)) }
    ensures found { IfOk result (λ steps. (qs : ListOf Down) → All IsStep qs → bytes.now ≡ parts_spelling qs
        → steps ≡ Some qs) }
{
    let mut steps = List::new(alloc);
    let mut rest = bytes;
    while !rest.is_empty() {
        let (first, more) = rest.split_at(step_len(rest));
        let Some(step) = step_in(alloc, first)? else {
            return Ok(None);
        };
        steps.push(step)?;
        rest = more;
    }
    Ok(Some(steps))
}

/// The path that a text spells, if it spells one.
fn path_in(alloc: Global, text: &[u8]) -> Result<Option<Path>, AllocError>
    ensures is { IfOk result (λ found. IfSome found (Spells text.now)) }
    ensures found { IfOk result (λ found. (path : Way) → Spells text.now path → found ≡ Some path) }
{
    let (digits, below) = text.split_at(front_len(text, b'/'));
    let Some(root) = count_of(digits) else {
        return Ok(None);
    };
    match steps_in(alloc, below)? {
        Some(parts) => Ok(Some(Path { root, parts })),
        None => Ok(None),
    }
}

/// The path that a text spells.
///
/// `BadPath` exactly where it spells none.
pub fn path_of(alloc: Global, text: &[u8]) -> Result<Path, PathFault>
    ensures path { IfOk result (Spells text.now) }
    ensures one { IfOk result (SpellsNoOther text.now) }
    ensures bad { IsErrOf result PathFault.BadPath → SpellsNoPath text.now }
{
    match path_in(alloc, text)? {
        Some(path) => Ok(path),
        None => Err(PathFault::BadPath),
    }
}
