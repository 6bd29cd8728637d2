//! Reading the lines of a certificate.
ghost use Rattle.std.specs.Prelude.{◌≡◌, ◌<◌, ◌^◌, ℕ, true, None, Some, List as Bytes, ◌++◌, ◌∷◌, decimal};
ghost use Rattle.std.specs.Prelude.{IfOk, IfSome, MatchOption};
ghost use Rattle.std.specs.Option.{option_copied};
ghost use Rattle.certificates.specs.Lines.{in_quotes, scope_in_quotes, activity_in_quotes, IsSpellable};
ghost use Rattle.certificates.specs.Lines.{Writes, WritesNoOther, WritesNoLine};
ghost use Rattle.certificates.specs.declared.lines.CertLine.{CertLine as Line};
ghost use Rattle.certificates.specs.declared.lines.CertLine.TheVariants as lines;
ghost use Rattle.flow_model.specs.Paths.{BeginsNot, IsPath};
ghost use Rattle.flow_model.specs.Words.{is_name};
ghost use Rattle.flow_model.specs.declared.instances.Path.{Path as Way};

use crate::lines::{CertLine, line_bytes};
use crate::naming::{cut_at_last, named_activity, scope_in};
use flow_model::{Name, Path};
use std::alloc::{AllocError, Global};
use std::str::from_utf8;

/// The number that these digits write.
fn number_of(digits: &[u8]) -> Option<u64>
    ensures { (n : ℕ) → n < 2 ^ 64 → digits.now ≡ decimal n → result ≡ Some n }
{
    match from_utf8(digits) {
        Ok(text) => text.parse::<u64>().ok(),
        Err(_) => None,
    }
}

/// What stands in single quotes.
fn unquoted(bytes: &[u8]) -> Option<&[u8]>
    ensures { (inner : Bytes ℕ) → bytes.now ≡ in_quotes inner → option_copied result ≡ Some inner }
{
    match bytes {
        [b'\'', inner @ .., b'\''] => Some(inner),
        _ => None,
    }
}

/// The scope in quotes.
fn quoted_scope(alloc: Global, bytes: &[u8]) -> Result<Option<Path>, AllocError>
    ensures fine { IfOk result (λ found. IfSome found IsPath) }
    ensures found { IfOk result (λ found. (p : Way) → IsPath p → bytes.now ≡ scope_in_quotes p → found ≡ Some p) }
{
    match unquoted(bytes) {
        Some(inner) => scope_in(alloc, inner),
        None => Ok(None),
    }
}

/// The activity in quotes.
fn quoted_activity(alloc: Global, bytes: &[u8]) -> Result<Option<(Path, Name)>, AllocError>
    ensures fine { IfOk result (λ found. IfSome found (λ named. IsPath named.0 × (is_name named.1 ≡ true))) }
    ensures found { IfOk result (λ found. (p : Way) (name : Bytes ℕ) → IsPath p → is_name name ≡ true
        → bytes.now ≡ activity_in_quotes p name → found ≡ Some (p, name)) }
{
    match unquoted(bytes) {
        Some(inner) => named_activity(alloc, inner),
        None => Ok(None),
    }
}

/// The line `SCOPE` with what stands behind its word.
fn scope_line(alloc: Global, rest: &[u8]) -> Result<Option<CertLine>, AllocError>
    ensures fine { IfOk result (λ found. IfSome found IsSpellable) }
    ensures found { IfOk result (λ found. (p : Way) → IsPath p → rest.now ≡ scope_in_quotes p
        → found ≡ Some (lines.Scope p)) }
{
    match quoted_scope(alloc, rest)? {
        Some(scope) => Ok(Some(CertLine::Scope(scope))),
        None => Ok(None),
    }
}

/// The line `ENDED` with what stands behind its word.
fn ended_line(alloc: Global, rest: &[u8]) -> Result<Option<CertLine>, AllocError>
    ensures fine { IfOk result (λ found. IfSome found IsSpellable) }
    ensures found { IfOk result (λ found. (p : Way) → IsPath p → rest.now ≡ scope_in_quotes p
        → found ≡ Some (lines.Ended p)) }
{
    match quoted_scope(alloc, rest)? {
        Some(scope) => Ok(Some(CertLine::Ended(scope))),
        None => Ok(None),
    }
}

/// The line `DEAD` with what stands behind its word.
fn dead_line(alloc: Global, rest: &[u8]) -> Result<Option<CertLine>, AllocError>
    ensures fine { IfOk result (λ found. IfSome found IsSpellable) }
    ensures found { IfOk result (λ found. (p : Way) (name : Bytes ℕ) → IsPath p → is_name name ≡ true
        → rest.now ≡ activity_in_quotes p name → found ≡ Some (lines.Dead p name)) }
{
    match quoted_activity(alloc, rest)? {
        Some((scope, name)) => Ok(Some(CertLine::Dead(scope, name))),
        None => Ok(None),
    }
}

/// The line `FINISHED` with what stands behind its word.
fn finished_line(alloc: Global, rest: &[u8]) -> Result<Option<CertLine>, AllocError>
    ensures fine { IfOk result (λ found. IfSome found IsSpellable) }
    ensures found { IfOk result (λ found. (p : Way) (name : Bytes ℕ) (n : ℕ) → IsPath p → is_name name ≡ true
        → n < 2 ^ 64 → rest.now ≡ activity_in_quotes p name ++ 32 ∷ decimal n
        → found ≡ Some (lines.Finished p name n)) }
{
    let Some((quoted, digits)) = cut_at_last(rest, b' ') else {
        return Ok(None);
    };
    let Some(attempt) = number_of(digits) else {
        return Ok(None);
    };
    match quoted_activity(alloc, quoted)? {
        Some((scope, name)) => Ok(Some(CertLine::Finished(scope, name, attempt))),
        None => Ok(None),
    }
}

/// What stands behind a front, if the bytes begin with it.
fn behind<'t>(bytes: &'t [u8], front: &[u8]) -> Option<&'t [u8]>
    ensures { MatchOption result (BeginsNot bytes.now front.now) (λ rest. bytes.now ≡ front.now ++ rest.now) }
{
    bytes.strip_prefix(front)
}

/// The line whose text these bytes may be: they are that of no other one.
fn guessed(alloc: Global, bytes: &[u8]) -> Result<Option<CertLine>, AllocError>
    ensures fine { IfOk result (λ found. IfSome found IsSpellable) }
    ensures found { IfOk result (λ found. (line : Line) → Writes bytes.now line → found ≡ Some line) }
{
    if let Some(rest) = behind(bytes, b"SCOPE ") {
        return scope_line(alloc, rest);
    }
    if let Some(rest) = behind(bytes, b"ENDED ") {
        return ended_line(alloc, rest);
    }
    if let Some(rest) = behind(bytes, b"DEAD ") {
        return dead_line(alloc, rest);
    }
    match behind(bytes, b"FINISHED ") {
        Some(rest) => finished_line(alloc, rest),
        None => Ok(None),
    }
}

/// The line whose text these bytes are; None exactly where they are that of no line.
pub fn read_line(alloc: Global, bytes: &[u8]) -> Result<Option<CertLine>, AllocError>
    ensures line { IfOk result (λ found. IfSome found (Writes bytes.now)) }
    ensures one { IfOk result (λ found. IfSome found (WritesNoOther bytes.now)) }
    ensures none { IfOk result (λ found. found ≡ None → WritesNoLine bytes.now) }
{
    let Some(line) = guessed(alloc, bytes)? else {
        return Ok(None);
    };
    let text = line_bytes(alloc, &line)?;
    if text.as_slice() == bytes {
        Ok(Some(line))
    } else {
        Ok(None)
    }
}
