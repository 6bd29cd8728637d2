//! The texts of the words `explain` and `verify`, with whether each is a refusal.
ghost use Rattle.std.specs.Prelude.{◌≡◌, ◌≤◌, None, ◌∷◌, [], ◌++◌, length, IfOk, IfSome, decimal as digits_of};
ghost use Rattle.certificates.specs.Naming.{NamesNoActivity};
ghost use Rattle.explain.specs.Certificates.{certificate_printed, IsVerdict};
ghost use Rattle.explain.specs.Explained.{IsFaultText, IsExplained, ExplainsWord};
ghost use Rattle.explain.specs.Verified.{AreFirst, AreGoodIn, IsVerified};

use crate::checking::justified;
use crate::making::{ExplainFault, explain};
use certificates::{CertLine, named_activity, read_line, write_line};
use flow_core::Core;
use flow_model::{Name, Path};
use flow_text::decimal;
use reply_text::write_fate;
use std::alloc::{AllocError, Global};

/// A text that begins with these words and a number, as a line.
fn numbered(alloc: Global, words: &[u8], number: u64) -> Result<Vec<u8>, AllocError>
    ensures { IfOk result (λ text. text.items ≡ words.now ++ digits_of number ++ 10 ∷ []) }
{
    let mut out = Vec::from_slice(alloc, words)?;
    decimal(&mut out, number)?;
    out.push(b'\n')?;
    Ok(out)
}

/// The text of a certificate.
fn certificate_text(alloc: Global, lines: &[CertLine]) -> Result<Vec<u8>, AllocError>
    ensures { IfOk result (λ text. text.items ≡ certificate_printed lines.now) }
{
    let mut out = numbered(alloc, b"ok EXPLAIN ", lines.len() as u64)?;
    for line in lines {
        write_line(&mut out, line)?;
        out.push(b'\n')?;
    }
    Ok(out)
}

/// What is printed where there is no certificate.
fn fault_text(alloc: Global, fault: ExplainFault) -> Result<Vec<u8>, AllocError>
    ensures { IfOk result (λ text. IsFaultText fault text.items) }
{
    match fault {
        ExplainFault::Root(root) => numbered(alloc, b"no ROOT ", root),
        ExplainFault::Activity => Vec::from_slice(alloc, b"no ACTIVITY\n"),
        ExplainFault::Unsettled(fate) => {
            let mut out = Vec::from_slice(alloc, b"no UNSETTLED ")?;
            write_fate(&mut out, fate)?;
            out.push(b'\n')?;
            Ok(out)
        }
        ExplainFault::NoMemory => Err(AllocError),
    }
}

/// What is printed of an activity, and whether it is a refusal.
fn explained(
    alloc: Global,
    core: &Core,
    scope: &Path,
    name: &Name,
) -> Result<(Vec<u8>, bool), AllocError>
    ensures { IfOk result (λ answer. IsExplained core.now scope.now name.now answer.0.items answer.1) }
{
    match explain(alloc, core, scope, name) {
        Ok(lines) => Ok((certificate_text(alloc, lines.as_slice())?, false)),
        Err(fault) => Ok((fault_text(alloc, fault)?, true)),
    }
}

/// What `explain` prints over a word that is a path, `/` and an activity's name, and whether it is a
/// refusal; None exactly where the word isn't of that form.
pub fn explain_word(
    alloc: Global,
    core: &Core,
    path_word: &[u8],
) -> Result<Option<(Vec<u8>, bool)>, AllocError>
    ensures explains { IfOk result (λ found. IfSome found
        (λ answer. ExplainsWord core.now path_word.now answer.0.items answer.1)) }
    ensures none { IfOk result (λ found. found ≡ None → NamesNoActivity path_word.now) }
{
    let Some((scope, name)) = named_activity(alloc, path_word)? else {
        return Ok(None);
    };
    Ok(Some(explained(alloc, core, &scope, &name)?))
}

/// The lines up to the first that isn't a line of a certificate or is too long.
fn read_lines(alloc: Global, lines: &[(Vec<u8>, bool)]) -> Result<Vec<CertLine>, AllocError>
    ensures { IfOk result (λ read. AreFirst read.items lines.now) }
{
    let mut read = Vec::new(alloc);
    for (bytes, too_long) in lines {
        if *too_long {
            return Ok(read);
        }
        match read_line(alloc, bytes)? {
            None => return Ok(read),
            Some(line) => read.push(line)?,
        }
    }
    Ok(read)
}

/// How many of the lines, from the first on, are justified by the root of the first.
fn good_lines(alloc: Global, core: &Core, lines: &[CertLine]) -> Result<u64, AllocError>
    ensures good { IfOk result (AreGoodIn core.now lines.now) }
    ensures within { IfOk result (λ count. count ≤ length lines.now) }
{
    let Some(first) = lines.first() else {
        return Ok(0);
    };
    match core.root_facts(alloc, first.scope().root)? {
        None => Ok(0),
        Some(facts) => justified(alloc, core, &facts, lines),
    }
}

/// What `verify` prints where this many of the lines, from the first on, are justified.
fn verdict(alloc: Global, good: u64, total: u64) -> Result<(Vec<u8>, bool), AllocError>
    requires { good ≤ total }
    ensures { IfOk result (λ answer. IsVerdict good total answer.0.items answer.1) }
{
    if good == total {
        Ok((numbered(alloc, b"ok VERIFY ", good)?, false))
    } else {
        Ok((numbered(alloc, b"no STEP ", good + 1)?, true))
    }
}

/// What `verify` prints over these lines, each with whether it is too long, and whether it is a refusal:
/// `STEP` with the number, from 1, of the first line that isn't one of a certificate, is too long, or isn't
/// justified over the root of line 1.
pub fn verify_lines(
    alloc: Global,
    core: &Core,
    lines: &[(Vec<u8>, bool)],
) -> Result<(Vec<u8>, bool), AllocError>
    ensures { IfOk result (λ answer. IsVerified core.now lines.now answer.0.items answer.1) }
{
    let read = read_lines(alloc, lines)?;
    let good = good_lines(alloc, core, &read)?;
    verdict(alloc, good, lines.len() as u64)
}
