//! Checking a certificate line by line: each from the lines before it, the template and the completions.
ghost use Rattle.std.specs.Prelude.{◌≡◌, ◌-◌, IfOk, IfErr, MatchResult, length, option_map, option_and_then};
ghost use Rattle.std.specs.List.{list_all};
ghost use Rattle.fate_laws.specs.Layout.{IsLaid};
ghost use Rattle.flow_model.specs.ScopeContainers.{up_to};
ghost use Rattle.certificates.specs.Told.{joined_at, gave, goes_on as goes_on_after, stops, final_at, next, taken};
ghost use Rattle.certificates.specs.Told.{scope_gives};
ghost use Rattle.certificates.specs.Kept.{basis_of, opened_of, placed_of, told_by, AreLaid, AreLaidTemplates};
ghost use Rattle.certificates.specs.Kept.{TellNoMore, IsReadied, Takes};
ghost use Rattle.certificates.specs.Justified.{AreJustified, StopsAt, IsWithin};
ghost use Rattle.certificates.specs.declared.accepting.AcceptFault.TheVariants.{NoMemory};

use crate::graphs::{Placed, activity_at, path_below};
use crate::grounds::{Checker, Grounds};
use crate::lines::{CertLine, line_bytes};
use crate::repeats::{Said, is_repeated};
use crate::scopes::{Begun, Scopes, begin, give, is_known, scope_at, settle};
use crate::starting::starting;
use conditions::holds;
use flow_model::{Activity, Container, Expr, Name, Path, SourceEnd, Work};
use indexmap::IndexMap;
use std::alloc::{AllocError, Global};
use thiserror::Error;

/// Why a certificate isn't accepted.
#[derive(Clone, Copy, Debug, PartialEq, Eq, Drop, Error)]
pub enum AcceptFault {
    /// The first line, counted from 0, that isn't justified by those before it.
    #[error("Line")]
    Line(u64),
    /// There was no memory for it.
    #[error("NoMemory")]
    NoMemory,
}

impl From<AllocError> for AcceptFault {
    ghost from_gives = { λ _ e. e ≡ NoMemory };

    fn from(_fault: AllocError) -> AcceptFault {
        AcceptFault::NoMemory
    }
}

/// The activity of a name in a scope, where its join is so.
fn joined_in<'a>(
    alloc: Global,
    begun: &Begun<'a>,
    name: &Name,
    truth: bool,
) -> Result<Option<Placed<'a>>, AllocError>
    ensures { IsLaid begun.now.graph.now → IfOk result
        (λ found. option_map placed_of found ≡ joined_at truth name.now (opened_of begun.now)) }
{
    let Some(found) = activity_at(begun.graph, name) else {
        return Ok(None);
    };
    if is_known(truth, begun.join_of(alloc, found)?) {
        Ok(Some(found))
    } else {
        Ok(None)
    }
}

/// The activity of a name in the scope at a path, where its join is so.
fn joined<'a>(
    alloc: Global,
    scopes: &Scopes<'a>,
    scope: &Path,
    name: &Name,
    truth: bool,
) -> Result<Option<Placed<'a>>, AllocError>
    ensures { AreLaid (told_by scopes.now) → IfOk result
        (λ found. option_map placed_of found ≡ option_and_then (joined_at truth name.now)
        (told_by scopes.now scope.now)) }
{
    match scope_at(alloc, scopes, scope)? {
        None => Ok(None),
        Some(begun) => joined_in(alloc, begun, name, truth),
    }
}

/// What a scope gave, where a line tells that it has ended.
fn scope_output<'a, 'b>(
    alloc: Global,
    scopes: &'b Scopes<'a>,
    scope: &Path,
) -> Result<Option<&'b Container>, AllocError>
    ensures { IfOk result (λ out. option_map (λ o. o.now) out
        ≡ option_and_then (λ s. s.output) (told_by scopes.now scope.now)) }
{
    match scope_at(alloc, scopes, scope)? {
        None => Ok(None),
        Some(begun) => Ok(begun.output.as_ref()),
    }
}

/// What an attempt of an activity gave.
fn attempt_output<'a, 'b>(
    checker: &'b Checker<'a>,
    scopes: &'b Scopes<'a>,
    scope: &Path,
    activity: &Activity,
    attempt: u64,
) -> Result<Option<&'b Container>, AllocError>
    requires { IsReadied checker.now }
    ensures { IfOk result (λ out. option_map (λ o. o.now) out
        ≡ gave (basis_of checker.now.grounds) (told_by scopes.now) scope.now activity.now.name activity.now.work
        attempt) }
{
    let path = path_below(checker.alloc, scope, &activity.name, attempt)?;
    match &activity.work {
        Work::Program(_) => checker.accepted(&path),
        Work::Block(_) => scope_output(checker.alloc, scopes, &path),
        Work::Process(_) => scope_output(checker.alloc, scopes, &path),
    }
}

/// Whether one more attempt follows this output.
fn goes_on(exit: &Option<Expr>, output: Option<&Container>) -> bool
    ensures { result ≡ goes_on_after exit.now (option_map (λ o. o.now) output.entry) }
{
    match output {
        None => false,
        Some(output) => !holds(exit, output),
    }
}

/// The output behind which no more attempt follows.
fn stopped(
    alloc: Global,
    exit: &Option<Expr>,
    output: Option<&Container>,
) -> Result<Option<Container>, AllocError>
    ensures { IfOk result (λ out. out ≡ stops exit.now (option_map (λ o. o.now) output.entry)) }
{
    match output {
        None => Ok(None),
        Some(output) => {
            if holds(exit, output) {
                Ok(Some(output.copy(alloc)?))
            } else {
                Ok(None)
            }
        }
    }
}

/// Whether one more attempt follows this one.
fn attempt_goes_on<'a>(
    checker: &Checker<'a>,
    scopes: &Scopes<'a>,
    scope: &Path,
    activity: &Activity,
    attempt: u64,
) -> Result<bool, AllocError>
    requires { IsReadied checker.now }
    ensures { IfOk result (λ yes. yes ≡ goes_on_after activity.now.exit
        (gave (basis_of checker.now.grounds) (told_by scopes.now) scope.now activity.now.name activity.now.work
        attempt)) }
{
    let output = attempt_output(checker, scopes, scope, activity, attempt)?;
    Ok(goes_on(&activity.exit, output))
}

/// Whether one more attempt follows each attempt before this one.
fn all_go_on<'a>(
    checker: &Checker<'a>,
    scopes: &Scopes<'a>,
    scope: &Path,
    activity: &Activity,
    attempts: u64,
) -> Result<bool, AllocError>
    requires { IsReadied checker.now }
    ensures { IfOk result (λ all. all ≡ list_all (λ j. goes_on_after activity.now.exit
        (gave (basis_of checker.now.grounds) (told_by scopes.now) scope.now activity.now.name activity.now.work j))
        (up_to (attempts - 1) 1)) }
{
    for attempt in 1..attempts {
        if !attempt_goes_on(checker, scopes, scope, activity, attempt)? {
            return Ok(false);
        }
    }
    Ok(true)
}

/// The final output of an activity whose join is true, where this attempt is its last.
fn final_output<'a>(
    checker: &Checker<'a>,
    scopes: &Scopes<'a>,
    scope: &Path,
    found: Placed<'_>,
    attempts: u64,
) -> Result<Option<Container>, AllocError>
    requires { IsReadied checker.now }
    ensures { IfOk result (λ out. out ≡ final_at (basis_of checker.now.grounds) (told_by scopes.now) scope.now attempts
        (placed_of found.entry)) }
{
    let activity = found.activity;
    if attempts == 0 || !all_go_on(checker, scopes, scope, activity, attempts)? {
        return Ok(None);
    }
    let output = attempt_output(checker, scopes, scope, activity, attempts)?;
    stopped(checker.alloc, &activity.exit, output)
}

/// Takes the line that a scope begins, where it is justified.
fn take_scope<'a>(
    checker: &Checker<'a>,
    scopes: &mut Scopes<'a>,
    scope: &Path,
) -> Result<bool, AllocError>
    ensures { AreLaid (told_by scopes.old) → IfOk result
        (Takes (told_by scopes.old) (told_by scopes.new)
        (next (basis_of checker.now.grounds) (told_by scopes.old) (CertLine.Scope scope.now))) }
{
    match starting(checker, scopes, scope)? {
        None => Ok(false),
        Some(begun) => {
            begin(checker.alloc, scopes, scope, begun)?;
            Ok(true)
        }
    }
}

/// Takes the line that an activity is dead, where it is justified.
fn take_dead<'a>(
    checker: &Checker<'a>,
    scopes: &mut Scopes<'a>,
    scope: &Path,
    name: &Name,
) -> Result<bool, AllocError>
    ensures { AreLaid (told_by scopes.old) → IfOk result
        (Takes (told_by scopes.old) (told_by scopes.new)
        (next (basis_of checker.now.grounds) (told_by scopes.old) (CertLine.Dead scope.now name.now))) }
{
    match joined(checker.alloc, scopes, scope, name, false)? {
        None => Ok(false),
        Some(found) => {
            settle(checker.alloc, scopes, scope, found.place, SourceEnd::Dead)?;
            Ok(true)
        }
    }
}

/// Takes the line that an activity is finished with this attempt, where it is justified.
fn take_finished<'a>(
    checker: &Checker<'a>,
    scopes: &mut Scopes<'a>,
    scope: &Path,
    name: &Name,
    attempts: u64,
) -> Result<bool, AllocError>
    requires { IsReadied checker.now }
    ensures { AreLaid (told_by scopes.old) → IfOk result
        (Takes (told_by scopes.old) (told_by scopes.new)
        (next (basis_of checker.now.grounds) (told_by scopes.old) (CertLine.Finished scope.now name.now attempts))) }
{
    let Some(found) = joined(checker.alloc, scopes, scope, name, true)? else {
        return Ok(false);
    };
    match final_output(checker, scopes, scope, found, attempts)? {
        None => Ok(false),
        Some(output) => {
            let end = SourceEnd::Finished(output);
            settle(checker.alloc, scopes, scope, found.place, end)?;
            Ok(true)
        }
    }
}

/// What the scope at a path gives, where all its activities are settled.
fn scope_given(
    alloc: Global,
    scopes: &Scopes<'_>,
    scope: &Path,
) -> Result<Option<Container>, AllocError>
    ensures { AreLaid (told_by scopes.now) → IfOk result
        (λ out. out ≡ option_and_then scope_gives (told_by scopes.now scope.now)) }
{
    match scope_at(alloc, scopes, scope)? {
        None => Ok(None),
        Some(begun) => begun.gives(alloc),
    }
}

/// Takes the line that a scope has ended, where it is justified.
fn take_ended<'a>(
    checker: &Checker<'a>,
    scopes: &mut Scopes<'a>,
    scope: &Path,
) -> Result<bool, AllocError>
    ensures { AreLaid (told_by scopes.old) → IfOk result
        (Takes (told_by scopes.old) (told_by scopes.new)
        (next (basis_of checker.now.grounds) (told_by scopes.old) (CertLine.Ended scope.now))) }
{
    if scope.parts.is_empty() {
        return Ok(false);
    }
    match scope_given(checker.alloc, scopes, scope)? {
        None => Ok(false),
        Some(output) => {
            give(checker.alloc, scopes, scope, output)?;
            Ok(true)
        }
    }
}

/// Takes a line of the root, where it is justified by those before it.
fn take_next<'a>(
    checker: &Checker<'a>,
    scopes: &mut Scopes<'a>,
    line: &CertLine,
) -> Result<bool, AllocError>
    requires { IsReadied checker.now }
    ensures { AreLaid (told_by scopes.old) → IfOk result
        (Takes (told_by scopes.old) (told_by scopes.new)
        (next (basis_of checker.now.grounds) (told_by scopes.old) line.now)) }
{
    match line {
        CertLine::Scope(scope) => take_scope(checker, scopes, scope),
        CertLine::Dead(scope, name) => take_dead(checker, scopes, scope, name),
        CertLine::Finished(scope, name, attempts) => {
            take_finished(checker, scopes, scope, name, *attempts)
        }
        CertLine::Ended(scope) => take_ended(checker, scopes, scope),
    }
}

/// Takes a line, where it tells of the root and is justified by those before it: then what it tells counts
/// for those behind it.
fn take<'a>(
    checker: &Checker<'a>,
    scopes: &mut Scopes<'a>,
    line: &CertLine,
) -> Result<bool, AllocError>
    requires { IsReadied checker.now }
    ensures { AreLaid (told_by scopes.old) → IfOk result
        (Takes (told_by scopes.old) (told_by scopes.new)
        (taken (basis_of checker.now.grounds) (told_by scopes.old) line.now)) }
{
    if line.scope().root != checker.grounds.root {
        return Ok(false);
    }
    take_next(checker, scopes, line)
}

/// Takes a line once. One that stands before, too, is justified and tells nothing more: that costs a look-up.
fn take_once<'a>(
    checker: &Checker<'a>,
    scopes: &mut Scopes<'a>,
    said: &mut Said,
    before: &[CertLine],
    line: &CertLine,
) -> Result<bool, AllocError>
    requires { IsReadied checker.now }
    ensures { AreLaid (told_by scopes.old) → TellNoMore (basis_of checker.now.grounds) (told_by scopes.old) before.now
        → IfOk result (Takes (told_by scopes.old) (told_by scopes.new)
        (taken (basis_of checker.now.grounds) (told_by scopes.old) line.now)) }
{
    let text = line_bytes(checker.alloc, line)?;
    if is_repeated(said, before, text.as_slice(), line) {
        return Ok(true);
    }
    let justified = take(checker, scopes, line)?;
    said.insert(text, before.len())?;
    Ok(justified)
}

/// Checks a certificate over a root's completions.
///
/// `Line` comes with the first line that isn't justified by those before it. A line that says again what a
/// line before it says is justified like any other.
pub fn accept(alloc: Global, grounds: &Grounds<'_>, lines: &[CertLine]) -> Result<(), AcceptFault>
    ensures exact { AreLaidTemplates grounds.now.library.now.templates
        → MatchResult result (λ _. AreJustified (basis_of grounds.now) lines.now (length lines.now))
        (StopsAt (basis_of grounds.now) lines.now) }
    ensures within { IfErr result (IsWithin (length lines.now)) }
{
    let checker = Checker::new(alloc, grounds)?;
    let mut scopes = IndexMap::new(alloc);
    let mut said = IndexMap::new(alloc);
    for (number, line) in lines.iter().enumerate() {
        if !take_once(&checker, &mut scopes, &mut said, &lines[..number], line)? {
            return Err(AcceptFault::Line(number as u64));
        }
    }
    Ok(())
}
