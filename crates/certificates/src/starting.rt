//! The attempts of block and process activities: which of them starts, and with which input.
ghost use Rattle.std.specs.Prelude.{◌≡◌, IfOk, option_copied, option_map};
ghost use Rattle.fate_laws.specs.Layout.{IsLaid};
ghost use Rattle.certificates.specs.Told.{attempt_start, begins, first_start, inner_begins, next_start, root_begins};
ghost use Rattle.certificates.specs.Told.{root_graph as graph_of_root, start, start_after};
ghost use Rattle.certificates.specs.Kept.{basis_of, opened_of, placed_of, told_by, AreLaid};

use crate::graphs::{Placed, activity_at, outer_scope, path_below};
use crate::grounds::{Checker, Grounds};
use crate::scopes::{Begun, Scopes, scope_at};
use blocks_subprocs::{graph_of, next_input};
use conditions::holds;
use flow_model::{Container, Graph, Library, Part, Path};
use std::alloc::{AllocError, Global};

/// Attempt 1 of a block or process activity of a scope.
fn first_attempt<'a>(
    alloc: Global,
    library: &'a Library,
    outer: &Begun<'a>,
    found: Placed<'a>,
) -> Result<Option<Begun<'a>>, AllocError>
    ensures { IsLaid outer.now.graph.now → IfOk result
        (λ b. option_map opened_of b ≡ first_start library.now.templates (opened_of outer.now)
        (placed_of found.entry)) }
{
    match graph_of(library, &found.activity.work) {
        None => Ok(None),
        Some(graph) => {
            let input = outer.first_input(alloc, found)?;
            Ok(Some(Begun::new(alloc, graph, input)?))
        }
    }
}

/// The attempt behind one that gave this, where the exit condition is false.
fn attempt_after<'a>(
    alloc: Global,
    outer: &Begun<'a>,
    last: &Begun<'a>,
    found: Placed<'_>,
    output: &Container,
) -> Result<Option<Begun<'a>>, AllocError>
    ensures { IsLaid outer.now.graph.now → IfOk result
        (λ b. option_map opened_of b ≡ start_after (opened_of outer.now) (placed_of found.entry)
        (opened_of last.now) output.now) }
{
    if holds(&found.activity.exit, output) {
        return Ok(None);
    }
    let base = outer.first_input(alloc, found)?;
    let input = next_input(alloc, outer.graph, found.place, base, output)?;
    Ok(Some(Begun::new(alloc, last.graph, input)?))
}

/// The attempt behind a scope, where that has ended and the exit condition is false.
fn later_attempt<'a>(
    alloc: Global,
    outer: &Begun<'a>,
    last: &Begun<'a>,
    found: Placed<'_>,
) -> Result<Option<Begun<'a>>, AllocError>
    ensures { IsLaid outer.now.graph.now → IfOk result
        (λ b. option_map opened_of b ≡ next_start (opened_of outer.now) (placed_of found.entry) (opened_of last.now)) }
{
    match &last.output {
        None => Ok(None),
        Some(output) => attempt_after(alloc, outer, last, found, output),
    }
}

/// An attempt of an active block or process activity of a scope, where it starts.
fn active_attempt<'a>(
    checker: &Checker<'a>,
    scopes: &Scopes<'a>,
    path: &Path,
    part: &Part,
    outer: &Begun<'a>,
    found: Placed<'a>,
) -> Result<Option<Begun<'a>>, AllocError>
    ensures { IsLaid outer.now.graph.now → IfOk result
        (λ b. option_map opened_of b ≡ attempt_start checker.now.grounds.library.now.templates
        (told_by scopes.now) path.now part.now (opened_of outer.now) (placed_of found.entry)) }
{
    let alloc = checker.alloc;
    if part.attempt == 0 {
        return Ok(None);
    }
    if part.attempt == 1 {
        return first_attempt(alloc, checker.grounds.library, outer, found);
    }
    let before = path_below(alloc, path, &part.name, part.attempt - 1)?;
    match scope_at(alloc, scopes, &before)? {
        None => Ok(None),
        Some(last) => later_attempt(alloc, outer, last, found),
    }
}

/// An attempt of a block or process activity of a scope, where it starts.
fn attempt<'a>(
    checker: &Checker<'a>,
    scopes: &Scopes<'a>,
    path: &Path,
    part: &Part,
    outer: &Begun<'a>,
    found: Placed<'a>,
) -> Result<Option<Begun<'a>>, AllocError>
    ensures { IsLaid outer.now.graph.now → IfOk result
        (λ b. option_map opened_of b ≡ start checker.now.grounds.library.now.templates
        (told_by scopes.now) path.now part.now (opened_of outer.now) (placed_of found.entry)) }
{
    if !outer.is_active(checker.alloc, found)? {
        return Ok(None);
    }
    active_attempt(checker, scopes, path, part, outer, found)
}

/// The scope of an attempt of an activity of the scope at a path, where it starts.
fn inner_scope<'a>(
    checker: &Checker<'a>,
    scopes: &Scopes<'a>,
    path: &Path,
    part: &Part,
) -> Result<Option<Begun<'a>>, AllocError>
    ensures { AreLaid (told_by scopes.now) → IfOk result
        (λ b. option_map opened_of b ≡ inner_begins (basis_of checker.now.grounds)
        (told_by scopes.now) path.now part.now) }
{
    let Some(outer) = scope_at(checker.alloc, scopes, path)? else {
        return Ok(None);
    };
    match activity_at(outer.graph, &part.name) {
        None => Ok(None),
        Some(found) => attempt(checker, scopes, path, part, outer, found),
    }
}

/// The root's graph.
fn root_graph<'a>(grounds: &Grounds<'a>) -> Option<&'a Graph>
    ensures { option_copied result ≡ graph_of_root (basis_of grounds.now) }
{
    let template = grounds.template;
    match grounds.library.templates.as_slice().get(template as usize) {
        None => None,
        Some(template) => Some(&template.graph),
    }
}

/// The root's scope.
fn root_scope<'a>(checker: &Checker<'a>) -> Result<Option<Begun<'a>>, AllocError>
    ensures { IfOk result (λ b. option_map opened_of b ≡ root_begins (basis_of checker.now.grounds)) }
{
    match root_graph(&checker.grounds) {
        None => Ok(None),
        Some(graph) => {
            let input = checker.grounds.input.copy(checker.alloc)?;
            Ok(Some(Begun::new(checker.alloc, graph, input)?))
        }
    }
}

/// A scope as it begins, where it does.
pub fn starting<'a>(
    checker: &Checker<'a>,
    scopes: &Scopes<'a>,
    scope: &Path,
) -> Result<Option<Begun<'a>>, AllocError>
    ensures { AreLaid (told_by scopes.now) → IfOk result
        (λ b. option_map opened_of b ≡ begins (basis_of checker.now.grounds) (told_by scopes.now) scope.now) }
{
    match scope.parts.as_slice().last() {
        None => root_scope(checker),
        Some(part) => {
            let outer = outer_scope(checker.alloc, scope)?;
            inner_scope(checker, scopes, &outer, part)
        }
    }
}
