//! Lines that say again what a line before them says.
ghost use Rattle.std.specs.Prelude.{◌≡◌, ◌↔◌, IsTrue};
ghost use Rattle.std.specs.List.{Contains};

use crate::lines::CertLine;
use flow_model::{Name, Part, Path};
use indexmap::IndexMap;

/// Where lines stand that were taken, by their texts.
pub type Said = IndexMap<Vec<u8>, usize>;

fn same_name(first: &Name, second: &Name) -> bool
    ensures { IsTrue result ↔ (first.now ≡ second.now) }
{
    first.as_slice() == second.as_slice()
}

fn same_part(first: &Part, second: &Part) -> bool
    ensures { IsTrue result ↔ (first.now ≡ second.now) }
{
    first.attempt == second.attempt && same_name(&first.name, &second.name)
}

fn same_parts(first: &[Part], second: &[Part]) -> bool
    ensures { IsTrue result ↔ (first.now ≡ second.now) }
{
    match (first, second) {
        ([], []) => true,
        ([part, rest @ ..], [other, others @ ..]) => {
            same_part(part, other) && same_parts(rest, others)
        }
        _ => false,
    }
}

fn same_scope(first: &Path, second: &Path) -> bool
    ensures { IsTrue result ↔ (first.now ≡ second.now) }
{
    first.root == second.root && same_parts(first.parts.as_slice(), second.parts.as_slice())
}

/// Whether two lines are one.
fn same_line(first: &CertLine, second: &CertLine) -> bool
    ensures { IsTrue result ↔ (first.now ≡ second.now) }
{
    match (first, second) {
        (CertLine::Scope(scope), CertLine::Scope(inner)) => same_scope(scope, inner),
        (CertLine::Ended(scope), CertLine::Ended(inner)) => same_scope(scope, inner),
        (CertLine::Dead(scope, name), CertLine::Dead(inner, title)) => {
            same_scope(scope, inner) && same_name(name, title)
        }
        (CertLine::Finished(scope, name, attempts), CertLine::Finished(inner, title, number)) =>
            attempts == number && same_scope(scope, inner) && same_name(name, title),
        _ => false,
    }
}

/// Whether this line stands at a place.
fn stands_at(lines: &[CertLine], place: usize, line: &CertLine) -> bool
    ensures { IsTrue result → Contains lines.now line.now }
{
    match lines.get(place) {
        None => false,
        Some(other) => same_line(other, line),
    }
}

/// Whether this line of this text stands where it is kept that it was taken.
///
/// The text leads to a line that may be the same. Only the line itself tells whether it is, since not every
/// name that a line can have is one that can be read.
pub fn is_repeated(said: &Said, before: &[CertLine], text: &[u8], line: &CertLine) -> bool
    ensures { IsTrue result → Contains before.now line.now }
{
    match said.get(text) {
        None => false,
        Some(place) => stands_at(before, *place, line),
    }
}
