//! The accepted completions, seen from a scope.
ghost use Rattle.std.specs.Prelude.{◌≡◌, ◌<◌, ◌≤◌, ◌∷◌, [], List, length, take, true, IfOk, OnOk};
ghost use Rattle.std.specs.List.{All};
ghost use Rattle.std.specs.Option.{option_map, option_or};
ghost use Rattle.flow_model.specs.Scopes.{part};
ghost use Rattle.flow_model.specs.declared.instances.Part.{Part as PartOf};
ghost use Rattle.fate_eval.specs.Entries.{dated, dated_in, dated_from};
ghost use Rattle.fate_eval.specs.Grouped.{at_part, AreGathered, AreByAttempt, LeadsBelow};

use flow_model::{Container, Fact, Part};
use indexmap::IndexMap;
use std::alloc::{AllocError, Global};

/// A completion with what its item's path has below a scope, and the number of completions up to it.
#[derive(Clone, Copy)]
pub struct Entry<'a> {
    pub parts: &'a [Part],
    pub output: &'a Container,
    pub after: u64,
}

/// An attempt of an activity of a scope: the activity's name and the number of the attempt.
type Tried<'a> = (&'a [u8], u64);

/// The completions of each attempt and of the scope that it is, with what their paths have below it.
pub type Groups<'a> = IndexMap<Tried<'a>, Vec<Entry<'a>>>;

/// The completions of a root.
pub fn entries_of<'a>(alloc: Global, facts: &'a [Fact]) -> Result<Vec<Entry<'a>>, AllocError>
    ensures { IfOk result (λ v. (p : List PartOf) → dated_in v.items p ≡ dated_from 0 facts.now p) }
{
    let mut entries = Vec::new(alloc);
    for (i, fact) in facts.iter().enumerate() {
        entries.push(Entry {
            parts: fact.item.parts.as_slice(),
            output: &fact.output,
            after: i as u64 + 1,
        })?;
    }
    Ok(entries)
}

/// Adds what a completion has below its first step.
fn add_below<'a>(group: &mut Vec<Entry<'a>>, entry: &Entry<'a>) -> Result<(), AllocError>
    ensures { OnOk result ((q : PartOf) → LeadsBelow q entry.now → (p : List PartOf)
        → dated_in group.new.items p ≡ option_or (dated_in group.old.items p) (dated_in (entry.now ∷ []) (q ∷ p))) }
{
    match entry.parts {
        [] => Ok(()),
        [_, rest @ ..] => {
            group.push(Entry {
                parts: rest,
                output: entry.output,
                after: entry.after,
            })?;
            Ok(())
        }
    }
}

/// Adds what completions of one attempt have below their first step.
fn extend<'a>(group: &mut Vec<Entry<'a>>, run: &[Entry<'a>]) -> Result<(), AllocError>
    ensures { OnOk result ((q : PartOf) → All (LeadsBelow q) run.now → (p : List PartOf)
        → dated_in group.new.items p ≡ option_or (dated_in group.old.items p) (dated_in run.now (q ∷ p))) }
{
    for entry in run {
        add_below(group, entry)?;
    }
    Ok(())
}

/// Adds completions of one attempt to those that it has.
fn add_run<'a>(
    alloc: Global,
    groups: &mut Groups<'a>,
    part: &'a Part,
    run: &[Entry<'a>],
) -> Result<(), AllocError>
    ensures { OnOk result (All (LeadsBelow part.now) run.now → AreGathered groups.old run.now groups.new) }
{
    let tried = (part.name.as_slice(), part.attempt);
    if let Some(group) = groups.get_mut(&tried) {
        extend(group, run)?;
        return Ok(());
    }
    let mut group = Vec::with_capacity(alloc, run.len())?;
    extend(&mut group, run)?;
    groups.insert(tried, group)?;
    Ok(())
}

/// Whether a completion leads to an attempt, or below it.
fn leads_to(entry: &Entry<'_>, part: &Part) -> bool
    ensures { result ≡ true → LeadsBelow part.now entry.now }
{
    match entry.parts {
        [] => false,
        [first, ..] => {
            first.name.as_slice() == part.name.as_slice() && first.attempt == part.attempt
        }
    }
}

/// How many completions in front lead to an attempt.
fn run_len(entries: &[Entry<'_>], part: &Part) -> usize
    ensures within { result ≤ length entries.now }
    ensures run { All (LeadsBelow part.now) (take result entries.now) }
{
    for (i, entry) in entries.iter().enumerate() {
        if !leads_to(entry, part) {
            return i;
        }
    }
    entries.len()
}

/// Adds the completions in front that lead to the same attempt as the first, and answers how many they are.
fn add_front<'a>(
    alloc: Global,
    groups: &mut Groups<'a>,
    entries: &[Entry<'a>],
) -> Result<usize, AllocError>
    ensures within { IfOk result (λ n. n ≤ length entries.now) }
    ensures some { 0 < length entries.now → IfOk result (λ n. 0 < n) }
    ensures added { IfOk result (λ n. AreGathered groups.old (take n entries.now) groups.new) }
{
    match entries {
        [] => Ok(0),
        [first, behind @ ..] => match first.parts {
            [] => Ok(1),
            [part, ..] => {
                let count = run_len(behind, part) + 1;
                add_run(alloc, groups, part, &entries[..count])?;
                Ok(count)
            }
        },
    }
}

/// The completions of a scope, by the attempts that they lead to. Those of one attempt mostly come one behind the
/// other, and it is looked up once for all of them.
pub fn groups_of<'a>(alloc: Global, entries: &[Entry<'a>]) -> Result<Groups<'a>, AllocError>
    ensures { IfOk result (λ groups. AreByAttempt groups entries.now) }
{
    let mut groups = IndexMap::new(alloc);
    let mut done = 0;
    while done < entries.len() {
        done += add_front(alloc, &mut groups, &entries[done..])?;
    }
    Ok(groups)
}

/// The completions of an attempt and of the scope that it is.
pub fn entries_at<'a, 'b>(groups: &'b Groups<'a>, name: &'a [u8], attempt: u64) -> &'b [Entry<'a>]
    ensures { result.now ≡ at_part groups.now (part name.now attempt) }
{
    let tried = (name, attempt);
    groups
        .get(&tried)
        .map(|group| group.as_slice())
        .unwrap_or_default()
}

/// The first completion of the attempt itself, among those of an attempt.
pub fn completion<'a>(entries: &[Entry<'a>]) -> Option<Entry<'a>>
    ensures { option_map dated result ≡ dated_in entries.now [] }
{
    for entry in entries {
        if entry.parts.is_empty() {
            return Some(*entry);
        }
    }
    None
}
