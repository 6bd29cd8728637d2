//! The late items.
ghost use Rattle.std.specs.Prelude.{◌≡◌, ◌+◌, [], ◌∷◌, IfOk};
ghost use Rattle.std.specs.List.{All};
ghost use Rattle.deadlines.specs.Lateness.{IsNotice, minutes_beyond, minutes_late as late_by, AreDeclared, able};
ghost use Rattle.deadlines.specs.Lateness.{notified_by, late_of, AreOverdue};
ghost use Rattle.deadlines.specs.Rolls.{roll};

use flow_core::{Core, OpenItem};
use flow_model::{Hold, Library, List, Name, Path, PersonDef};
use staff_worklists::eligible;
use std::alloc::{AllocError, Global};
use std::collections::BTreeMap;

/// A late item: by how many minutes, and who is to be notified.
#[derive(Drop)]
pub struct Late {
    pub item: Path,
    pub minutes: u64,
    pub notify: List<Name>,
}

/// The people by their names, each with the roles of the latest declaration.
type People<'a> = BTreeMap<&'a [u8], &'a PersonDef>;

/// By how many minutes the clock is beyond the end of a time; None where it isn't.
fn minutes_late(clock: u64, since: u64, expires: u32) -> Option<u64>
    ensures { result ≡ minutes_beyond clock (since + expires) }
{
    let late = clock.checked_sub(since)?.checked_sub(u64::from(expires))?;
    if late > 0 { Some(late) } else { None }
}

/// By how many minutes an item is late; None where it isn't, or never is.
fn lateness(clock: u64, open_item: &OpenItem<'_>) -> Option<u64>
    ensures { result ≡ late_by clock open_item.now.since open_item.now.program.now.expires }
{
    minutes_late(clock, open_item.since, open_item.program.expires?)
}

/// The people of a library, each as declared last.
fn people_of<'a>(alloc: Global, library: &'a Library) -> Result<People<'a>, AllocError>
    ensures { IfOk result (λ people. AreDeclared library.now (roll people)) }
{
    let mut people = BTreeMap::new(alloc);
    for person in library.people.as_slice() {
        people.insert(person.name.as_slice(), person)?;
    }
    Ok(people)
}

/// A list of one name.
fn alone(alloc: Global, name: &Name) -> Result<List<Name>, AllocError>
    ensures { IfOk result (λ names. names ≡ name.now ∷ []) }
{
    let mut names = List::new(alloc);
    names.push(name.copy(alloc)?)?;
    Ok(names)
}

/// The people who may do an item, in byte order of their names; nobody may do an automatic one.
fn able_people(
    alloc: Global,
    open_item: &OpenItem<'_>,
    people: &People<'_>,
) -> Result<List<Name>, AllocError>
    ensures { IfOk result (λ names. names ≡ able (roll people.now) open_item.now) }
{
    let mut names = List::new(alloc);
    for (_name, person) in people.iter() {
        if eligible(
            person,
            open_item.program,
            open_item.starter,
            open_item.performer,
        ) {
            names.push(person.name.copy(alloc)?)?;
        }
    }
    Ok(names)
}

/// Who is to be notified of an item: the person who holds it; where nobody does, those who may do it; and
/// the starter where there is none of them or an agent holds it.
fn notified(
    alloc: Global,
    open_item: &OpenItem<'_>,
    people: &People<'_>,
) -> Result<List<Name>, AllocError>
    ensures { IfOk result (λ names. names ≡ notified_by open_item.now.hold.now
        (able (roll people.now) open_item.now) open_item.now.starter.now) }
{
    match open_item.hold {
        Hold::Person(holder) => alone(alloc, holder),
        Hold::Agent(_) => alone(alloc, open_item.starter),
        Hold::Nobody => {
            let able = able_people(alloc, open_item, people)?;
            if able.is_empty() {
                alone(alloc, open_item.starter)
            } else {
                Ok(able)
            }
        }
    }
}

/// What is said of an item, where it is late.
fn notice(
    alloc: Global,
    clock: u64,
    open_item: OpenItem<'_>,
    people: &People<'_>,
) -> Result<Option<Late>, AllocError>
    ensures { IfOk result (λ late. late ≡ late_of clock (roll people.now) open_item.entry) }
{
    let Some(minutes) = lateness(clock, &open_item) else {
        return Ok(None);
    };
    let notify = notified(alloc, &open_item, people)?;
    Ok(Some(Late {
        item: open_item.item,
        minutes,
        notify,
    }))
}

/// The late items of a state, by root and then in show order. An item is late where the clock is more than
/// the clock when it became ready and the minutes after which it expires.
pub fn overdue(alloc: Global, core: &Core) -> Result<Vec<Late>, AllocError>
    ensures notices { IfOk result (λ found. All IsNotice found.items) }
    ensures exact { IfOk result (λ found. AreOverdue core.now found.items) }
{
    let people = people_of(alloc, core.library())?;
    let clock = core.clock();
    let mut found = Vec::new(alloc);
    for open_item in core.open_items(alloc)? {
        if let Some(late) = notice(alloc, clock, open_item, &people)? {
            found.push(late)?;
        }
    }
    Ok(found)
}
