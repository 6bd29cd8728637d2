//! A worklist: what a role may claim and what the person holds, by rank.
use flow_model::{DoneBy, Hold, ItemLine, List, Name, Path, PersonDef, Program};
use staff_worklists::Worklists;
use std::alloc::Global;
use std::test::Fail;

fn name(alloc: Global, bytes: &[u8]) -> Result<Name, Fail> {
    Ok(Name::new(alloc, bytes)?)
}

fn line(alloc: Global, role: &[u8], hold: Hold) -> Result<ItemLine, Fail> {
    Ok(ItemLine {
        hold,
        program: Program {
            manual: true,
            by: DoneBy::Role(name(alloc, role)?),
            expires: None,
        },
        starter: name(alloc, b"Bob".as_slice())?,
        performer: None,
    })
}

fn root(alloc: Global, root: u64) -> Path {
    Path {
        root,
        parts: List::new(alloc),
    }
}

fn clerk(alloc: Global) -> Result<PersonDef, Fail> {
    let mut roles = List::new(alloc);
    roles.push(name(alloc, b"Clerk".as_slice())?)?;
    Ok(PersonDef {
        name: name(alloc, b"Ann".as_slice())?,
        roles,
    })
}

/// Lists the item of a root as its line asks.
fn list(lists: &mut Worklists, alloc: Global, number: u64, line: &ItemLine) -> Result<(), Fail> {
    let rank = vec![in alloc; number]?;
    lists.set(&root(alloc, number), &rank, line)?;
    Ok(())
}

/// An item of root 3 for clerks, one of root 2 for bosses, and one of root 1 that the clerk holds.
fn three(alloc: Global) -> Result<Worklists, Fail> {
    let mut lists = Worklists::new(alloc);
    let free = line(alloc, b"Clerk".as_slice(), Hold::Nobody)?;
    list(&mut lists, alloc, 3, &free)?;
    let other = line(alloc, b"Boss".as_slice(), Hold::Nobody)?;
    list(&mut lists, alloc, 2, &other)?;
    let hold = Hold::Person(name(alloc, b"Ann".as_slice())?);
    let held = line(alloc, b"Boss".as_slice(), hold)?;
    list(&mut lists, alloc, 1, &held)?;
    Ok(lists)
}

/// The roots of the items that the clerk sees, each with whether he holds it.
fn seen(alloc: Global, lists: &Worklists) -> Result<Vec<(u64, bool)>, Fail> {
    let mut shown = Vec::new(alloc);
    for line in lists.worklist(&clerk(alloc)?)?.as_slice() {
        shown.push((line.item.root, line.held))?;
    }
    Ok(shown)
}

#[test]
fn lists_what_a_person_sees(rt: HostRuntime) -> Result<(), Fail> {
    let lists = three(rt.alloc())?;
    assert!(rt; seen(rt.alloc(), &lists)?.as_slice() == [(1, true), (3, false)].as_slice());
    Ok(())
}

#[test]
fn items_of_a_dropped_root_are_gone(rt: HostRuntime) -> Result<(), Fail> {
    let mut lists = three(rt.alloc())?;
    lists.drop_root(3)?;
    assert!(rt; seen(rt.alloc(), &lists)?.as_slice() == [(1, true)].as_slice());
    Ok(())
}
