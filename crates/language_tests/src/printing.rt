//! A person with two roles, in canonical text.
use fdl_print::canonical;
use flow_model::{ItemTree, List, Name, NameAt, PersonTree, Tree};
use std::alloc::Global;
use std::test::Fail;

fn named(alloc: Global, bytes: &[u8]) -> Result<NameAt, Fail> {
    Ok(NameAt {
        name: Name::new(alloc, bytes)?,
        place: 0,
    })
}

fn ann(alloc: Global) -> Result<PersonTree, Fail> {
    let mut roles = List::new(alloc);
    roles.push(named(alloc, b"Clerk".as_slice())?)?;
    roles.push(named(alloc, b"Boss".as_slice())?)?;
    Ok(PersonTree {
        name: named(alloc, b"Ann".as_slice())?,
        roles,
        end: named(alloc, b"Ann".as_slice())?,
    })
}

#[test]
fn prints_a_person(rt: HostRuntime) -> Result<(), Fail> {
    let alloc = rt.alloc();
    let mut items = List::new(alloc);
    items.push(ItemTree::Person(ann(alloc)?))?;
    let text = canonical(alloc, &Tree { items })?;
    assert!(rt; text.as_slice() == b"PERSON 'Ann' ROLES 'Clerk' , 'Boss'\nEND 'Ann'\n".as_slice());
    Ok(())
}
