//! Imports of texts that were checked before, and of others.

use std::alloc::Global;
use std::test::Fail;
use template_store::TemplateStore;

const FIRST: &[u8] = b"STRUCTURE 'E' END 'E'
PROCESS 'P' ('E','E') PROGRAM_ACTIVITY 'A' ('E','E') END 'A' END 'P'
";

const SECOND: &[u8] = b"STRUCTURE 'E' END 'E'
PROCESS 'P' ('E','E') PROGRAM_ACTIVITY 'B' ('E','E') END 'B' END 'P'
PROCESS 'Q' ('E','E') PROGRAM_ACTIVITY 'B' ('E','E') END 'B' END 'Q'
";

/// The versions of the templates, in order.
fn versions(alloc: Global, store: &TemplateStore) -> Result<Vec<u32>, Fail> {
    let mut versions = Vec::new(alloc);
    for template in store.library().templates.as_slice() {
        versions.push(template.version)?;
    }
    Ok(versions)
}

/// An empty library that has checked the first text.
fn checked(alloc: Global) -> Result<TemplateStore, Fail> {
    let mut store = TemplateStore::new(alloc);
    match store.check(alloc, FIRST) {
        Ok(()) => Ok(store),
        Err(_) => Err(Fail::new("the first text is refused")),
    }
}

#[test]
fn a_check_imports_nothing(rt: HostRuntime) -> Result<(), Fail> {
    let store = checked(rt.alloc())?;
    assert_eq!(rt; store.library().templates.len(), 0);
    Ok(())
}

#[test]
fn an_import_of_the_checked_text(rt: HostRuntime) -> Result<(), Fail> {
    let mut store = checked(rt.alloc())?;
    assert_eq!(rt; store.import(rt.alloc(), FIRST), Ok(1));
    assert_eq!(rt; store.import(rt.alloc(), FIRST), Ok(1));
    assert_eq!(rt;
        versions(rt.alloc(), &store)?.as_slice(),
        [1u32, 2].as_slice()
    );
    Ok(())
}

#[test]
fn an_import_of_another_text_than_the_checked_one(rt: HostRuntime) -> Result<(), Fail> {
    let mut store = checked(rt.alloc())?;
    assert_eq!(rt; store.import(rt.alloc(), SECOND), Ok(2));
    // What was checked first was meant for an empty library: it would be version 1 again.
    assert_eq!(rt; store.import(rt.alloc(), FIRST), Ok(1));
    assert_eq!(rt;
        versions(rt.alloc(), &store)?.as_slice(),
        [1u32, 1, 2].as_slice()
    );
    Ok(())
}

#[test]
fn a_refused_text_after_an_accepted_one(rt: HostRuntime) -> Result<(), Fail> {
    let mut store = checked(rt.alloc())?;
    assert_eq!(rt; store.check(rt.alloc(), b"PROCESS").is_err(), true);
    assert_eq!(rt; store.import(rt.alloc(), b"PROCESS").is_err(), true);
    assert_eq!(rt; store.library().templates.len(), 0);
    Ok(())
}
