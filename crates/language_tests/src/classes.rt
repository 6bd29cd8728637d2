//! Rule 18 between imports: containers are compared by what their structures say, whatever these are called.

use std::alloc::Global;
use std::test::Fail;
use template_check::ImportFault;
use template_store::TemplateStore;

const CALLED: &[u8] = b"STRUCTURE 'E' END 'E'
STRUCTURE 'I' 'n' : LONG (2) ; END 'I'
STRUCTURE 'O' 'i' : 'I' ; 's' : STRING ; END 'O'
PROCESS 'Q' ('O','E') PROGRAM_ACTIVITY 'A' ('E','E') END 'A' END 'Q'
";

const CALL: &[u8] = b"STRUCTURE 'E' END 'E'
PROCESS 'P' ('E','E') PROCESS_ACTIVITY 'C' ('Y','E') PROCESS 'Q' END 'C' END 'P'
";

/// Structures of the calling text, and the rule that it breaks; 0 where it breaks none.
const CALLERS: [(&[u8], u8); 9] = [
    (
        b"STRUCTURE 'X' 'n' : LONG (2) ; END 'X' STRUCTURE 'Y' 'i' : 'X' ; 's' : STRING ; END 'Y'",
        0,
    ),
    (
        b"STRUCTURE 'Y' 'i' : 'X' ; 's' : STRING ; END 'Y' STRUCTURE 'X' 'n' : LONG (2) ; END 'X'",
        0,
    ),
    (
        b"STRUCTURE 'X' 'n' : LONG (2) ; 'e' : 'E' ; END 'X' STRUCTURE 'Y' 'i' : 'X' ; 's' : STRING ; END 'Y'",
        0,
    ),
    (
        b"STRUCTURE 'X' 'n' : LONG (1) ; END 'X' STRUCTURE 'Y' 'i' : 'X' ; 's' : STRING ; END 'Y'",
        18,
    ),
    (
        b"STRUCTURE 'X' 'n' : LONG ; END 'X' STRUCTURE 'Y' 'i' : 'X' ; 's' : STRING ; END 'Y'",
        18,
    ),
    (
        b"STRUCTURE 'X' 'm' : LONG (2) ; END 'X' STRUCTURE 'Y' 'i' : 'X' ; 's' : STRING ; END 'Y'",
        18,
    ),
    (
        b"STRUCTURE 'X' 'n' : LONG (2) ; END 'X' STRUCTURE 'Y' 'j' : 'X' ; 's' : STRING ; END 'Y'",
        18,
    ),
    (
        b"STRUCTURE 'X' 'n' : LONG (2) ; END 'X' STRUCTURE 'Y' 'i' : 'X' ; 's' : LONG ; END 'Y'",
        18,
    ),
    (
        b"STRUCTURE 'X' 'n' : LONG (2) ; END 'X' STRUCTURE 'Y' 's' : STRING ; 'i' : 'X' ; END 'Y'",
        18,
    ),
];

/// The rule that a text breaks behind the imports so far; 0 where it breaks none.
fn broken_rule(alloc: Global, store: &mut TemplateStore, structures: &[u8]) -> Result<u8, Fail> {
    let mut text = Vec::from_slice(alloc, structures)?;
    text.extend_from_slice(CALL)?;
    match store.import(alloc, &text) {
        Ok(_) => Ok(0),
        Err(ImportFault::Rule(fault)) => Ok(fault.rule),
        Err(ImportFault::NoMemory) => Err(Fail::new("no memory")),
    }
}

#[test]
fn containers_of_earlier_imports(rt: HostRuntime) -> Result<(), Fail> {
    let mut store = TemplateStore::new(rt.alloc());
    assert_eq!(rt; store.import(rt.alloc(), CALLED), Ok(1));
    for (structures, rule) in CALLERS {
        assert_eq!(rt; broken_rule(rt.alloc(), &mut store, structures)?, rule);
    }
    assert_eq!(rt; store.library().templates.len(), 4);
    Ok(())
}
