//! The text of a message, and the line of a completion.
use audit_trail::{audit, write_message};
use flow_model::{List, Message, Name, Part, Path, Transaction, Who};
use std::alloc::Global;
use std::test::Fail;

fn looped(alloc: Global) -> Result<Path, Fail> {
    let name = Name::new(alloc, b"Loop".as_slice())?;
    let mut parts = List::new(alloc);
    parts.push(Part { name, attempt: 2 })?;
    Ok(Path { root: 1, parts })
}

fn signal(alloc: Global) -> Result<Vec<u8>, Fail> {
    let source = Name::new(alloc, b"A".as_slice())?;
    let target = Name::new(alloc, b"B".as_slice())?;
    let mut out = Vec::new(alloc);
    write_message(
        &mut out,
        &Message::Signal(looped(alloc)?, source, target, true),
    )?;
    Ok(out)
}

fn done(alloc: Global) -> Result<Vec<u8>, Fail> {
    let done = Transaction::Done(looped(alloc)?, Who::Agent(3), List::new(alloc));
    let mut out = Vec::new(alloc);
    audit(12, &done, -1, &mut out)?;
    Ok(out)
}

#[test]
fn lines(rt: HostRuntime) -> Result<(), Fail> {
    let alloc = rt.alloc();
    assert!(rt; signal(alloc)?.as_slice() == b"SIGNAL '1/Loop#2' 'A' 'B' TRUE".as_slice());
    assert!(rt; done(alloc)?.as_slice() == b"12 DONE '1/Loop#2' TAKE 3 RC -1\n".as_slice());
    Ok(())
}
