//! A row, a container, and the words of phases and modes.
use flow_model::{
    Container, Fate, FateRow, Kind, LeafRow, LeafRows, Leaves, List, Mode, Name, Path, Phase, Step,
    Txt, Value,
};
use reply_text::{
    write_container, write_fate, write_mode, write_phase, write_quoted_path, write_row,
};
use std::alloc::Global;
use std::rc::Rc;
use std::test::Fail;

fn root(alloc: Global) -> Path {
    Path {
        root: 7,
        parts: List::new(alloc),
    }
}

/// A leaf whose first step is this one, and whose others are those of the row before this one; 0 is none.
fn row(alloc: Global, head: Step, place: u16, rest: u32, kind: Kind) -> Result<LeafRow, Fail> {
    Ok(LeafRow {
        head: Rc::new(alloc, head)?,
        rest,
        place,
        kind,
    })
}

fn member(alloc: Global, name: &[u8]) -> Result<Step, Fail> {
    Ok(Step::Member(Name::new(alloc, name)?))
}

/// The leaves `'_RC'` and `'A'[2].'B'`.
fn leaves(alloc: Global) -> Result<Leaves, Fail> {
    let mut rows = LeafRows::new(alloc);
    let inner = member(alloc, b"B".as_slice())?;
    rows.push(row(alloc, inner, 0, 0, Kind::Str)?)?;
    rows.push(row(alloc, Step::Rc, 0, 0, Kind::Long)?)?;
    let outer = member(alloc, b"A".as_slice())?;
    rows.push(row(alloc, outer, 3, 1, Kind::Str)?)?;
    Ok(Leaves::new(Rc::new(alloc, rows)?, 1, 2))
}

#[test]
fn writes_a_row(rt: HostRuntime) -> Result<(), Fail> {
    let alloc = rt.alloc();
    let row = FateRow {
        scope: root(alloc),
        name: Name::new(alloc, b"Check".as_slice())?,
        fate: Fate::Ready(3),
    };
    let mut out = Vec::new(alloc);
    write_row(&mut out, &row)?;
    assert!(rt; out.as_slice() == b"'7/Check' READY 3\n".as_slice());
    Ok(())
}

fn container(alloc: Global) -> Result<Container, Fail> {
    let mut values = List::new(alloc);
    values.push(Value::Whole(-5))?;
    values.push(Value::Text(Txt::new(alloc, b"a \"b\"".as_slice())?))?;
    Ok(Container { values })
}

#[test]
fn writes_a_container(rt: HostRuntime) -> Result<(), Fail> {
    let alloc = rt.alloc();
    let mut out = Vec::new(alloc);
    write_container(&mut out, &leaves(alloc)?, &container(alloc)?)?;
    assert!(rt; out.as_slice() == b"'_RC' = -5\n'A'[2].'B' = \"a \"\"b\"\"\"\n".as_slice());
    Ok(())
}

#[test]
fn writes_words(rt: HostRuntime) -> Result<(), Fail> {
    let mut out = Vec::new(rt.alloc());
    write_phase(&mut out, Phase::Ended)?;
    write_mode(&mut out, Mode::Suspended)?;
    write_fate(&mut out, Fate::Dead)?;
    write_quoted_path(&mut out, &root(rt.alloc()))?;
    assert!(rt; out.as_slice() == b"ENDEDSUSPENDEDDEAD'7'".as_slice());
    Ok(())
}
