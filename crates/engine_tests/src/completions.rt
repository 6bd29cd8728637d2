//! Two programs, one after the other: which completions are taken, and what results.
use fate_eval::{FateFault, Fates, fates};
use flow_model::{
    Activity, Container, Control, DoneBy, Fact, Fate, Graph, Join, LeafRows, Leaves, Library, List,
    Name, Part, Path, Program, Template, When, Wiring, Work,
};
use std::alloc::Global;
use std::rc::Rc;
use std::test::Fail;

fn leaves(alloc: Global) -> Result<Leaves, Fail> {
    Ok(Leaves::new(Rc::new(alloc, LeafRows::new(alloc))?, 0, 0))
}

fn nothing(alloc: Global) -> Container {
    Container {
        values: List::new(alloc),
    }
}

fn activity(alloc: Global, name: &[u8]) -> Result<Activity, Fail> {
    Ok(Activity {
        name: Name::new(alloc, name)?,
        work: Work::Program(Program {
            manual: false,
            by: DoneBy::Starter,
            expires: None,
        }),
        input: leaves(alloc)?,
        output: leaves(alloc)?,
        join: Join::All,
        exit: None,
    })
}

/// Rows of places, of which each is empty or has the place 0.
fn rows(alloc: Global, filled: &[bool]) -> Result<List<List<u32>>, Fail> {
    let mut rows = List::new(alloc);
    for full in filled {
        let mut row = List::new(alloc);
        if *full {
            row.push(0)?;
        }
        rows.push(row)?;
    }
    Ok(rows)
}

fn wiring(alloc: Global) -> Result<Wiring, Fail> {
    let mut order = List::new(alloc);
    order.push(0)?;
    order.push(1)?;
    Ok(Wiring {
        order,
        incoming: rows(alloc, &[false, true])?,
        outgoing: rows(alloc, &[true, false])?,
        feeding: rows(alloc, &[false, false])?,
        sinking: List::new(alloc),
        looping: rows(alloc, &[false, false])?,
    })
}

fn graph(alloc: Global) -> Result<Graph, Fail> {
    let mut activities = List::new(alloc);
    activities.push(activity(alloc, b"A".as_slice())?)?;
    activities.push(activity(alloc, b"B".as_slice())?)?;
    let mut controls = List::new(alloc);
    controls.push(Control {
        from: 0,
        to: 1,
        when: When::Always,
    })?;
    Ok(Graph {
        input: leaves(alloc)?,
        output: leaves(alloc)?,
        activities,
        controls,
        lines: List::new(alloc),
        loops: List::new(alloc),
        wiring: wiring(alloc)?,
    })
}

fn library(alloc: Global) -> Result<Library, Fail> {
    let mut templates = List::new(alloc);
    templates.push(Template {
        name: Name::new(alloc, b"P".as_slice())?,
        version: 1,
        graph: graph(alloc)?,
        depth: 1,
        size: 3,
    })?;
    Ok(Library {
        templates,
        people: List::new(alloc),
    })
}

/// The completions of the first attempts of these activities.
fn facts(alloc: Global, names: &[&[u8]]) -> Result<Vec<Fact>, Fail> {
    let mut facts = Vec::new(alloc);
    for name in names {
        let mut parts = List::new(alloc);
        parts.push(Part {
            name: Name::new(alloc, name)?,
            attempt: 1,
        })?;
        facts.push(Fact {
            item: Path { root: 1, parts },
            output: nothing(alloc),
        })?;
    }
    Ok(facts)
}

fn fates_by(alloc: Global, names: &[&[u8]]) -> Result<Result<Fates, FateFault>, Fail> {
    let library = library(alloc)?;
    let facts = facts(alloc, names)?;
    Ok(fates(alloc, &library, 0, 1, &nothing(alloc), &facts))
}

/// How many rows say that an activity is finished.
fn finished(shown: &Fates) -> usize {
    let rows = shown.rows.as_slice().iter();
    rows.filter(|row| row.fate == Fate::Finished(1)).count()
}

/// The refused completion, or how many activities are finished.
fn told(alloc: Global, names: &[&[u8]]) -> Result<Result<usize, FateFault>, Fail> {
    Ok(match fates_by(alloc, names)? {
        Err(fault) => Err(fault),
        Ok(shown) => Ok(finished(&shown)),
    })
}

/// Completions of the first attempts of activities, and what they come to.
type Case<'a> = (&'a [&'a [u8]], Result<usize, FateFault>);

const CASES: [Case; 7] = [
    (&[], Ok(0)),
    (&[b"A"], Ok(1)),
    (&[b"A", b"B"], Ok(2)),
    (&[b"B"], Err(FateFault::NotReady(0))),
    (&[b"B", b"A"], Err(FateFault::NotReady(0))),
    (&[b"A", b"A"], Err(FateFault::NotReady(1))),
    (&[b"A", b"B", b"B"], Err(FateFault::NotReady(2))),
];

#[test]
fn completions_are_taken_in_turn(rt: HostRuntime) -> Result<(), Fail> {
    for (names, wanted) in &CASES {
        assert!(rt; told(rt.alloc(), *names)? == *wanted);
    }
    Ok(())
}
