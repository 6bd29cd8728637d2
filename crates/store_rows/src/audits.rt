//! Certificates of a store: as `explain` gives them, with each line left out, repeated, exchanged or changed, and of
//! what is not there.
use flow_disk::MemDisk;
use flow_trials::{Outcome, new_store, run_over};
use flow_words::Status;
use std::alloc::Global;
use std::test::Fail;

/// A diamond with a dead side, a block that was repeated, and a program that was.
const SCRIPT: &[u8] = b"IMPORT
STRUCTURE 'N' 'n' : LONG ; END 'N'
PERSON 'ann' END 'ann'
PROCESS 'P' ('N','N')
PROGRAM_ACTIVITY 'A' ('N','N') END 'A'
PROGRAM_ACTIVITY 'B' ('N','N') END 'B'
BLOCK 'L' ('N','N') EXIT WHEN ('n' = 2)
PROGRAM_ACTIVITY 'X' ('N','N') END 'X'
DATA FROM 'X' TO SINK MAP 'n' TO 'n'
END 'L'
PROGRAM_ACTIVITY 'D' ('N','N') END 'D'
PROGRAM_ACTIVITY 'W' ('N','N') END 'W'
PROGRAM_ACTIVITY 'T' ('N','N') EXIT WHEN ('n' = 1) END 'T'
CONTROL FROM 'A' TO 'B' WHEN ('n' > 5)
CONTROL FROM 'A' TO 'L' OTHERWISE
CONTROL FROM 'B' TO 'D'
CONTROL FROM 'L' TO 'D'
CONTROL FROM 'L' TO 'W'
END 'P'
.
START 'P' BY 'ann'
DRAIN
FORCE '1/A#1' WITH 'n' = 3
DRAIN
FORCE '1/L#1/X#1' WITH 'n' = 1
DRAIN
FORCE '1/L#2/X#1' WITH 'n' = 2
DRAIN
FORCE '1/T#1' WITH 'n' = 0
FORCE '1/T#2' WITH 'n' = 1
START 'P' BY 'ann'
";

/// Why D is dead: what each line needs stands before it.
const LINES: [&str; 11] = [
    "SCOPE '1'",
    "FINISHED '1/A' 1",
    "DEAD '1/B'",
    "SCOPE '1/L#1'",
    "FINISHED '1/L#1/X' 1",
    "ENDED '1/L#1'",
    "SCOPE '1/L#2'",
    "FINISHED '1/L#2/X' 1",
    "ENDED '1/L#2'",
    "FINISHED '1/L' 2",
    "DEAD '1/D'",
];

/// The path that is asked for, what `explain` answers, and the status.
const ASKED: [(&str, &str, Status); 11] = [
    (
        "1/B",
        "ok EXPLAIN 3\nSCOPE '1'\nFINISHED '1/A' 1\nDEAD '1/B'\n",
        Status::Done,
    ),
    (
        "1/T",
        "ok EXPLAIN 2\nSCOPE '1'\nFINISHED '1/T' 2\n",
        Status::Done,
    ),
    ("1/W", "no UNSETTLED READY 1\n", Status::Refused),
    ("1/X", "no ACTIVITY\n", Status::Refused),
    ("1/L#3/X", "no ACTIVITY\n", Status::Refused),
    ("1/A#1/X", "no ACTIVITY\n", Status::Refused),
    ("2/A", "no ACTIVITY\n", Status::Refused),
    ("3/A", "no ROOT 3\n", Status::Refused),
    ("1", "no USAGE\n", Status::Usage),
    ("01/A", "no USAGE\n", Status::Usage),
    ("'1/B'", "no USAGE\n", Status::Usage),
];

/// A line, another one in its place, and the number of the line that isn't justified then.
const CHANGED: [(usize, &str, usize); 14] = [
    (0, "SCOPE '2'", 2),
    (0, "SCOPE '3'", 1),
    (1, "FINISHED '1/A' 2", 2),
    (1, "FINISHED '1/A' 0", 2),
    (1, "DEAD '1/A'", 2),
    (2, "FINISHED '1/B' 1", 3),
    (2, "DEAD  '1/B'", 3),
    (3, "SCOPE '1/L#2'", 4),
    (5, "ENDED '1/L#2'", 6),
    (6, "SCOPE '1/L#3'", 7),
    (9, "FINISHED '1/L' 1", 10),
    (9, "FINISHED '1/L' 3", 10),
    (10, "FINISHED '1/D' 1", 11),
    (10, "DEAD '1/E'", 11),
];

/// What it shows, lines, and the number of the first that isn't justified; 0 where all are. A line that stands before
/// is looked up.
const REPEATED: [(&str, &[&str], usize); 11] = [
    ("the last attempt", &["SCOPE '1'", "FINISHED '1/T' 2"], 0),
    (
        "an attempt before the last",
        &["SCOPE '1'", "FINISHED '1/T' 1"],
        2,
    ),
    (
        "an attempt behind the last",
        &["SCOPE '1'", "FINISHED '1/T' 3"],
        2,
    ),
    (
        "the last attempt again",
        &[
            "SCOPE '1'",
            "FINISHED '1/T' 2",
            "SCOPE '1'",
            "FINISHED '1/T' 2",
        ],
        0,
    ),
    (
        "an earlier attempt behind two of the last",
        &[
            "SCOPE '1'",
            "FINISHED '1/T' 2",
            "FINISHED '1/T' 2",
            "FINISHED '1/T' 1",
        ],
        4,
    ),
    (
        "a later attempt behind the last",
        &["SCOPE '1'", "FINISHED '1/T' 2", "FINISHED '1/T' 3"],
        3,
    ),
    (
        "another activity behind a dead one",
        &[
            "SCOPE '1'",
            "FINISHED '1/A' 1",
            "DEAD '1/B'",
            "DEAD '1/B'",
            "DEAD '1/A'",
        ],
        5,
    ),
    (
        "a dead activity before its reason",
        &["SCOPE '1'", "DEAD '1/B'", "DEAD '1/B'"],
        2,
    ),
    (
        "an end behind a scope that stands twice",
        &[
            "SCOPE '1'",
            "FINISHED '1/A' 1",
            "SCOPE '1/L#1'",
            "SCOPE '1/L#1'",
            "ENDED '1/L#1'",
        ],
        5,
    ),
    (
        "the last attempt before its scope has ended",
        &[
            "SCOPE '1'",
            "FINISHED '1/A' 1",
            "SCOPE '1/L#1'",
            "FINISHED '1/L#1/X' 1",
            "ENDED '1/L#1'",
            "SCOPE '1/L#2'",
            "FINISHED '1/L' 2",
        ],
        7,
    ),
    (
        "an earlier attempt behind all of them",
        &[
            "SCOPE '1'",
            "FINISHED '1/A' 1",
            "SCOPE '1/L#1'",
            "FINISHED '1/L#1/X' 1",
            "ENDED '1/L#1'",
            "SCOPE '1/L#2'",
            "FINISHED '1/L#2/X' 1",
            "ENDED '1/L#2'",
            "FINISHED '1/L' 2",
            "SCOPE '1/L#2'",
            "ENDED '1/L#1'",
            "FINISHED '1/L' 2",
            "FINISHED '1/L' 1",
        ],
        13,
    ),
];

/// A store on which the script was run.
fn store(alloc: Global) -> Result<MemDisk, Fail> {
    let disk = new_store(alloc)?.disk(alloc)?;
    Ok(run_over(alloc, &["run", "a", "b"], SCRIPT, (&[], &[]), disk)?.disk)
}

/// What `verify` answers to these lines over that store.
fn verified(alloc: Global, lines: &[&str]) -> Result<Outcome, Fail> {
    let mut input = Vec::new(alloc);
    for line in lines {
        input.extend_from_slice(line.as_bytes())?;
        input.push(b'\n')?;
    }
    let disk = store(alloc)?;
    Ok(run_over(alloc, &["verify", "a", "b"], &input, (&[], &[]), disk)?)
}

/// Fails where not all these lines are justified.
fn accept(alloc: Global, shows: &str, lines: &[&str]) -> Result<(), Fail> {
    let answer = format!(in alloc; "ok VERIFY {}\n", lines.len())?;
    verified(alloc, lines)?.check(shows, answer.as_str(), Status::Done)
}

/// Fails where the line of this number isn't the first that isn't justified.
fn stop_at(alloc: Global, shows: &str, lines: &[&str], number: usize) -> Result<(), Fail> {
    let answer = format!(in alloc; "no STEP {number}\n")?;
    verified(alloc, lines)?.check(shows, answer.as_str(), Status::Refused)
}

/// Fails where these lines don't stop at this number, or, where it is 0, aren't all justified.
fn judge(alloc: Global, shows: &str, lines: &[&str], number: usize) -> Result<(), Fail> {
    if number == 0 {
        accept(alloc, shows, lines)
    } else {
        stop_at(alloc, shows, lines, number)
    }
}

/// The lines with another one at a place.
fn with_line<'a>(alloc: Global, at: usize, line: &'a str) -> Result<Vec<&'a str>, Fail> {
    let mut lines = Vec::new(alloc);
    for (i, old) in LINES.iter().enumerate() {
        lines.push(if i == at { line } else { *old })?;
    }
    Ok(lines)
}

/// The lines without the one at a place.
fn without(alloc: Global, at: usize) -> Result<Vec<&'static str>, Fail> {
    let mut lines = Vec::new(alloc);
    for (i, line) in LINES.iter().enumerate() {
        if i != at {
            lines.push(*line)?;
        }
    }
    Ok(lines)
}

/// The lines with the one at a place twice.
fn doubled(alloc: Global, at: usize) -> Result<Vec<&'static str>, Fail> {
    let mut lines = Vec::new(alloc);
    for (i, line) in LINES.iter().enumerate() {
        lines.push(*line)?;
        if i == at {
            lines.push(*line)?;
        }
    }
    Ok(lines)
}

/// The lines with the one at a place behind the next one.
fn exchanged(alloc: Global, at: usize) -> Result<Vec<&'static str>, Fail> {
    let mut lines = Vec::new(alloc);
    for (i, line) in LINES.iter().enumerate() {
        if i != at {
            lines.push(*line)?;
        }
        if i == at.saturating_add(1) {
            if let Some(first) = LINES.get(at) {
                lines.push(*first)?;
            }
        }
    }
    Ok(lines)
}

#[test]
fn activities_are_explained(rt: HostRuntime) -> Result<(), Fail> {
    for (activity, text, status) in ASKED {
        let words = ["explain", "a", "b", activity];
        let disk = store(rt.alloc())?;
        run_over(rt.alloc(), &words, b"", (&[], &[]), disk)?.check(activity, text, status)?;
    }
    Ok(())
}

#[test]
fn certificates_are_accepted(rt: HostRuntime) -> Result<(), Fail> {
    accept(rt.alloc(), "all lines", &LINES)?;
    accept(rt.alloc(), "no lines", &[])
}

#[test]
fn lines_may_be_repeated(rt: HostRuntime) -> Result<(), Fail> {
    for (i, line) in LINES.iter().enumerate() {
        accept(rt.alloc(), line, &doubled(rt.alloc(), i)?)?;
    }
    Ok(())
}

/// Where the lines stop without each of them: at the first that needs it.
const NEEDED: [usize; 10] = [1, 2, 10, 4, 5, 6, 7, 8, 9, 10];

#[test]
fn lines_are_needed(rt: HostRuntime) -> Result<(), Fail> {
    for (i, number) in NEEDED.iter().enumerate() {
        let shows = format!(in rt.alloc(); "without line {i}")?;
        stop_at(
            rt.alloc(),
            shows.as_str(),
            &without(rt.alloc(), i)?,
            *number,
        )?;
    }
    Ok(())
}

/// Where the lines stop when each of them is exchanged with the next one; 0 where they don't.
const EXCHANGED: [usize; 10] = [1, 2, 0, 4, 5, 6, 7, 8, 9, 10];

#[test]
fn lines_have_an_order(rt: HostRuntime) -> Result<(), Fail> {
    for (i, number) in EXCHANGED.iter().enumerate() {
        let shows = format!(in rt.alloc(); "line {i} behind the next one")?;
        let lines = exchanged(rt.alloc(), i)?;
        judge(rt.alloc(), shows.as_str(), &lines, *number)?;
    }
    Ok(())
}

#[test]
fn changed_lines_stop(rt: HostRuntime) -> Result<(), Fail> {
    for (at, line, number) in CHANGED {
        stop_at(rt.alloc(), line, &with_line(rt.alloc(), at, line)?, number)?;
    }
    Ok(())
}

#[test]
fn repeated_lines_are_looked_up(rt: HostRuntime) -> Result<(), Fail> {
    for (shows, lines, number) in REPEATED {
        judge(rt.alloc(), shows, lines, number)?;
    }
    Ok(())
}
