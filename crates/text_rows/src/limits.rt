//! The greatest texts, and those that are one too great.
use flow_trials::answer;
use flow_words::Status;
use std::alloc::Global;
use std::test::Fail;

/// Fails where a text is refused.
fn accept(alloc: Global, shows: &str, text: &[u8]) -> Result<(), Fail> {
    let outcome = answer(alloc, &["check"], text)?;
    if outcome.status == Status::Done {
        Ok(())
    } else {
        outcome.check(shows, "", Status::Done)
    }
}

/// Fails where a text isn't refused so.
fn refuse(alloc: Global, shows: &str, text: &[u8], refusal: &str) -> Result<(), Fail> {
    answer(alloc, &["check"], text)?.check(shows, refusal, Status::Refused)
}

/// A piece this many times.
fn repeated(alloc: Global, piece: &str, times: usize) -> Result<Vec<u8>, Fail> {
    let mut text = Vec::new(alloc);
    for _ in 0..times {
        text.extend_from_slice(piece.as_bytes())?;
    }
    Ok(text)
}

/// These pieces, one behind the other.
fn joined(alloc: Global, pieces: &[&[u8]]) -> Result<Vec<u8>, Fail> {
    let mut text = Vec::new(alloc);
    for piece in pieces {
        text.extend_from_slice(piece)?;
    }
    Ok(text)
}

/// A text that is accepted, filled up with line feeds to this many bytes.
fn filled(alloc: Global, bytes: usize) -> Result<Vec<u8>, Fail> {
    let text =
        "STRUCTURE 'E' END 'E'\nPROCESS 'D' ('E','E')\nPROGRAM_ACTIVITY 'A' ('E','E') END 'A'\nEND 'D'\n";
    let mut filled = Vec::from_slice(alloc, text.as_bytes())?;
    let feeds = repeated(alloc, "\n", bytes.saturating_sub(text.len()))?;
    filled.extend_from_slice(&feeds)?;
    Ok(filled)
}

/// A process with this many levels of BLOCK round one activity, an opening in each line.
fn nested(alloc: Global, levels: usize) -> Result<Vec<u8>, Fail> {
    let opened = repeated(alloc, "BLOCK 'B' ('E','E')\n", levels)?;
    let ended = repeated(alloc, "END 'B'\n", levels)?;
    let pieces: [&[u8]; 5] = [
        b"STRUCTURE 'E' END 'E'\nPROCESS 'P' ('E','E')\n",
        &opened,
        b"PROGRAM_ACTIVITY 'A' ('E','E') END 'A'\n",
        &ended,
        b"END 'P'\n",
    ];
    joined(alloc, &pieces)
}

/// A condition with this many levels of parentheses in it, on line 3.
fn bracketed(alloc: Global, levels: usize) -> Result<Vec<u8>, Fail> {
    let opened = repeated(alloc, "(", levels)?;
    let closed = repeated(alloc, ")", levels)?;
    let pieces: [&[u8]; 5] = [
        b"STRUCTURE 'N' 'n' : LONG ; END 'N'\nPROCESS 'P' ('N','N')\nPROGRAM_ACTIVITY 'A' ('N','N') EXIT WHEN (",
        &opened,
        b"'n' = 1",
        &closed,
        b") END 'A'\nEND 'P'\n",
    ];
    joined(alloc, &pieces)
}

/// A graph of this many activities in a chain, the first of them on line 3.
fn chained(alloc: Global, count: usize) -> Result<Vec<u8>, Fail> {
    let mut text = Vec::from_slice(alloc, b"STRUCTURE 'E' END 'E'\nPROCESS 'P' ('E','E')\n")?;
    for i in 0..count {
        let line = format!(in alloc; "PROGRAM_ACTIVITY 'A{i}' ('E','E') END 'A{i}'\n")?;
        text.extend_from_slice(line.as_bytes())?;
    }
    for i in 1..count {
        let before = i.saturating_sub(1);
        let line = format!(in alloc; "CONTROL FROM 'A{before}' TO 'A{i}'\n")?;
        text.extend_from_slice(line.as_bytes())?;
    }
    text.extend_from_slice(b"END 'P'\n")?;
    Ok(text)
}

/// A chain of processes, one in each line, each of which calls the one before it this many times.
fn calling(alloc: Global, count: usize, calls: usize) -> Result<Vec<u8>, Fail> {
    let mut text = Vec::from_slice(
        alloc,
        b"STRUCTURE 'E' END 'E'\nPROCESS 'P0' ('E','E') PROGRAM_ACTIVITY 'A' ('E','E') END 'A' END 'P0'\n",
    )?;
    for i in 1..count {
        let before = i.saturating_sub(1);
        text.extend_from_slice(format!(in alloc;
            "PROCESS 'P{i}' ('E','E') PROGRAM_ACTIVITY 'A' ('E','E') END 'A'"
        )?.as_bytes())?;
        for call in 0..calls {
            let activity = format!(in alloc;
                " PROCESS_ACTIVITY 'C{call}' ('E','E') PROCESS 'P{before}' END 'C{call}'"
            )?;
            text.extend_from_slice(activity.as_bytes())?;
        }
        text.extend_from_slice(format!(in alloc; " END 'P{i}'\n")?.as_bytes())?;
    }
    Ok(text)
}

#[test]
fn processes_nest_16_deep(rt: HostRuntime) -> Result<(), Fail> {
    let alloc = rt.alloc();
    accept(alloc, "17 levels", &calling(alloc, 17, 1)?)?;
    refuse(
        alloc,
        "18 levels",
        &calling(alloc, 18, 1)?,
        "no RULE 21 19\n",
    )
}

#[test]
fn processes_expand_to_65536(rt: HostRuntime) -> Result<(), Fail> {
    let alloc = rt.alloc();
    accept(alloc, "15 doublings", &calling(alloc, 15, 2)?)?;
    refuse(
        alloc,
        "16 doublings",
        &calling(alloc, 16, 2)?,
        "no RULE 22 17\n",
    )
}

#[test]
fn texts_have_256_processes(rt: HostRuntime) -> Result<(), Fail> {
    let alloc = rt.alloc();
    accept(alloc, "256 processes", &calling(alloc, 256, 0)?)?;
    refuse(
        alloc,
        "257 processes",
        &calling(alloc, 257, 0)?,
        "no RULE 24 258\n",
    )
}

#[test]
fn texts_have_a_mebibyte(rt: HostRuntime) -> Result<(), Fail> {
    let alloc = rt.alloc();
    accept(alloc, "a mebibyte", &filled(alloc, 1_048_576)?)?;
    refuse(
        alloc,
        "one byte more",
        &filled(alloc, 1_048_577)?,
        "no RULE 24 1\n",
    )
}

#[test]
fn blocks_have_64_levels(rt: HostRuntime) -> Result<(), Fail> {
    let alloc = rt.alloc();
    refuse(alloc, "64 levels", &nested(alloc, 64)?, "no RULE 21 2\n")?;
    refuse(alloc, "65 levels", &nested(alloc, 65)?, "no RULE 3 67\n")
}

#[test]
fn conditions_have_64_levels(rt: HostRuntime) -> Result<(), Fail> {
    let alloc = rt.alloc();
    accept(alloc, "64 levels", &bracketed(alloc, 64)?)?;
    refuse(alloc, "65 levels", &bracketed(alloc, 65)?, "no RULE 3 3\n")
}

#[test]
fn graphs_have_1024_activities(rt: HostRuntime) -> Result<(), Fail> {
    let alloc = rt.alloc();
    accept(alloc, "1,024 activities", &chained(alloc, 1_024)?)?;
    refuse(
        alloc,
        "1,025 activities",
        &chained(alloc, 1_025)?,
        "no RULE 24 1027\n",
    )
}
