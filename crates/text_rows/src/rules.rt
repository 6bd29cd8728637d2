//! Each of the 24 rules with texts that break it: in a process, in a block, in a block of a block, and with a lower
//! rule broken behind it.
use flow_trials::answer;
use flow_words::Status;
use std::alloc::Global;
use std::test::Fail;

/// Two structures, two people and a process, in five lines.
const HEAD: &str =
    "STRUCTURE 'N' 'n' : LONG ; 't' : STRING ; 'm' : 'M' ; END 'N'\nSTRUCTURE 'M' 'a' : LONG ( 2 ) ; END 'M'\nPERSON 'ann' ROLES 'r' END 'ann'\nPERSON 'bob' END 'bob'\nPROCESS 'Sub' ('M','N') PROGRAM_ACTIVITY 'X' ('N','N') END 'X' END 'Sub'\n";

/// The lines of the head.
const HEAD_LINES: usize = 5;

/// Elements of a graph, the rule that they break, and the line among them.
type InGraph = (&'static str, u8, usize);

const GRAPHS: [InGraph; 62] = [
    ("PROGRAM_ACTIVITY 'A' ('N','N') END 'B'\n", 4, 1),
    ("PROGRAM_ACTIVITY 'A' ('N','N')\nEND 'a'\n", 4, 2),
    (
        "PROCESS_ACTIVITY 'A' ('M','N') PROCESS 'Sub' END 'Sub'\n",
        4,
        1,
    ),
    (
        "PROGRAM_ACTIVITY 'A' ('N','N') END 'A'\nPROGRAM_ACTIVITY 'A' ('N','N') END 'A'\n",
        5,
        2,
    ),
    (
        "PROGRAM_ACTIVITY 'A' ('N','N') START MANUAL\nSTART AUTOMATIC END 'A'\n",
        5,
        2,
    ),
    (
        "PROGRAM_ACTIVITY 'A' ('N','N') DONE_BY STARTER\nDONE_BY ROLE 'r' END 'A'\n",
        5,
        2,
    ),
    ("PROGRAM_ACTIVITY 'A' ('N','O') END 'A'\n", 6, 1),
    ("PROGRAM_ACTIVITY 'A' ('n','N') END 'A'\n", 6, 1),
    (
        "PROGRAM_ACTIVITY 'A' ('N','N') END 'A'\nBLOCK 'B' ('N',\n'O') PROGRAM_ACTIVITY 'C' ('N','N') END 'C' END 'B'\n",
        6,
        3,
    ),
    (
        "PROGRAM_ACTIVITY 'A' ('N','N') END 'A'\nCONTROL FROM 'A' TO 'B'\n",
        9,
        2,
    ),
    (
        "PROGRAM_ACTIVITY 'A' ('N','N') END 'A'\nDATA FROM 'a' TO 'A' MAP 'n' TO 'n'\n",
        9,
        2,
    ),
    (
        "PROGRAM_ACTIVITY 'A' ('N','N') END 'A'\nDATA LOOP 'Sub' MAP 'n' TO 'n'\n",
        9,
        2,
    ),
    (
        "PROGRAM_ACTIVITY 'A' ('N','N') END 'A'\nPROGRAM_ACTIVITY 'C' ('N','N') END 'C'\nCONTROL FROM 'A' TO 'C'\nCONTROL FROM 'A' TO 'C'\n",
        10,
        4,
    ),
    (
        "PROGRAM_ACTIVITY 'A' ('N','N') END 'A'\nPROGRAM_ACTIVITY 'C' ('N','N') END 'C'\nCONTROL FROM 'A' TO 'C' WHEN ('n' = 1)\nCONTROL FROM 'A' TO 'C' OTHERWISE\n",
        10,
        4,
    ),
    (
        "PROGRAM_ACTIVITY 'A' ('N','N') END 'A'\nCONTROL FROM 'A' TO 'A'\nCONTROL FROM 'A' TO 'A'\n",
        10,
        3,
    ),
    (
        "PROGRAM_ACTIVITY 'A' ('N','N') END 'A'\nCONTROL FROM 'A' TO 'A'\n",
        11,
        2,
    ),
    (
        "PROGRAM_ACTIVITY 'A' ('N','N') END 'A'\nPROGRAM_ACTIVITY 'C' ('N','N') END 'C'\nCONTROL FROM 'A' TO 'C'\nCONTROL FROM 'C' TO 'A'\n",
        11,
        3,
    ),
    (
        "PROGRAM_ACTIVITY 'A' ('N','N') END 'A'\nPROGRAM_ACTIVITY 'C' ('N','N') END 'C'\nPROGRAM_ACTIVITY 'D' ('N','N') END 'D'\nPROGRAM_ACTIVITY 'E' ('N','N') END 'E'\nCONTROL FROM 'A' TO 'C'\nCONTROL FROM 'C' TO 'D'\nCONTROL FROM 'D' TO 'E'\nCONTROL FROM 'E' TO 'C'\n",
        11,
        6,
    ),
    ("", 12, 0),
    ("CONTROL FROM 'A' TO 'C'\n", 9, 1),
    (
        "PROGRAM_ACTIVITY 'A' ('N','N') END 'A'\nBLOCK 'B' ('N','N') END 'B'\n",
        12,
        2,
    ),
    (
        "BLOCK 'B' ('N','N') PROGRAM_ACTIVITY 'A' ('N','N') END 'A'\nBLOCK 'C' ('N','N') END 'C'\nEND 'B'\n",
        12,
        2,
    ),
    (
        "PROGRAM_ACTIVITY 'A' ('N','N') EXIT WHEN ('x' = 1) END 'A'\n",
        13,
        1,
    ),
    (
        "PROGRAM_ACTIVITY 'A' ('N','N') END 'A'\nDATA FROM 'A' TO SINK MAP 'm'.'a'[1] TO 'm'.'a'[2]\n",
        13,
        2,
    ),
    (
        "PROGRAM_ACTIVITY 'A' ('N','N') END 'A'\nDATA FROM SOURCE TO 'A' MAP '_RC' TO 'n'\n",
        13,
        2,
    ),
    (
        "PROGRAM_ACTIVITY 'A' ('N','N') END 'A'\nDATA LOOP 'A' MAP '_RC' TO 'n',\n'm' TO 'n'\n",
        13,
        3,
    ),
    (
        "PROGRAM_ACTIVITY 'A' ('N','N') EXIT WHEN ('n' = \"x\") END 'A'\n",
        14,
        1,
    ),
    (
        "PROGRAM_ACTIVITY 'A' ('N','N') END 'A'\nDATA FROM 'A' TO SINK MAP 'n' TO\n't'\n",
        14,
        3,
    ),
    (
        "PROGRAM_ACTIVITY 'A' ('N','N') END 'A'\nPROGRAM_ACTIVITY 'C' ('N','N') END 'C'\nCONTROL FROM 'A' TO 'C' WHEN ('n' = 1 AND\n't' + 1 > 2)\n",
        14,
        4,
    ),
    (
        "PROGRAM_ACTIVITY 'A' ('N','N') END 'A'\nPROGRAM_ACTIVITY 'C' ('N','N') END 'C'\nCONTROL FROM 'A' TO 'C' OTHERWISE\n",
        15,
        3,
    ),
    (
        "PROGRAM_ACTIVITY 'A' ('N','N') END 'A'\nPROGRAM_ACTIVITY 'C' ('N','N') END 'C'\nPROGRAM_ACTIVITY 'D' ('N','N') END 'D'\nPROGRAM_ACTIVITY 'E' ('N','N') END 'E'\nCONTROL FROM 'A' TO 'C' WHEN ('n' = 1)\nCONTROL FROM 'A' TO 'D' OTHERWISE\nCONTROL FROM 'A' TO 'E' OTHERWISE\n",
        15,
        7,
    ),
    (
        "PROGRAM_ACTIVITY 'A' ('N','N') END 'A'\nPROGRAM_ACTIVITY 'C' ('N','N') END 'C'\nPROGRAM_ACTIVITY 'D' ('N','N') END 'D'\nCONTROL FROM 'A' TO 'C' WHEN ('n' = 1)\nCONTROL FROM 'C' TO 'D' OTHERWISE\n",
        15,
        5,
    ),
    (
        "PROGRAM_ACTIVITY 'A' ('N','N') END 'A'\nDATA FROM 'A' TO 'A' MAP 'n' TO 'n'\n",
        16,
        2,
    ),
    (
        "PROGRAM_ACTIVITY 'A' ('N','N') END 'A'\nPROGRAM_ACTIVITY 'C' ('N','N') END 'C'\nCONTROL FROM 'A' TO 'C'\nDATA FROM 'C' TO 'A' MAP 'n' TO 'n'\n",
        16,
        4,
    ),
    (
        "PROGRAM_ACTIVITY 'A' ('N','N') END 'A'\nPROGRAM_ACTIVITY 'C' ('N','N') END 'C'\nDATA FROM 'A' TO 'C' MAP 'n' TO 'n'\n",
        16,
        3,
    ),
    (
        "PROCESS_ACTIVITY 'A' ('M','N') PROCESS 'sub' END 'A'\n",
        17,
        1,
    ),
    (
        "PROCESS_ACTIVITY 'A' ('N','N')\nPROCESS 'Later' END 'A'\n",
        17,
        2,
    ),
    (
        "PROGRAM_ACTIVITY 'A' ('N','N') END 'A'\nPROCESS_ACTIVITY 'C' ('N','N') PROCESS 'P' END 'C'\n",
        17,
        2,
    ),
    (
        "PROCESS_ACTIVITY 'A' ('N','N') PROCESS 'Sub' END 'A'\n",
        18,
        1,
    ),
    (
        "PROCESS_ACTIVITY 'A' ('M','M') PROCESS 'Sub' END 'A'\n",
        18,
        1,
    ),
    (
        "PROGRAM_ACTIVITY 'A' ('N','N') END 'A'\nPROCESS_ACTIVITY 'C' ('N','M') PROCESS 'Sub' END 'C'\n",
        18,
        2,
    ),
    (
        "PROGRAM_ACTIVITY 'A' ('N','N') DONE_BY PERSON 'eve' END 'A'\n",
        19,
        1,
    ),
    (
        "PROGRAM_ACTIVITY 'A' ('N','N') START MANUAL DONE_BY PERSON\n'r' END 'A'\n",
        19,
        2,
    ),
    (
        "PROGRAM_ACTIVITY 'A' ('N','N') DONE_BY PERSON 'bob' END 'A'\nPROGRAM_ACTIVITY 'C' ('N','N') DONE_BY PERSON 'Bob' END 'C'\n",
        19,
        2,
    ),
    (
        "PROGRAM_ACTIVITY 'A' ('N','N') START MANUAL DONE_BY PERFORMER OF 'A' END 'A'\n",
        20,
        1,
    ),
    (
        "PROGRAM_ACTIVITY 'A' ('N','N') END 'A'\nPROGRAM_ACTIVITY 'C' ('N','N') START MANUAL DONE_BY PERFORMER OF 'A' END 'C'\nCONTROL FROM 'A' TO 'C'\n",
        20,
        2,
    ),
    (
        "PROGRAM_ACTIVITY 'A' ('N','N') START MANUAL DONE_BY PERFORMER OF 'C' END 'A'\nPROGRAM_ACTIVITY 'C' ('N','N') START MANUAL END 'C'\nCONTROL FROM 'A' TO 'C'\n",
        20,
        1,
    ),
    (
        "PROGRAM_ACTIVITY 'A' ('N','N') START MANUAL END 'A'\nPROGRAM_ACTIVITY 'C' ('N','N') DONE_BY PERFORMER OF 'D' END 'C'\nCONTROL FROM 'A' TO 'C'\n",
        20,
        2,
    ),
    ("PROGRAM_ACTIVITY 'A' ('N','N') EXPIRES 0 END 'A'\n", 23, 1),
    (
        "PROGRAM_ACTIVITY 'A' ('N','N') EXPIRES\n2147483648 END 'A'\n",
        23,
        2,
    ),
    (
        "PROGRAM_ACTIVITY 'A' ('N','N') EXIT WHEN ('n' = 9223372036854775808) END 'A'\n",
        23,
        1,
    ),
    (
        "PROGRAM_ACTIVITY 'A' ('N','N') EXIT WHEN ('n' =\n- 9223372036854775809) END 'A'\n",
        23,
        2,
    ),
    (
        "PROGRAM_ACTIVITY 'A' ('N','N') WHEN AT_LEAST 1 CONNECTORS TRUE END 'A'\n",
        23,
        1,
    ),
    (
        "PROGRAM_ACTIVITY 'A' ('N','N') END 'A'\nPROGRAM_ACTIVITY 'C' ('N','N') WHEN AT_LEAST 2 CONNECTORS TRUE END 'C'\nCONTROL FROM 'A' TO 'C'\n",
        23,
        2,
    ),
    (
        "PROGRAM_ACTIVITY 'A' ('N','N') EXIT WHEN ('n'+1+1+1+1+1+1+1+1+1+1+1+1+1+1+1+1+1+1+1+1+1+1+1+1+1+1+1+1+1+1+1+1+1+1+1+1+1+1+1+1+1+1+1+1+1+1+1+1+1+1+1+1+1+1+1+1+1+1+1+1+1+1+1=1) END 'A'\n",
        24,
        1,
    ),
    (
        "PROGRAM_ACTIVITY 'A' ('N','N') EXIT WHEN\n(NOT ('n'+1+1+1+1+1+1+1+1+1+1+1+1+1+1+1+1+1+1+1+1+1+1+1+1+1+1+1+1+1+1+1=1 AND 'n'-1-1-1-1-1-1-1-1-1-1-1-1-1-1-1-1-1-1-1-1-1-1-1-1-1-1-1-1-1-1-1=1)) END 'A'\n",
        24,
        2,
    ),
    (
        "PROGRAM_ACTIVITY 'A' ('N','N') END 'A'\nPROGRAM_ACTIVITY 'C' ('N','N') END 'C'\nCONTROL FROM 'A' TO 'C' WHEN ('n'+1+1+1+1+1+1+1+1+1+1+1+1+1+1+1+1+1+1+1+1+1+1+1+1+1+1+1+1+1+1+1+1+1+1+1+1+1+1+1+1+1+1+1+1+1+1+1+1+1+1+1+1+1+1+1+1+1+1+1+1+1+1+1>1)\n",
        24,
        3,
    ),
    (
        "PROGRAM_ACTIVITY 'A' ('N','N') EXIT ('n' = 1) END 'A'\n",
        3,
        1,
    ),
    (
        "PROGRAM_ACTIVITY 'A' ('N','N') END 'A'\nCONTROL FROM 'A' TO\n",
        3,
        3,
    ),
    (
        "PROGRAM_ACTIVITY 'A' ('N','N') WHEN AT_LEAST 2 CONNECTOR TRUE END 'A'\n",
        3,
        1,
    ),
    (
        "PROGRAM_ACTIVITY 'A' ('N','N') END 'A'\nPROGRAM_ACTIVITY 'A\n",
        2,
        2,
    ),
    ("PROGRAM_ACTIVITY 'A' ('N','N') END 'A'\n/* no end\n", 2, 2),
];

/// A text that breaks a rule, and its line.
type InText = (&'static str, u8, usize);

const TEXTS: [InText; 31] = [
    ("PERSON 'ann' END 'ann'\n\u{7f}", 1, 2),
    ("PERSON 'a\u{e9}' END 'a'\n", 1, 1),
    ("\nPERSON 'ann' \u{0} END 'ann'\n", 1, 2),
    ("PERSON 'ann' end 'ann'\n", 2, 1),
    ("PERSON 'ann'\nROLES 'clerk' \"x\nEND 'ann'\n", 2, 2),
    ("STRUCTURE 'S' 'a' : LONG ( 007 ) ; END 'S'\n", 2, 1),
    ("PERSON 'abcdefghijklmnopqrstuvwxyz1234567' END 'a'\n", 2, 1),
    ("PERSON\n", 3, 2),
    ("PERSON 'ann' ROLES 'a' 'b' END 'ann'\n", 3, 1),
    ("STRUCTURE 'S'\n'a' LONG ; END 'S'\n", 3, 2),
    ("PERSON 'ann' END 'bob'\n", 4, 1),
    ("STRUCTURE 'S'\nEND 's'\n", 4, 2),
    ("PERSON 'ann' END 'ann'\nPERSON 'ann' END 'ann'\n", 5, 2),
    ("STRUCTURE 'S' 'a' : LONG ;\n'a' : STRING ; END 'S'\n", 5, 2),
    ("PERSON 'ann' ROLES 'r',\n'r' END 'ann'\n", 5, 2),
    ("STRUCTURE 'S' 'a' : LONG ;\n'b' : 'T' ; END 'S'\n", 6, 2),
    ("STRUCTURE 'S' 'a' : 'S' ; END 'S'\n", 7, 1),
    (
        "STRUCTURE 'R' 'a' : 'S' ; END 'R'\nSTRUCTURE 'S' 'a' : 'T' ; END 'S'\nSTRUCTURE 'T' 'a' : 'S' ; END 'T'\n",
        7,
        2,
    ),
    (
        "STRUCTURE 'S' 'a' : LONG ; END 'S'\nSTRUCTURE 'T' 'a' : 'T' ( 0 ) ; END 'T'\n",
        7,
        2,
    ),
    ("STRUCTURE 'S' 'a' : LONG ( 513 ) ; END 'S'\n", 8, 1),
    (
        "STRUCTURE 'S' 'a' : LONG ( 256 ) ; END 'S'\nSTRUCTURE 'T' 'a' : 'S' ( 2 ) ; 'b' : STRING ; END 'T'\n",
        8,
        2,
    ),
    (
        "STRUCTURE 'S' 'a' : LONG ( 18446744073709551615 ) ; 'b' : LONG ( 18446744073709551615 ) ; END 'S'\n",
        8,
        1,
    ),
    (
        "STRUCTURE 'S' 'a' : LONG ( 18446744073709551616 ) ; END 'S'\n",
        8,
        1,
    ),
    ("STRUCTURE 'S' 'a' : LONG ( 0 ) ; END 'S'\n", 23, 1),
    (
        "STRUCTURE 'E' END 'E'\nSTRUCTURE 'S' 'a' : 'E' ( 513 ) ; END 'S'\n",
        23,
        2,
    ),
    (
        "STRUCTURE 'S' 'a' : STRING ;\n'b' : LONG\n( 0 ) ; END 'S'\n",
        23,
        3,
    ),
    (
        "STRUCTURE 'E' END 'E'\nPROCESS 'P' ('E','E') END 'P'\n",
        12,
        2,
    ),
    (
        "STRUCTURE 'E' END 'E'\nPROCESS 'P' ('E','E') PROGRAM_ACTIVITY 'A' ('E','E') END 'A' END 'P'\nPROCESS 'P' ('E','E') PROGRAM_ACTIVITY 'A' ('E','E') END 'A' END 'P'\n",
        5,
        3,
    ),
    (
        "STRUCTURE 'E' END 'E'\nPROCESS 'P' ('E','F') PROGRAM_ACTIVITY 'A' ('E','E') END 'A' END 'P'\n",
        6,
        2,
    ),
    (
        "STRUCTURE 'E' END 'E'\nPROCESS 'P' ('E','E') PROGRAM_ACTIVITY 'A' ('E','E') END 'A' END 'Q'\n",
        4,
        2,
    ),
    (
        "STRUCTURE 'E' END 'E'\nPROCESS 'Q' ('E','E') PROCESS_ACTIVITY 'A' ('E','E') PROCESS 'P' END 'A' END 'Q'\nPROCESS 'P' ('E','E') PROGRAM_ACTIVITY 'A' ('E','E') END 'A' END 'P'\n",
        17,
        2,
    ),
];

/// A text that breaks rule 4 in its one line.
const OTHER_END: &str = "PERSON 'eve' END 'adam'\n";

/// Fails where a text isn't refused by this rule, in this line.
fn breaks(alloc: Global, shows: &str, text: &[u8], rule: u8, line: usize) -> Result<(), Fail> {
    let refusal = format!(in alloc; "no RULE {rule} {line}\n")?;
    answer(alloc, &["check"], text)?.check(shows, refusal.as_str(), Status::Refused)
}

/// The elements in a process, inside this many blocks, each opened in a line of its own.
fn in_blocks(alloc: Global, elements: &str, blocks: usize) -> Result<Vec<u8>, Fail> {
    let mut text = Vec::from_slice(alloc, HEAD.as_bytes())?;
    text.extend_from_slice(b"PROCESS 'P' ('N','N')\n")?;
    for _ in 0..blocks {
        text.extend_from_slice(b"BLOCK 'B' ('N','N')\n")?;
    }
    text.extend_from_slice(elements.as_bytes())?;
    for _ in 0..blocks {
        text.extend_from_slice(b"END 'B'\n")?;
    }
    text.extend_from_slice(b"END 'P'\n")?;
    Ok(text)
}

fn lines_of(text: &[u8]) -> usize {
    text.iter().filter(|byte| **byte == b'\n').count()
}

/// Fails where a lower rule that is broken behind a text isn't the one that is named.
fn lower_wins(alloc: Global, shows: &str, text: &[u8], rule: u8) -> Result<(), Fail> {
    if rule <= 4 {
        return Ok(());
    }
    let mut longer = Vec::from_slice(alloc, text)?;
    longer.extend_from_slice(OTHER_END.as_bytes())?;
    breaks(alloc, shows, &longer, 4, lines_of(text).saturating_add(1))
}

/// Fails where elements don't break their rule inside this many blocks, or a lower one doesn't win.
fn breaks_inside(alloc: Global, row: &InGraph, blocks: usize) -> Result<(), Fail> {
    let text = in_blocks(alloc, row.0, blocks)?;
    let before = HEAD_LINES.saturating_add(1).saturating_add(blocks);
    breaks(alloc, row.0, &text, row.1, before.saturating_add(row.2))?;
    lower_wins(alloc, row.0, &text, row.1)
}

#[test]
fn graphs_break_rules(rt: HostRuntime) -> Result<(), Fail> {
    for row in &GRAPHS {
        for blocks in 0..3 {
            breaks_inside(rt.alloc(), row, blocks)?;
        }
    }
    Ok(())
}

#[test]
fn texts_break_rules(rt: HostRuntime) -> Result<(), Fail> {
    for row in &TEXTS {
        breaks(rt.alloc(), row.0, row.0.as_bytes(), row.1, row.2)?;
        lower_wins(rt.alloc(), row.0, row.0.as_bytes(), row.1)?;
    }
    Ok(())
}
