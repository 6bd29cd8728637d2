//! What `fate` answers: rows of fates, and refusals of texts and completions.
use flow_trials::Case;
use flow_words::Status;
use std::test::Fail;

/// A diamond: `A`, then `B` and `C`, then `D`.
const DIAMOND: &str = "STRUCTURE 'E' END 'E'
PROCESS 'D' ('E','E')
PROGRAM_ACTIVITY 'A' ('E','E') END 'A'
PROGRAM_ACTIVITY 'B' ('E','E') END 'B'
PROGRAM_ACTIVITY 'C' ('E','E') END 'C'
PROGRAM_ACTIVITY 'D' ('E','E') END 'D'
CONTROL FROM 'A' TO 'B'
CONTROL FROM 'A' TO 'C'
CONTROL FROM 'B' TO 'D'
CONTROL FROM 'C' TO 'D'
END 'D'
";

/// Three activities, and one for which two of them must have ended well.
const TWO_OF_THREE: &str = "STRUCTURE 'E' END 'E'
PERSON 'ann' END 'ann'
PROCESS 'K' ('E','E')
PROGRAM_ACTIVITY 'A' ('E','E') END 'A'
PROGRAM_ACTIVITY 'B' ('E','E') END 'B'
PROGRAM_ACTIVITY 'C' ('E','E') END 'C'
PROGRAM_ACTIVITY 'D' ('E','E') WHEN AT_LEAST 2 CONNECTORS TRUE END 'D'
CONTROL FROM 'A' TO 'D' WHEN ('_RC' = 0)
CONTROL FROM 'B' TO 'D' WHEN ('_RC' = 0)
CONTROL FROM 'C' TO 'D' WHEN ('_RC' = 0)
END 'K'
";

/// A block in a block, each repeated until its exit condition holds.
const NESTED: &str = "STRUCTURE 'N' 'n' : LONG ; END 'N'
PROCESS 'Q' ('N','N')
BLOCK 'Out' ('N','N') EXIT WHEN ('n' = 2)
BLOCK 'In' ('N','N') EXIT WHEN ('n' >= 1)
PROGRAM_ACTIVITY 'A' ('N','N') END 'A'
DATA FROM 'A' TO SINK MAP 'n' TO 'n'
END 'In'
DATA FROM 'In' TO SINK MAP 'n' TO 'n'
END 'Out'
END 'Q'
";

const FATES: [Case; 9] = [
    Case {
        shows: "an activity is ready, those behind it wait",
        words: &["fate"],
        input: &[DIAMOND, ".\n"],
        prints: "ok FATE OPEN 4
'1/A' READY 1
'1/B' WAITING
'1/C' WAITING
'1/D' WAITING
",
        status: Status::Done,
    },
    Case {
        shows: "a completion of an activity that waits is refused",
        words: &["fate"],
        input: &[
            DIAMOND,
            ".
DONE 'B'
",
        ],
        prints: "no NOTREADY 13\n",
        status: Status::Refused,
    },
    Case {
        shows: "all activities are done, and the output is shown",
        words: &["fate"],
        input: &[
            DIAMOND,
            ".
DONE 'A'
DONE 'B'
DONE 'C'
DONE 'D'
",
        ],
        prints: "ok FATE DONE 4
'1/A' FINISHED 1
'1/B' FINISHED 1
'1/C' FINISHED 1
'1/D' FINISHED 1
ok OUTPUT 1 0
",
        status: Status::Done,
    },
    Case {
        shows: "blocks repeat until their exit conditions hold",
        words: &["fate"],
        input: &[
            NESTED,
            ".
DONE '1/Out#1/In#1/A#1'
DONE '1/Out#1/In#2/A#1' WITH 'n' = 1
DONE '1/Out#2/In#1/A#1' WITH 'n' = 2
",
        ],
        prints: "ok FATE DONE 6
'1/Out' FINISHED 2
'1/Out#1/In' FINISHED 2
'1/Out#1/In#1/A' FINISHED 1
'1/Out#1/In#2/A' FINISHED 1
'1/Out#2/In' FINISHED 1
'1/Out#2/In#1/A' FINISHED 1
ok OUTPUT 1 1
'n' = 0
",
        status: Status::Done,
    },
    Case {
        shows: "two of three suffice",
        words: &["fate"],
        input: &[
            TWO_OF_THREE,
            ".
DONE 'A'
DONE 'B' RC 1
DONE 'C'
",
        ],
        prints: "ok FATE OPEN 4
'1/A' FINISHED 1
'1/B' FINISHED 1
'1/C' FINISHED 1
'1/D' READY 1
",
        status: Status::Done,
    },
    Case {
        shows: "one of three does not",
        words: &["fate"],
        input: &[
            TWO_OF_THREE,
            ".
DONE 'A'
DONE 'B' RC 1
DONE 'C' RC 1
",
        ],
        prints: "ok FATE DONE 4
'1/A' FINISHED 1
'1/B' FINISHED 1
'1/C' FINISHED 1
'1/D' DEAD
ok OUTPUT 1 0
",
        status: Status::Done,
    },
    Case {
        shows: "a text without its end",
        words: &["fate"],
        input: &["PERSON 'x' END 'x'\n"],
        prints: "no UNENDED\n",
        status: Status::Refused,
    },
    Case {
        shows: "a text without a process",
        words: &["fate"],
        input: &[
            "PERSON 'x' END 'x'
.
",
        ],
        prints: "no PROCESS\n",
        status: Status::Refused,
    },
    Case {
        shows: "a completion that cannot be read",
        words: &["fate"],
        input: &[
            DIAMOND,
            ".
DONE 'A' RD
",
        ],
        prints: "no WORD 13 10\n",
        status: Status::Refused,
    },
];

#[test]
fn fates_are_right(rt: HostRuntime) -> Result<(), Fail> {
    for case in &FATES {
        case.pass(rt.alloc())?;
    }
    Ok(())
}
