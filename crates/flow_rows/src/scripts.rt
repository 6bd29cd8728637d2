//! What scripts answer in memory, under `try` and `load`.
use flow_trials::Case;
use flow_words::Status;
use std::test::Fail;

/// A loan: `A` decides whether `B` or `C` is done, and `D` follows.
const LOAN: &str = "STRUCTURE 'Loan' 'Amount' : LONG ; 'Risk' : STRING ; END 'Loan'
PERSON 'ann' ROLES 'clerk' END 'ann'
PROCESS 'P' ('Loan','Loan')
PROGRAM_ACTIVITY 'A' ('Loan','Loan') END 'A'
PROGRAM_ACTIVITY 'B' ('Loan','Loan') END 'B'
PROGRAM_ACTIVITY 'C' ('Loan','Loan') END 'C'
PROGRAM_ACTIVITY 'D' ('Loan','Loan') WHEN AT_LEAST_ONE CONNECTOR TRUE END 'D'
CONTROL FROM 'A' TO 'B' WHEN ('Amount' > 100)
CONTROL FROM 'A' TO 'C' OTHERWISE
CONTROL FROM 'B' TO 'D'
CONTROL FROM 'C' TO 'D'
DATA FROM SOURCE TO 'A' MAP 'Amount' TO 'Amount'
DATA FROM 'D' TO SINK MAP 'Amount' TO 'Amount'
END 'P'
";

/// The connectors of a loan behind the decision, and its data.
const LOAN_TAIL: &str = "CONTROL FROM 'B' TO 'D'
CONTROL FROM 'C' TO 'D'
DATA FROM SOURCE TO 'A' MAP 'Amount' TO 'Amount'
DATA FROM 'D' TO SINK MAP 'Amount' TO 'Amount'
END 'P'
";

const SCRIPTS: [Case; 16] = [
    Case {
        shows: "the way that is not taken is dead",
        words: &["try"],
        input: &[
            "IMPORT\n",
            LOAN,
            ".
START 'P' BY 'ann' WITH 'Amount' = 50
DRAIN
TAKE '1/A#1'
DONE '1/A#1' TAKE 1 WITH 'Amount' = 50
QUEUE 1
DRAIN
SHOW 1
",
        ],
        prints: "ok 1 IMPORT 1
ok 2 ROOT 1
ok TURNS 1
ok 4 TAKE 1
ok 5 FINISHED 1
ok QUEUE 1 2
SIGNAL '1' 'A' 'B' FALSE
SIGNAL '1' 'A' 'C' TRUE
ok TURNS 3
ok SHOW 1 ACTIVE 4
'1/A' FINISHED 1
'1/B' DEAD
'1/C' READY 1
'1/D' WAITING
",
        status: Status::Done,
    },
    Case {
        shows: "the other way is taken to the end",
        words: &["try"],
        input: &[
            "IMPORT
STRUCTURE 'Loan' 'Amount' : LONG ; 'Risk' : STRING ; END 'Loan'
PERSON 'ann' ROLES 'clerk' END 'ann'
PROCESS 'P' ('Loan','Loan')
PROGRAM_ACTIVITY 'A' ('Loan','Loan') END 'A'
PROGRAM_ACTIVITY 'B' ('Loan','Loan') END 'B'
PROGRAM_ACTIVITY 'C' ('Loan','Loan') END 'C'
PROGRAM_ACTIVITY 'D' ('Loan','Loan') END 'D'
CONTROL FROM 'A' TO 'B' WHEN ('Amount' > 100)
CONTROL FROM 'A' TO 'C' OTHERWISE
",
            LOAN_TAIL,
            ".
START 'P' BY 'ann' WITH 'Amount' = 50
DRAIN
TAKE '1/A#1'
DONE '1/A#1' TAKE 1 WITH 'Amount' = 50
QUEUE 1
DRAIN
SHOW 1
TAKE '1/C#1'
DONE '1/C#1' TAKE 1
DRAIN
SHOW 1
OUTPUT 1
",
        ],
        prints: "ok 1 IMPORT 1
ok 2 ROOT 1
ok TURNS 1
ok 4 TAKE 1
ok 5 FINISHED 1
ok QUEUE 1 2
SIGNAL '1' 'A' 'B' FALSE
SIGNAL '1' 'A' 'C' TRUE
ok TURNS 3
ok SHOW 1 ACTIVE 4
'1/A' FINISHED 1
'1/B' DEAD
'1/C' READY 1
'1/D' WAITING
ok 9 TAKE 1
ok 10 FINISHED 1
ok TURNS 1
ok SHOW 1 DONE 4
'1/A' FINISHED 1
'1/B' DEAD
'1/C' FINISHED 1
'1/D' DEAD
ok OUTPUT 1 2
'Amount' = 0
'Risk' = \"\"
",
        status: Status::Done,
    },
    Case {
        shows: "a number beyond 64 bits is refused",
        words: &["try"],
        input: &[
            "IMPORT\n",
            LOAN,
            ".
START 'P' BY 'ann' WITH 'Amount' = 50
DRAIN
TAKE '1/A#1'
DONE '1/A#1' TAKE 1 WITH 'Amount' = 9223372036854775808
DONE '1/A#1' TAKE 1 WITH 'Amount' = 9223372036854775807
DRAIN
SHOW 1
",
        ],
        prints: "ok 1 IMPORT 1
ok 2 ROOT 1
ok TURNS 1
ok 4 TAKE 1
no VALUE 37
ok 5 FINISHED 1
ok TURNS 3
ok SHOW 1 ACTIVE 4
'1/A' FINISHED 1
'1/B' READY 1
'1/C' DEAD
'1/D' WAITING
",
        status: Status::Done,
    },
    Case {
        shows: "an exit condition repeats an activity",
        words: &["try"],
        input: &[
            "IMPORT
STRUCTURE 'N' 'n' : LONG ; END 'N'
PERSON 'ann' END 'ann'
PROCESS 'L' ('N','N')
PROGRAM_ACTIVITY 'A' ('N','N') EXIT WHEN ('n' >= 3) END 'A'
DATA LOOP 'A' MAP 'n' TO 'n'
DATA FROM 'A' TO SINK MAP 'n' TO 'n'
END 'L'
.
START 'L' BY 'ann'
DRAIN
TAKE '1/A#1'
DONE '1/A#1' TAKE 1 WITH 'n' = 1
INPUT '1/A#2'
TAKE '1/A#2'
DONE '1/A#2' TAKE 1 WITH 'n' = 2
TAKE '1/A#3'
DONE '1/A#3' TAKE 1 WITH 'n' = 3
DRAIN
OUTPUT 1
",
        ],
        prints: "ok 1 IMPORT 1
ok 2 ROOT 1
ok TURNS 1
ok 4 TAKE 1
ok 5 READY 2
ok INPUT '1/A#2' 1
'n' = 1
ok 6 TAKE 1
ok 7 READY 3
ok 8 TAKE 1
ok 9 FINISHED 3
ok TURNS 0
ok OUTPUT 1 1
'n' = 3
",
        status: Status::Done,
    },
    Case {
        shows: "a subprocess is in the other queue",
        words: &["try", "QUEUES", "2"],
        input: &[
            "IMPORT
STRUCTURE 'E' END 'E'
PERSON 'ann' END 'ann'
PROCESS 'Sub' ('E','E')
PROGRAM_ACTIVITY 'X' ('E','E') END 'X'
END 'Sub'
PROCESS 'Main' ('E','E')
PROCESS_ACTIVITY 'S' ('E','E') PROCESS 'Sub' END 'S'
PROGRAM_ACTIVITY 'Y' ('E','E') END 'Y'
PROGRAM_ACTIVITY 'Z' ('E','E') END 'Z'
CONTROL FROM 'Y' TO 'Z'
END 'Main'
.
START 'Main' BY 'ann'
TURN 1
TURN 2
TAKE '1/Y#1'
DONE '1/Y#1' TAKE 1
TURN 1
TURN 2
SHOW 1
",
        ],
        prints: "ok 1 IMPORT 2
ok 2 ROOT 1
no EMPTY 1
ok 3 TURN 2 BEGIN '1'
ok 4 TAKE 1
ok 5 FINISHED 1
ok 6 TURN 1 BEGIN '1/S#1'
ok 7 TURN 2 SIGNAL '1' 'Y' 'Z' TRUE
ok SHOW 1 ACTIVE 4
'1/S' RUNNING 1
'1/S#1/X' READY 1
'1/Y' FINISHED 1
'1/Z' READY 1
",
        status: Status::Done,
    },
    Case {
        shows: "the later of two data lines wins",
        words: &["try"],
        input: &[
            "IMPORT
STRUCTURE 'N' 'n' : LONG ; END 'N'
PERSON 'ann' END 'ann'
PROCESS 'J' ('N','N')
PROGRAM_ACTIVITY 'A' ('N','N') END 'A'
PROGRAM_ACTIVITY 'B' ('N','N') END 'B'
PROGRAM_ACTIVITY 'J' ('N','N') END 'J'
CONTROL FROM 'A' TO 'J'
CONTROL FROM 'B' TO 'J'
DATA FROM 'B' TO 'J' MAP 'n' TO 'n'
DATA FROM 'A' TO 'J' MAP 'n' TO 'n'
END 'J'
.
START 'J' BY 'ann'
DRAIN
FORCE '1/B#1' WITH 'n' = 2
FORCE '1/A#1' WITH 'n' = 1
DRAIN
INPUT '1/J#1'
",
        ],
        prints: "ok 1 IMPORT 1
ok 2 ROOT 1
ok TURNS 1
ok 4 FINISHED 1
ok 5 FINISHED 1
ok TURNS 2
ok INPUT '1/J#1' 1
'n' = 1
",
        status: Status::Done,
    },
    Case {
        shows: "queues that are not there, words that are wrong",
        words: &["try", "QUEUES", "2"],
        input: &[
            "TURN 1
TURN 9
TURN 0
TURN
turn 1
SHOW 1
START 'P' BY 'ann'
",
        ],
        prints: "no EMPTY 1
no QUEUE 2
no QUEUE 2
no WORD 5
no WORD 1
no ROOT 1
no PERSON 'ann'
",
        status: Status::Done,
    },
    Case {
        shows: "a take is of one attempt",
        words: &["try"],
        input: &[
            "IMPORT\n",
            LOAN,
            ".
START 'P' BY 'ann' WITH 'Amount' = 50
DRAIN
TAKE '1/A#1'
RESTART '1/A#1'
DONE '1/A#1' TAKE 1
TAKE '1/A#1'
DONE '1/A#1' TAKE 1
FORCE '1/A#1'
DONE '1/A#1' TAKE 2
TAKE '1/A#2'
",
        ],
        prints: "ok 1 IMPORT 1
ok 2 ROOT 1
ok TURNS 1
ok 4 TAKE 1
ok 5 READY 1
no STATE READY
ok 6 TAKE 2
no TAKE 2
ok 7 FINISHED 1
no STATE ENDED
no ITEM '1/A#2'
",
        status: Status::Done,
    },
    Case {
        shows: "the limit is met by a command",
        words: &["try", "LIMIT", "3"],
        input: &[
            "IMPORT\n",
            LOAN,
            ".
START 'P' BY 'ann'
DRAIN
TAKE '1/A#1'
DRAIN
",
        ],
        prints: "ok 1 IMPORT 1
ok 2 ROOT 1
ok TURNS 1
no FULL 3
ok TURNS 0
",
        status: Status::Done,
    },
    Case {
        shows: "the limit is met by a drain",
        words: &["try", "LIMIT", "2"],
        input: &[
            "IMPORT\n",
            LOAN,
            ".
START 'P' BY 'ann'
DRAIN
",
        ],
        prints: "ok 1 IMPORT 1
ok 2 ROOT 1
no FULL 2 TURNS 0
",
        status: Status::Done,
    },
    Case {
        shows: "a key starts one root",
        words: &["try"],
        input: &[
            "IMPORT\n",
            LOAN,
            ".
START 'P' BY 'ann' KEY 'k1'
START 'P' BY 'ann' KEY 'k1'
TEMPLATES
",
        ],
        prints: "ok 1 IMPORT 1
ok 2 ROOT 1
ok SAME 1
ok TEMPLATES 1
'P' 1
",
        status: Status::Done,
    },
    Case {
        shows: "a root is deleted when its messages are gone",
        words: &["try"],
        input: &[
            "IMPORT\n",
            LOAN,
            ".
START 'P' BY 'ann' WITH 'Amount' = 50
DRAIN
TAKE '1/A#1'
DONE '1/A#1' TAKE 1 WITH 'Amount' = 50
TERMINATE 1
DELETE 1
DRAIN
DELETE 1
SHOW 1
CHECKPOINT
START 'P' BY 'ann'
",
        ],
        prints: "ok 1 IMPORT 1
ok 2 ROOT 1
ok TURNS 1
ok 4 TAKE 1
ok 5 FINISHED 1
ok 6 TERMINATED
no QUEUED 2
ok TURNS 2
ok 9 DELETED
no ROOT 1
ok CHECKPOINT 1
ok 10 ROOT 2
",
        status: Status::Done,
    },
    Case {
        shows: "an import without its end",
        words: &["try"],
        input: &[
            "IMPORT
PERSON 'x' END 'x'
",
        ],
        prints: "no UNENDED\n",
        status: Status::Done,
    },
    Case {
        shows: "a suspended root takes no completion",
        words: &["try"],
        input: &[
            "IMPORT\n",
            LOAN,
            ".
START 'P' BY 'ann' WITH 'Amount' = 50
DRAIN
TAKE '1/A#1'
SUSPEND 1
DONE '1/A#1' TAKE 1
RESUME 1
RESUME 1
OUTPUT 1
",
        ],
        prints: "ok 1 IMPORT 1
ok 2 ROOT 1
ok TURNS 1
ok 4 TAKE 1
ok 5 SUSPENDED
no MODE SUSPENDED
ok 6 ACTIVE
no MODE ACTIVE
no MODE ACTIVE
",
        status: Status::Done,
    },
    Case {
        shows: "a load",
        words: &["load", "1", "3"],
        input: &[],
        prints: "ok LOAD 1 3 28 15 3 2 335\n",
        status: Status::Done,
    },
    Case {
        shows: "a load of no root",
        words: &["load", "1", "0"],
        input: &[],
        prints: "no USAGE\n",
        status: Status::Usage,
    },
];

#[test]
fn scripts_are_served(rt: HostRuntime) -> Result<(), Fail> {
    for case in &SCRIPTS {
        case.pass(rt.alloc())?;
    }
    Ok(())
}
