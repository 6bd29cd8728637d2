//! What `check` answers: the text written out, or the rule that it breaks first.
use flow_trials::Case;
use flow_words::Status;
use std::test::Fail;

/// The structure, the person and the activities of a loan.
const LOAN_HEAD: &str = "STRUCTURE 'Loan' 'Amount' : LONG ; 'Risk' : STRING ; END 'Loan'
PERSON 'ann' ROLES 'clerk' END 'ann'
PROCESS 'P' ('Loan','Loan')
PROGRAM_ACTIVITY 'A' ('Loan','Loan') END 'A'
PROGRAM_ACTIVITY 'B' ('Loan','Loan') END 'B'
PROGRAM_ACTIVITY 'C' ('Loan','Loan') END 'C'
PROGRAM_ACTIVITY 'D' ('Loan','Loan') WHEN AT_LEAST_ONE CONNECTOR TRUE END 'D'
";

/// The connectors of a loan behind the decision, and its data.
const LOAN_TAIL: &str = "CONTROL FROM 'B' TO 'D'
CONTROL FROM 'C' TO 'D'
DATA FROM SOURCE TO 'A' MAP 'Amount' TO 'Amount'
DATA FROM 'D' TO SINK MAP 'Amount' TO 'Amount'
END 'P'
";

const CHECKS: [Case; 13] = [
    Case {
        shows: "connectors in a circle",
        words: &["check"],
        input: &[
            "STRUCTURE 'E' END 'E'
PROCESS 'C' ('E','E')
PROGRAM_ACTIVITY 'A' ('E','E') END 'A'
PROGRAM_ACTIVITY 'B' ('E','E') END 'B'
CONTROL FROM 'A' TO 'B'
CONTROL FROM 'B' TO 'A'
END 'C'
",
        ],
        prints: "no RULE 11 5\n",
        status: Status::Refused,
    },
    Case {
        shows: "a connector back to its own activity",
        words: &["check"],
        input: &[
            "STRUCTURE 'E' END 'E'
PROCESS 'C' ('E','E')
PROGRAM_ACTIVITY 'A' ('E','E') END 'A'
PROGRAM_ACTIVITY 'B' ('E','E') END 'B'
CONTROL FROM 'A' TO 'A'
END 'C'
",
        ],
        prints: "no RULE 11 5\n",
        status: Status::Refused,
    },
    Case {
        shows: "roles are written out",
        words: &["check"],
        input: &["PERSON 'ann' ROLES 'clerk','boss' END 'ann'\n"],
        prints: "PERSON 'ann' ROLES 'clerk' , 'boss'
END 'ann'
",
        status: Status::Done,
    },
    Case {
        shows: "a keyword in small letters",
        words: &["check"],
        input: &["person 'ann' END 'ann'\n"],
        prints: "no RULE 2 1\n",
        status: Status::Refused,
    },
    Case {
        shows: "another name at the end",
        words: &["check"],
        input: &["PERSON 'ann' END 'bob'\n"],
        prints: "no RULE 4 1\n",
        status: Status::Refused,
    },
    Case {
        shows: "a word too many",
        words: &["check", "x"],
        input: &[],
        prints: "no USAGE\n",
        status: Status::Usage,
    },
    Case {
        shows: "a structure that is not declared",
        words: &["check"],
        input: &[
            "PROCESS 'P' ('S','S') PROGRAM_ACTIVITY 'A' ('S','S') EXIT WHEN (NOT ('n'=1 OR (('n' < 2)))) END 'A' END 'P'\n",
        ],
        prints: "no RULE 6 1\n",
        status: Status::Refused,
    },
    Case {
        shows: "a condition on a leaf that is not there",
        words: &["check"],
        input: &[
            LOAN_HEAD,
            "CONTROL FROM 'A' TO 'B' WHEN ('Amont' > 100)
CONTROL FROM 'A' TO 'C' OTHERWISE
",
            LOAN_TAIL,
        ],
        prints: "no RULE 13 8\n",
        status: Status::Refused,
    },
    Case {
        shows: "a condition that compares a text with a number",
        words: &["check"],
        input: &[
            LOAN_HEAD,
            "CONTROL FROM 'A' TO 'B' WHEN ('Risk' > 100)
CONTROL FROM 'A' TO 'C' OTHERWISE
",
            LOAN_TAIL,
        ],
        prints: "no RULE 14 8\n",
        status: Status::Refused,
    },
    Case {
        shows: "a condition besides OTHERWISE is wanted",
        words: &["check"],
        input: &[
            LOAN_HEAD,
            "CONTROL FROM 'A' TO 'B'
CONTROL FROM 'A' TO 'C' OTHERWISE
",
            LOAN_TAIL,
        ],
        prints: "no RULE 15 9\n",
        status: Status::Refused,
    },
    Case {
        shows: "data from an activity to one before it",
        words: &["check"],
        input: &[
            LOAN_HEAD,
            "CONTROL FROM 'A' TO 'B' WHEN ('Amount' > 100)
CONTROL FROM 'A' TO 'C' OTHERWISE
CONTROL FROM 'B' TO 'D'
CONTROL FROM 'C' TO 'D'
DATA FROM SOURCE TO 'A' MAP 'Amount' TO 'Amount'
DATA FROM 'D' TO 'A' MAP 'Amount' TO 'Amount'
END 'P'
",
        ],
        prints: "no RULE 16 13\n",
        status: Status::Refused,
    },
    Case {
        shows: "a join of none",
        words: &["check"],
        input: &[
            "STRUCTURE 'E' END 'E'
PERSON 'ann' END 'ann'
PROCESS 'K' ('E','E')
PROGRAM_ACTIVITY 'A' ('E','E') END 'A'
PROGRAM_ACTIVITY 'B' ('E','E') END 'B'
PROGRAM_ACTIVITY 'C' ('E','E') END 'C'
PROGRAM_ACTIVITY 'D' ('E','E') WHEN AT_LEAST 0 CONNECTORS TRUE END 'D'
CONTROL FROM 'A' TO 'D' WHEN ('_RC' = 0)
CONTROL FROM 'B' TO 'D' WHEN ('_RC' = 0)
CONTROL FROM 'C' TO 'D' WHEN ('_RC' = 0)
END 'K'
",
        ],
        prints: "no RULE 23 7\n",
        status: Status::Refused,
    },
    Case {
        shows: "a join of more than there are",
        words: &["check"],
        input: &[
            "STRUCTURE 'E' END 'E'
PERSON 'ann' END 'ann'
PROCESS 'K' ('E','E')
PROGRAM_ACTIVITY 'A' ('E','E') END 'A'
PROGRAM_ACTIVITY 'B' ('E','E') END 'B'
PROGRAM_ACTIVITY 'C' ('E','E') END 'C'
PROGRAM_ACTIVITY 'D' ('E','E') WHEN AT_LEAST 4 CONNECTORS TRUE END 'D'
CONTROL FROM 'A' TO 'D' WHEN ('_RC' = 0)
CONTROL FROM 'B' TO 'D' WHEN ('_RC' = 0)
CONTROL FROM 'C' TO 'D' WHEN ('_RC' = 0)
END 'K'
",
        ],
        prints: "no RULE 23 7\n",
        status: Status::Refused,
    },
];

#[test]
fn texts_are_checked(rt: HostRuntime) -> Result<(), Fail> {
    for case in &CHECKS {
        case.pass(rt.alloc())?;
    }
    Ok(())
}
