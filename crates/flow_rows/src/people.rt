//! Scripts with people: worklists, claims and transfers, and a whole credit.
use flow_trials::Case;
use flow_words::Status;
use std::test::Fail;

const SCRIPTS: [Case; 2] = [
    Case {
        shows: "a worklist, a claim, a transfer",
        words: &["try"],
        input: &[
            "IMPORT
STRUCTURE 'E' END 'E'
PERSON 'ann' ROLES 'clerk' END 'ann'
PERSON 'bob' ROLES 'clerk' END 'bob'
PERSON 'cal' END 'cal'
PROCESS 'W' ('E','E')
PROGRAM_ACTIVITY 'A' ('E','E') START MANUAL DONE_BY ROLE 'clerk' END 'A'
END 'W'
.
START 'W' BY 'ann'
DRAIN
WORKLIST 'bob'
CLAIM '1/A#1' BY 'ann'
CLAIM '1/A#1' BY 'bob'
WORKLIST 'bob'
TRANSFER '1/A#1' BY 'ann' TO 'bob'
DONE '1/A#1' BY 'ann'
TRANSFER '1/A#1' BY 'bob' TO 'cal'
CLAIM '1/A#1' BY 'dan'
WORKLIST 'bob'
DONE '1/A#1' BY 'bob'
AUDIT 1
",
        ],
        prints: "ok 1 IMPORT 1
ok 2 ROOT 1
ok TURNS 1
ok WORKLIST 'bob' 1
'1/A#1' READY
ok 4 RUNNING 1
no STATE RUNNING
ok WORKLIST 'bob' 0
ok 5 RUNNING 1
no OWNER 'bob'
no ELIGIBLE
no PERSON 'dan'
ok WORKLIST 'bob' 1
'1/A#1' HELD
ok 6 FINISHED 1
ok AUDIT 1 5
2 START 'W' 1 BY 'ann'
3 TURN 1 BEGIN '1'
4 CLAIM '1/A#1' BY 'ann'
5 TRANSFER '1/A#1' BY 'ann' TO 'bob'
6 DONE '1/A#1' BY 'bob' RC 0
",
        status: Status::Done,
    },
    Case {
        shows: "credit: people, agents, a subprocess and a block",
        words: &["try"],
        input: &[
            "IMPORT
STRUCTURE 'Case' 'Customer' : STRING ; 'Amount' : LONG ;
'Score' : LONG ; 'Verdict' : STRING ; END 'Case'
PERSON 'ann' ROLES 'clerk' END 'ann'
PERSON 'olga' ROLES 'officer' END 'olga'
PERSON 'max' ROLES 'manager' END 'max'
PROCESS 'Scoring' ('Case','Case')
PROGRAM_ACTIVITY 'Fetch File' ('Case','Case') END 'Fetch File'
PROGRAM_ACTIVITY 'Score' ('Case','Case') END 'Score'
CONTROL FROM 'Fetch File' TO 'Score'
DATA FROM SOURCE TO SINK MAP 'Customer' TO 'Customer', 'Amount' TO 'Amount'
DATA FROM 'Score' TO SINK MAP 'Score' TO 'Score'
END 'Scoring'
PROCESS 'Credit' ('Case','Case')
PROGRAM_ACTIVITY 'Receive' ('Case','Case') START MANUAL DONE_BY ROLE 'clerk'
END 'Receive'
PROCESS_ACTIVITY 'Rate' ('Case','Case') PROCESS 'Scoring' END 'Rate'
BLOCK 'Review' ('Case','Case') EXIT WHEN ('Verdict' <> \"\")
PROGRAM_ACTIVITY 'Assess' ('Case','Case') START MANUAL DONE_BY ROLE 'officer'
END 'Assess'
PROGRAM_ACTIVITY 'Second Look' ('Case','Case') START MANUAL DONE_BY ROLE 'officer'
END 'Second Look'
CONTROL FROM 'Assess' TO 'Second Look' WHEN ('Amount' > 5000)
DATA FROM SOURCE TO 'Assess' MAP 'Amount' TO 'Amount', 'Score' TO 'Score'
DATA FROM 'Assess' TO SINK MAP 'Verdict' TO 'Verdict'
DATA FROM 'Second Look' TO SINK MAP 'Verdict' TO 'Verdict'
END 'Review'
PROGRAM_ACTIVITY 'Approve' ('Case','Case') START MANUAL DONE_BY ROLE 'manager'
WHEN AT_LEAST_ONE CONNECTOR TRUE END 'Approve'
PROGRAM_ACTIVITY 'Reject' ('Case','Case') WHEN AT_LEAST_ONE CONNECTOR TRUE END 'Reject'
PROGRAM_ACTIVITY 'Contract' ('Case','Case') START MANUAL
DONE_BY PERFORMER OF 'Receive' END 'Contract'
PROGRAM_ACTIVITY 'Pay Out' ('Case','Case') END 'Pay Out'
PROGRAM_ACTIVITY 'Archive' ('Case','Case') WHEN AT_LEAST_ONE CONNECTOR TRUE END 'Archive'
CONTROL FROM 'Receive' TO 'Rate'
CONTROL FROM 'Rate' TO 'Approve' WHEN ('Amount' <= 1000 AND 'Score' >= 60)
CONTROL FROM 'Rate' TO 'Review' OTHERWISE
CONTROL FROM 'Review' TO 'Approve' WHEN ('Verdict' = \"good\")
CONTROL FROM 'Review' TO 'Reject' OTHERWISE
CONTROL FROM 'Approve' TO 'Contract' WHEN ('_RC' = 0)
CONTROL FROM 'Approve' TO 'Reject' OTHERWISE
CONTROL FROM 'Contract' TO 'Pay Out'
CONTROL FROM 'Pay Out' TO 'Archive'
CONTROL FROM 'Reject' TO 'Archive'
DATA FROM SOURCE TO 'Receive' MAP 'Customer' TO 'Customer', 'Amount' TO 'Amount'
DATA FROM 'Receive' TO 'Rate' MAP 'Customer' TO 'Customer', 'Amount' TO 'Amount'
DATA FROM 'Rate' TO 'Review' MAP 'Amount' TO 'Amount', 'Score' TO 'Score'
DATA FROM 'Receive' TO SINK MAP 'Customer' TO 'Customer'
DATA FROM 'Rate' TO SINK MAP 'Score' TO 'Score'
DATA FROM 'Review' TO SINK MAP 'Verdict' TO 'Verdict'
DATA FROM 'Pay Out' TO SINK MAP 'Amount' TO 'Amount'
END 'Credit'
.
START 'Credit' BY 'ann' KEY 'c-17' WITH 'Customer' = \"Lee\", 'Amount' = 8000
DRAIN
CLAIM '1/Receive#1' BY 'ann'
DONE '1/Receive#1' BY 'ann' WITH 'Customer' = \"Lee\", 'Amount' = 8000
DRAIN
TAKE '1/Rate#1/Fetch File#1'
DONE '1/Rate#1/Fetch File#1' TAKE 1
DRAIN
TAKE '1/Rate#1/Score#1'
DONE '1/Rate#1/Score#1' TAKE 1 WITH 'Score' = 71
DRAIN
CLAIM '1/Review#1/Assess#1' BY 'olga'
DONE '1/Review#1/Assess#1' BY 'olga' WITH 'Amount' = 8000
DRAIN
CLAIM '1/Review#1/Second Look#1' BY 'olga'
DONE '1/Review#1/Second Look#1' BY 'olga'
DRAIN
CLAIM '1/Review#2/Assess#1' BY 'olga'
DONE '1/Review#2/Assess#1' BY 'olga' WITH 'Amount' = 4000, 'Verdict' = \"good\"
DRAIN
CLAIM '1/Approve#1' BY 'max'
DONE '1/Approve#1' BY 'max' RC 0
DRAIN
WORKLIST 'ann'
CLAIM '1/Contract#1' BY 'ann'
DONE '1/Contract#1' BY 'ann'
DRAIN
TAKE '1/Pay Out#1'
DONE '1/Pay Out#1' TAKE 1 WITH 'Amount' = 8000
DRAIN
TAKE '1/Archive#1'
DONE '1/Archive#1' TAKE 1
DRAIN
OUTPUT 1
",
        ],
        prints: "ok 1 IMPORT 2
ok 2 ROOT 1
ok TURNS 1
ok 4 RUNNING 1
ok 5 FINISHED 1
ok TURNS 2
ok 8 TAKE 1
ok 9 FINISHED 1
ok TURNS 1
ok 11 TAKE 1
ok 12 FINISHED 1
ok TURNS 4
ok 17 RUNNING 1
ok 18 FINISHED 1
ok TURNS 1
ok 20 RUNNING 1
ok 21 FINISHED 1
ok TURNS 2
ok 24 RUNNING 1
ok 25 FINISHED 1
ok TURNS 4
ok 30 RUNNING 1
ok 31 FINISHED 1
ok TURNS 3
ok WORKLIST 'ann' 1
'1/Contract#1' READY
ok 35 RUNNING 1
ok 36 FINISHED 1
ok TURNS 1
ok 38 TAKE 1
ok 39 FINISHED 1
ok TURNS 1
ok 41 TAKE 1
ok 42 FINISHED 1
ok TURNS 0
ok OUTPUT 1 4
'Customer' = \"Lee\"
'Amount' = 8000
'Score' = 71
'Verdict' = \"good\"
",
        status: Status::Done,
    },
];

#[test]
fn people_are_served(rt: HostRuntime) -> Result<(), Fail> {
    for case in &SCRIPTS {
        case.pass(rt.alloc())?;
    }
    Ok(())
}
