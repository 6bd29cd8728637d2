//! Every refusal of every command that can give it, each with all that is shown unchanged after it.
use flow_trials::answer;
use std::alloc::{AllocError, Global};
use std::test::Fail;

/// A process with a manual activity for clerks, and two automatic ones in a row; a root of it is started.
const BEGINNING: &str = "IMPORT
STRUCTURE 'N' 'n' : LONG ; 't' : STRING ; END 'N'
PERSON 'ann' ROLES 'clerk' END 'ann'
PERSON 'bob' ROLES 'clerk' END 'bob'
PERSON 'cal' END 'cal'
PROCESS 'W' ('N','N')
PROGRAM_ACTIVITY 'A' ('N','N') START MANUAL DONE_BY ROLE 'clerk' END 'A'
PROGRAM_ACTIVITY 'B' ('N','N') END 'B'
PROGRAM_ACTIVITY 'C' ('N','N') END 'C'
CONTROL FROM 'B' TO 'C'
END 'W'
.
START 'W' BY 'ann' KEY 'k'
DRAIN
";

/// What shows the state.
const PROBES: &str = "SHOW 1
QUEUE 1
WORKLIST 'ann'
WORKLIST 'bob'
AUDIT 1
TEMPLATES
";

/// What comes before a command, the command, and the refusal.
type Refusal = (&'static str, &'static str, &'static str);

const REFUSALS: [Refusal; 82] = [
    ("", "START 'W' BY 'eve'", "PERSON 'eve'"),
    ("", "START 'X' BY 'ann'", "PROCESS 'X'"),
    ("", "START 'W' BY 'ann' WITH 'x' = 1", "VALUE 25"),
    ("", "START 'W' BY 'ann' WITH 'n' = \"x\"", "VALUE 31"),
    (
        "",
        "START 'W' BY 'ann' WITH 'n' = 9223372036854775808",
        "VALUE 31",
    ),
    ("", "START 'W' BY 'ann", "WORD 14"),
    ("", "TURN 2", "QUEUE 1"),
    ("", "TURN 0", "QUEUE 1"),
    ("", "TURN 1", "EMPTY 1"),
    ("", "CLAIM '1/A#1' BY 'eve'", "PERSON 'eve'"),
    ("", "CLAIM '1/X#1' BY 'ann'", "ITEM '1/X#1'"),
    ("", "CLAIM '1/C#1' BY 'ann'", "ITEM '1/C#1'"),
    ("", "CLAIM '2/A#1' BY 'ann'", "ITEM '2/A#1'"),
    ("", "CLAIM '1/A#2' BY 'ann'", "ITEM '1/A#2'"),
    ("SUSPEND 1\n", "CLAIM '1/A#1' BY 'ann'", "MODE SUSPENDED"),
    (
        "CLAIM '1/A#1' BY 'ann'\n",
        "CLAIM '1/A#1' BY 'bob'",
        "STATE RUNNING",
    ),
    ("FORCE '1/A#1'\n", "CLAIM '1/A#1' BY 'bob'", "STATE ENDED"),
    ("", "CLAIM '1/A#1' BY 'cal'", "ELIGIBLE"),
    ("", "CLAIM '1/B#1' BY 'ann'", "ELIGIBLE"),
    ("", "RELEASE '1/A#1' BY 'eve'", "PERSON 'eve'"),
    ("", "RELEASE '1/X#1' BY 'ann'", "ITEM '1/X#1'"),
    (
        "CLAIM '1/A#1' BY 'ann'\nTERMINATE 1\n",
        "RELEASE '1/A#1' BY 'ann'",
        "MODE TERMINATED",
    ),
    ("", "RELEASE '1/A#1' BY 'ann'", "STATE READY"),
    (
        "CLAIM '1/A#1' BY 'ann'\n",
        "RELEASE '1/A#1' BY 'bob'",
        "OWNER 'ann'",
    ),
    ("TAKE '1/B#1'\n", "RELEASE '1/B#1' BY 'ann'", "OWNER NOBODY"),
    ("", "TRANSFER '1/A#1' BY 'eve' TO 'bob'", "PERSON 'eve'"),
    ("", "TRANSFER '1/A#1' BY 'ann' TO 'eve'", "PERSON 'eve'"),
    ("", "TRANSFER '1/X#1' BY 'ann' TO 'bob'", "ITEM '1/X#1'"),
    (
        "CLAIM '1/A#1' BY 'ann'\nTERMINATE 1\n",
        "TRANSFER '1/A#1' BY 'ann' TO 'bob'",
        "MODE TERMINATED",
    ),
    ("", "TRANSFER '1/A#1' BY 'ann' TO 'bob'", "STATE READY"),
    (
        "CLAIM '1/A#1' BY 'ann'\n",
        "TRANSFER '1/A#1' BY 'bob' TO 'ann'",
        "OWNER 'ann'",
    ),
    (
        "CLAIM '1/A#1' BY 'ann'\n",
        "TRANSFER '1/A#1' BY 'ann' TO 'cal'",
        "ELIGIBLE",
    ),
    ("", "TAKE '1/X#1'", "ITEM '1/X#1'"),
    ("SUSPEND 1\n", "TAKE '1/B#1'", "MODE SUSPENDED"),
    ("TAKE '1/B#1'\n", "TAKE '1/B#1'", "STATE RUNNING"),
    ("", "TAKE '1/A#1'", "ELIGIBLE"),
    ("", "DONE '1/A#1' BY 'eve'", "PERSON 'eve'"),
    ("", "DONE '1/X#1' BY 'ann'", "ITEM '1/X#1'"),
    (
        "CLAIM '1/A#1' BY 'ann'\nSUSPEND 1\n",
        "DONE '1/A#1' BY 'ann'",
        "MODE SUSPENDED",
    ),
    ("", "DONE '1/A#1' BY 'ann'", "STATE READY"),
    (
        "CLAIM '1/A#1' BY 'ann'\n",
        "DONE '1/A#1' BY 'bob'",
        "OWNER 'ann'",
    ),
    (
        "CLAIM '1/A#1' BY 'ann'\n",
        "DONE '1/A#1' BY 'ann' RC 1 WITH 't' = 3",
        "VALUE 39",
    ),
    (
        "CLAIM '1/A#1' BY 'ann'\n",
        "DONE '1/A#1' BY 'ann' RC 9223372036854775808",
        "VALUE 26",
    ),
    ("", "DONE '1/X#1' TAKE 1", "ITEM '1/X#1'"),
    (
        "TAKE '1/B#1'\nSUSPEND 1\n",
        "DONE '1/B#1' TAKE 1",
        "MODE SUSPENDED",
    ),
    ("", "DONE '1/B#1' TAKE 1", "STATE READY"),
    ("TAKE '1/B#1'\n", "DONE '1/B#1' TAKE 2", "TAKE 1"),
    ("CLAIM '1/A#1' BY 'ann'\n", "DONE '1/A#1' TAKE 1", "TAKE 0"),
    (
        "TAKE '1/B#1'\n",
        "DONE '1/B#1' TAKE 1 WITH 'n' . 'm' = 3",
        "VALUE 26",
    ),
    ("", "FORCE '1/X#1'", "ITEM '1/X#1'"),
    ("TERMINATE 1\n", "FORCE '1/A#1'", "MODE TERMINATED"),
    ("FORCE '1/B#1'\n", "FORCE '1/B#1'", "STATE ENDED"),
    (
        "",
        "FORCE '1/B#1' WITH 'n' = -9223372036854775809",
        "VALUE 26",
    ),
    ("", "RESTART '1/X#1'", "ITEM '1/X#1'"),
    (
        "TAKE '1/B#1'\nTERMINATE 1\n",
        "RESTART '1/B#1'",
        "MODE TERMINATED",
    ),
    ("", "RESTART '1/B#1'", "STATE READY"),
    ("", "SUSPEND 2", "ROOT 2"),
    ("SUSPEND 1\n", "SUSPEND 1", "MODE SUSPENDED"),
    ("", "RESUME 2", "ROOT 2"),
    ("", "RESUME 1", "MODE ACTIVE"),
    ("", "TERMINATE 2", "ROOT 2"),
    ("TERMINATE 1\n", "TERMINATE 1", "MODE TERMINATED"),
    ("", "DELETE 2", "ROOT 2"),
    ("", "DELETE 1", "MODE ACTIVE"),
    ("FORCE '1/B#1'\nTERMINATE 1\n", "DELETE 1", "QUEUED 1"),
    ("", "CLOCK 2147483648", "VALUE 7"),
    ("CLOCK 5\n", "CLOCK 4", "CLOCK 5"),
    ("", "SHOW 2", "ROOT 2"),
    ("", "AUDIT 2", "ROOT 2"),
    ("", "OUTPUT 2", "ROOT 2"),
    ("", "OUTPUT 1", "MODE ACTIVE"),
    ("SUSPEND 1\n", "OUTPUT 1", "MODE SUSPENDED"),
    ("TERMINATE 1\n", "OUTPUT 1", "MODE TERMINATED"),
    ("", "INPUT '1/C#1'", "ITEM '1/C#1'"),
    ("", "INPUT '01/A#1'", "ITEM '01/A#1'"),
    ("", "WORKLIST 'eve'", "PERSON 'eve'"),
    ("", "QUEUE 2", "QUEUE 1"),
    ("", "CLAIM", "WORD 6"),
    ("", "SHOW 1 1", "WORD 8"),
    ("", "show 1", "WORD 1"),
    ("", "DONE '1/A#1'", "WORD 13"),
    ("", "IMPORT\nPERSON 'x' END 'y'\n.", "RULE 4 1"),
];

/// What comes before a command that passes every test but the last, the command, and the transactions by then.
const FULL: [(&str, &str, &str); 16] = [
    ("", "IMPORT\nPERSON 'x' END 'x'\n.", "3"),
    ("", "START 'W' BY 'ann'", "3"),
    ("FORCE '1/B#1'\n", "TURN 1", "4"),
    ("", "CLAIM '1/A#1' BY 'ann'", "3"),
    ("CLAIM '1/A#1' BY 'ann'\n", "RELEASE '1/A#1' BY 'ann'", "4"),
    (
        "CLAIM '1/A#1' BY 'ann'\n",
        "TRANSFER '1/A#1' BY 'ann' TO 'bob'",
        "4",
    ),
    ("", "TAKE '1/B#1'", "3"),
    ("CLAIM '1/A#1' BY 'ann'\n", "DONE '1/A#1' BY 'ann'", "4"),
    ("TAKE '1/B#1'\n", "DONE '1/B#1' TAKE 1", "4"),
    ("", "FORCE '1/A#1'", "3"),
    ("TAKE '1/B#1'\n", "RESTART '1/B#1'", "4"),
    ("", "SUSPEND 1", "3"),
    ("SUSPEND 1\n", "RESUME 1", "4"),
    ("", "TERMINATE 1", "3"),
    ("TERMINATE 1\n", "DELETE 1", "4"),
    ("", "CLOCK 1", "3"),
];

/// What a script prints under these words.
fn printed(alloc: Global, words: &[&str], parts: &[&str]) -> Result<Vec<u8>, AllocError> {
    let mut script = Vec::new(alloc);
    for part in parts {
        script.extend_from_slice(part.as_bytes())?;
    }
    Ok(answer(alloc, words, &script)?.text)
}

/// Whether a command is refused so, and what is shown before it is shown after it.
fn is_refused(
    alloc: Global,
    words: &[&str],
    before: &str,
    command: &str,
    refusal: &str,
) -> Result<bool, Fail> {
    let start = printed(alloc, words, &[BEGINNING, before])?;
    let mut whole = printed(alloc, words, &[BEGINNING, before, PROBES])?;
    let Some(shown) = whole.get(start.len()..) else {
        return Ok(false);
    };
    let shown = Vec::from_slice(alloc, shown)?;
    whole.extend_from_slice(format!(in alloc; "no {refusal}\n")?.as_bytes())?;
    whole.extend_from_slice(&shown)?;
    let script = [BEGINNING, before, PROBES, command, "\n", PROBES];
    Ok(printed(alloc, words, &script)? == whole)
}

#[test]
fn refusals_change_nothing(rt: HostRuntime) -> Result<(), Fail> {
    for (before, command, refusal) in REFUSALS {
        assert!(rt;
            is_refused(rt.alloc(), &["try"], before, command, refusal)?,
            "{command}: wanted no {refusal}"
        );
    }
    Ok(())
}

#[test]
fn full_stores_refuse(rt: HostRuntime) -> Result<(), Fail> {
    for (before, command, limit) in FULL {
        let refusal = format!(in rt.alloc(); "FULL {limit}")?;
        assert!(rt;
            is_refused(
                rt.alloc(),
                &["try", "LIMIT", limit],
                before,
                command,
                refusal.as_str()
            )?,
            "{command}: wanted no FULL {limit}"
        );
    }
    Ok(())
}
