//! The program `flow`: the words of its command line over standard input and output and two files.
#![tactic(auto)]

use flow_files::{Access, FileDisk};
use flow_io::{StdSink, StdSource};
use flow_words::{Status, run};
use std::alloc::AllocError;
use std::env::{self, Env};
use std::io;
use std::process::ExitCode;

/// The words after the program's name: none where one of them isn't UTF-8, since no words of the
/// program are so.
fn words_of<R: Env + AllocGlobal>(rt: &R) -> Result<Vec<String>, AllocError> {
    let mut words = Vec::new(rt.alloc());
    let all = match env::args(rt) {
        Ok(all) => all,
        Err(e) if e.kind() == io::ErrorKind::InvalidData => return Ok(words),
        Err(_) => return Err(AllocError),
    };
    for (i, word) in all.enumerate() {
        if i > 0 {
            words.push(word)?;
        }
    }
    Ok(words)
}

/// What the program does with the files of the store, by its first word.
fn access_of(words: &[String]) -> Access {
    match words {
        [word, ..] if word.as_str() == "new" => Access::Make,
        [word, ..] if word.as_str() == "run" || word.as_str() == "follow" => Access::Serve,
        _ => Access::Look,
    }
}

/// The paths of a store's files: the second and the third word, where there are three.
fn paths_of<R: AllocGlobal>(rt: &R, words: &[String]) -> Result<(String, String), AllocError> {
    match words {
        [_, a, b, ..] => Ok((a.clone()?, b.clone()?)),
        _ => Ok((String::new(rt.alloc()), String::new(rt.alloc()))),
    }
}

/// Serves the words of the command line. The files of a store are opened by the first call on them:
/// words that need no store open none.
///
/// A write past the process's limit on the size of a file (`RLIMIT_FSIZE`) ends the program by the
/// signal `SIGXFSZ`, and with status 3 where it was started with that signal ignored: the kit has
/// no call to ignore a signal.
fn main(rt: HostRuntime) -> ExitCode {
    let Ok(words) = words_of(&rt) else {
        return ExitCode::from(Status::NoMemory.number());
    };
    let Ok((a, b)) = paths_of(&rt, &words) else {
        return ExitCode::from(Status::NoMemory.number());
    };
    let disk = FileDisk::new(&rt, a, b, access_of(&words));
    let mut source = StdSource::new(&rt);
    let mut sink = StdSink::new(&rt);
    let (status, _disk) = run(rt.alloc(), &words, &mut source, &mut sink, disk);
    ExitCode::from(status.number())
}
