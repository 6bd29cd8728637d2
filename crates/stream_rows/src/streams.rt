//! Streams to a second store: cut at each byte, with each byte changed, from other stores, and of what is gone or
//! ahead.
use flow_disk::MemDisk;
use flow_trials::{Outcome, Store, answer, new_store, run_over};
use flow_words::Status;
use std::alloc::Global;
use std::test::Fail;

/// The stream of a store with one queue and the default limit, whose one transaction sets the clock to 5.
pub(crate) const STREAM: [u8; 48] = [
    0x46, 0x4c, 0x4f, 0x57, 0x53, 0x48, 0x50, 0x31, 0x01, 0x00, 0x00, 0x00, 0x00, 0x00, 0x0f, 0x42,
    0x40, 0x00, 0x00, 0x00, 0x00, 0x00, 0x00, 0x00, 0x00, 0x01, 0x00, 0x00, 0x00, 0x11, 0x00, 0x00,
    0x00, 0x00, 0x00, 0x00, 0x00, 0x01, 0x0f, 0x00, 0x00, 0x00, 0x00, 0x00, 0x00, 0x00, 0x05, 0x00,
];

/// What `follow` answers to the stream with 128 added to a byte, from this many bytes on.
const CHANGED: [(usize, &str); 9] = [
    (0, "no FRAME 0\n"),
    (8, "no OTHER\n"),
    (17, "no GAP 0\n"),
    (25, "no FRAME 25\n"),
    (28, "no CUT 0\n"),
    (30, "no FRAME 25\n"),
    (39, "no NOTALLOWED 1\n"),
    (44, "ok FOLLOW 1 1\n"),
    (47, "no FRAME 47\n"),
];

/// Runs a word over the two files of a disk.
pub(crate) fn ran(alloc: Global, word: &str, input: &[u8], disk: MemDisk) -> Result<Outcome, Fail> {
    Ok(run_over(alloc, &[word, "a", "b"], input, (&[], &[]), disk)?)
}

/// Ships the transactions above a number.
pub(crate) fn shipped(alloc: Global, from: &str, disk: MemDisk) -> Result<Outcome, Fail> {
    Ok(run_over(alloc, &["ship", "a", "b", from], b"", (&[], &[]), disk)?)
}

/// A disk with a new store.
pub(crate) fn new_disk(alloc: Global) -> Result<MemDisk, Fail> {
    Ok(new_store(alloc)?.disk(alloc)?)
}

/// A store after a script.
fn store(alloc: Global, script: &[u8]) -> Result<MemDisk, Fail> {
    Ok(ran(alloc, "run", script, new_disk(alloc)?)?.disk)
}

/// Fails where a stream isn't answered so by a new store.
fn answered(alloc: Global, shows: &str, stream: &[u8], text: &str) -> Result<(), Fail> {
    let outcome = ran(alloc, "follow", stream, new_disk(alloc)?)?;
    if text.starts_with("ok") {
        outcome.check(shows, text, Status::Done)
    } else {
        outcome.check(shows, text, Status::Refused)
    }
}

/// What is answered to a byte that was changed.
fn changed_text(at: usize) -> &'static str {
    let mut found = "";
    for (from, text) in CHANGED {
        if from <= at {
            found = text;
        }
    }
    found
}

/// The stream with 128 added to a byte.
fn changed(alloc: Global, at: usize) -> Result<Vec<u8>, Fail> {
    let mut bytes = Vec::new(alloc);
    for (place, old) in STREAM.iter().enumerate() {
        bytes.push(if place == at { *old ^ 128 } else { *old })?;
    }
    Ok(bytes)
}

#[test]
fn stores_are_shipped(rt: HostRuntime) -> Result<(), Fail> {
    let first = shipped(rt.alloc(), "0", store(rt.alloc(), b"CLOCK 5\n")?)?;
    assert_eq!(rt; first.text.as_slice(), STREAM.as_slice());
    let ahead = shipped(rt.alloc(), "2", first.disk)?;
    ahead.check("from behind the end", "no AHEAD 1\n", Status::Refused)?;
    let gone = shipped(
        rt.alloc(),
        "0",
        store(rt.alloc(), b"CLOCK 5\nCHECKPOINT\n")?,
    )?;
    gone.check("from before a checkpoint", "no GONE 1\n", Status::Refused)
}

#[test]
fn streams_are_followed(rt: HostRuntime) -> Result<(), Fail> {
    let first = ran(rt.alloc(), "follow", &STREAM, new_disk(rt.alloc())?)?;
    first.check("a stream", "ok FOLLOW 1 1\n", Status::Done)?;
    let again = ran(rt.alloc(), "follow", &STREAM, first.disk)?;
    again.check("the same stream again", "ok FOLLOW 1 0\n", Status::Done)?;
    let next = ran(rt.alloc(), "run", b"CLOCK 4\n", again.disk)?;
    next.check("a session over it", "no CLOCK 5\n", Status::Done)
}

#[test]
fn cut_streams_are_refused(rt: HostRuntime) -> Result<(), Fail> {
    for length in 0..STREAM.len() {
        let cut = STREAM.get(..length).unwrap_or(&[]);
        let text = if length < 47 {
            "no CUT 0\n"
        } else {
            "no CUT 1\n"
        };
        let shows = format!(in rt.alloc(); "{length} bytes")?;
        answered(rt.alloc(), shows.as_str(), cut, text)?;
    }
    Ok(())
}

#[test]
fn changed_streams_are_judged(rt: HostRuntime) -> Result<(), Fail> {
    for at in 0..STREAM.len() {
        let shows = format!(in rt.alloc(); "byte {at}")?;
        let stream = changed(rt.alloc(), at)?;
        answered(rt.alloc(), shows.as_str(), &stream, changed_text(at))?;
    }
    Ok(())
}

#[test]
fn longer_streams_are_refused(rt: HostRuntime) -> Result<(), Fail> {
    let mut longer = Vec::from_slice(rt.alloc(), &STREAM)?;
    longer.push(0)?;
    answered(
        rt.alloc(),
        "a byte behind the end",
        &longer,
        "no FRAME 48\n",
    )?;
    answered(
        rt.alloc(),
        "a refusal of ship",
        b"no GONE 1\n",
        "no FRAME 0\n",
    )
}

#[test]
fn other_stores_are_refused(rt: HostRuntime) -> Result<(), Fail> {
    for (setting, value) in [("QUEUES", "2"), ("LIMIT", "10")] {
        let other = answer(rt.alloc(), &["new", "a", "b", setting, value], b"")?;
        let outcome = ran(rt.alloc(), "follow", &STREAM, other.disk)?;
        outcome.check(setting, "no OTHER\n", Status::Refused)?;
    }
    Ok(())
}

/// Whether a stop at a call of the disk leaves the second store with no transaction or with the one of the stream.
fn survives(alloc: Global, new: &Store, call: u64, choice: u64) -> Result<bool, Fail> {
    let disk = MemDisk::stopping(alloc, &new.a, &new.b, call)?;
    let stopped = ran(alloc, "follow", &STREAM, disk)?;
    let next = ran(alloc, "run", b"CLOCK 9\n", stopped.disk.crash(choice)?)?;
    Ok(next.is("ok 1 CLOCK 9\n", Status::Done) || next.is("ok 2 CLOCK 9\n", Status::Done))
}

#[test]
fn stops_of_the_second_store(rt: HostRuntime) -> Result<(), Fail> {
    let new = new_store(rt.alloc())?;
    for call in 1..11 {
        for choice in [0, 1, 215, 221] {
            assert!(rt;
                survives(rt.alloc(), &new, call, choice)?,
                "call {call}, choice {choice}"
            );
        }
    }
    Ok(())
}
