//! Streams of several frames, which a second store keeps together: long, cut, refused and stopped.
use crate::streams::{STREAM, new_disk, ran, shipped};
use flow_disk::MemDisk;
use flow_trials::{Outcome, Store, new_store};
use flow_words::Status;
use std::alloc::Global;
use std::test::Fail;

/// The bytes of a stream before its first frame.
const FRONT: usize = 25;

/// Appends the frame of the transaction under a number that sets the clock.
fn put_clock(stream: &mut Vec<u8>, number: u64, minutes: u64) -> Result<(), Fail> {
    stream.extend_from_slice(&[1, 0, 0, 0, 0x11])?;
    stream.extend_from_slice(&number.to_be_bytes())?;
    stream.push(0x0f)?;
    stream.extend_from_slice(&minutes.to_be_bytes())?;
    Ok(())
}

/// The stream of transactions that set the clock to these minutes, one after the other.
fn stream_of(alloc: Global, clocks: &[u64]) -> Result<Vec<u8>, Fail> {
    let mut stream = Vec::from_slice(alloc, &STREAM[..FRONT])?;
    let mut number: u64 = 0;
    for minutes in clocks {
        number = number.saturating_add(1);
        put_clock(&mut stream, number, *minutes)?;
    }
    stream.push(0)?;
    Ok(stream)
}

/// The stream of this many transactions that set the clock to 1, to 2, and so on.
fn rising(alloc: Global, count: u64) -> Result<Vec<u8>, Fail> {
    let mut clocks = Vec::new(alloc);
    for minutes in 1..=count {
        clocks.push(minutes)?;
    }
    stream_of(alloc, &clocks)
}

/// Runs a script of one CLOCK over a store, whose answer tells how many transactions it has.
fn clocked(alloc: Global, disk: MemDisk) -> Result<Outcome, Fail> {
    ran(alloc, "run", b"CLOCK 9\n", disk)
}

// More frames than are kept behind one gate: all are taken, and the store ships the same stream.
#[test]
fn long_streams_are_followed(rt: HostRuntime) -> Result<(), Fail> {
    let stream = rising(rt.alloc(), 1001)?;
    let followed = ran(rt.alloc(), "follow", &stream, new_disk(rt.alloc())?)?;
    followed.check("1,001 frames", "ok FOLLOW 1001 1001\n", Status::Done)?;
    let again = shipped(rt.alloc(), "0", followed.disk)?;
    assert!(rt; again.text.as_slice() == stream.as_slice());
    Ok(())
}

/// The length to which a stream of three frames is cut, what `follow` answers, and what a CLOCK is answered afterwards.
const CUTS: [(usize, &str, &str); 8] = [
    (25, "no CUT 0\n", "ok 1 CLOCK 9\n"),
    (46, "no CUT 0\n", "ok 1 CLOCK 9\n"),
    (47, "no CUT 1\n", "ok 2 CLOCK 9\n"),
    (52, "no CUT 1\n", "ok 2 CLOCK 9\n"),
    (68, "no CUT 1\n", "ok 2 CLOCK 9\n"),
    (69, "no CUT 2\n", "ok 3 CLOCK 9\n"),
    (90, "no CUT 2\n", "ok 3 CLOCK 9\n"),
    (91, "no CUT 3\n", "ok 4 CLOCK 9\n"),
];

// What was taken before a cut is kept.
#[test]
fn cut_frames_are_refused(rt: HostRuntime) -> Result<(), Fail> {
    let stream = rising(rt.alloc(), 3)?;
    for (length, text, next) in CUTS {
        let shows = format!(in rt.alloc(); "{length} bytes")?;
        let cut = stream.get(..length).unwrap_or(&[]);
        let followed = ran(rt.alloc(), "follow", cut, new_disk(rt.alloc())?)?;
        followed.check(shows.as_str(), text, Status::Refused)?;
        clocked(rt.alloc(), followed.disk)?.check(shows.as_str(), next, Status::Done)?;
    }
    Ok(())
}

// A frame that isn't allowed ends the stream, and those before it are kept.
#[test]
fn a_refusal_keeps_the_frames_before(rt: HostRuntime) -> Result<(), Fail> {
    let stream = stream_of(rt.alloc(), &[5, 6, 4])?;
    let followed = ran(rt.alloc(), "follow", &stream, new_disk(rt.alloc())?)?;
    followed.check(
        "a clock that goes back",
        "no NOTALLOWED 3\n",
        Status::Refused,
    )?;
    clocked(rt.alloc(), followed.disk)?.check("the store after it", "ok 3 CLOCK 9\n", Status::Done)
}

/// Whether a stop at a call of the disk leaves none of the three transactions of a stream, or all of them.
fn keeps_none_or_all(
    alloc: Global,
    new: &Store,
    stream: &[u8],
    call: u64,
    choice: u64,
) -> Result<bool, Fail> {
    let disk = MemDisk::stopping(alloc, &new.a, &new.b, call)?;
    let stopped = ran(alloc, "follow", stream, disk)?;
    let next = clocked(alloc, stopped.disk.crash(choice)?)?;
    Ok(next.is("ok 1 CLOCK 9\n", Status::Done) || next.is("ok 4 CLOCK 9\n", Status::Done))
}

#[test]
fn stops_of_a_batch(rt: HostRuntime) -> Result<(), Fail> {
    let new = new_store(rt.alloc())?;
    let stream = rising(rt.alloc(), 3)?;
    for call in 1..11 {
        for choice in [0, 1, 215, 221] {
            assert!(rt;
                keeps_none_or_all(rt.alloc(), &new, &stream, call, choice)?,
                "call {call}, choice {choice}"
            );
        }
    }
    Ok(())
}
