//! Stores to the byte: what is made, and what is printed of one that is cut or altered.
use flow_disk::{MemDisk, Slot};
use flow_trials::{Outcome, new_store, run_over};
use flow_words::Status;
use std::alloc::Global;
use std::test::Fail;

/// Slot A of a store with one queue and the default limit, after CLOCK 5.
const STORE: [u8; 65] = [
    0x01, 0x46, 0x4c, 0x4f, 0x57, 0x53, 0x54, 0x52, 0x32, 0x00, 0x00, 0x00, 0x00, 0x00, 0x00, 0x00,
    0x01, 0x01, 0x00, 0x00, 0x00, 0x00, 0x00, 0x0f, 0x42, 0x40, 0x00, 0x00, 0x00, 0x00, 0x00, 0x00,
    0x00, 0x00, 0x00, 0x00, 0x00, 0x00, 0x00, 0x00, 0x00, 0x00, 0x01, 0x00, 0x00, 0x00, 0x11, 0x00,
    0x00, 0x00, 0x00, 0x00, 0x00, 0x00, 0x01, 0x0f, 0x00, 0x00, 0x00, 0x00, 0x00, 0x00, 0x00, 0x05,
    0x00,
];

/// What `run` prints over the first bytes of the store, from this many bytes on.
const CUTS: [(usize, &str); 9] = [
    (0, "no STORE UNMADE\n"),
    (2, "no STORE FOREIGN A\n"),
    (9, "no STORE DAMAGED A 9\n"),
    (17, "no STORE DAMAGED A 17\n"),
    (18, "no STORE DAMAGED A 18\n"),
    (26, "no STORE DAMAGED A 26\n"),
    (34, "no STORE DAMAGED A 34\n"),
    (42, "no STORE DAMAGED A 42\n"),
    (65, ""),
];

/// The byte at a place, another one for it, and what `run` prints over the script `CLOCK 4`.
const ALTERED: [(usize, u8, &str); 11] = [
    (0, 7, "no STORE UNMADE\n"),
    (9, 128, "no STORE DAMAGED A 9\n"),
    (17, 0, "no STORE DAMAGED A 17\n"),
    (18, 1, "no STORE DAMAGED A 18\n"),
    (41, 1, "no STORE DAMAGED A 34\n"),
    (42, 7, "ok 1 CLOCK 4\n"),
    (46, 0, "no STORE DAMAGED A 42\n"),
    (46, 16, "no STORE DAMAGED A 42\n"),
    (54, 2, "no STORE DAMAGED A 42\n"),
    (55, 16, "no STORE DAMAGED A 42\n"),
    (63, 6, "no CLOCK 6\n"),
];

/// Runs `run` over a store with these bytes in slot A and none in slot B.
fn ran(alloc: Global, a: &[u8], script: &[u8]) -> Result<Outcome, Fail> {
    let disk = MemDisk::with(alloc, a, &[], &[])?;
    Ok(run_over(alloc, &["run", "a", "b"], script, (&[], &[]), disk)?)
}

/// How a run ends that prints this.
fn status_of(text: &str) -> Status {
    if text.starts_with("no STORE") {
        Status::Store
    } else {
        Status::Done
    }
}

/// What is printed over this many bytes of the store.
fn cut_text(length: usize) -> &'static str {
    let mut found = "";
    for (from, text) in CUTS {
        if from <= length {
            found = text;
        }
    }
    found
}

/// The store with another byte.
fn altered(alloc: Global, at: usize, byte: u8) -> Result<Vec<u8>, Fail> {
    let mut bytes = Vec::new(alloc);
    for (place, old) in STORE.iter().enumerate() {
        bytes.push(if place == at { byte } else { *old })?;
    }
    Ok(bytes)
}

#[test]
fn a_store_is_made_so(rt: HostRuntime) -> Result<(), Fail> {
    let disk = new_store(rt.alloc())?.disk(rt.alloc())?;
    let outcome = run_over(
        rt.alloc(),
        &["run", "a", "b"],
        b"CLOCK 5\n",
        (&[], &[]),
        disk,
    )?;
    outcome.check("a session over a new store", "ok 1 CLOCK 5\n", Status::Done)?;
    assert_eq!(rt; outcome.disk.bytes(Slot::A), STORE.as_slice());
    Ok(())
}

#[test]
fn cut_stores_are_refused(rt: HostRuntime) -> Result<(), Fail> {
    for length in 0..=STORE.len() {
        let cut = STORE.get(..length).unwrap_or(&[]);
        let shows = format!(in rt.alloc(); "{length} bytes")?;
        let text = cut_text(length);
        ran(rt.alloc(), cut, b"")?.check(shows.as_str(), text, status_of(text))?;
    }
    Ok(())
}

#[test]
fn altered_stores_are_refused(rt: HostRuntime) -> Result<(), Fail> {
    for (at, byte, text) in ALTERED {
        let shows = format!(in rt.alloc(); "byte {at}")?;
        let bytes = altered(rt.alloc(), at, byte)?;
        ran(rt.alloc(), &bytes, b"CLOCK 4\n")?.check(shows.as_str(), text, status_of(text))?;
    }
    Ok(())
}
