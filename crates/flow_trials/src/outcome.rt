//! A run of the program, and how it ended.
use flow_disk::{MemDisk, Slot};
use flow_io::{MemSink, MemSource};
use flow_words::{Status, run};
use std::alloc::{AllocError, Global};
use std::test::Fail;

/// How a run ended: its status, what it printed, and the disk that it left.
#[derive(Drop)]
pub struct Outcome {
    pub status: Status,
    pub text: Vec<u8>,
    pub disk: MemDisk,
}

/// A store: the bytes of its two slots.
#[derive(Drop)]
pub struct Store {
    pub a: Vec<u8>,
    pub b: Vec<u8>,
}

/// Runs the words of a command line over an input and a disk; the calls of the source and of the sink that fail are
/// listed.
pub fn run_over(
    alloc: Global,
    words: &[&str],
    input: &[u8],
    failing: (&[u64], &[u64]),
    disk: MemDisk,
) -> Result<Outcome, AllocError> {
    let mut all = Vec::new(alloc);
    for word in words {
        all.push(String::from_str(alloc, word)?)?;
    }
    let mut source = MemSource::new(alloc, input, failing.0)?;
    let mut sink = MemSink::new(alloc, failing.1)?;
    let (status, disk) = run(alloc, &all, &mut source, &mut sink, disk);
    let text = Vec::from_slice(alloc, sink.held())?;
    Ok(Outcome { status, text, disk })
}

/// Runs the words of a command line over an input and an empty disk.
pub fn answer(alloc: Global, words: &[&str], input: &[u8]) -> Result<Outcome, AllocError> {
    run_over(alloc, words, input, (&[], &[]), MemDisk::new(alloc, &[])?)
}

/// A store that `new` made.
pub fn new_store(alloc: Global) -> Result<Store, AllocError> {
    answer(alloc, &["new", "a", "b"], b"")?.store(alloc)
}

/// The first line in which two texts differ: its number, from 1 on, and what each of them has there.
fn first_difference<'a>(wanted: &'a str, came: &'a str) -> (usize, &'a str, &'a str) {
    let mut number: usize = 1;
    let mut others = came.lines();
    for line in wanted.lines() {
        let other = others.next().unwrap_or("");
        if line != other {
            return (number, line, other);
        }
        number = number.saturating_add(1);
    }
    (number, "", others.next().unwrap_or(""))
}

impl Outcome {
    /// Whether this was printed, and the run ended so.
    pub fn is(&self, text: &str, status: Status) -> bool {
        self.text.as_slice() == text.as_bytes() && self.status == status
    }

    /// Fails where something else was printed or the run ended in another way: the failure names the case, the first
    /// line that differs, what was wanted there and what came.
    pub fn check(&self, shows: &str, text: &str, status: Status) -> Result<(), Fail> {
        if self.is(text, status) {
            return Ok(());
        }
        let came = str::from_utf8(&self.text).unwrap_or("bytes that aren't UTF-8");
        let (line, wanted, other) = first_difference(text, came);
        Err(Fail::new(format_args!(
            "{shows}: line {line}: wanted {wanted:?}, came {other:?}; wanted {status:?}, ended {:?}",
            self.status
        )))
    }

    /// The bytes of the two slots that the run left.
    pub fn store(&self, alloc: Global) -> Result<Store, AllocError> {
        Ok(Store {
            a: Vec::from_slice(alloc, self.disk.bytes(Slot::A))?,
            b: Vec::from_slice(alloc, self.disk.bytes(Slot::B))?,
        })
    }
}

impl Store {
    /// A disk that holds the store and doesn't fail.
    pub fn disk(&self, alloc: Global) -> Result<MemDisk, AllocError> {
        MemDisk::with(alloc, &self.a, &self.b, &[])
    }
}
