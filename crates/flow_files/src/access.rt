//! What a program wants of a store's files.

/// What a program does with the two files of a store.
#[derive(Clone, Copy, Debug, PartialEq, Eq)]
pub enum Access {
    /// It makes a store: files that aren't there are made, readable by their owner alone.
    Make,
    /// It reads and writes a store that is there.
    Serve,
    /// It only reads, and needs no right to write.
    Look,
}
