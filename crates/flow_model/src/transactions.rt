//! What changes the state: transactions, each numbered.

use crate::graphs::Value;
use crate::instances::{Message, Path, Who};
use crate::lists::List;
use crate::names::{Bytes, Name};

/// A value for the leaf at a place.
#[derive(Drop)]
pub struct Setting {
    pub leaf: u16,
    pub value: Value,
}

/// A transaction, with its parts in the order of its record.
#[derive(Drop)]
pub enum Transaction {
    Import(Bytes),
    /// Root, process, version, starter, key, settings.
    Start(u64, Name, u32, Name, Option<Name>, List<Setting>),
    Turn(u8, Message),
    Claim(Path, Name),
    Release(Path, Name),
    Transfer(Path, Name, Name),
    Take(Path, u64),
    Done(Path, Who, List<Setting>),
    Force(Path, List<Setting>),
    Restart(Path),
    Suspend(u64),
    Resume(u64),
    Terminate(u64),
    Delete(u64),
    Clock(u64),
}

/// A transaction with its number.
#[derive(Drop)]
pub struct Numbered {
    pub number: u64,
    pub transaction: Transaction,
}
