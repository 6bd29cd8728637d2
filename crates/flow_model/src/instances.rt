//! Running processes: paths, messages, fates, holds and what is shown of them.

use crate::graphs::{Container, Program};
use crate::lists::List;
use crate::names::Name;

/// One step down: an attempt, from 1 on, of an activity.
#[derive(Drop)]
pub struct Part {
    pub name: Name,
    pub attempt: u64,
}

/// A root instance, from 1 on, and the way down to a scope or an item of it.
#[derive(Drop)]
pub struct Path {
    pub root: u64,
    pub parts: List<Part>,
}

/// A message of a scope: BEGIN, a connector's SIGNAL with its truth, END.
#[derive(Drop)]
pub enum Message {
    Begin(Path),
    Signal(Path, Name, Name, bool),
    End(Path),
}

/// What has become of an activity; a number is that of an attempt.
#[derive(Clone, Copy, Debug, PartialEq, Eq)]
pub enum Fate {
    Waiting,
    Ready(u64),
    Running(u64),
    Finished(u64),
    Dead,
}

/// What has become of an item.
#[derive(Clone, Copy, Debug, PartialEq, Eq)]
pub enum Phase {
    Ready,
    Running,
    Ended,
}

/// What has become of a root.
#[derive(Clone, Copy, Debug, PartialEq, Eq)]
pub enum Mode {
    Active,
    Suspended,
    Done,
    Terminated,
}

/// Who holds an item; an agent by its take number.
#[derive(Drop)]
pub enum Hold {
    Nobody,
    Person(Name),
    Agent(u64),
}

/// Who completes an item.
#[derive(Drop)]
pub enum Who {
    Person(Name),
    Agent(u64),
}

/// How an activity has ended, with its final output.
#[derive(Drop)]
pub enum SourceEnd {
    Unsettled,
    Dead,
    Finished(Container),
}

/// An accepted completion.
#[derive(Drop)]
pub struct Fact {
    pub item: Path,
    pub output: Container,
}

/// The fate of an activity of a scope, as it is shown.
#[derive(Drop)]
pub struct FateRow {
    pub scope: Path,
    pub name: Name,
    pub fate: Fate,
}

/// What the worklists know of an item.
#[derive(Drop)]
pub struct ItemLine {
    pub hold: Hold,
    pub program: Program,
    pub starter: Name,
    pub performer: Option<Name>,
}

/// A line of a worklist.
#[derive(Drop)]
pub struct WorkLine {
    pub item: Path,
    pub held: bool,
}
