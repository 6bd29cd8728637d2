//! What a line says: commands, queries and completions. An item is its token with its quotes.

use crate::instances::Who;
use crate::lists::List;
use crate::names::{Bytes, Name, Txt};
use crate::trees::{LeafAt, NumberAt};

/// A value as it is written; a text has the place of its token.
#[derive(Drop)]
pub enum RawValue {
    Number(NumberAt),
    Text(Txt, u32),
}

/// A setting as it is written.
#[derive(Drop)]
pub struct RawSetting {
    pub leaf: LeafAt,
    pub value: RawValue,
}

/// The result of a completion: the return code and the settings.
#[derive(Drop)]
pub struct Outcome {
    pub rc: Option<NumberAt>,
    pub settings: List<RawSetting>,
}

/// A command.
#[derive(Drop)]
pub enum Command {
    Import(Bytes),
    /// Process, starter, key, settings.
    Start(Name, Name, Option<Name>, List<RawSetting>),
    Turn(u64),
    Drain,
    Claim(Bytes, Name),
    Release(Bytes, Name),
    Transfer(Bytes, Name, Name),
    Take(Bytes),
    Done(Bytes, Who, Outcome),
    Force(Bytes, Outcome),
    Restart(Bytes),
    Suspend(u64),
    Resume(u64),
    Terminate(u64),
    Delete(u64),
    Clock(NumberAt),
    Checkpoint,
    Ask(Query),
}

/// A command that changes nothing.
#[derive(Drop)]
pub enum Query {
    Show(u64),
    Output(u64),
    Input(Bytes),
    Worklist(Name),
    Queue(u64),
    Audit(u64),
    Templates,
}

/// What a completion line completes.
#[derive(Drop)]
pub enum Target {
    Item(Bytes),
    /// The ready attempt of an activity of the root scope.
    Activity(Name),
}

/// A completion line.
#[derive(Drop)]
pub struct Completion {
    pub target: Target,
    pub outcome: Outcome,
}
