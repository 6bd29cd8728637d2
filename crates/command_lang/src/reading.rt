//! From the bytes of a line to what it says. Places are counted from 1.
ghost use Rattle.std.specs.Prelude.{◌≡◌, ◌≤◌, ◌<◌, ◌+◌, ◌-◌, ◌^◌, ℕ, [], Some, None, Err, length, min, IfOk, IfErr};
ghost use Rattle.std.specs.Prelude.{IfSome, OnOk};
ghost use Rattle.std.specs.List.{list_all};
ghost use Rattle.command_lang.specs.declared.reading.CommandFault.TheVariants.{Word};
ghost use Rattle.command_lang.specs.Reading.{may_stand as may_stand_test, wrong_byte as wrong_byte_of, spoken_in};
ghost use Rattle.command_lang.specs.Reading.{AreLineTokens, HasNoTokens, IsReading, SaysCommand, SaysCompletion};
ghost use Rattle.command_lang.specs.Reading.{IsOnlyCommand, IsOnlyCompletion, IsRefusal, RefusesFirst};
ghost use Rattle.command_lang.specs.Reading.{RefusesNoCommand, RefusesNoCompletion};
ghost use Rattle.command_lang.specs.Refusing.{SomeCommand, SomeCompletion};
ghost use Rattle.command_lang.specs.declared.reading.CommandFault.TheVariants.{NoMemory};

use crate::grammar::{command, completion};
use fdl_lexer::{LexFault, Tokens, lex_allowed};
use fdl_parser::{Cursor, SyntaxFault};
use flow_model::{Command, Completion};
use std::alloc::{AllocError, Global};
use thiserror::Error;

/// Why a line says nothing that is served.
#[derive(Clone, Copy, Debug, PartialEq, Eq, Drop, Error)]
pub enum CommandFault {
    /// The place of the first byte that may not stand in a line, else of the first place where no token
    /// begins, else of the first token with which the tokens begin no command, else behind the last token.
    #[error("Word")]
    Word(u32),
    /// There was no memory for it.
    #[error("NoMemory")]
    NoMemory,
}

impl From<AllocError> for CommandFault {
    ghost from_gives = { λ _ e. e ≡ NoMemory };

    fn from(_fault: AllocError) -> CommandFault {
        CommandFault::NoMemory
    }
}

/// A place counted from 1.
fn from_one(place: u32) -> CommandFault
    ensures { result ≡ Word (min (place + 1) (2 ^ 32 - 1)) }
{
    CommandFault::Word(place.saturating_add(1))
}

fn may_stand(byte: u8) -> bool
    ensures { result ≡ may_stand_test byte }
{
    byte == b'\t' || byte == b'\r' || (b' '..=b'~').contains(&byte)
}

/// Whether each byte may stand in a line.
fn all_may_stand(line: &[u8]) -> bool
    ensures { result ≡ list_all may_stand_test line.now }
{
    let mut good = true;
    // Without an early exit the loop looks at many bytes at once.
    for byte in line {
        good &= may_stand(*byte);
    }
    good
}

/// The first byte that may not stand in a line.
fn wrong_byte(line: &[u8]) -> Option<usize>
    ensures { result ≡ wrong_byte_of line.now }
{
    if all_may_stand(line) {
        return None;
    }
    line.iter().position(|byte| !may_stand(*byte))
}

/// Reads the tokens of a line whose bytes may all stand in one.
fn lexed(tokens: &mut Tokens, line: &[u8]) -> Result<(), CommandFault>
    requires short { length line.now ≤ 65536 }
    requires allowed { wrong_byte_of line.now ≡ None }
    ensures tokens { OnOk result (AreLineTokens line.now tokens.new.items) }
    ensures fault { IfErr result (HasNoTokens line.now) }
{
    match lex_allowed(tokens, line) {
        Ok(()) => Ok(()),
        Err(LexFault::Byte(_)) => unreachable!(),
        Err(LexFault::Token(place)) => Err(from_one(place)),
        Err(LexFault::NoMemory) => Err(CommandFault::NoMemory),
    }
}

/// Reads the tokens of a line.
fn read_tokens(tokens: &mut Tokens, line: &[u8]) -> Result<(), CommandFault>
    requires { length line.now ≤ 65536 }
    ensures tokens { OnOk result (AreLineTokens line.now tokens.new.items) }
    ensures fault { IfErr result (HasNoTokens line.now) }
    ensures byte { (p : ℕ) → wrong_byte_of line.now ≡ Some p → result ≡ Err (Word (p + 1)) }
{
    if let Some(place) = wrong_byte(line) {
        return Err(from_one(u32::try_from(place).unwrap_or(u32::MAX)));
    }
    lexed(tokens, line)
}

/// The line up to the end of its last token; None where it has none.
fn spoken<'a>(line: &'a [u8], tokens: &Tokens) -> Option<&'a [u8]>
    ensures none { result ≡ None → tokens.now.items ≡ [] }
    ensures some { IfSome result (λ s. (0 < length tokens.now.items) × (s.now ≡ spoken_in line.now tokens.now.items)) }
{
    let last = tokens.items.as_slice().last()?;
    match line.get(..last.to as usize) {
        Some(spoken) => Some(spoken),
        None => Some(line),
    }
}

fn command_fault(fault: SyntaxFault) -> CommandFault
    ensures place { (p : ℕ) → fault ≡ SyntaxFault.At p → result ≡ Word (min (p + 1) (2 ^ 32 - 1)) }
    ensures memory { fault ≡ SyntaxFault.NoMemory → result ≡ CommandFault.NoMemory }
{
    match fault {
        SyntaxFault::At(place) => from_one(place),
        SyntaxFault::NoMemory => CommandFault::NoMemory,
    }
}

/// A reader of lines: the tokens of each line stand in the memory that those of the line before had.
#[derive(Drop)]
pub struct Reader {
    alloc: Global,
    tokens: Tokens,
}

impl Reader {
    /// A reader that has read no line.
    pub fn new(alloc: Global) -> Reader {
        Reader {
            alloc,
            tokens: Tokens::new(alloc),
        }
    }

    /// The command of a line.
    ///
    /// None comes where the line has only blanks and comments, and `Word` where that doesn't hold and the
    /// line is no command.
    pub fn command(&mut self, line: &[u8]) -> Result<Option<Command>, CommandFault>
        requires { length line.now ≤ 65536 }
        ensures read { IsReading line.now result }
        ensures byte { (p : ℕ) → wrong_byte_of line.now ≡ Some p → result ≡ Err (Word (p + 1)) }
        ensures says { IfOk result (SaysCommand line.now) }
        ensures one { IfOk result (IsOnlyCommand line.now) }
        ensures refused { IfErr result (IsRefusal line.now) }
        ensures first { IfErr result (RefusesFirst SomeCommand line.now) }
        ensures none { IfErr result (RefusesNoCommand line.now) }
    {
        read_tokens(&mut self.tokens, line)?;
        let Some(spoken) = spoken(line, &self.tokens) else {
            return Ok(None);
        };
        let mut cursor = Cursor::new(self.alloc, spoken, self.tokens.items.as_slice());
        match command(&mut cursor) {
            Ok(command) => Ok(Some(command)),
            Err(fault) => Err(command_fault(fault)),
        }
    }

    /// The completion of a line, with None and `Word` as for commands.
    pub fn completion(&mut self, line: &[u8]) -> Result<Option<Completion>, CommandFault>
        requires { length line.now ≤ 65536 }
        ensures read { IsReading line.now result }
        ensures byte { (p : ℕ) → wrong_byte_of line.now ≡ Some p → result ≡ Err (Word (p + 1)) }
        ensures says { IfOk result (SaysCompletion line.now) }
        ensures one { IfOk result (IsOnlyCompletion line.now) }
        ensures refused { IfErr result (IsRefusal line.now) }
        ensures first { IfErr result (RefusesFirst SomeCompletion line.now) }
        ensures none { IfErr result (RefusesNoCompletion line.now) }
    {
        read_tokens(&mut self.tokens, line)?;
        let Some(spoken) = spoken(line, &self.tokens) else {
            return Ok(None);
        };
        let mut cursor = Cursor::new(self.alloc, spoken, self.tokens.items.as_slice());
        match completion(&mut cursor) {
            Ok(completion) => Ok(Some(completion)),
            Err(fault) => Err(command_fault(fault)),
        }
    }
}

/// The command of a single line, as a [`Reader`] reads it.
pub fn read_command(alloc: Global, line: &[u8]) -> Result<Option<Command>, CommandFault>
    requires { length line.now ≤ 65536 }
    ensures read { IsReading line.now result }
    ensures byte { (p : ℕ) → wrong_byte_of line.now ≡ Some p → result ≡ Err (Word (p + 1)) }
    ensures says { IfOk result (SaysCommand line.now) }
    ensures one { IfOk result (IsOnlyCommand line.now) }
    ensures refused { IfErr result (IsRefusal line.now) }
    ensures first { IfErr result (RefusesFirst SomeCommand line.now) }
    ensures none { IfErr result (RefusesNoCommand line.now) }
{
    Reader::new(alloc).command(line)
}

/// The completion of a single line, as a [`Reader`] reads it.
pub fn read_completion(alloc: Global, line: &[u8]) -> Result<Option<Completion>, CommandFault>
    requires { length line.now ≤ 65536 }
    ensures read { IsReading line.now result }
    ensures byte { (p : ℕ) → wrong_byte_of line.now ≡ Some p → result ≡ Err (Word (p + 1)) }
    ensures says { IfOk result (SaysCompletion line.now) }
    ensures one { IfOk result (IsOnlyCompletion line.now) }
    ensures refused { IfErr result (IsRefusal line.now) }
    ensures first { IfErr result (RefusesFirst SomeCompletion line.now) }
    ensures none { IfErr result (RefusesNoCompletion line.now) }
{
    Reader::new(alloc).completion(line)
}
