//! The lines of a source, read in blocks.
ghost use Rattle.std.specs.Prelude.{◌≡◌, ℕ, ◌+◌, ◌-◌, ◌<◌, ◌≤◌, List, [], ◌++◌, length, drop, take};
ghost use Rattle.std.specs.Prelude.{slice_range, IfOk, MatchOption, MatchResult, vec_len};
ghost use Rattle.std.specs.Io.KnownBytes.{Consumes};
ghost use Rattle.flow_io.specs.Inputs.{NoFeedBelow};
ghost use Rattle.flow_io.specs.Found.{IsFirstFeed, IsReach, Takes};
ghost use Rattle.flow_io.specs.Told.{Tells, Shrinks, StopCause, SetsAside, kind_of, last_kind};
ghost use Rattle.flow_io.specs.Serving.{ServesInputs};

use crate::outside::{Failed, Source};
use memchr::memchr;
use std::alloc::{AllocError, Global};
use std::marker::Model;
use thiserror::Error;

/// The most bytes that a served line has.
pub const MAX_LINE: usize = 65536;

/// How many bytes are asked for at once.
const BLOCK: usize = 65536;

/// What a call of `next` found.
#[derive(Clone, Copy, Debug, PartialEq, Eq)]
pub enum Line {
    /// A line, which stands in `text`.
    Text,
    /// A line of more than `MAX_LINE` bytes, which was passed over whole.
    TooLong,
    /// The source has ended, and no line is left.
    Ended,
}

/// Why there is no next line to be had.
#[derive(Clone, Copy, Debug, PartialEq, Eq, Error)]
pub enum IoStop {
    /// The source failed, and no line end is left within the limit among the bytes taken.
    #[error("the source failed")]
    ReadFault,
    /// More bytes than the limit were taken, and no line end is left within it.
    #[error("the script is too long")]
    ScriptTooLong,
    /// There was no memory for a block.
    #[error("out of memory")]
    NoMemory,
}

impl From<AllocError> for IoStop {
    ghost use Rattle.std.specs.Prelude.{◌≡◌};
    ghost use Rattle.flow_io.specs.declared.lines.IoStop.TheVariants.{NoMemory};

    ghost from_gives = { λ _ stop. stop ≡ NoMemory };

    fn from(_error: AllocError) -> IoStop {
        IoStop::NoMemory
    }
}

/// What the held bytes begin with.
#[derive(Clone, Copy, Debug, PartialEq, Eq)]
enum Reach {
    Line(usize),
    Beyond,
    Part,
}

/// Where the first line feed stands.
fn find_feed(bytes: &[u8]) -> Option<usize>
    ensures { MatchOption result (NoFeedBelow (length bytes.now) bytes.now) (IsFirstFeed bytes.now) }
{
    memchr(b'\n', bytes)
}

/// Where the first line of the held bytes ends, if it ends within the room. The first `scanned` bytes have no end.
fn find_end(held: &[u8], scanned: usize, room: u64) -> Reach
    requires scanned { scanned ≤ length held.now }
    requires room { scanned ≤ room }
    requires none { NoFeedBelow scanned held.now }
    ensures { IsReach held.now room result }
{
    if room < held.len() as u64 {
        let within = room as usize;
        match find_feed(&held[scanned..within]) {
            Some(place) => Reach::Line(scanned + place),
            None => Reach::Beyond,
        }
    } else {
        match find_feed(&held[scanned..]) {
            Some(place) => Reach::Line(scanned + place),
            None => Reach::Part,
        }
    }
}

/// Takes the next block, and answers whether there was one.
fn take_more<S: Source>(src: &mut S, block: &mut [u8], bytes: &mut Vec<u8>) -> Result<bool, IoStop>
    requires { 0 < length block.old }
    ensures taken { (given : List ℕ) × Takes (S.left src.old)
        (S.left src.new) bytes.old.items given bytes.new.items result }
    ensures size { length block.new ≡ length block.old }
    ensures later { S.faults src.old ≤ S.faults src.new }
    ensures cause { MatchResult result (λ _. S.faults src.new ≡ S.faults src.old)
        (StopCause (S.faults src.old) (S.faults src.new)) }
{
    match src.take(block) {
        Ok(0) => Ok(false),
        Ok(count) => {
            bytes.extend_from_slice(&block[..count])?;
            Ok(true)
        }
        Err(Failed) => Err(IoStop::ReadFault),
    }
}

/// What a line of this length is, behind a part that was passed over.
fn line_kind(passed: bool, len: usize) -> Line
    ensures { result ≡ kind_of passed len }
{
    if passed || len > MAX_LINE {
        Line::TooLong
    } else {
        Line::Text
    }
}

/// Takes the first bytes away.
fn forget_front(bytes: &mut Vec<u8>, count: usize)
    requires { count ≤ vec_len bytes.old }
    ensures { bytes.new.items ≡ drop count bytes.old.items }
{
    if count > 0 {
        let _ = bytes.drain(..count);
    }
}

/// A reader of lines. It keeps at most one line and one block.
#[derive(Drop)]
pub struct Lines {
    bytes: Vec<u8>,
    block: Vec<u8>,
    start: usize,
    from: usize,
    to: usize,
    room: u64,
}

impl Model for Lines {
    ghost use Rattle.std.specs.Prelude.{◌≤◌, ◌<◌, drop, slice_range, vec_len};
    ghost use Rattle.flow_io.specs.Reading.{Reading, IsLaidOut};

    ghost Value = { Reading };

    ghost view = { λ a. record { held = drop a.start a.bytes.items; room = a.room; text = slice_range a.bytes.items a.from a.to } };

    ghost invariant = { λ a. IsLaidOut (vec_len a.bytes) (vec_len a.block) a.start a.from a.to };
}

impl Lines {
    /// A reader of a script of which only the first `limit` bytes count. It fails only where
    /// there is no memory for a block.
    pub fn new(alloc: Global, limit: u64) -> Result<Lines, AllocError>
        ensures { IfOk result (λ lines. lines ≡ record { held = []; room = limit; text = [] }) }
    {
        let block = vec![in alloc; 0; BLOCK]?;
        Ok(Lines {
            bytes: Vec::new(alloc),
            block,
            start: 0,
            from: 0,
            to: 0,
            room: limit,
        })
    }

    /// The line that the last call of `next` found, where it answered `Text`.
    pub fn text(&self) -> &[u8]
        ensures { result.now ≡ self.now.text }
    {
        &self.bytes[self.from..self.to]
    }

    /// What the held bytes begin with.
    fn find(&self, scanned: usize) -> Reach
        requires scanned { scanned ≤ length self.now.held }
        requires room { scanned ≤ self.now.room }
        requires none { NoFeedBelow scanned self.now.held }
        ensures { IsReach self.now.held self.now.room result }
    {
        find_end(&self.bytes[self.start..], scanned, self.room)
    }

    /// How many bytes are held.
    fn held_len(&self) -> usize
        ensures { result ≡ length self.now.held }
    {
        self.bytes.len() - self.start
    }

    /// Hands out the first bytes as the end of a line, with the byte behind them.
    fn hand_line(&mut self, passed: bool, len: usize) -> Line
        requires held { len < length self.old.held }
        requires room { len < self.old.room }
        ensures kind { result ≡ kind_of passed len }
        ensures after { self.new ≡ record {
          held = drop (len + 1) self.old.held;
          room = self.old.room -
              (len + 1);
          text = take len self.old.held;
        } }
    {
        self.from = self.start;
        self.to = self.start + len;
        self.start = self.to + 1;
        self.room -= len as u64 + 1;
        line_kind(passed, len)
    }

    /// Hands out all that is held as a line.
    fn hand_all(&mut self)
        requires { length self.old.held ≤ self.old.room }
        ensures { self.new ≡ record { held = []; room = self.old.room - length self.old.held; text = self.old.held } }
    {
        self.from = self.start;
        self.to = self.bytes.len();
        self.room -= (self.to - self.start) as u64;
        self.start = self.to;
    }

    /// Hands out what stands at the end of the source.
    fn hand_last(&mut self, passed: bool) -> Line
        requires { length self.old.held ≤ self.old.room }
        ensures kind { result ≡ last_kind passed (length self.old.held) }
        ensures after { self.new ≡ record {
          held = [];
          room = self.old.room - length self.old.held;
          text =
              self.old.held;
        } }
    {
        let len = self.held_len();
        self.hand_all();
        if !passed && len == 0 {
            Line::Ended
        } else {
            line_kind(passed, len)
        }
    }

    /// Passes over what is held if it is longer than a line, and answers whether a part was passed over.
    fn set_aside(&mut self, passed: bool) -> bool
        requires { length self.old.held ≤ self.old.room }
        ensures { SetsAside passed self.old self.new result }
    {
        if self.held_len() > MAX_LINE {
            self.hand_all();
            true
        } else {
            passed
        }
    }

    /// Takes the next block, and answers whether there was one.
    fn take_block<S: Source>(&mut self, src: &mut S) -> Result<bool, IoStop>
        ensures taken { (given : List ℕ) × Takes (S.left src.old)
            (S.left src.new) self.old.held given self.new.held result }
        ensures room { self.new.room ≡ self.old.room }
        ensures later { S.faults src.old ≤ S.faults src.new }
        ensures cause { MatchResult result (λ _. S.faults src.new ≡ S.faults src.old)
            (StopCause (S.faults src.old) (S.faults src.new)) }
    {
        forget_front(&mut self.bytes, self.start);
        self.start = 0;
        self.from = 0;
        self.to = 0;
        take_more(src, &mut self.block, &mut self.bytes)
    }

    /// Finds the next line: the text behind the last one up to a line feed, or up to the end of
    /// the source where that isn't empty. A line counts where it ends, with its line feed, within
    /// the limit.
    ///
    /// It stops with `ReadFault` exactly where the source failed, and with `ScriptTooLong` exactly
    /// where more bytes than the limit were taken and no line is left within it. After an error
    /// the value isn't used.
    pub fn next<S: Source>(&mut self, src: &mut S) -> Result<Line, IoStop>
        ensures told { (given : List ℕ) × Consumes (S.left src.old) (S.left src.new) given
            × Tells (self.old.held ++ given) self.old.room (S.left src.new) result self.new }
        ensures serves { ServesInputs self.old (S.left src.old) self.new (S.left src.new) result }
        ensures shrinks { Shrinks self.old.room self.new.room result }
        ensures later { S.faults src.old ≤ S.faults src.new }
        ensures cause { MatchResult result (λ _. S.faults src.new ≡ S.faults src.old)
            (StopCause (S.faults src.old) (S.faults src.new)) }
    {
        self.find_next(src)
    }

    /// The work of `next`, without what it means for the inputs.
    fn find_next<S: Source>(&mut self, src: &mut S) -> Result<Line, IoStop>
        ensures told { (given : List ℕ) × Consumes (S.left src.old) (S.left src.new) given
            × Tells (self.old.held ++ given) self.old.room (S.left src.new) result self.new }
        ensures later { S.faults src.old ≤ S.faults src.new }
        ensures cause { MatchResult result (λ _. S.faults src.new ≡ S.faults src.old)
            (StopCause (S.faults src.old) (S.faults src.new)) }
    {
        let mut passed = false;
        let mut scanned = 0;
        'turns: loop {
            match self.find(scanned) {
                Reach::Line(len) => return Ok(self.hand_line(passed, len)),
                Reach::Beyond => return Err(IoStop::ScriptTooLong),
                Reach::Part => {}
            }
            passed = self.set_aside(passed);
            scanned = self.held_len();
            if !self.take_block(src)? {
                return Ok(self.hand_last(passed));
            }
        }
    }
}
