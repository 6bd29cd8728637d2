//! A source read in blocks.
ghost use Rattle.std.specs.Prelude.{◌≡◌, ◌≤◌, ◌<◌, ◌+◌, ◌-◌, ◌++◌, ℕ, [], min, take, drop, length, vec_len, IsTrue};
ghost use Rattle.std.specs.Prelude.{IfOk, IfSome, OnOk, OnErr, IfErr, MatchResult};
ghost use Rattle.standby.specs.Endings.{FollowEnd};
ghost use Rattle.standby.specs.Frames.{HoldsFrame};
ghost use Rattle.standby.specs.Readers.{HoldsBlock, ahead};
ghost use Rattle.standby.specs.Reading.{Looks, ReadsSome, Reads};
ghost use Rattle.standby.specs.declared.stops.FollowStop.TheVariants as stop;

use crate::frames::framed;
use crate::stops::FollowStop;
use flow_io::Source;
use std::alloc::{AllocError, Global};
use std::marker::Model;

/// How many bytes are asked for at once.
const BLOCK: usize = 65536;

/// The greatest number of bytes in a stream.
const MOST_BYTES: u64 = 268_435_456;

/// A reader that holds at most one block.
#[derive(Drop)]
pub struct Blocks {
    block: Vec<u8>,
    from: usize,
    to: usize,
    /// How many bytes were handed out.
    place: u64,
}

impl Model for Blocks {
    ghost use Rattle.std.specs.Prelude.{slice_range, vec_len};
    ghost use Rattle.standby.specs.Readers.{Reader, IsLaidOut};

    ghost Value = { Reader };

    ghost view = { λ a. record { held = slice_range a.block.items a.from a.to; place = a.place } };

    ghost invariant = { λ a. IsLaidOut (vec_len a.block) a.from a.to a.place };
}

impl Blocks {
    /// A reader that holds nothing yet.
    pub fn new(alloc: Global) -> Result<Blocks, AllocError>
        ensures { IfOk result (λ blocks. blocks ≡ record { held = []; place = 0 }) }
    {
        let block = vec![in alloc; 0; BLOCK]?;
        Ok(Blocks {
            block,
            from: 0,
            to: 0,
            place: 0,
        })
    }

    /// How many bytes were handed out.
    pub fn place(&self) -> u64
        ensures at { result ≡ self.now.place }
        ensures within { self.now.place ≤ 268435456 }
        ensures block { HoldsBlock self.now }
    {
        self.place
    }

    /// How many bytes are held.
    fn held_len(&self) -> usize
        ensures is { result ≡ length self.now.held }
        ensures block { HoldsBlock self.now }
    {
        self.to - self.from
    }

    /// The payload of the next frame, where the whole frame is held and a stream may have it.
    pub fn held_frame(&self) -> Option<&[u8]>
        ensures { IfSome result (λ payload. HoldsFrame self.now payload.now) }
    {
        let room = usize::try_from(MOST_BYTES.saturating_sub(self.place)).unwrap_or(usize::MAX);
        let count = (self.to - self.from).min(room);
        framed(&self.block[self.from..self.from + count])
    }

    /// Hands out the first `count` held bytes.
    pub fn skip(&mut self, count: usize)
        requires held { count ≤ length self.old.held }
        requires within { count ≤ 268435456 - self.old.place }
        ensures { self.new ≡ record { held = drop count self.old.held; place = self.old.place + count } }
    {
        self.from += count;
        self.place += count as u64;
    }

    /// Takes the next block where none is held.
    fn take_block<S: Source>(&mut self, src: &mut S) -> Result<bool, FollowStop>
        requires { self.old.held ≡ [] }
        ensures cause { MatchResult result (λ _. S.faults src.new ≡ S.faults src.old)
            (λ stop. (disk : ℕ) → FollowEnd (S.faults src.old) (S.faults src.new) disk disk stop) }
        ensures looks { Looks (ahead self.old (S.left src.old)) (ahead self.new (S.left src.new)) result }
        ensures held { IfOk result (λ more. IsTrue more → 0 < length self.new.held) }
        ensures dry { OnErr result (self.new.held ≡ []) }
        ensures block { HoldsBlock self.new }
        ensures place { self.new.place ≡ self.old.place }
    {
        self.from = 0;
        self.to = 0;
        match src.take(&mut self.block) {
            Ok(count) => {
                self.to = count;
                Ok(count > 0)
            }
            Err(_) => Err(FollowStop::ReadFault),
        }
    }

    /// Whether there is a byte more; takes the next block where none is held.
    pub fn has_more<S: Source>(&mut self, src: &mut S) -> Result<bool, FollowStop>
        ensures cause { MatchResult result (λ _. S.faults src.new ≡ S.faults src.old)
            (λ stop. (disk : ℕ) → FollowEnd (S.faults src.old) (S.faults src.new) disk disk stop) }
        ensures looks { Looks (ahead self.old (S.left src.old)) (ahead self.new (S.left src.new)) result }
        ensures held { IfOk result (λ more. IsTrue more → 0 < length self.new.held) }
        ensures dry { OnErr result (self.new.held ≡ []) }
        ensures block { HoldsBlock self.new }
        ensures place { self.new.place ≡ self.old.place }
    {
        if self.held_len() > 0 {
            return Ok(true);
        }
        self.take_block(src)
    }

    /// Appends at most `most` held bytes, within the limit; answers how many.
    fn hand_out(&mut self, most: usize, out: &mut Vec<u8>) -> Result<usize, AllocError>
        ensures count { IfOk result (λ n. n ≡ min most (min (length self.old.held) (268435456 - self.old.place))) }
        ensures given { IfOk result (λ n. out.new.items ≡ out.old.items ++ take n self.old.held) }
        ensures after { IfOk result
            (λ n. self.new ≡ record { held = drop n self.old.held; place = self.old.place + n }) }
        ensures none { OnErr result (self.new ≡ self.old) }
        ensures same { OnErr result (out.new.items ≡ out.old.items) }
    {
        let room = usize::try_from(MOST_BYTES.saturating_sub(self.place)).unwrap_or(usize::MAX);
        let count = most.min(self.to - self.from).min(room);
        out.extend_from_slice(&self.block[self.from..self.from + count])?;
        self.from += count;
        self.place += count as u64;
        Ok(count)
    }

    /// Appends at most `most` of the next bytes; answers how many, which is 0 only at the end of the source.
    /// `TooLong` comes where a byte behind the limit is asked for and is there.
    fn read_some<S: Source>(
        &mut self,
        src: &mut S,
        most: usize,
        out: &mut Vec<u8>,
    ) -> Result<usize, FollowStop>
        requires { 0 < most }
        ensures cause { MatchResult result (λ _. S.faults src.new ≡ S.faults src.old)
            (λ stop. (disk : ℕ) → FollowEnd (S.faults src.old) (S.faults src.new) disk disk stop) }
        ensures reads { ReadsSome most self.old.place (ahead self.old (S.left src.old))
            (ahead self.new (S.left src.new)) out.old.items out.new.items result }
        ensures dry { IfErr result (λ e. e ≡ stop.ReadFault → self.new.held ≡ []) }
        ensures block { HoldsBlock self.new }
        ensures place { IfOk result (λ n. self.new.place ≡ self.old.place + n) }
    {
        if !self.has_more(src)? {
            return Ok(0);
        }
        if self.place >= MOST_BYTES {
            return Err(FollowStop::TooLong);
        }
        Ok(self.hand_out(most, out)?)
    }

    /// Replaces what the vector holds by the next `count` bytes; answers whether the source has that many.
    pub fn read<S: Source>(
        &mut self,
        src: &mut S,
        count: usize,
        out: &mut Vec<u8>,
    ) -> Result<bool, FollowStop>
        ensures cause { MatchResult result (λ _. S.faults src.new ≡ S.faults src.old)
            (λ stop. (disk : ℕ) → FollowEnd (S.faults src.old) (S.faults src.new) disk disk stop) }
        ensures reads { Reads count self.old.place (ahead self.old (S.left src.old))
            (ahead self.new (S.left src.new)) out.new.items result }
        ensures dry { IfErr result (λ e. e ≡ stop.ReadFault → self.new.held ≡ []) }
        ensures block { HoldsBlock self.old → HoldsBlock self.new }
        ensures place { OnOk result (self.new.place ≡ self.old.place + length out.new.items) }
    {
        out.clear();
        let mut missing = count;
        'parts: while missing > 0 {
            let more = self.read_some(src, missing, out)?;
            if more == 0 {
                return Ok(false);
            }
            missing -= more;
        }
        Ok(true)
    }
}
