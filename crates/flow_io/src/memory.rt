//! A source and a sink in memory, which tell everything and fail at the calls that are listed.
ghost use Rattle.std.specs.Prelude.{◌≡◌, ◌<◌, ◌≤◌, ◌-◌, [], ◌++◌, ◌↔◌, length, take, drop, min, IfOk, OnOk, OnErr};
ghost use Rattle.std.specs.Prelude.{IsTrue, Some};
ghost use Rattle.std.specs.Io.KnownBytes.{ReadConsumes, WriteAppends};
ghost use Rattle.flow_io.specs.Causes.{HasCause, one_more};
ghost use Rattle.flow_io.specs.Memory.{fresh, IsNextListed, one_served, GivesFront, Supplies, Collects};

use crate::outside::{Failed, Sink, Source};
use std::alloc::{AllocError, Global};
use std::marker::Model;

/// The calls so far, counted from 1, and those that are to fail. A count stays at `u64::MAX`.
#[derive(Drop)]
struct Calls {
    failing: Vec<u64>,
    made: u64,
    failed: u64,
}

impl Model for Calls {
    ghost use Rattle.flow_io.specs.Memory.{Tally};

    ghost Value = { Tally };

    ghost view = { λ c. record { failing = c.failing.items; made = c.made; failed = c.failed } };
}

impl Calls {
    fn new(alloc: Global, failing: &[u64]) -> Result<Calls, AllocError>
        ensures { IfOk result (λ calls. calls ≡ fresh failing.now) }
    {
        Ok(Calls {
            failing: Vec::from_slice(alloc, failing)?,
            made: 0,
            failed: 0,
        })
    }

    /// Counts one more call, and answers whether it is to fail.
    fn begin(&mut self) -> bool
        ensures counted { self.new ≡ one_served self.old }
        ensures listed { IsTrue result ↔ IsNextListed self.old }
    {
        self.made = self.made.saturating_add(1);
        self.failing.contains(&self.made)
    }

    /// Counts the call as failed.
    fn fail(&mut self) -> Failed
        ensures counted { self.new ≡ record self.old { failed = one_more self.old.failed } }
        ensures later { self.old.failed ≤ self.new.failed }
    {
        self.failed = self.failed.saturating_add(1);
        Failed
    }
}

/// A source that gives these bytes and fails exactly at the listed calls, counted from 1.
#[derive(Drop)]
pub struct MemSource {
    bytes: Vec<u8>,
    at: usize,
    calls: Calls,
}

impl Model for MemSource {
    ghost use Rattle.std.specs.Prelude.{◌≤◌, drop, vec_len};
    ghost use Rattle.flow_io.specs.Memory.{Supply};

    ghost Value = { Supply };

    ghost view = { λ m. record { left = drop m.at m.bytes.items; calls = m.calls } };

    ghost invariant = { λ m. m.at ≤ vec_len m.bytes };
}

impl MemSource {
    /// A source of these bytes, which fails at the calls that `failing` lists.
    pub fn new(alloc: Global, bytes: &[u8], failing: &[u64]) -> Result<MemSource, AllocError>
        ensures { IfOk result (λ source. source ≡ record { left = bytes.now; calls = fresh failing.now }) }
    {
        Ok(MemSource {
            bytes: Vec::from_slice(alloc, bytes)?,
            at: 0,
            calls: Calls::new(alloc, failing)?,
        })
    }

    /// Counts one more call, and answers whether it is to fail.
    fn begin(&mut self) -> bool
        ensures counted { self.new ≡ record self.old { calls = one_served self.old.calls } }
        ensures listed { IsTrue result ↔ IsNextListed self.old.calls }
    {
        self.calls.begin()
    }

    /// Counts the call as failed.
    fn fail(&mut self) -> Failed
        ensures counted { self.new ≡ record self.old {
          calls =
              record self.old.calls { failed = one_more self.old.calls.failed };
        } }
        ensures later { self.old.calls.failed ≤ self.new.calls.failed }
    {
        self.calls.fail()
    }

    /// Gives as many bytes as there are and as `buf` holds.
    fn give(&mut self, buf: &mut [u8]) -> usize
        ensures { GivesFront self.old self.new buf.new result }
    {
        let count = buf.len().min(self.bytes.len() - self.at);
        buf[..count].copy_from_slice(&self.bytes[self.at..self.at + count]);
        self.at += count;
        count
    }
}

impl Source for MemSource {
    ghost left = { λ m. Some m.left };

    ghost faults = { λ m. m.calls.failed };

    fn take(&mut self, buf: &mut [u8]) -> Result<usize, Failed>
        requires { 0 < length buf.old }
        ensures bound { IfOk result (λ n. n ≤ length buf.new) }
        ensures bytes { ReadConsumes (Some self.old.left) (Some self.new.left) result buf.new }
        ensures cause { HasCause self.old.calls.failed self.new.calls.failed result }
        // It fails exactly where it is listed, and each call that fails is counted.
        ensures supplies { Supplies self.old self.new (length buf.new) result }
    {
        if self.begin() {
            return Err(self.fail());
        }
        Ok(self.give(buf))
    }
}

/// A sink that keeps its bytes. It fails exactly at the listed calls, counted from 1, and where
/// it finds no memory, which `starved` tells.
#[derive(Drop)]
pub struct MemSink {
    bytes: Vec<u8>,
    calls: Calls,
    starved: u64,
}

impl Model for MemSink {
    ghost use Rattle.flow_io.specs.Memory.{Collection};

    ghost Value = { Collection };

    ghost view = { λ m. record { held = m.bytes.items; calls = m.calls; starved = m.starved } };
}

impl MemSink {
    /// An empty sink, which fails at the calls that `failing` lists.
    pub fn new(alloc: Global, failing: &[u64]) -> Result<MemSink, AllocError>
        ensures { IfOk result (λ sink. sink ≡ record { held = []; calls = fresh failing.now; starved = 0 }) }
    {
        Ok(MemSink {
            bytes: Vec::new(alloc),
            calls: Calls::new(alloc, failing)?,
            starved: 0,
        })
    }

    /// The bytes that were put.
    pub fn held(&self) -> &[u8]
        ensures { result.now ≡ self.now.held }
    {
        &self.bytes
    }

    /// How many calls failed for want of memory.
    pub fn starved(&self) -> u64
        ensures { result ≡ self.now.starved }
    {
        self.starved
    }

    /// Counts one more call, and answers whether it is to fail.
    fn begin(&mut self) -> bool
        ensures counted { self.new ≡ record self.old { calls = one_served self.old.calls } }
        ensures listed { IsTrue result ↔ IsNextListed self.old.calls }
    {
        self.calls.begin()
    }

    /// Counts the call as failed.
    fn fail(&mut self) -> Failed
        ensures counted { self.new ≡ record self.old {
          calls =
              record self.old.calls { failed = one_more self.old.calls.failed };
        } }
        ensures later { self.old.calls.failed ≤ self.new.calls.failed }
    {
        self.calls.fail()
    }

    /// Counts the call as failed for want of memory.
    fn starve(&mut self) -> Failed
        ensures counted { self.new ≡ record self.old {
          calls =
              record self.old.calls { failed = one_more self.old.calls.failed };
          starved = one_more self.old.starved;
        } }
        ensures later { self.old.calls.failed ≤ self.new.calls.failed }
    {
        self.starved = self.starved.saturating_add(1);
        self.calls.fail()
    }

    /// Keeps the piece, or stays as it was where there is no memory.
    fn keep(&mut self, piece: &[u8]) -> Result<(), AllocError>
        ensures ok { OnOk result (self.new ≡ record self.old { held = self.old.held ++ piece.now }) }
        ensures err { OnErr result (self.new ≡ self.old) }
    {
        self.bytes.extend_from_slice(piece)
    }
}

impl Sink for MemSink {
    ghost held = { λ m. Some m.held };

    ghost faults = { λ m. m.calls.failed };

    fn put(&mut self, piece: &[u8]) -> Result<usize, Failed>
        requires { 0 < length piece.now }
        ensures bound { IfOk result (λ n. n ≤ length piece.now) }
        ensures moves { IfOk result (λ n. 0 < n) }
        ensures bytes { WriteAppends (Some self.old.held) (Some self.new.held) result piece.now }
        ensures cause { HasCause self.old.calls.failed self.new.calls.failed result }
        // It fails exactly where it is listed or has starved, and each call that fails is counted.
        ensures collects { Collects self.old self.new piece.now result }
    {
        if self.begin() {
            return Err(self.fail());
        }
        match self.keep(piece) {
            Ok(()) => Ok(piece.len()),
            Err(AllocError) => Err(self.starve()),
        }
    }
}
