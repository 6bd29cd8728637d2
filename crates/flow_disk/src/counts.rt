//! The calls of a disk in memory: which of them fail, and how many did.
ghost use Rattle.std.specs.Prelude.{◌≡◌, ◌≤◌, ◌↔◌, IfOk, IsTrue};
ghost use Rattle.flow_disk.specs.Calls.{IsToFail, Serves, one_starved, untouched};
ghost use Rattle.flow_disk.specs.Causes.{HasCause};

use crate::disk::Failed;
use std::alloc::{AllocError, Global};
use std::marker::Model;

/// A count of calls from 1, those that are to fail, and the counts of those that did. A count
/// stays at `u64::MAX`.
#[derive(Drop)]
pub struct Counts {
    failing: Vec<u64>,
    stop: Option<u64>,
    made: u64,
    failed: u64,
    starved: u64,
}

impl Model for Counts {
    ghost use Rattle.flow_disk.specs.Calls.{Tally};

    ghost Value = { Tally };

    ghost view = { λ c. record { failing = c.failing.items; stop = c.stop; made = c.made; failed = c.failed; starved = c.starved } };
}

impl Counts {
    pub fn new(alloc: Global, failing: &[u64], stop: Option<u64>) -> Result<Counts, AllocError>
        ensures { IfOk result (λ counts. counts ≡ untouched failing.now stop) }
    {
        Ok(Counts {
            failing: Vec::from_slice(alloc, failing)?,
            stop,
            made: 0,
            failed: 0,
            starved: 0,
        })
    }

    pub fn made(&self) -> u64
        ensures { result ≡ self.now.made }
    {
        self.made
    }

    pub fn starved(&self) -> u64
        ensures { result ≡ self.now.starved }
    {
        self.starved
    }

    fn is_to_fail(&self) -> bool
        ensures { IsTrue result ↔ IsToFail self.now.failing self.now.stop self.now.made }
    {
        let listed = self.failing.contains(&self.made);
        match self.stop {
            Some(from) => listed || self.made >= from,
            None => listed,
        }
    }

    /// Counts one more call, and fails where it is to fail.
    pub fn begin(&mut self) -> Result<(), Failed>
        ensures serves { Serves self.old self.new result }
        ensures cause { HasCause self.old.failed self.new.failed result }
    {
        self.made = self.made.saturating_add(1);
        if self.is_to_fail() {
            self.failed = self.failed.saturating_add(1);
            return Err(Failed);
        }
        Ok(())
    }

    /// Counts the call as failed for want of memory.
    pub fn starve(&mut self) -> Failed
        ensures counted { self.new ≡ one_starved self.old }
        ensures later { self.old.failed ≤ self.new.failed }
    {
        self.failed = self.failed.saturating_add(1);
        self.starved = self.starved.saturating_add(1);
        Failed
    }
}
