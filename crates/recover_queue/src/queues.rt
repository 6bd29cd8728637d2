//! All queues.
ghost use Rattle.std.specs.Prelude.{◌≡◌, ◌-◌, ◌^◌, ◌≤◌, [], ◌∷◌, ◌++◌, drop, length, min, replicate, slice_get, IfOk};
ghost use Rattle.std.specs.Prelude.{OnOk, OnErr};
ghost use Rattle.std.specs.Option.{option_copied};
ghost use Rattle.recover_queue.specs.Queues.{queue, with_queue, is_quiet as quiet_test, count_of_root as root_count};

use crate::queue::Queue;
use flow_model::Message;
use std::alloc::{AllocError, Global};
use std::marker::Model;

/// The queues 1 to their count; contracts see a list of messages for each.
#[derive(Drop)]
pub struct Queues {
    queues: Vec<Queue>,
}

impl Model for Queues {
    ghost use Rattle.std.specs.Prelude.{◌<◌, length, List as Seq};
    ghost use Rattle.flow_model.specs.declared.instances.Message.{Message as Told};

    ghost Value = { Seq (Seq Told) };

    ghost view = { λ q. q.queues.items };

    ghost invariant = { λ q. length q.queues.items < 256 };
}

impl Queues {
    /// So many queues without a message.
    pub fn new(alloc: Global, count: u8) -> Result<Queues, AllocError>
        ensures { IfOk result (λ qs. qs ≡ replicate count []) }
    {
        let mut queues = Vec::new(alloc);
        for _ in 0..count {
            queues.push(Queue::new(alloc))?;
        }
        Ok(Queues { queues })
    }

    /// The number of queues.
    pub fn count(&self) -> u8
        ensures { result ≡ length self.now }
    {
        self.queues.len() as u8
    }

    /// Puts a message at the back of queue `q`; without memory all queues stay as they were.
    pub fn put(&mut self, q: u8, message: Message) -> Result<(), AllocError>
        requires counted { 1 ≤ q }
        requires there { q ≤ length self.old }
        ensures ok { OnOk result (self.new ≡ with_queue self.old q (queue self.old q ++ message ∷ [])) }
        ensures err { OnErr result (self.new ≡ self.old) }
    {
        self.queues[q as usize - 1].put(message)
    }

    /// The message at a place of queue `q`, counted from 0 at the front; none exactly where it has no more.
    pub fn get(&self, q: u8, place: usize) -> Option<&Message>
        requires counted { 1 ≤ q }
        requires there { q ≤ length self.now }
        ensures { option_copied result ≡ slice_get (queue self.now q) place }
    {
        self.queues[q as usize - 1].get(place)
    }

    /// The front message of queue `q`; none exactly where it is empty.
    pub fn front(&self, q: u8) -> Option<&Message>
        requires counted { 1 ≤ q }
        requires there { q ≤ length self.now }
        ensures { option_copied result ≡ slice_get (queue self.now q) 0 }
    {
        self.get(q, 0)
    }

    /// Takes the front message of queue `q`; none exactly where it is empty.
    pub fn take(&mut self, q: u8) -> Option<Message>
        requires counted { 1 ≤ q }
        requires there { q ≤ length self.old }
        ensures message { result ≡ slice_get (queue self.old q) 0 }
        ensures rest { self.new ≡ with_queue self.old q (drop 1 (queue self.old q)) }
    {
        self.queues[q as usize - 1].take()
    }

    /// The number of messages of queue `q`.
    pub fn len(&self, q: u8) -> u64
        requires counted { 1 ≤ q }
        requires there { q ≤ length self.now }
        ensures { result ≡ length (queue self.now q) }
    {
        self.queues[q as usize - 1].len() as u64
    }

    /// Whether no queue has a message.
    pub fn is_quiet(&self) -> bool
        ensures { result ≡ quiet_test self.now }
    {
        self.queues.iter().all(|queue| queue.is_empty())
    }

    /// The number of messages of a root in all queues, at most the greatest number.
    pub fn count_of_root(&self, root: u64) -> u64
        ensures { result ≡ min (root_count root self.now) (2 ^ 64 - 1) }
    {
        let mut count = 0u64;
        for queue in &self.queues {
            count = count.saturating_add(queue.count_of_root(root) as u64);
        }
        count
    }
}
