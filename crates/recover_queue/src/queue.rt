//! One queue.
ghost use Rattle.std.specs.Prelude.{◌≡◌, ◌==◌, [], ◌∷◌, ◌++◌, drop, length, slice_get, OnOk, OnErr};
ghost use Rattle.std.specs.Option.{option_copied};
ghost use Rattle.recover_queue.specs.Queues.{root_of as root_in, count_in};

use flow_model::Message;
use std::alloc::{AllocError, Global};
use std::collections::VecDeque;
use std::marker::Model;

/// Messages in the order in which they were put; contracts see the list of them.
#[derive(Drop)]
pub(crate) struct Queue {
    messages: VecDeque<Message>,
}

impl Model for Queue {
    ghost use Rattle.std.specs.Prelude.{List as Seq};
    ghost use Rattle.flow_model.specs.declared.instances.Message.{Message as Told};

    ghost Value = { Seq Told };

    ghost view = { λ q. q.messages.items };
}

fn root_of(message: &Message) -> u64
    ensures { result ≡ root_in message.now }
{
    match message {
        Message::Begin(scope) => scope.root,
        Message::Signal(scope, _, _, _) => scope.root,
        Message::End(scope) => scope.root,
    }
}

impl Queue {
    /// A queue without a message; it takes no memory yet.
    pub(crate) fn new(alloc: Global) -> Queue
        ensures { result ≡ [] }
    {
        Queue {
            messages: VecDeque::new(alloc),
        }
    }

    /// Puts a message last; without memory the queue stays as it was.
    pub(crate) fn put(&mut self, message: Message) -> Result<(), AllocError>
        ensures ok { OnOk result (self.new ≡ self.old ++ message ∷ []) }
        ensures err { OnErr result (self.new ≡ self.old) }
    {
        self.messages.push_back(message)?;
        Ok(())
    }

    /// The message at a place, counted from 0 at the front.
    pub(crate) fn get(&self, place: usize) -> Option<&Message>
        ensures { option_copied result ≡ slice_get self.now place }
    {
        self.messages.get(place)
    }

    /// Takes the front message.
    pub(crate) fn take(&mut self) -> Option<Message>
        ensures message { result ≡ slice_get self.old 0 }
        ensures rest { self.new ≡ drop 1 self.old }
    {
        self.messages.pop_front()
    }

    /// The number of messages.
    pub(crate) fn len(&self) -> usize
        ensures { result ≡ length self.now }
    {
        self.messages.len()
    }

    /// Whether there is no message.
    pub(crate) fn is_empty(&self) -> bool
        ensures { result ≡ (length self.now == 0) }
    {
        self.messages.is_empty()
    }

    /// The number of messages of a root.
    pub(crate) fn count_of_root(&self, root: u64) -> usize
        ensures { result ≡ count_in root self.now }
    {
        self.messages
            .iter()
            .filter(|message| root_of(message) == root)
            .count()
    }
}
