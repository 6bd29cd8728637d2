//! Engine state: the result of applying all transactions so far.
ghost use Rattle.std.specs.Prelude.{◌≡◌, ◌+◌, ◌-◌, ◌^◌, ◌<◌, ◌↔◌, ◌≤◌, min, length, [], IfOk, IsTrue, option_copied};
ghost use Rattle.flow_core.specs.Allowing.{IsBlank};
ghost use Rattle.flow_core.specs.Summaries.{summary};
ghost use Rattle.flow_core.specs.Answers.{instance_of, done_roots, has_message as message_test};
ghost use Rattle.recover_queue.specs.Queues.{is_quiet as quiet_test};
ghost use Rattle.flow_core.specs.Driving.{graph_now};

use flow_model::{Graph, Library, Mode, Name};
use indexmap::IndexMap;
use live_history::History;
use navigator::Instance;
use number_map::NumberMap;
use recover_queue::Queues;
use staff_worklists::Worklists;
use std::alloc::{AllocError, Global};
use template_store::TemplateStore;

/// A live root with its key, if it has one.
#[derive(Drop)]
pub struct Root {
    pub instance: Instance,
    pub key: Option<Name>,
}

/// The state after the transactions so far.
#[derive(Drop)]
pub struct Core {
    pub(crate) alloc: Global,
    pub(crate) limit: u64,
    /// The number of transactions so far.
    pub(crate) number: u64,
    /// The number of roots so far.
    pub(crate) roots: u64,
    pub(crate) clock: u64,
    pub(crate) queues: Queues,
    pub(crate) store: TemplateStore,
    pub(crate) live_roots: NumberMap<Root>,
    pub(crate) keys: IndexMap<Vec<u8>, u64>,
    pub(crate) worklists: Worklists,
    pub(crate) live: History,
    /// The transactions that were so far when the state was resumed: records up to there are kept ones.
    pub(crate) kept: u64,
    /// The number of the last kept record that was adopted.
    pub(crate) kept_number: u64,
    /// The root of the last kept Start that was adopted.
    pub(crate) kept_root: u64,
}

impl Core {
    /// A state with these counts so far and no live transaction.
    pub fn resume(
        alloc: Global,
        queues: u8,
        limit: u64,
        transactions: u64,
        roots: u64,
    ) -> Result<Core, AllocError>
        ensures begins { IfOk result (λ core. summary core ≡ record {
          queues = queues;
          limit = limit;
          transactions = transactions;
          roots = roots;
          live = [];
        }) }
        ensures kept { IfOk result (λ core. core.kept ≡ transactions) }
        ensures none_taken { IfOk result (λ core. (core.kept_number ≡ 0) × (core.kept_root ≡ 0)) }
        ensures blank { IfOk result IsBlank }
    {
        Ok(Core {
            alloc,
            limit,
            number: transactions,
            roots,
            clock: 0,
            queues: Queues::new(alloc, queues)?,
            store: TemplateStore::new(alloc),
            live_roots: NumberMap::new(alloc),
            keys: IndexMap::new(alloc),
            worklists: Worklists::new(alloc),
            live: History::new(alloc),
            kept: transactions,
            kept_number: 0,
            kept_root: 0,
        })
    }

    /// The state before any transaction.
    pub fn new(alloc: Global, queues: u8, limit: u64) -> Result<Core, AllocError>
        ensures begins { IfOk result (λ core. summary core ≡ record {
          queues = queues;
          limit = limit;
          transactions = 0;
          roots = 0;
          live = [];
        }) }
        ensures kept { IfOk result (λ core. core.kept ≡ 0) }
        ensures blank { IfOk result IsBlank }
    {
        Core::resume(alloc, queues, limit, 0, 0)
    }

    /// The number of transactions so far.
    pub fn number(&self) -> u64
        ensures { result ≡ self.now.number }
    {
        self.number
    }

    /// The number of the next transaction, where there is room for one.
    pub fn next_number(&self) -> u64
        requires { self.now.number < self.now.limit }
        ensures { result ≡ self.now.number + 1 }
    {
        self.number + 1
    }

    /// The number of roots so far.
    pub fn roots(&self) -> u64
        ensures { result ≡ self.now.roots }
    {
        self.roots
    }

    /// The greatest number of transactions.
    pub fn limit(&self) -> u64
        ensures { result ≡ self.now.limit }
    {
        self.limit
    }

    /// The number of queues.
    pub fn queue_count(&self) -> u8
        ensures { result ≡ length self.now.queues }
    {
        self.queues.count()
    }

    /// The live transactions.
    pub fn live(&self) -> &History
        ensures { result.now ≡ self.now.live }
    {
        &self.live
    }

    /// Whether all queues are empty.
    pub fn is_quiet(&self) -> bool
        ensures { result ≡ quiet_test self.now.queues }
    {
        self.queues.is_quiet()
    }

    /// Whether the number of transactions is the limit.
    pub fn is_full(&self) -> bool
        ensures { IsTrue result ↔ (self.now.limit ≤ self.now.number) }
    {
        self.number >= self.limit
    }

    /// The library of the imports so far.
    pub fn library(&self) -> &Library
        ensures { result.now ≡ self.now.store }
    {
        self.store.library()
    }

    /// The instance of a live root.
    pub(crate) fn instance(&self, root: u64) -> Option<&Instance>
        ensures { option_copied result ≡ instance_of self.now root }
    {
        match self.live_roots.get(root) {
            None => None,
            Some(found) => Some(&found.instance),
        }
    }

    /// The graph of a live root.
    pub(crate) fn root_graph(&self, root: u64) -> Option<&Graph>
        ensures { option_copied result ≡ graph_now self.now root }
    {
        self.instance(root)?.graph(self.library())
    }

    /// Whether the queue of this number has a message; false where there is none of that number.
    pub fn has_message(&self, queue: u8) -> bool
        ensures { result ≡ message_test self.now queue }
    {
        1 <= queue && queue <= self.queues.count() && self.queues.front(queue).is_some()
    }

    /// The number of live roots that are done.
    pub fn done_count(&self) -> u64
        ensures { result ≡ min (done_roots self.now) (2 ^ 64 - 1) }
    {
        let mut count = 0u64;
        for (_number, root) in self.live_roots.iter() {
            if root.instance.mode() == Mode::Done {
                count = count.saturating_add(1);
            }
        }
        count
    }
}
