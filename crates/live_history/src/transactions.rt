//! Which root a message or a transaction names.
ghost use Rattle.std.specs.Prelude.{◌≡◌};
ghost use Rattle.recover_queue.specs.Queues.{root_of as root_of_message};
ghost use Rattle.live_history.specs.Transactions.{root_about, is_root, started, deleted};

use flow_model::{Message, Numbered, Transaction};

/// The root of a message.
pub fn root_of(message: &Message) -> u64
    ensures { result ≡ root_of_message message.now }
{
    match message {
        Message::Begin(scope) => scope.root,
        Message::Signal(scope, _, _, _) => scope.root,
        Message::End(scope) => scope.root,
    }
}

/// The root that a transaction names.
pub fn transaction_root(t: &Transaction) -> Option<u64>
    ensures { result ≡ root_about t.now }
{
    match t {
        Transaction::Import(_) => None,
        Transaction::Clock(_) => None,
        Transaction::Start(root, _, _, _, _, _) => Some(*root),
        Transaction::Turn(_, message) => Some(root_of(message)),
        Transaction::Claim(path, _) => Some(path.root),
        Transaction::Release(path, _) => Some(path.root),
        Transaction::Transfer(path, _, _) => Some(path.root),
        Transaction::Take(path, _) => Some(path.root),
        Transaction::Done(path, _, _) => Some(path.root),
        Transaction::Force(path, _) => Some(path.root),
        Transaction::Restart(path) => Some(path.root),
        Transaction::Suspend(root) => Some(*root),
        Transaction::Resume(root) => Some(*root),
        Transaction::Terminate(root) => Some(*root),
        Transaction::Delete(root) => Some(*root),
    }
}

/// The root that a transaction starts.
pub fn started_root(t: &Transaction) -> Option<u64>
    ensures { result ≡ started t.now }
{
    match t {
        Transaction::Import(_) => None,
        Transaction::Start(root, _, _, _, _, _) => Some(*root),
        Transaction::Turn(_, _) => None,
        Transaction::Claim(_, _) => None,
        Transaction::Release(_, _) => None,
        Transaction::Transfer(_, _, _) => None,
        Transaction::Take(_, _) => None,
        Transaction::Done(_, _, _) => None,
        Transaction::Force(_, _) => None,
        Transaction::Restart(_) => None,
        Transaction::Suspend(_) => None,
        Transaction::Resume(_) => None,
        Transaction::Terminate(_) => None,
        Transaction::Delete(_) => None,
        Transaction::Clock(_) => None,
    }
}

/// The root that a transaction deletes.
pub fn deleted_root(t: &Transaction) -> Option<u64>
    ensures { result ≡ deleted t.now }
{
    match t {
        Transaction::Import(_) => None,
        Transaction::Start(_, _, _, _, _, _) => None,
        Transaction::Turn(_, _) => None,
        Transaction::Claim(_, _) => None,
        Transaction::Release(_, _) => None,
        Transaction::Transfer(_, _, _) => None,
        Transaction::Take(_, _) => None,
        Transaction::Done(_, _, _) => None,
        Transaction::Force(_, _) => None,
        Transaction::Restart(_) => None,
        Transaction::Suspend(_) => None,
        Transaction::Resume(_) => None,
        Transaction::Terminate(_) => None,
        Transaction::Delete(root) => Some(*root),
        Transaction::Clock(_) => None,
    }
}

/// Whether a transaction is about a root.
pub fn is_about(root: u64, numbered: &Numbered) -> bool
    ensures { result ≡ is_root root (root_about numbered.now.transaction) }
{
    match transaction_root(&numbered.transaction) {
        Some(other) => other == root,
        None => false,
    }
}
