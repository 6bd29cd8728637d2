//! Equal transactions with memory of their own.
ghost use Rattle.std.specs.Prelude.{◌≡◌, IfOk};

use flow_model::{List, Message, Name, Numbered, Path, Setting, Transaction, Who};
use std::alloc::{AllocError, Global};

/// An equal setting.
fn copy_of_setting(alloc: Global, setting: &Setting) -> Result<Setting, AllocError>
    ensures { IfOk result (λ s. s ≡ setting.now) }
{
    Ok(Setting {
        leaf: setting.leaf,
        value: setting.value.copy(alloc)?,
    })
}

/// Equal settings, in order.
fn copy_of_settings(alloc: Global, settings: &[Setting]) -> Result<List<Setting>, AllocError>
    ensures { IfOk result (λ copied. copied ≡ settings.now) }
{
    let mut copied = List::with_capacity(alloc, settings.len())?;
    for setting in settings {
        copied.push(copy_of_setting(alloc, setting)?)?;
    }
    Ok(copied)
}

/// An equal message.
fn copy_of_message(alloc: Global, message: &Message) -> Result<Message, AllocError>
    ensures { IfOk result (λ m. m ≡ message.now) }
{
    match message {
        Message::Begin(scope) => Ok(Message::Begin(scope.copy(alloc)?)),
        Message::Signal(scope, source, target, truth) => Ok(Message::Signal(
            scope.copy(alloc)?,
            source.copy(alloc)?,
            target.copy(alloc)?,
            *truth,
        )),
        Message::End(scope) => Ok(Message::End(scope.copy(alloc)?)),
    }
}

/// An equal person or agent.
fn copy_of_who(alloc: Global, who: &Who) -> Result<Who, AllocError>
    ensures { IfOk result (λ w. w ≡ who.now) }
{
    match who {
        Who::Person(name) => Ok(Who::Person(name.copy(alloc)?)),
        Who::Agent(take) => Ok(Who::Agent(*take)),
    }
}

/// An equal key.
fn copy_of_key(alloc: Global, key: &Option<Name>) -> Result<Option<Name>, AllocError>
    ensures { IfOk result (λ k. k ≡ key.now) }
{
    match key {
        None => Ok(None),
        Some(key) => Ok(Some(key.copy(alloc)?)),
    }
}

/// Two equal names.
fn copy_of_names(alloc: Global, first: &Name, second: &Name) -> Result<(Name, Name), AllocError>
    ensures { IfOk result (λ copied. (copied.0 ≡ first.now) × (copied.1 ≡ second.now)) }
{
    Ok((first.copy(alloc)?, second.copy(alloc)?))
}

/// An equal item and an equal name.
fn copy_of_item_name(alloc: Global, item: &Path, name: &Name) -> Result<(Path, Name), AllocError>
    ensures { IfOk result (λ copied. (copied.0 ≡ item.now) × (copied.1 ≡ name.now)) }
{
    Ok((item.copy(alloc)?, name.copy(alloc)?))
}

/// An equal item and equal settings.
fn copy_of_item_settings(
    alloc: Global,
    item: &Path,
    settings: &[Setting],
) -> Result<(Path, List<Setting>), AllocError>
    ensures { IfOk result (λ copied. (copied.0 ≡ item.now) × (copied.1 ≡ settings.now)) }
{
    Ok((item.copy(alloc)?, copy_of_settings(alloc, settings)?))
}

/// An equal transaction.
pub(crate) fn copy_of_transaction(alloc: Global, t: &Transaction) -> Result<Transaction, AllocError>
    ensures { IfOk result (λ copied. copied ≡ t.now) }
{
    match t {
        Transaction::Import(text) => Ok(Transaction::Import(text.copy(alloc)?)),
        Transaction::Start(root, process, version, starter, key, settings) => {
            let (process, starter) = copy_of_names(alloc, process, starter)?;
            let key = copy_of_key(alloc, key)?;
            let settings = copy_of_settings(alloc, settings.as_slice())?;
            Ok(Transaction::Start(*root, process, *version, starter, key, settings))
        }
        Transaction::Turn(queue, message) => {
            let message = copy_of_message(alloc, message)?;
            Ok(Transaction::Turn(*queue, message))
        }
        Transaction::Claim(item, who) => {
            let (item, who) = copy_of_item_name(alloc, item, who)?;
            Ok(Transaction::Claim(item, who))
        }
        Transaction::Release(item, who) => {
            let (item, who) = copy_of_item_name(alloc, item, who)?;
            Ok(Transaction::Release(item, who))
        }
        Transaction::Transfer(item, who, to) => {
            let (item, who) = copy_of_item_name(alloc, item, who)?;
            Ok(Transaction::Transfer(item, who, to.copy(alloc)?))
        }
        Transaction::Take(item, take) => Ok(Transaction::Take(item.copy(alloc)?, *take)),
        Transaction::Done(item, who, settings) => {
            let who = copy_of_who(alloc, who)?;
            let (item, settings) = copy_of_item_settings(alloc, item, settings.as_slice())?;
            Ok(Transaction::Done(item, who, settings))
        }
        Transaction::Force(item, settings) => {
            let (item, settings) = copy_of_item_settings(alloc, item, settings.as_slice())?;
            Ok(Transaction::Force(item, settings))
        }
        Transaction::Restart(item) => Ok(Transaction::Restart(item.copy(alloc)?)),
        Transaction::Suspend(root) => Ok(Transaction::Suspend(*root)),
        Transaction::Resume(root) => Ok(Transaction::Resume(*root)),
        Transaction::Terminate(root) => Ok(Transaction::Terminate(*root)),
        Transaction::Delete(root) => Ok(Transaction::Delete(*root)),
        Transaction::Clock(minutes) => Ok(Transaction::Clock(*minutes)),
    }
}

/// An equal transaction with its number.
pub(crate) fn copy_of(alloc: Global, numbered: &Numbered) -> Result<Numbered, AllocError>
    ensures { IfOk result (λ copied. copied ≡ numbered.now) }
{
    Ok(Numbered {
        number: numbered.number,
        transaction: copy_of_transaction(alloc, &numbered.transaction)?,
    })
}
