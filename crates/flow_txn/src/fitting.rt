//! Whether a transaction is in range, so that its record can be read back.
ghost use Rattle.std.specs.Prelude.{◌<◌, ◌^◌, FitsSigned};
ghost use Rattle.std.specs.Int.{w64};
ghost use Rattle.std.specs.Bool.{Decides};
ghost use Rattle.std.specs.List.{All};
ghost use Rattle.flow_txn.specs.Ranges.{IsName, PartFits, PathFits, ItemFits, ValueFits, SettingFits, SettingsFit, KeyFits};
ghost use Rattle.flow_txn.specs.Ranges.{MessageFits, WhoFits, TransactionFits, IsInRange};

use flow_model::{Message, Name, Part, Path, Setting, Transaction, Value, Who, is_name, is_text};

/// An import has no more bytes.
const LONGEST_IMPORT: usize = 1_048_576;

// What a number's type says of it, for the tests below: each has a spelling.

fn is_long(number: i64) -> bool
    ensures { Decides result (FitsSigned w64 number) }
{
    number <= i64::MAX
}

fn has_8_bits(number: u8) -> bool
    ensures { Decides result (number < 2 ^ 8) }
{
    number <= u8::MAX
}

fn has_16_bits(number: u16) -> bool
    ensures { Decides result (number < 2 ^ 16) }
{
    number <= u16::MAX
}

fn has_32_bits(number: u32) -> bool
    ensures { Decides result (number < 2 ^ 32) }
{
    number <= u32::MAX
}

fn has_64_bits(number: u64) -> bool
    ensures { Decides result (number < 2 ^ 64) }
{
    number <= u64::MAX
}

fn name_fits(name: &Name) -> bool
    ensures { Decides result (IsName name.now) }
{
    is_name(name.as_slice())
}

fn part_fits(part: &Part) -> bool
    ensures { Decides result (PartFits part.now) }
{
    name_fits(&part.name) && part.attempt >= 1
}

fn parts_fit(parts: &[Part]) -> bool
    ensures { Decides result (All PartFits parts.now) }
{
    for part in parts {
        if !part_fits(part) {
            return false;
        }
    }
    true
}

fn path_fits(path: &Path) -> bool
    ensures { Decides result (PathFits path.now) }
{
    path.root >= 1 && path.parts.len() < 256 && parts_fit(path.parts.as_slice())
}

fn item_fits(item: &Path) -> bool
    ensures { Decides result (ItemFits item.now) }
{
    path_fits(item) && !item.parts.is_empty()
}

fn value_fits(value: &Value) -> bool
    ensures { Decides result (ValueFits value.now) }
{
    match value {
        Value::Whole(number) => is_long(*number),
        Value::Text(text) => is_text(text.as_slice()),
    }
}

fn setting_fits(setting: &Setting) -> bool
    ensures { Decides result (SettingFits setting.now) }
{
    has_16_bits(setting.leaf) && value_fits(&setting.value)
}

fn each_setting_fits(settings: &[Setting]) -> bool
    ensures { Decides result (All SettingFits settings.now) }
{
    for setting in settings {
        if !setting_fits(setting) {
            return false;
        }
    }
    true
}

fn settings_fit(settings: &[Setting]) -> bool
    ensures { Decides result (SettingsFit settings.now) }
{
    settings.len() < 65536 && each_setting_fits(settings)
}

fn key_fits(key: &Option<Name>) -> bool
    ensures { Decides result (KeyFits key.now) }
{
    match key {
        None => true,
        Some(key) => name_fits(key),
    }
}

fn message_fits(message: &Message) -> bool
    ensures { Decides result (MessageFits message.now) }
{
    match message {
        Message::Begin(scope) => path_fits(scope),
        Message::Signal(scope, source, target, _) => {
            path_fits(scope) && name_fits(source) && name_fits(target)
        }
        Message::End(scope) => path_fits(scope),
    }
}

fn who_fits(who: &Who) -> bool
    ensures { Decides result (WhoFits who.now) }
{
    match who {
        Who::Person(name) => name_fits(name),
        Who::Agent(take) => has_64_bits(*take),
    }
}

/// Whether what belongs to the kind is in range.
fn body_fits(t: &Transaction) -> bool
    ensures { Decides result (TransactionFits t.now) }
{
    match t {
        Transaction::Import(text) => text.as_slice().len() <= LONGEST_IMPORT,
        Transaction::Start(root, process, version, starter, key, settings) => {
            *root >= 1
                && name_fits(process)
                && has_32_bits(*version)
                && name_fits(starter)
                && key_fits(key)
                && settings_fit(settings.as_slice())
        }
        Transaction::Turn(queue, message) => has_8_bits(*queue) && message_fits(message),
        Transaction::Claim(item, who) | Transaction::Release(item, who) => {
            item_fits(item) && name_fits(who)
        }
        Transaction::Transfer(item, who, to) => item_fits(item) && name_fits(who) && name_fits(to),
        Transaction::Take(item, take) => item_fits(item) && has_64_bits(*take),
        Transaction::Done(item, who, settings) => {
            item_fits(item) && who_fits(who) && settings_fit(settings.as_slice())
        }
        Transaction::Force(item, settings) => item_fits(item) && settings_fit(settings.as_slice()),
        Transaction::Restart(item) => item_fits(item),
        Transaction::Suspend(root)
        | Transaction::Resume(root)
        | Transaction::Terminate(root)
        | Transaction::Delete(root) => *root >= 1,
        Transaction::Clock(minutes) => has_64_bits(*minutes),
    }
}

/// Whether a transaction and its number are in range. Then [`crate::decode`] gives both back from the record that
/// [`crate::encode`] writes, and no other transaction in range has that record.
pub fn fits(number: u64, t: &Transaction) -> bool
    ensures { Decides result (IsInRange number t.now) }
{
    number >= 1 && body_fits(t)
}
