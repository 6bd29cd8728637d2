//! The text of messages and of audited transactions.
ghost use Rattle.std.specs.Prelude.{◌≡◌, ◌∷◌, [], ◌++◌, OnOk};
ghost use Rattle.std.specs.Fmt.{decimal as digits_of, signed_decimal};
ghost use Rattle.flow_text.specs.Spelling.{name_in_quotes};
ghost use Rattle.audit_trail.specs.Lines.{path_in_quotes, truth_word as word_of, message_text, who_text};
ghost use Rattle.audit_trail.specs.Lines.{is_audited as audited_test, event_text, audit_line};

use flow_model::{Message, Name, Path, Transaction, Who, write_path};
use flow_text::{decimal, quoted_name, signed};
use std::alloc::AllocError;

/// Appends a word and a path in quotes.
fn put_path(out: &mut Vec<u8>, word: &[u8], path: &Path) -> Result<(), AllocError>
    ensures { OnOk result (out.new.items ≡ out.old.items ++ (word.now ++ path_in_quotes path.now)) }
{
    out.extend_from_slice(word)?;
    out.push(b'\'')?;
    write_path(out, path)?;
    out.push(b'\'')?;
    Ok(())
}

/// Appends a word and a name in quotes.
fn put_name(out: &mut Vec<u8>, word: &[u8], name: &Name) -> Result<(), AllocError>
    ensures { OnOk result (out.new.items ≡ out.old.items ++ (word.now ++ name_in_quotes name.now)) }
{
    out.extend_from_slice(word)?;
    quoted_name(out, name.as_slice())
}

/// Appends a word and a number.
fn put_number(out: &mut Vec<u8>, word: &[u8], number: u64) -> Result<(), AllocError>
    ensures { OnOk result (out.new.items ≡ out.old.items ++ (word.now ++ digits_of number)) }
{
    out.extend_from_slice(word)?;
    decimal(out, number)
}

fn put_return_code(out: &mut Vec<u8>, rc: i64) -> Result<(), AllocError>
    ensures { OnOk result (out.new.items ≡ out.old.items ++ (32 ∷ 82 ∷ 67 ∷ 32 ∷ [] ++ signed_decimal rc)) }
{
    out.extend_from_slice(b" RC ")?;
    signed(out, rc)
}

fn truth_word(truth: bool) -> &'static [u8]
    ensures { result.now ≡ word_of truth }
{
    if truth { b"TRUE" } else { b"FALSE" }
}

/// Appends the text of a message, as `SIGNAL '1' 'A' 'B' TRUE`. Without memory `out` may have got a part of it.
pub fn write_message(out: &mut Vec<u8>, message: &Message) -> Result<(), AllocError>
    ensures { OnOk result (out.new.items ≡ out.old.items ++ message_text message.now) }
{
    match message {
        Message::Begin(scope) => put_path(out, b"BEGIN ", scope),
        Message::Signal(scope, source, target, truth) => {
            put_path(out, b"SIGNAL ", scope)?;
            put_name(out, b" ", source)?;
            put_name(out, b" ", target)?;
            out.push(b' ')?;
            out.extend_from_slice(truth_word(*truth))
        }
        Message::End(scope) => put_path(out, b"END ", scope),
    }
}

fn put_who(out: &mut Vec<u8>, who: &Who) -> Result<(), AllocError>
    ensures { OnOk result (out.new.items ≡ out.old.items ++ who_text who.now) }
{
    match who {
        Who::Person(name) => put_name(out, b" BY ", name),
        Who::Agent(take) => put_number(out, b" TAKE ", *take),
    }
}

fn is_audited(t: &Transaction) -> bool
    ensures { result ≡ audited_test t.now }
{
    !matches!(
        t,
        Transaction::Import(_) | Transaction::Delete(_) | Transaction::Clock(_)
    )
}

/// Appends what happened.
fn put_event(out: &mut Vec<u8>, t: &Transaction, rc: i64) -> Result<(), AllocError>
    ensures { OnOk result (out.new.items ≡ out.old.items ++ event_text t.now rc) }
{
    match t {
        Transaction::Start(_, process, version, starter, _, _) => {
            put_name(out, b"START ", process)?;
            put_number(out, b" ", u64::from(*version))?;
            put_name(out, b" BY ", starter)
        }
        Transaction::Turn(queue, message) => {
            put_number(out, b"TURN ", u64::from(*queue))?;
            out.push(b' ')?;
            write_message(out, message)
        }
        Transaction::Claim(item, who) => {
            put_path(out, b"CLAIM ", item)?;
            put_name(out, b" BY ", who)
        }
        Transaction::Release(item, who) => {
            put_path(out, b"RELEASE ", item)?;
            put_name(out, b" BY ", who)
        }
        Transaction::Transfer(item, who, to) => {
            put_path(out, b"TRANSFER ", item)?;
            put_name(out, b" BY ", who)?;
            put_name(out, b" TO ", to)
        }
        Transaction::Take(item, take) => {
            put_path(out, b"TAKE ", item)?;
            put_number(out, b" ", *take)
        }
        Transaction::Done(item, who, _) => {
            put_path(out, b"DONE ", item)?;
            put_who(out, who)?;
            put_return_code(out, rc)
        }
        Transaction::Force(item, _) => {
            put_path(out, b"FORCE ", item)?;
            put_return_code(out, rc)
        }
        Transaction::Restart(item) => put_path(out, b"RESTART ", item),
        Transaction::Suspend(root) => put_number(out, b"SUSPEND ", *root),
        Transaction::Resume(root) => put_number(out, b"RESUME ", *root),
        Transaction::Terminate(root) => put_number(out, b"TERMINATE ", *root),
        Transaction::Import(_) | Transaction::Delete(_) | Transaction::Clock(_) => Ok(()),
    }
}

/// Appends the line of a transaction of a root with its line feed, and nothing for an Import, a Delete or a
/// Clock; `rc` is the return code of the output that a completion gave. Without memory `out` may have got a
/// part of the line.
pub fn audit(number: u64, t: &Transaction, rc: i64, out: &mut Vec<u8>) -> Result<(), AllocError>
    ensures { OnOk result (out.new.items ≡ out.old.items ++ audit_line number t.now rc) }
{
    if !is_audited(t) {
        return Ok(());
    }
    put_number(out, b"", number)?;
    out.push(b' ')?;
    put_event(out, t, rc)?;
    out.push(b'\n')?;
    Ok(())
}
