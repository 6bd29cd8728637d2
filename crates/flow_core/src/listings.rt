//! Replies that list what is kept: a queue, a root's audited transactions, the templates, a worklist.
ghost use Rattle.std.specs.Prelude.{◌≡◌, ◌≤◌, ◌++◌, length, OnOk};
ghost use Rattle.std.specs.List.{flat_map};
ghost use Rattle.recover_queue.specs.Queues.{queue as messages_of};
ghost use Rattle.flow_core.specs.Answers.{view_text, message_line, queue_text, template_line, templates_text};
ghost use Rattle.flow_core.specs.Answers.{work_line, worklist_text, code_by as code_with, return_code as code_given};
ghost use Rattle.flow_core.specs.Answers.{code_of as code_in, numbered_line, audited_text};
ghost use Rattle.flow_core.specs.Containing.{output_text, input_text};

use crate::words::{end_line, numbered};
use audit_trail::{audit, write_message};
use flow_model::{
    Container, FateRow, Leaves, Message, Mode, Name, Numbered, Path, Setting, Template,
    Transaction, Value, WorkLine,
};
use flow_text::quoted_name;
use recover_queue::Queues;
use reply_text::{write_container, write_mode, write_quoted_path, write_row};
use std::alloc::AllocError;

/// Appends the reply that shows the view of a root.
pub fn write_view(
    out: &mut Vec<u8>,
    root: u64,
    mode: Mode,
    rows: &[FateRow],
) -> Result<(), AllocError>
    ensures { OnOk result (out.new.items ≡ out.old.items ++ view_text root mode rows.now) }
{
    numbered(out, b"ok SHOW ", root)?;
    out.push(b' ')?;
    write_mode(out, mode)?;
    numbered(out, b" ", rows.len() as u64)?;
    end_line(out)?;
    for row in rows {
        write_row(out, row)?;
    }
    Ok(())
}

fn put_message(out: &mut Vec<u8>, message: &Message) -> Result<(), AllocError>
    ensures { OnOk result (out.new.items ≡ out.old.items ++ message_line message.now) }
{
    write_message(out, message)?;
    end_line(out)
}

fn put_messages(out: &mut Vec<u8>, queues: &Queues, queue: u8) -> Result<(), AllocError>
    requires counted { 1 ≤ queue }
    requires there { queue ≤ length queues.now }
    ensures { OnOk result (out.new.items ≡ out.old.items ++ flat_map message_line (messages_of queues.now queue)) }
{
    for place in 0..queues.len(queue) {
        let Some(message) = queues.get(queue, place as usize) else {
            return Ok(());
        };
        put_message(out, message)?;
    }
    Ok(())
}

/// Appends the reply that shows a queue.
pub fn write_queue(out: &mut Vec<u8>, queues: &Queues, queue: u8) -> Result<(), AllocError>
    requires counted { 1 ≤ queue }
    requires there { queue ≤ length queues.now }
    ensures { OnOk result (out.new.items ≡ out.old.items ++ queue_text queue (messages_of queues.now queue)) }
{
    numbered(out, b"ok QUEUE ", u64::from(queue))?;
    numbered(out, b" ", queues.len(queue))?;
    end_line(out)?;
    put_messages(out, queues, queue)
}

fn put_template(out: &mut Vec<u8>, template: &Template) -> Result<(), AllocError>
    ensures { OnOk result (out.new.items ≡ out.old.items ++ template_line template.now) }
{
    quoted_name(out, template.name.as_slice())?;
    numbered(out, b" ", u64::from(template.version))?;
    end_line(out)
}

/// Appends the reply that shows the templates.
pub fn write_templates(out: &mut Vec<u8>, templates: &[Template]) -> Result<(), AllocError>
    ensures { OnOk result (out.new.items ≡ out.old.items ++ templates_text templates.now) }
{
    numbered(out, b"ok TEMPLATES ", templates.len() as u64)?;
    end_line(out)?;
    for template in templates {
        put_template(out, template)?;
    }
    Ok(())
}

fn put_work_line(out: &mut Vec<u8>, line: &WorkLine) -> Result<(), AllocError>
    ensures { OnOk result (out.new.items ≡ out.old.items ++ work_line line.now) }
{
    write_quoted_path(out, &line.item)?;
    if line.held {
        out.extend_from_slice(b" HELD\n")
    } else {
        out.extend_from_slice(b" READY\n")
    }
}

fn put_work_lines(out: &mut Vec<u8>, lines: &[WorkLine]) -> Result<(), AllocError>
    ensures { OnOk result (out.new.items ≡ out.old.items ++ flat_map work_line lines.now) }
{
    for line in lines {
        put_work_line(out, line)?;
    }
    Ok(())
}

/// Appends the reply that shows the output of a root.
pub fn write_output(
    out: &mut Vec<u8>,
    root: u64,
    leaves: &Leaves,
    output: &Container,
) -> Result<(), AllocError>
    ensures { OnOk result (out.new.items ≡ out.old.items ++ output_text root leaves.now output.now) }
{
    numbered(out, b"ok OUTPUT ", root)?;
    numbered(out, b" ", output.values.len() as u64)?;
    end_line(out)?;
    write_container(out, leaves, output)
}

/// Appends the reply that shows the input of an item.
pub fn write_input(
    out: &mut Vec<u8>,
    item: &Path,
    leaves: &Leaves,
    input: &Container,
) -> Result<(), AllocError>
    ensures { OnOk result (out.new.items ≡ out.old.items ++ input_text item.now leaves.now input.now) }
{
    out.extend_from_slice(b"ok INPUT ")?;
    write_quoted_path(out, item)?;
    numbered(out, b" ", input.values.len() as u64)?;
    end_line(out)?;
    write_container(out, leaves, input)
}

/// Appends the reply that shows a worklist.
pub fn write_worklist(out: &mut Vec<u8>, name: &Name, lines: &[WorkLine]) -> Result<(), AllocError>
    ensures { OnOk result (out.new.items ≡ out.old.items ++ worklist_text name.now lines.now) }
{
    out.extend_from_slice(b"ok WORKLIST ")?;
    quoted_name(out, name.as_slice())?;
    numbered(out, b" ", lines.len() as u64)?;
    end_line(out)?;
    put_work_lines(out, lines)?;
    Ok(())
}

fn code_by(code: i64, setting: &Setting) -> i64
    ensures { result ≡ code_with code setting.now.leaf setting.now.value }
{
    match &setting.value {
        Value::Whole(number) => { if setting.leaf == 0 { *number } else { code } }
        Value::Text(_) => code,
    }
}

/// The return code that settings give.
fn return_code(settings: &[Setting]) -> i64
    ensures { result ≡ code_given settings.now }
{
    let mut code = 0;
    for setting in settings {
        code = code_by(code, setting);
    }
    code
}

/// The return code of a completion; 0 of other transactions.
fn code_of(t: &Transaction) -> i64
    ensures { result ≡ code_in t.now }
{
    match t {
        Transaction::Done(_, _, settings) => return_code(settings.as_slice()),
        Transaction::Force(_, settings) => return_code(settings.as_slice()),
        Transaction::Import(_) => 0,
        Transaction::Start(_, _, _, _, _, _) => 0,
        Transaction::Turn(_, _) => 0,
        Transaction::Claim(_, _) => 0,
        Transaction::Release(_, _) => 0,
        Transaction::Transfer(_, _, _) => 0,
        Transaction::Take(_, _) => 0,
        Transaction::Restart(_) => 0,
        Transaction::Suspend(_) => 0,
        Transaction::Resume(_) => 0,
        Transaction::Terminate(_) => 0,
        Transaction::Delete(_) => 0,
        Transaction::Clock(_) => 0,
    }
}

fn put_audited(out: &mut Vec<u8>, entries: &[Numbered]) -> Result<(), AllocError>
    ensures { OnOk result (out.new.items ≡ out.old.items ++ flat_map numbered_line entries.now) }
{
    for entry in entries {
        let code = code_of(&entry.transaction);
        audit(entry.number, &entry.transaction, code, out)?;
    }
    Ok(())
}

/// Appends the reply that shows the audited transactions of a root, which are these.
pub fn write_audit(out: &mut Vec<u8>, root: u64, entries: &[Numbered]) -> Result<(), AllocError>
    ensures { OnOk result (out.new.items ≡ out.old.items ++ audited_text root entries.now) }
{
    numbered(out, b"ok AUDIT ", root)?;
    numbered(out, b" ", entries.len() as u64)?;
    end_line(out)?;
    put_audited(out, entries)
}
