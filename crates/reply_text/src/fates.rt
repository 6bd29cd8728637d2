//! Fates, phases, modes, and the rows that show them.
ghost use Rattle.std.specs.Prelude.{◌≡◌, ◌++◌, OnOk};
ghost use Rattle.reply_text.specs.Replies.{numbered, fate_text, phase_text, mode_text, path_in_quotes, row_text};

use flow_model::{Fate, FateRow, Mode, Path, Phase, write_path};
use flow_text::decimal;
use std::alloc::AllocError;

/// Appends a word, a space and a number.
fn write_numbered(out: &mut Vec<u8>, word: &[u8], number: u64) -> Result<(), AllocError>
    ensures { OnOk result (out.new.items ≡ out.old.items ++ numbered word.now number) }
{
    out.extend_from_slice(word)?;
    out.push(b' ')?;
    decimal(out, number)
}

/// Appends a fate: `WAITING`, `READY k`, `RUNNING k`, `FINISHED k` or `DEAD`.
pub fn write_fate(out: &mut Vec<u8>, fate: Fate) -> Result<(), AllocError>
    ensures { OnOk result (out.new.items ≡ out.old.items ++ fate_text fate) }
{
    match fate {
        Fate::Waiting => out.extend_from_slice(b"WAITING"),
        Fate::Ready(attempt) => write_numbered(out, b"READY", attempt),
        Fate::Running(attempt) => write_numbered(out, b"RUNNING", attempt),
        Fate::Finished(attempt) => write_numbered(out, b"FINISHED", attempt),
        Fate::Dead => out.extend_from_slice(b"DEAD"),
    }
}

/// Appends a phase.
pub fn write_phase(out: &mut Vec<u8>, phase: Phase) -> Result<(), AllocError>
    ensures { OnOk result (out.new.items ≡ out.old.items ++ phase_text phase) }
{
    match phase {
        Phase::Ready => out.extend_from_slice(b"READY"),
        Phase::Running => out.extend_from_slice(b"RUNNING"),
        Phase::Ended => out.extend_from_slice(b"ENDED"),
    }
}

/// Appends a mode.
pub fn write_mode(out: &mut Vec<u8>, mode: Mode) -> Result<(), AllocError>
    ensures { OnOk result (out.new.items ≡ out.old.items ++ mode_text mode) }
{
    match mode {
        Mode::Active => out.extend_from_slice(b"ACTIVE"),
        Mode::Suspended => out.extend_from_slice(b"SUSPENDED"),
        Mode::Done => out.extend_from_slice(b"DONE"),
        Mode::Terminated => out.extend_from_slice(b"TERMINATED"),
    }
}

/// Appends a path in single quotes.
pub fn write_quoted_path(out: &mut Vec<u8>, path: &Path) -> Result<(), AllocError>
    ensures { OnOk result (out.new.items ≡ out.old.items ++ path_in_quotes path.now) }
{
    out.push(b'\'')?;
    write_path(out, path)?;
    out.push(b'\'')?;
    Ok(())
}

/// Appends a row as a line: the quoted scope path, `/`, the activity's name; the fate.
pub fn write_row(out: &mut Vec<u8>, row: &FateRow) -> Result<(), AllocError>
    ensures { OnOk result (out.new.items ≡ out.old.items ++ row_text row.now) }
{
    out.push(b'\'')?;
    write_path(out, &row.scope)?;
    out.push(b'/')?;
    out.extend_from_slice(row.name.as_slice())?;
    out.extend_from_slice(b"' ")?;
    write_fate(out, row.fate)?;
    out.push(b'\n')?;
    Ok(())
}
