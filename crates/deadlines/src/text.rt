//! The text of the late items.
ghost use Rattle.std.specs.Prelude.{◌≡◌, ◌++◌, OnOk, IfOk};
ghost use Rattle.std.specs.List.{flat_map};
ghost use Rattle.deadlines.specs.Texts.{notified_text, late_text, IsOverdueText};

use crate::late::{Late, overdue};
use flow_core::Core;
use flow_model::{Name, write_path};
use flow_text::{decimal, quoted_name};
use std::alloc::{AllocError, Global};

fn write_notified(out: &mut Vec<u8>, name: &Name) -> Result<(), AllocError>
    ensures { OnOk result (out.new.items ≡ out.old.items ++ notified_text name.now) }
{
    out.push(b' ')?;
    quoted_name(out, name.as_slice())?;
    Ok(())
}

fn write_names(out: &mut Vec<u8>, names: &[Name]) -> Result<(), AllocError>
    ensures { OnOk result (out.new.items ≡ out.old.items ++ flat_map notified_text names.now) }
{
    for name in names {
        write_notified(out, name)?;
    }
    Ok(())
}

/// Appends the line of a late item: the quoted item, the minutes, the quoted names.
fn write_late(out: &mut Vec<u8>, late: &Late) -> Result<(), AllocError>
    ensures { OnOk result (out.new.items ≡ out.old.items ++ late_text late.now) }
{
    out.push(b'\'')?;
    write_path(out, &late.item)?;
    out.extend_from_slice(b"' ")?;
    decimal(out, late.minutes)?;
    write_names(out, late.notify.as_slice())?;
    out.push(b'\n')?;
    Ok(())
}

fn write_lates(out: &mut Vec<u8>, lates: &[Late]) -> Result<(), AllocError>
    ensures { OnOk result (out.new.items ≡ out.old.items ++ flat_map late_text lates.now) }
{
    for late in lates {
        write_late(out, late)?;
    }
    Ok(())
}

/// The late items of a state as text: a line with their number, and a line for each.
pub fn overdue_text(alloc: Global, core: &Core) -> Result<Vec<u8>, AllocError>
    ensures { IfOk result (λ text. IsOverdueText core.now text.items) }
{
    let found = overdue(alloc, core)?;
    let mut text = Vec::from_slice(alloc, b"ok OVERDUE ")?;
    decimal(&mut text, found.len() as u64)?;
    text.push(b'\n')?;
    write_lates(&mut text, &found)?;
    Ok(text)
}
