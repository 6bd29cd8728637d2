//! How a path is written.
ghost use Rattle.std.specs.Prelude.{◌≡◌, ◌++◌, IfOk, OnOk};
ghost use Rattle.flow_model.specs.Paths.{spelling, part_spelling};
ghost use Rattle.flow_model.specs.declared.paths.PathFault.TheVariants.{NoMemory};

use crate::instances::{Part, Path};
use itoa::Buffer;
use std::alloc::{AllocError, Global};
use thiserror::Error;

/// Why a text is no path.
#[derive(Clone, Copy, Debug, PartialEq, Eq, Drop, Error)]
pub enum PathFault {
    /// The text is no path.
    #[error("BadPath")]
    BadPath,
    /// There was no memory for it.
    #[error("NoMemory")]
    NoMemory,
}

impl From<AllocError> for PathFault {
    ghost from_gives = { λ _ e. e ≡ NoMemory };

    fn from(_fault: AllocError) -> PathFault {
        PathFault::NoMemory
    }
}

/// Appends the text of a part.
fn write_part(out: &mut Vec<u8>, part: &Part) -> Result<(), AllocError>
    ensures { OnOk result (out.new.items ≡ out.old.items ++ part_spelling part.now) }
{
    out.push(b'/')?;
    out.extend_from_slice(part.name.as_slice())?;
    out.push(b'#')?;
    let mut buffer = Buffer::new();
    out.extend_from_slice(buffer.format(part.attempt).as_bytes())
}

/// Appends the text of a path.
pub fn write_path(out: &mut Vec<u8>, path: &Path) -> Result<(), AllocError>
    ensures { OnOk result (out.new.items ≡ out.old.items ++ spelling path.now) }
{
    let mut buffer = Buffer::new();
    out.extend_from_slice(buffer.format(path.root).as_bytes())?;
    for part in path.parts.as_slice() {
        write_part(out, part)?;
    }
    Ok(())
}

/// The text of a path.
pub fn path_text(alloc: Global, path: &Path) -> Result<Vec<u8>, AllocError>
    ensures { IfOk result (λ text. text.items ≡ spelling path.now) }
{
    let mut text = Vec::new(alloc);
    write_path(&mut text, path)?;
    Ok(text)
}
