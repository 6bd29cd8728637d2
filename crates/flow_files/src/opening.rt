//! Both files, opened and locked together.
ghost use Rattle.std.specs.Prelude.{◌≡◌};

use crate::access::Access;
use crate::calls::size_of;
use crate::slot_file::SlotFile;
use std::fs::{self, File, Files, OpenOptions, TryLockError};
use std::io;
use std::os::unix::fs::{MetadataExt, OpenOptionsExt};
use std::path::{AsPath, Path};

fn refused(kind: io::ErrorKind) -> io::Error {
    io::Error::from(kind)
}

/// Whether a regular file is there. Anything else under its name is an error.
fn is_there<R: Files<File = File>>(rt: &R, path: &str) -> io::Result<bool> {
    match fs::metadata(rt, path) {
        Ok(metadata) if metadata.is_file() => Ok(true),
        Ok(_) => Err(refused(io::ErrorKind::InvalidInput)),
        Err(e) if e.kind() == io::ErrorKind::NotFound => Ok(false),
        Err(e) => Err(e),
    }
}

/// Locks a file until it is closed: for others that look where this one looks, else for itself
/// alone. A lock that somebody holds is an error.
fn lock(file: &File, access: Access) -> Result<(), TryLockError> {
    match access {
        Access::Look => file.try_lock_shared(),
        Access::Make => file.try_lock(),
        Access::Serve => file.try_lock(),
    }
}

/// Locks an open file, and lets the slot have it.
fn hold(file: File, access: Access, one: &mut SlotFile) -> io::Result<()>
    ensures { one.new.is_synced ≡ one.old.is_synced }
{
    lock(&file, access)?;
    let size = size_of(&file)?;
    one.take(file, size);
    Ok(())
}

/// Opens a file that is there.
fn find<R: Files<File = File>>(rt: &R, access: Access, one: &mut SlotFile) -> io::Result<()>
    ensures { one.new.is_synced ≡ one.old.is_synced }
{
    if !is_there(rt, one.path.as_str())? {
        return Ok(());
    }
    let file = OpenOptions::new()
        .read(true)
        .write(access != Access::Look)
        .open(rt, one.path.as_str())?;
    hold(file, access, one)
}

/// Makes a file that isn't there, which only its owner may read.
fn make<R: Files<File = File>>(rt: &R, one: &mut SlotFile) -> io::Result<()>
    ensures { one.new.is_synced ≡ one.old.is_synced }
{
    let file = OpenOptions::new()
        .read(true)
        .write(true)
        .create_new(true)
        .mode(0o600)
        .open(rt, one.path.as_str())?;
    hold(file, Access::Make, one)
}

/// Makes the entry of a file in its folder stable.
fn sync_folder<R: Files<File = File>>(rt: &R, path: &str) -> io::Result<()> {
    let folder = match Path::new(path).parent() {
        Some(parent) if !parent.path_text().is_empty() => parent,
        _ => Path::new("."),
    };
    File::open(rt, folder)?.sync_all()
}

/// Makes what isn't there: both files, or the one that an interrupted making left out.
fn make_missing<R: Files<File = File>>(rt: &R, a: &mut SlotFile, b: &mut SlotFile) -> io::Result<()>
    ensures { (a.new.is_synced ≡ a.old.is_synced) × (b.new.is_synced ≡ b.old.is_synced) }
{
    if !a.is_empty() && !b.is_there() || !b.is_empty() && !a.is_there() {
        return Err(refused(io::ErrorKind::NotFound));
    }
    if !a.is_there() {
        make(rt, a)?;
    }
    if !b.is_there() {
        make(rt, b)?;
    }
    sync_folder(rt, a.path.as_str())?;
    sync_folder(rt, b.path.as_str())
}

/// An error where both names lead to one file.
fn refuse_same(a: &File, b: &File) -> io::Result<()> {
    let first = a.metadata()?;
    let second = b.metadata()?;
    if first.dev() == second.dev() && first.ino() == second.ino() {
        return Err(refused(io::ErrorKind::InvalidInput));
    }
    Ok(())
}

/// An error where a sync of the file failed once, and nobody has removed the mark since.
fn refuse_marked<R: Files<File = File>>(rt: &R, one: &mut SlotFile) -> io::Result<()>
    ensures { one.new.is_synced ≡ one.old.is_synced }
{
    one.spell_mark()?;
    if fs::exists(rt, one.mark())? {
        return Err(refused(io::ErrorKind::AlreadyExists));
    }
    Ok(())
}

/// Opens both files and locks them. Where neither is there, and none is to be made, both slots are
/// empty. It is an error where one alone is there (but for an interrupted making), where somebody
/// holds a lock, where both names lead to one file, and where a sync of a file failed before.
pub fn open_both<R: Files<File = File>>(
    rt: &R,
    access: Access,
    a: &mut SlotFile,
    b: &mut SlotFile,
) -> io::Result<()>
    ensures { (a.new.is_synced ≡ a.old.is_synced) × (b.new.is_synced ≡ b.old.is_synced) }
{
    find(rt, access, a)?;
    find(rt, access, b)?;
    refuse_marked(rt, a)?;
    refuse_marked(rt, b)?;
    if access == Access::Make {
        make_missing(rt, a, b)?;
    }
    match (a.opened(), b.opened()) {
        (Some(first), Some(second)) => refuse_same(first, second),
        (None, None) => Ok(()),
        _ => Err(refused(io::ErrorKind::NotFound)),
    }
}
