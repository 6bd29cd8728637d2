//! The file of one slot, and the bytes that wait to be written to it.
ghost use Rattle.std.specs.Prelude.{◌≡◌, ◌≤◌, [], length, true, false, IfOk, OnOk, OnErr};

use crate::calls::{read_some, size_of, write_some};
use crate::room::room_behind;
use std::alloc::Global;
use std::fs::{File, Files, OpenOptions};
use std::io;
use std::os::unix::fs::{FileExt, OpenOptionsExt};

/// The most bytes that are gathered before they are written.
const BLOCK: usize = 65_536;

/// The file of one slot. Writes that follow one another are gathered, and go to the file in one
/// call at the next sync, read, size or write elsewhere, or when a block is full.
#[derive(Drop)]
pub struct SlotFile {
    pub path: String,
    /// The path of the file that says that a sync failed.
    mark: String,
    /// None where the file isn't there, and before it was opened.
    file: Option<File>,
    /// The number of bytes of the file, as it was opened and written here.
    size: u64,
    /// Where the bytes that wait begin.
    at: u64,
    waiting: Vec<u8>,
    /// Whether nothing was written since the last successful sync. Before the first sync it isn't
    /// known what an earlier run left unsynced, so that one is made in any case.
    is_synced: bool,
    /// Whether the file was synced whole once, so that its bytes alone are synced from then on.
    was_whole: bool,
    ghost settled: { is_synced ≡ true → waiting.items ≡ [] },
}

impl SlotFile {
    /// A file that isn't opened yet.
    pub fn new(alloc: Global, path: String) -> SlotFile
        ensures { result.is_synced ≡ false }
    {
        SlotFile {
            path,
            mark: String::new(alloc),
            file: None,
            size: 0,
            at: 0,
            waiting: Vec::new(alloc),
            is_synced: false,
            was_whole: false,
        }
    }

    /// Takes a file that was opened and locked.
    pub fn take(&mut self, file: File, size: u64)
        ensures { self.new.is_synced ≡ self.old.is_synced }
    {
        self.file = Some(file);
        self.size = size;
    }

    /// The open file, where there is one.
    pub fn opened(&self) -> Option<&File> {
        self.file.as_ref()
    }

    /// Whether the file is there.
    pub fn is_there(&self) -> bool {
        self.file.is_some()
    }

    /// Whether the file had no bytes when it was opened.
    pub fn is_empty(&self) -> bool {
        self.size == 0
    }

    /// Spells the path of the file that says that a sync failed.
    pub fn spell_mark(&mut self) -> io::Result<()>
        ensures { self.new.is_synced ≡ self.old.is_synced }
    {
        let mut mark = self.path.clone()?;
        mark.push_str(".unsynced")?;
        self.mark = mark;
        Ok(())
    }

    /// The path of the file that says that a sync failed, once it is spelled.
    pub fn mark(&self) -> &str {
        self.mark.as_str()
    }

    /// Gives the number of bytes: none where the file isn't there.
    pub fn size(&mut self) -> io::Result<u64>
        ensures { self.new.is_synced ≡ self.old.is_synced }
    {
        self.put_out()?;
        match &self.file {
            Some(file) => size_of(file),
            None => Ok(0),
        }
    }

    /// Fills a front part of `buf` from this place on, and gives its length.
    pub fn read(&mut self, at: u64, buf: &mut [u8]) -> io::Result<usize>
        ensures bound { IfOk result (λ n. n ≤ length buf.new) }
        ensures synced { self.new.is_synced ≡ self.old.is_synced }
    {
        self.put_out()?;
        match &self.file {
            Some(file) => read_some(file, at, buf),
            None => Ok(0),
        }
    }

    /// Writes the bytes, or keeps them to be written with those that follow. A file that isn't
    /// there isn't written.
    pub fn write(&mut self, at: u64, bytes: &[u8]) -> io::Result<()>
        ensures { self.new.is_synced ≡ false }
    {
        self.is_synced = false;
        if !self.is_there() {
            return Err(io::Error::from(io::ErrorKind::NotFound));
        }
        if !self.goes_on(at, bytes.len()) {
            self.put_out()?;
            self.at = at;
        }
        if bytes.len() <= BLOCK && self.waiting.extend_from_slice(bytes).is_ok() {
            return Ok(());
        }
        self.put_out()?;
        self.write_now(at, bytes)
    }

    /// Whether so many bytes at this place follow those that wait, and fit beside them.
    fn goes_on(&self, at: u64, len: usize) -> bool {
        let count = self.waiting.len();
        at >= self.at && at - self.at == count as u64 && count <= BLOCK && len <= BLOCK - count
    }

    fn write_now(&mut self, at: u64, bytes: &[u8]) -> io::Result<()>
        ensures { (self.new.is_synced ≡ self.old.is_synced) }
    {
        match &self.file {
            Some(file) => file.write_all_at(bytes, at)?,
            None => return Err(io::Error::from(io::ErrorKind::NotFound)),
        }
        self.size = self.size.max(at.saturating_add(bytes.len() as u64));
        Ok(())
    }

    /// Writes the bytes that wait.
    fn put_out(&mut self) -> io::Result<()>
        ensures synced { self.new.is_synced ≡ self.old.is_synced }
        ensures none { OnOk result (self.new.waiting.items ≡ []) }
    {
        if self.waiting.is_empty() {
            return Ok(());
        }
        match &self.file {
            Some(file) => file.write_all_at(&self.waiting, self.at)?,
            None => return Err(io::Error::from(io::ErrorKind::NotFound)),
        }
        self.size = self
            .size
            .max(self.at.saturating_add(self.waiting.len() as u64));
        self.waiting.clear();
        Ok(())
    }

    /// Writes the bytes that wait, with room for the next ones behind them where they are the last
    /// of a large file.
    fn put_out_with_room(&mut self) -> io::Result<()>
        requires { self.old.is_synced ≡ false }
        ensures synced { self.new.is_synced ≡ self.old.is_synced }
        ensures none { OnOk result (self.new.waiting.items ≡ []) }
    {
        let count = self.waiting.len();
        let room = room_behind(self.at, count, self.size);
        if count == 0 || room == 0 || self.waiting.resize(count.saturating_add(room), 0).is_err() {
            return self.put_out();
        }
        let done = match &self.file {
            Some(file) => write_some(file, self.at, &self.waiting)?,
            None => return Err(io::Error::from(io::ErrorKind::NotFound)),
        };
        if done < count {
            self.waiting.truncate(count);
            return self.put_out();
        }
        self.size = self.size.max(self.at.saturating_add(done as u64));
        self.waiting.clear();
        Ok(())
    }

    /// Makes the file stable, where something was written since its last successful sync. A sync
    /// that fails leaves a mark beside the file, as far as the device lets it.
    pub fn sync<R: Files<File = File>>(&mut self, rt: &R) -> io::Result<()>
        ensures ok { OnOk result (self.new.is_synced ≡ true) }
        ensures err { OnErr result (self.new.is_synced ≡ self.old.is_synced) }
    {
        if self.is_synced {
            return Ok(());
        }
        self.put_out_with_room()?;
        let outcome = self.flush();
        if outcome.is_err() {
            leave_mark(rt, self.mark.as_str());
            return outcome;
        }
        self.is_synced = true;
        self.was_whole = true;
        Ok(())
    }

    fn flush(&self) -> io::Result<()> {
        match &self.file {
            Some(file) if self.was_whole => file.sync_data(),
            Some(file) => file.sync_all(),
            None => Ok(()),
        }
    }
}

/// Leaves an empty file by this path. It can't help it where that fails.
fn leave_mark<R: Files<File = File>>(rt: &R, mark: &str) {
    let _left = OpenOptions::new()
        .write(true)
        .create(true)
        .mode(0o600)
        .open(rt, mark);
}
