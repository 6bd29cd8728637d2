//! Calls on an open file that a signal can't end.
ghost use Rattle.std.specs.Prelude.{◌≤◌, length, IfOk};

use std::fs::File;
use std::io;
use std::os::unix::fs::FileExt;

/// A call that a signal has ended each time that it was tried.
fn too_many_tries() -> io::Error {
    io::Error::from(io::ErrorKind::Interrupted)
}

/// The number of bytes of a file.
pub fn size_of(file: &File) -> io::Result<u64> {
    for _ in 0..u32::MAX {
        match file.metadata() {
            Ok(metadata) => return Ok(metadata.len()),
            Err(e) if e.kind() == io::ErrorKind::Interrupted => {}
            Err(e) => return Err(e),
        }
    }
    Err(too_many_tries())
}

/// Fills a front part of `buf` from this place of the file on, and gives its length.
pub fn read_some(file: &File, at: u64, buf: &mut [u8]) -> io::Result<usize>
    ensures { IfOk result (λ n. n ≤ length buf.new) }
{
    for _ in 0..u32::MAX {
        match file.read_at(buf, at) {
            Ok(count) => return Ok(count),
            Err(e) if e.kind() == io::ErrorKind::Interrupted => {}
            Err(e) => return Err(e),
        }
    }
    Err(too_many_tries())
}

/// Writes a front part of `bytes` from this place of the file on, and gives its length.
pub fn write_some(file: &File, at: u64, bytes: &[u8]) -> io::Result<usize>
    ensures { IfOk result (λ n. n ≤ length bytes.now) }
{
    for _ in 0..u32::MAX {
        match file.write_at(bytes, at) {
            Ok(count) => return Ok(count),
            Err(e) if e.kind() == io::ErrorKind::Interrupted => {}
            Err(e) => return Err(e),
        }
    }
    Err(too_many_tries())
}
