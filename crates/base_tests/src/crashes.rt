//! What a crash leaves by each choice.
use flow_disk::{Disk, Failed, MemDisk, Slot};
use std::test::Fail;

/// A disk whose third call fails: a synced write in slot A, a failed one in B, and one in A that isn't synced.
fn written(rt: &HostRuntime) -> Result<MemDisk, Fail> {
    let mut disk = MemDisk::with(
        rt.alloc(),
        b"abcd".as_slice(),
        b"".as_slice(),
        [3].as_slice(),
    )?;
    disk.write_at(Slot::A, 1, b"XY".as_slice())?;
    disk.sync()?;
    let failed = disk.write_at(Slot::B, 0, b"Z".as_slice());
    if failed != Err(Failed) {
        return Err(Fail::new("the third call did not fail"));
    }
    disk.write_at(Slot::A, 4, b"ef".as_slice())?;
    Ok(disk)
}

#[test]
fn a_failed_write_writes_nothing(rt: HostRuntime) -> Result<(), Fail> {
    let disk = written(&rt)?;
    assert_eq!(rt; disk.bytes(Slot::A), b"aXYdef".as_slice());
    assert_eq!(rt; disk.bytes(Slot::B), b"".as_slice());
    assert_eq!(rt; (disk.calls(), disk.starved()), (4, 0));
    Ok(())
}

#[test]
fn a_crash_by_each_choice(rt: HostRuntime) -> Result<(), Fail> {
    let disk = written(&rt)?;
    for (choice, left) in [
        (0, b"aXYd".as_slice()),
        (1, b"aXYdef".as_slice()),
        (254, b"aXYd\x02\x03".as_slice()),
    ] {
        assert_eq!(rt; disk.crash(choice)?.bytes(Slot::A), left);
    }
    Ok(())
}
