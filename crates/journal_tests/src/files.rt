//! Two real files.
use flow_disk::{Disk, Failed, Slot};
use flow_files::{Access, FileDisk};
use std::fs;
use std::test::Fail;

/// A disk over two files whose names begin so.
fn disk_at<'a>(
    rt: &'a HostRuntime,
    name: &str,
    access: Access,
) -> Result<FileDisk<'a, HostRuntime>, Fail> {
    let mut a = name.to_string(rt.alloc())?;
    a.push_str("a")?;
    let mut b = name.to_string(rt.alloc())?;
    b.push_str("b")?;
    Ok(FileDisk::new(rt, a, b, access))
}

#[test]
fn two_files(rt: HostRuntime) -> Result<(), Fail> {
    let mut disk = disk_at(&rt, "flow_files_test.", Access::Make)?;
    assert_eq!(rt; disk.size(Slot::A), Ok(0));
    assert_eq!(rt; disk.write_at(Slot::A, 0, b"abcd".as_slice()), Ok(()));
    assert_eq!(rt; disk.write_at(Slot::A, 2, b"XYZ".as_slice()), Ok(()));
    assert_eq!(rt; disk.sync(), Ok(()));
    assert_eq!(rt; (disk.size(Slot::A), disk.size(Slot::B)), (Ok(5), Ok(0)));
    let mut buf = [0u8; 8];
    assert_eq!(rt; disk.read_at(Slot::A, 1, &mut buf), Ok(4));
    assert_eq!(rt; &buf[..4], b"bXYZ".as_slice());
    assert_eq!(rt; disk.read_at(Slot::A, 5, &mut buf), Ok(0));
    fs::remove_file(&rt, "flow_files_test.a")?;
    fs::remove_file(&rt, "flow_files_test.b")?;
    Ok(())
}

#[test]
fn files_that_cannot_be_made(rt: HostRuntime) -> Result<(), Fail> {
    let mut disk = disk_at(&rt, "no_such_folder/", Access::Make)?;
    assert_eq!(rt; disk.sync(), Err(Failed));
    assert_eq!(rt; disk.size(Slot::A), Err(Failed));
    Ok(())
}

#[test]
fn files_that_are_not_there(rt: HostRuntime) -> Result<(), Fail> {
    let mut disk = disk_at(&rt, "no_such_folder/", Access::Serve)?;
    assert_eq!(rt; disk.sync(), Ok(()));
    assert_eq!(rt; disk.size(Slot::A), Ok(0));
    let mut buf = [0u8; 8];
    assert_eq!(rt; disk.read_at(Slot::B, 0, &mut buf), Ok(0));
    assert_eq!(rt; disk.write_at(Slot::A, 0, b"a".as_slice()), Err(Failed));
    assert_eq!(rt; disk.sync(), Err(Failed));
    Ok(())
}
