//! What a disk in memory holds after each of its calls, some of which fail.
ghost use Rattle.std.specs.Prelude.{◌≡◌};

use super::*;
use std::alloc::Global;
use std::test::Fail;

// What a read gives, what was kept, and how many calls failed.
fn shows(disk: &MemoryDisk, bytes: &[u8], synced: &[u8], faults: u64) -> bool {
    disk.bytes() == bytes && disk.synced() == synced && disk.count() == faults
}

// A disk in memory goes to another thread with the office that has it.
fn crosses<T: Send + Sync>(value: T) -> T
    ensures { result ≡ value }
{
    value
}

#[test]
fn calls_change_what_they_say_and_failed_ones_nothing(rt: HostRuntime) -> Result<(), Fail> {
    let alloc = rt.alloc();
    let bytes = Vec::from_slice(alloc, &[1, 2, 3])?;
    let failing = Vec::from_slice(alloc, &[2, 5, 9])?;
    let mut disk = crosses(MemoryDisk::new(bytes, failing));
    assert!(rt; disk.write_at(3, &[4, 5]).is_ok());
    assert!(rt; shows(&disk, &[1, 2, 3, 4, 5], &[1, 2, 3], 0));
    assert!(rt; disk.sync() == Err(Failed));
    assert!(rt; shows(&disk, &[1, 2, 3, 4, 5], &[1, 2, 3], 1));
    assert!(rt; disk.sync().is_ok());
    assert!(rt; shows(&disk, &[1, 2, 3, 4, 5], &[1, 2, 3, 4, 5], 1));
    assert!(rt; disk.write_at(1, &[7, 8]).is_ok());
    assert!(rt; disk.write_at(0, &[9]) == Err(Failed));
    assert!(rt; shows(&disk, &[1, 7, 8, 4, 5], &[1, 2, 3, 4, 5], 2));
    assert!(rt; disk.len() == Ok(5));
    let mut piece = [0; 2];
    assert!(rt; disk.read(2, &mut piece).is_ok());
    assert_eq!(rt; piece.as_slice(), [8, 4].as_slice());
    assert!(rt; disk.cut(2).is_ok());
    assert!(rt; disk.cut(1) == Err(Failed));
    assert!(rt; shows(&disk, &[1, 7], &[1, 2, 3, 4, 5], 3));
    assert!(rt; disk.sync().is_ok());
    assert!(rt; shows(&disk, &[1, 7], &[1, 7], 3));
    assert_eq!(rt; disk.starved(), 0);
    assert_eq!(rt; disk.calls().len(), 10);
    Ok(())
}
