//! Each call of the disk fails in turn: what is answered, what stands afterwards, and what a crash then leaves.

use super::*;
use std::test::Fail;

// After the header: a closed gate, one with an unfinished entry after it, and an entry.
const CLOSED: &[u8] = &[0];

const STAGED: &[u8] = &[0, 0, 0, 0, 1, 120, 0];

const OPEN: &[u8] = &[1, 0, 0, 0, 1, 120, 0];

// Starts on a closed gate, which takes 5 calls, and appends `x`.
fn appended(
    alloc: Global,
    failing: &[u64],
) -> Result<Option<(Journal<MemoryDisk>, bool)>, AllocError> {
    match Journal::start(alloc, headed(alloc, CLOSED, failing)?, DIGEST) {
        Ok((mut journal, _)) => match journal.append(alloc, b"x") {
            Ok(()) => Ok(Some((journal, true))),
            Err(AppendFault::Disk) => Ok(Some((journal, false))),
            Err(AppendFault::Memory) => Ok(None),
        },
        Err(_) => Ok(None),
    }
}

// Whether these stand after the header, as they are read and as they were synced.
fn shows(disk: &MemoryDisk, bytes: &[u8], synced: &[u8]) -> bool {
    ends_in(disk.bytes(), bytes) && ends_in(disk.synced(), synced)
}

fn ends_in(whole: &[u8], tail: &[u8]) -> bool {
    match whole.get(41..) {
        Some(rest) => rest == tail,
        None => false,
    }
}

#[test]
fn each_call_of_an_append_fails(rt: HostRuntime) -> Result<(), Fail> {
    let alloc = rt.alloc();
    for (failing, done, bytes, synced) in [
        (6, false, CLOSED, CLOSED),
        (7, false, STAGED, CLOSED),
        (8, false, STAGED, STAGED),
        (9, false, OPEN, STAGED),
        (10, true, OPEN, OPEN),
    ] {
        let Some((journal, answer)) = appended(alloc, &[failing])? else {
            assert_eq!(rt; failing, 0);
            return Ok(());
        };
        assert!(rt;
            answer == done && journal.broken() != done,
            "call {failing}"
        );
        assert!(rt; shows(&journal.end(), bytes, synced), "call {failing}");
    }
    Ok(())
}

#[test]
fn each_call_of_a_mend_fails(rt: HostRuntime) -> Result<(), Fail> {
    let alloc = rt.alloc();
    for (append, failing, done, bytes, synced) in [
        (9, 10, false, OPEN, STAGED),
        (9, 11, false, STAGED, STAGED),
        (9, 12, false, STAGED, STAGED),
        (9, 13, false, CLOSED, STAGED),
        (9, 14, true, CLOSED, CLOSED),
        (7, 8, false, STAGED, CLOSED),
        (7, 9, false, CLOSED, CLOSED),
        (7, 10, true, CLOSED, CLOSED),
    ] {
        let Some((mut journal, _)) = appended(alloc, &[append, failing])? else {
            assert_eq!(rt; failing, 0);
            return Ok(());
        };
        assert!(rt;
            journal.mend().is_ok() == done && journal.broken() != done,
            "call {failing}"
        );
        assert!(rt; shows(&journal.end(), bytes, synced), "call {failing}");
    }
    Ok(())
}

// Starts on a closed gate that was torn: what is answered, and the disk.
fn started(alloc: Global, failing: u64) -> Result<(Option<JournalFault>, MemoryDisk), AllocError> {
    let disk = headed(alloc, &[7, 0, 0, 0, 1, 120, 0], &[failing])?;
    match Journal::start(alloc, disk, DIGEST) {
        Ok((journal, _)) => Ok((None, journal.end())),
        Err((disk, fault)) => Ok((Some(fault), disk)),
    }
}

#[test]
fn each_call_of_a_start_fails(rt: HostRuntime) -> Result<(), Fail> {
    let alloc = rt.alloc();
    let torn: &[u8] = &[7, 0, 0, 0, 1, 120, 0];
    for (failing, bytes, synced) in [
        (1, torn, torn),
        (2, torn, torn),
        (3, torn, torn),
        (4, torn, torn),
        (5, torn, torn),
        (6, torn, torn),
        (7, STAGED, torn),
        (8, STAGED, STAGED),
        (9, CLOSED, STAGED),
        (10, CLOSED, CLOSED),
    ] {
        let (fault, disk) = started(alloc, failing)?;
        assert!(rt; fault.is_none() == (failing == 10), "call {failing}");
        assert!(rt;
            fault.is_none() || fault == Some(JournalFault::Disk),
            "call {failing}"
        );
        assert!(rt; shows(&disk, bytes, synced), "call {failing}");
    }
    Ok(())
}
