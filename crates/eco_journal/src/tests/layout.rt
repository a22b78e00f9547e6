//! The bytes of a journal, and where a bad record is refused.
use super::*;
use std::test::Fail;

// The bytes of a disk that was empty, after one append; None where something failed.
fn bytes_of_one(alloc: Global, payload: &[u8]) -> Result<Option<Vec<u8>>, AllocError> {
    if payload.is_empty() || payload.len() > 100 {
        return Ok(None);
    }
    let disk = MemoryDisk::new(Vec::new(alloc), Vec::new(alloc));
    let Ok((mut journal, _)) = Journal::start(alloc, disk, DIGEST) else {
        return Ok(None);
    };
    if journal.append(alloc, payload).is_err() {
        return Ok(None);
    }
    Ok(Some(Vec::from_slice(alloc, journal.end().synced())?))
}

#[test]
fn an_entry_has_its_gate_its_length_and_its_payload(rt: HostRuntime) -> Result<(), Fail> {
    let alloc = rt.alloc();
    let payload: &[u8] = br#"{"by":"ann","kind":"release","name":"h1"}"#;
    let mut expected = Vec::from_slice(alloc, &HEADER)?;
    expected.extend_from_slice(b"\x01\x00\x00\x00\x29")?;
    expected.extend_from_slice(payload)?;
    expected.push(0)?;
    let found = bytes_of_one(alloc, payload)?;
    assert!(rt; is_some_of(&found, &[expected.as_slice()]));
    Ok(())
}

#[test]
fn an_entry_gives_its_bytes_back(rt: HostRuntime) -> Result<(), Fail> {
    let entry = Entry::of(Vec::from_slice(rt.alloc(), b"ab")?);
    assert_eq!(rt; entry.bytes(), b"ab".as_slice());
    assert_eq!(rt; entry.into_vec().as_slice(), b"ab".as_slice());
    Ok(())
}

// An empty disk, and its disk opened with another base: its bytes, and what is answered.
fn reopened(alloc: Global) -> Result<Option<(Vec<u8>, JournalFault)>, AllocError> {
    let disk = MemoryDisk::new(Vec::new(alloc), Vec::new(alloc));
    let Ok((journal, entries)) = Journal::start(alloc, disk, DIGEST) else {
        return Ok(None);
    };
    if !entries.is_empty() {
        return Ok(None);
    }
    match Journal::start(alloc, journal.end(), [8; 32]) {
        Ok(_) => Ok(None),
        Err((disk, fault)) => Ok(Some((Vec::from_slice(alloc, disk.bytes())?, fault))),
    }
}

#[test]
fn a_journal_of_another_base_is_refused_with_both_digests(rt: HostRuntime) -> Result<(), Fail> {
    let alloc = rt.alloc();
    let mut expected = Vec::from_slice(alloc, &HEADER)?;
    expected.push(0)?;
    let Some((bytes, fault)) = reopened(alloc)? else {
        assert!(rt; false);
        return Ok(());
    };
    assert_eq!(rt; bytes.as_slice(), expected.as_slice());
    assert!(rt;
        fault
            == JournalFault::BaseDiffers {
                kept: DIGEST,
                given: [8; 32]
            }
    );
    Ok(())
}

// Where a bad record stands on a disk of a header with this first byte, and these bytes after it.
fn bad_place(alloc: Global, gate: u8, tail: &[u8]) -> Result<Option<u64>, AllocError> {
    let mut bytes = Vec::from_slice(alloc, &[gate])?;
    bytes.extend_from_slice(&HEADER[1..])?;
    bytes.extend_from_slice(tail)?;
    match Journal::start(alloc, MemoryDisk::new(bytes, Vec::new(alloc)), DIGEST) {
        Err((_, JournalFault::BadRecord { place })) => Ok(Some(place)),
        _ => Ok(None),
    }
}

#[test]
fn a_bad_record_is_refused_at_its_gate(rt: HostRuntime) -> Result<(), Fail> {
    let alloc = rt.alloc();
    let table: [(u8, &[u8], Option<u64>); 9] = [
        (1, b"", Some(0)),
        (9, b"\x00a", Some(0)),
        (1, b"\x01", Some(41)),
        (1, b"\x01\x00\x00\x00\x00\x00", Some(41)),
        (1, b"\x01\x00\x00\x00\x01x", Some(41)),
        (1, b"\x01\x01\x00\x00\x01x\x00", Some(41)),
        (1, b"\x01\x00\x00\x00\x01x\x01\x00\x00\x00\x02yz", Some(47)),
        (1, b"\x01\x00\x00\x00\x01x\x02\x00\x00\x00\x02yz", None),
        (1, b"\x01\x00\x00\x00\x01x\x01\x00\x00\x00\x02yz\x00", None),
    ];
    for (gate, tail, expected) in table {
        assert!(rt; bad_place(alloc, gate, tail)? == expected);
    }
    Ok(())
}
