//! What a crash may leave after each call, for each choice of old or new bytes: it opens to the entries that are allowed.
use super::*;
use std::test::Fail;

// What stands past the old end before it is written, as an open gate would.
const FILLER: u8 = 1;

// The bytes of one image: where old and new differ, the mask's next bit chooses.
fn image(
    alloc: Global,
    old: &[u8],
    new: &[u8],
    len: usize,
    mask: u32,
) -> Result<Vec<u8>, AllocError> {
    let mut bytes = Vec::new(alloc);
    let mut choices = mask;
    for at in 0..len {
        let was = old.get(at).copied().unwrap_or(FILLER);
        let is = new.get(at).copied().unwrap_or(was);
        if was != is && choices % 2 == 1 {
            bytes.push(is)?;
        } else {
            bytes.push(was)?;
        }
        if was != is {
            choices /= 2;
        }
    }
    Ok(bytes)
}

// The masks that tell all choices apart; for a long write only none and all.
fn masks(alloc: Global, old: &[u8], new: &[u8]) -> Result<Vec<u32>, AllocError> {
    let mut count = 1u32;
    for (at, is) in new.iter().enumerate() {
        if old.get(at).copied().unwrap_or(FILLER) != *is && count < 1 << 10 {
            count *= 2;
        }
    }
    if count >= 1 << 10 {
        return Ok(vec![in alloc; 0, u32::MAX]?);
    }
    let mut all = Vec::new(alloc);
    for mask in 0..count {
        all.push(mask)?;
    }
    Ok(all)
}

// What a read gives after a call.
fn made(alloc: Global, old: &[u8], call: &Call) -> Result<Vec<u8>, AllocError> {
    let mut new = Vec::from_slice(alloc, old)?;
    match call {
        Call::Write { at, piece } => {
            let at = *at as usize;
            let end = at.saturating_add(piece.bytes().len());
            if new.len() < end {
                new.resize(end, FILLER)?;
            }
            for (i, byte) in piece.bytes().iter().enumerate() {
                if let Some(place) = new.get_mut(at.saturating_add(i)) {
                    *place = *byte;
                }
            }
        }
        Call::Cut { len } => new.truncate(*len as usize),
        _ => {}
    }
    Ok(new)
}

// The images after a call, from those before it.
fn images(alloc: Global, before: &[Vec<u8>], call: &Call) -> Result<Vec<Vec<u8>>, AllocError> {
    let mut after = Vec::new(alloc);
    for old in before.iter() {
        let new = made(alloc, old, call)?;
        let masks = masks(alloc, old, &new)?;
        for len in old.len().min(new.len())..old.len().max(new.len()) + 1 {
            for mask in masks.iter() {
                after.push(image(alloc, old, &new, len, *mask)?)?;
            }
        }
    }
    Ok(after)
}

// Whether after each call each image opens to what is allowed then: nothing, nothing or `a`, or `a`.
fn all_open(alloc: Global, attempts: &[Attempt], allowed: &[u8]) -> Result<bool, AllocError> {
    let mut now = Vec::new(alloc);
    let mut left = vec![in alloc; Vec::new(alloc)]?;
    for (attempt, stage) in attempts.iter().zip(allowed.iter()) {
        if let Attempt::Made(call) = attempt {
            now = made(alloc, &now, call)?;
            left = match call {
                Call::Sync => vec![in alloc; Vec::from_slice(alloc, &now)?]?,
                Call::Write { .. } | Call::Cut { .. } => images(alloc, &left, call)?,
                _ => left,
            };
        }
        for bytes in left.iter() {
            let found = opens_to(alloc, bytes)?;
            let good = match stage {
                0 => is_some_of(&found, &[b""]),
                1 => is_some_of(&found, &[b"", b"a "]),
                _ => is_some_of(&found, &[b"a "]),
            };
            if !good {
                return Ok(false);
            }
        }
    }
    Ok(attempts.len() == allowed.len())
}

// Starts on an empty disk, appends `a`, and mends where that failed.
fn calls_of(alloc: Global, failing: &[u64]) -> Result<Option<MemoryDisk>, AllocError> {
    let disk = MemoryDisk::new(Vec::new(alloc), Vec::from_slice(alloc, failing)?);
    match Journal::start(alloc, disk, DIGEST) {
        Ok((mut journal, _)) => {
            if journal.append(alloc, b"a").is_err() && journal.mend().is_err() {
                return Ok(None);
            }
            Ok(Some(journal.end()))
        }
        Err((disk, _)) => Ok(Some(disk)),
    }
}

#[test]
fn every_image_opens_to_what_was_acknowledged(rt: HostRuntime) -> Result<(), Fail> {
    let alloc = rt.alloc();
    // No call fails; the first sync of the append; its second sync; its second write.
    let scripts: [(u64, &[u8]); 4] = [
        (99, &[0, 0, 0, 0, 0, 0, 0, 0, 0, 0, 1, 2]),
        (10, &[0, 0, 0, 0, 0, 0, 0, 0, 0, 0, 0, 0]),
        (12, &[0, 0, 0, 0, 0, 0, 0, 0, 0, 0, 1, 1, 1, 0, 0, 0]),
        (11, &[0, 0, 0, 0, 0, 0, 0, 0, 0, 0, 0, 0, 0, 0, 0]),
    ];
    for (failing, allowed) in scripts {
        match calls_of(alloc, &[failing])? {
            Some(disk) => {
                assert!(rt; all_open(alloc, disk.calls(), allowed)?, "call {failing}");
            }
            None => {
                assert!(rt; false, "call {failing}");
            }
        }
    }
    Ok(())
}
