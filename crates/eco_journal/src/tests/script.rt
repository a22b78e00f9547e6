//! A script that goes on after each failed call, and what a crash would have left in between.
ghost use Rattle.std.specs.Prelude.{IfOk, IfSome, IsTrue, IsFalse};
ghost use Rattle.eco_journal.specs.Journal.{is_broken};
ghost use Rattle.eco_journal.specs.Layout.{IsPayload};

use super::*;
use std::test::Fail;

// Whether what is read and what was synced each open to some of these.
fn opens(alloc: Global, disk: &MemoryDisk, allowed: &[&[u8]]) -> Result<bool, AllocError> {
    let read = opens_to(alloc, disk.bytes())?;
    let kept = opens_to(alloc, disk.synced())?;
    Ok(is_some_of(&read, allowed) && is_some_of(&kept, allowed))
}

// Mends until it helps, at most twice.
fn mended(
    alloc: Global,
    journal: &mut Journal<MemoryDisk>,
    before: &[u8],
    after: &[u8],
) -> Result<bool, AllocError>
    ensures { IfOk result (λ good. IsTrue good → IsFalse (is_broken journal.new)) }
{
    if !opens(alloc, &journal.disk, &[before, after])? {
        return Ok(false);
    }
    if journal.mend().is_err() {
        if !opens(alloc, &journal.disk, &[before, after])? || journal.mend().is_err() {
            return Ok(false);
        }
    }
    opens(alloc, &journal.disk, &[before])
}

// Appends, and once more after a mend where the disk failed.
fn append_again(
    alloc: Global,
    journal: &mut Journal<MemoryDisk>,
    payload: &[u8],
    before: &[u8],
    after: &[u8],
) -> Result<bool, AllocError>
    requires size { IsPayload payload.now }
    requires whole { IsFalse (is_broken journal.old) }
    ensures { IfOk result (λ good. IsTrue good → IsFalse (is_broken journal.new)) }
{
    match journal.append(alloc, payload) {
        Ok(()) => opens(alloc, &journal.disk, &[after]),
        Err(AppendFault::Memory) => Ok(false),
        Err(AppendFault::Disk) => {
            if !mended(alloc, journal, before, after)? {
                return Ok(false);
            }
            if journal.append(alloc, payload).is_err() {
                return Ok(false);
            }
            opens(alloc, &journal.disk, &[after])
        }
    }
}

// Starts on an empty disk, and again where the disk failed, at most twice.
fn start_again(alloc: Global, failing: &[u64]) -> Result<Option<Journal<MemoryDisk>>, AllocError>
    ensures { IfOk result (λ j. IfSome j (λ j. IsFalse (is_broken j))) }
{
    let mut disk = MemoryDisk::new(Vec::new(alloc), Vec::from_slice(alloc, failing)?);
    for _ in 0..3 {
        match Journal::start(alloc, disk, DIGEST) {
            Ok((journal, _)) => return Ok(Some(journal)),
            Err((refused, _)) => {
                if !opens(alloc, &refused, &[b""])? {
                    return Ok(None);
                }
                disk = refused;
            }
        }
    }
    Ok(None)
}

// How many calls the script took; None where something stood that was not to.
fn script(alloc: Global, failing: &[u64]) -> Result<Option<usize>, AllocError> {
    let Some(mut journal) = start_again(alloc, failing)? else {
        return Ok(None);
    };
    if !append_again(alloc, &mut journal, b"one", b"", b"one ")? {
        return Ok(None);
    }
    if !append_again(alloc, &mut journal, b"two", b"one ", b"one two ")? {
        return Ok(None);
    }
    let disk = journal.end();
    if disk.starved() > 0 {
        return Ok(None);
    }
    Ok(Some(disk.calls().len()))
}

// The script takes 16 calls where none fails.
#[test]
fn one_call_or_two_in_a_row_fail(rt: HostRuntime) -> Result<(), Fail> {
    let alloc = rt.alloc();
    for k in 1..18 {
        for failing in [[k, 0], [k, k + 1]] {
            match script(alloc, &failing)? {
                Some(calls) => {
                    assert!(rt; (calls == 16) == (k > 16), "call {k}");
                }
                None => {
                    assert!(rt; false, "call {k}");
                }
            }
        }
    }
    Ok(())
}
