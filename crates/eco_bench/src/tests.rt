//! A bench of ten words.
ghost use Rattle.std.specs.Prelude.{◌≡◌};

use crate::Bench;
use std::test::Fail;

// A worker's thread owns its bench.
fn sent<T: Send>(value: T) -> T
    ensures { result ≡ value }
{
    value
}

#[test]
fn spans_are_carved_and_ended(rt: HostRuntime) -> Result<(), Fail> {
    let mut bench = sent(Bench::new(rt.alloc(), 10)?);
    assert_eq!(rt; bench.room(), 10);
    let first = bench.carve(4);
    bench.set(first, 0, 7);
    bench.set(first, 1, 18446744073709551615);
    bench.set(first, 2, 0);
    bench.set(first, 3, 9);
    let mark = bench.mark();
    let second = bench.carve(6);
    assert_eq!(rt; (second.start(), second.len()), (4, 6));
    assert_eq!(rt; bench.room(), 0);
    bench.words_mut(second).fill(5);
    assert_eq!(rt; bench.get(second, 5), 5);
    bench.back(mark);
    assert_eq!(rt; bench.room(), 6);
    assert_eq!(rt;
        bench.words(first),
        [7u64, 18446744073709551615, 0, 9].as_slice()
    );
    Ok(())
}
