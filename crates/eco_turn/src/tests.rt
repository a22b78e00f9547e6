//! Passes add numbers under one turn.
mod adding;
mod numbers;

use crate::Turn;
use adding::{add_at, add_below_in_threads, finds_at};
use numbers::Numbers;
use std::test::Fail;

// Pass 1 adds 7, pass 2 adds 8, and pass 1 enters again and finds both.
#[test]
fn a_pass_finds_what_another_added(rt: HostRuntime) -> Result<(), Fail> {
    let Ok((turn, mut passes)) = Turn::new(rt.alloc(), Numbers::new(rt.alloc(), 5), 2) else {
        panic!(rt; "no memory")
    };
    add_at(&rt, &turn, &mut passes, 0, 7);
    add_at(&rt, &turn, &mut passes, 1, 8);
    let both = finds_at(&rt, &turn, &mut passes, 0, [(1, 7), (2, 8)].as_slice());
    let seen = (passes[0].seen(), passes[1].seen());
    let numbers = turn.close(passes);
    assert!(rt; both && seen == (2, 2));
    assert_eq!(rt; numbers.items.as_slice(), [(1, 7), (2, 8)].as_slice());
    assert_eq!(rt; numbers.label, 5);
    Ok(())
}

// Two threads with a pass each add the numbers 0 to 99.
#[test]
fn two_threads_add_each_in_its_order(rt: HostRuntime) -> Result<(), Fail> {
    let Ok((turn, mut passes)) = Turn::new(rt.alloc(), Numbers::new(rt.alloc(), 5), 2) else {
        panic!(rt; "no memory")
    };
    add_below_in_threads(&rt, &turn, passes.as_mut_slice(), 100);
    let numbers = turn.close(passes);
    let mut next = [0u64, 0];
    for (by, number) in numbers.items.as_slice() {
        let at = if *by == 1 { 0 } else { 1 };
        assert!(rt; *number == next[at] && next[at] < 100);
        next[at] += 1;
    }
    assert!(rt; next == [100, 100] && numbers.items.len() == 200);
    Ok(())
}
